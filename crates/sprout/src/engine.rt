//! The engine.
ghost use Rattle.std.specs.Prelude.{◌≡◌, length, refl};
ghost use Rattle.stream.specs.Bits.{times};
ghost use Rattle.sprout.specs.Sprout.{initial, loaded, sprout, state_of};

use crate::counter::Counter;
use crate::round::Round;
use registers::octets::{bit_of, number_of};
use registers::pair::Pair;
use stream::engine::{Engine, Reversible};
use stream::refusal::Refusal;

/// Sprout, one bit to a draw.
#[derive(Drop)]
pub struct Sprout {
    pair: Pair,
    key: u128,
    counter: Counter,
}

impl Sprout {
    /// An engine that has not been loaded: the registers and the key hold zeros, and the counter stands at 0.
    pub fn new() -> Self
        ensures linear { result.pair.linear ≡ 0 }
        ensures nonlinear { result.pair.nonlinear ≡ 0 }
        ensures key { result.key ≡ 0 }
        ensures counter { result.counter ≡ 0 }
    {
        Sprout {
            pair: Pair {
                linear: 0,
                nonlinear: 0,
            },
            key: 0,
            counter: Counter::new(),
        }
    }

    /// One clock of the initialisation.
    fn initialise_once(&mut self, early: bool)
        ensures { state_of self.new ≡ initial early (state_of self.old) }
    {
        self.pair = self
            .pair
            .initialised(Round::at(self.counter, self.key, early), 1);
        self.counter = self.counter.next();
    }

    /// So many clocks of the initialisation.
    fn initialise(&mut self, early: bool, clocks: u32)
        ensures { state_of self.new ≡ times clocks (initial early) (state_of self.old) }
    {
        for _ in 0..clocks {
            self.initialise_once(early);
        }
    }
}

/// The engine before initialisation.
fn filled(key: &[u8], iv: &[u8]) -> Sprout
    requires key { length key.now ≡ 10 }
    requires iv { length iv.now ≡ 9 }
    ensures { state_of result ≡ loaded key.now iv.now }
{
    let number = number_of(iv);
    Sprout {
        pair: Pair {
            linear: number >> 40 & 0x3fff_ffff | 0x1ff << 30,
            nonlinear: number,
        },
        key: number_of(key),
        counter: Counter::new(),
    }
}

impl Engine for Sprout {
    ghost cipher = { sprout };

    ghost state = { state_of };

    ghost KEY_OCTETS = { 10 };

    ghost IV_OCTETS = { 9 };

    ghost LABEL_OCTETS = { 5 };

    ghost STRIDE = { 1 };

    ghost CEILING = { 131072 };

    ghost constants = { refl };

    const KEY_OCTETS: usize = 10;

    const IV_OCTETS: usize = 9;

    const LABEL_OCTETS: usize = 5;

    const STRIDE: u32 = 1;

    const CEILING: u32 = 131_072;

    fn check(key: &[u8], iv: &[u8]) -> Result<(), Refusal> {
        Self::figures().check_load(key, iv, bit_of(iv, 70) || bit_of(iv, 71))
    }

    fn load(&mut self, key: &[u8], iv: &[u8]) -> Result<(), Refusal> {
        Self::check(key, iv)?;
        let mut loading = filled(key, iv);
        loading.initialise(true, 80);
        loading.initialise(false, 240);
        *self = loading;
        Ok(())
    }

    fn draw(&mut self, n: u32) -> (u32, u32) {
        if n == 0 {
            return (0, 0);
        }
        let drawn = self
            .pair
            .clocked(Round::at(self.counter, self.key, false), 1, Self::STRIDE);
        self.pair = drawn.pair;
        self.counter = self.counter.next();
        (drawn.bits, drawn.count)
    }
}

impl Reversible for Sprout {
    fn back(&mut self)
        ensures alone { (t : sprout.State) → sprout.next t ≡ state_of self.old → state_of self.new ≡ t }
        ensures found { sprout.next (state_of self.new) ≡ state_of self.old }
    {
        let counter = self.counter.previous();
        self.pair = self.pair.undone(Round::at(counter, self.key, false));
        self.counter = counter;
    }
}
