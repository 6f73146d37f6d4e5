//! The feedbacks and the output of one clock.
ghost use Rattle.std.specs.Prelude.{◌≡◌, false, slice_index_or};
ghost use Rattle.stream.specs.Bits.{bit, bits};
ghost use Rattle.registers.specs.Words.{filled, word};
ghost use Rattle.sprout.specs.Sprout.{shape as shape_of, round_key};

use crate::counter::Counter;
use registers::taps::Taps;
use registers::window::Window;
use registers::{high, low, middle};

/// The taps at one clock, by what the key and the counter give to it.
#[derive(Clone, Copy)]
pub struct Round {
    /// Whether it is one of the first 80 clocks after loading, whose round key is the key's bit alone.
    // a flag and no closure for the round key: the two cases read as in the public description
    pub early: bool,
    /// The key's bit at the counter.
    pub key_bit: bool,
    /// Bit 4 of the counter.
    pub counter_bit: bool,
}

/// A word of one bit.
fn word_of(bit: bool) -> u64
    ensures { result ≡ filled bit }
{
    if bit { 0xffff_ffff_ffff_ffff } else { 0 }
}

impl Round {
    /// The taps at the clock that a counter stands at, by the key.
    pub(crate) fn at(counter: Counter, key: u128, early: bool) -> Self
        ensures early { result.early ≡ early }
        ensures key_bit { result.key_bit ≡ slice_index_or (bits 80 key) counter false }
        ensures counter_bit { result.counter_bit ≡ bit counter 4 }
    {
        Round {
            early,
            key_bit: counter.bit_of(key),
            counter_bit: counter.bit_4(),
        }
    }

    /// The round key.
    fn key_word(self, s: Window, b: Window) -> u64
        ensures { result ≡ word s b (round_key self.early self.key_bit) }
    {
        let key = word_of(self.key_bit);
        if self.early {
            key
        } else {
            key & (low!(s, 4)
                ^ low!(s, 21)
                ^ middle!(s, 37)
                ^ low!(b, 9)
                ^ low!(b, 20)
                ^ low!(b, 29))
        }
    }
}

impl Taps for Round {
    ghost shape = { λ r. shape_of r.early r.key_bit r.counter_bit };

    fn size(self) -> u32 {
        40
    }

    fn width(self) -> u32 {
        1
    }

    fn linear(self, s: Window, _b: Window) -> u64 {
        low!(s, 0) ^ low!(s, 5) ^ low!(s, 15) ^ low!(s, 20) ^ low!(s, 25) ^ middle!(s, 34)
    }

    fn nonlinear(self, s: Window, b: Window) -> u64 {
        self.key_word(s, b)
            ^ low!(s, 0)
            ^ word_of(self.counter_bit)
            ^ low!(b, 0)
            ^ low!(b, 13)
            ^ low!(b, 19)
            ^ middle!(b, 35)
            ^ middle!(b, 39)
            ^ low!(b, 2) & low!(b, 25)
            ^ low!(b, 3) & low!(b, 5)
            ^ low!(b, 7) & low!(b, 8)
            ^ low!(b, 14) & low!(b, 21)
            ^ low!(b, 16) & low!(b, 18)
            ^ low!(b, 22) & low!(b, 24)
            ^ low!(b, 26) & low!(b, 32)
            ^ middle!(b, 33) & middle!(b, 36) & middle!(b, 37) & middle!(b, 38)
            ^ low!(b, 10) & low!(b, 11) & low!(b, 12)
            ^ low!(b, 27) & low!(b, 30) & low!(b, 31)
    }

    fn output(self, s: Window, b: Window) -> u64 {
        low!(b, 1)
            ^ low!(b, 6)
            ^ low!(b, 15)
            ^ low!(b, 17)
            ^ low!(b, 23)
            ^ low!(b, 28)
            ^ middle!(b, 34)
            ^ low!(s, 30)
            ^ low!(b, 4) & low!(s, 6)
            ^ low!(s, 8) & low!(s, 10)
            ^ low!(s, 32) & low!(s, 17)
            ^ low!(s, 19) & low!(s, 23)
            ^ low!(b, 4) & low!(s, 32) & middle!(b, 38)
    }
}
