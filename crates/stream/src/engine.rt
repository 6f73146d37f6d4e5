//! The two interfaces of an engine.
ghost use Rattle.std.specs.Prelude.{◌≡◌, ℕ, min, Some, None, MatchResult};
ghost use Rattle.stream.specs.Bits.{packed};
ghost use Rattle.stream.specs.Ciphers.{Cipher, later, stream, load_refusal};
ghost use Rattle.stream.specs.Refusals.{Checked, number};

use crate::figures::Figures;
use crate::refusal::Refusal;

/// A keystream generator that can be loaded and drawn from.
// A key and an IV stay two parameters of each call, as the rules name them.
pub trait Engine {
    ghost cipher: { Cipher };

    ghost state: { Self → cipher.State };

    ghost KEY_OCTETS: { ℕ };

    ghost IV_OCTETS: { ℕ };

    ghost LABEL_OCTETS: { ℕ };

    ghost STRIDE: { ℕ };

    ghost CEILING: { ℕ };

    // the five constants are the cipher's figures
    ghost constants: { cipher.figures ≡ record { key = KEY_OCTETS; iv = IV_OCTETS; label = LABEL_OCTETS; stride = STRIDE; ceiling = CEILING } };

    /// Octets of a key.
    const KEY_OCTETS: usize;
    /// Octets of an IV.
    const IV_OCTETS: usize;
    /// Octets of a label.
    const LABEL_OCTETS: usize;
    /// The most bits that one draw gives.
    const STRIDE: u32;
    /// The most octets that one session may cover.
    const CEILING: u32;

    /// The figures of the cipher at this engine's stride: the five constants.
    fn figures() -> Figures
        ensures { result ≡ cipher.figures }
    {
        Figures {
            key: Self::KEY_OCTETS,
            iv: Self::IV_OCTETS,
            label: Self::LABEL_OCTETS,
            stride: Self::STRIDE,
            ceiling: Self::CEILING,
        }
    }

    /// Whether `load` would accept a key and an IV, and else the refusal that it would answer; nothing is loaded.
    fn check(key: &[u8], iv: &[u8]) -> Result<(), Refusal>
        ensures { Checked (load_refusal cipher key.now iv.now) result };

    /// Sets the start state for a key and an IV. Refused with 1, 2 or 3, the first that applies, it leaves the engine as it was.
    fn load(&mut self, key: &[u8], iv: &[u8]) -> Result<(), Refusal>
        ensures { MatchResult result
            (λ _. (load_refusal cipher key.now iv.now ≡ None)
            × (state self.new ≡ cipher.start key.now iv.now))
            (λ e. (load_refusal cipher key.now iv.now ≡ Some (number e))
            × (self.new ≡ self.old)) };

    /// The next bits, packed first bit lowest, and how many they are: the smaller of `n` and the stride.
    /// The engine moves on by that many states.
    fn draw(&mut self, n: u32) -> (u32, u32)
        ensures count { result.1 ≡ min n cipher.figures.stride }
        ensures drawn { result.0 ≡ packed (stream cipher (min n cipher.figures.stride) (state self.old)) }
        ensures moves { state self.new ≡ later cipher (min n cipher.figures.stride) (state self.old) };
}

/// An engine that can also step back.
pub trait Reversible: Engine {
    /// Steps back by one state: where the state found is the next of some state, that state is left.
    fn back(&mut self)
        ensures { (t : Self.Engine.cipher.State)
            → Self.Engine.cipher.next t ≡ Self.Engine.state self.old
            → Self.Engine.state self.new ≡ t };
}
