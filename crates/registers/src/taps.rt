//! What a pair of registers is by: its length, its feedbacks and its output.
ghost use Rattle.std.specs.Prelude.{◌≡◌};
ghost use Rattle.registers.specs.Registers.{Shape};
ghost use Rattle.registers.specs.Words.{word};

use crate::window::Window;

// The two windows stay two parameters: a tap then reads as in the ciphers' public descriptions, s for the linear register and b for the nonlinear one.

/// The feedbacks and the output of a pair of registers, worked out for up to 32 clocks at once.
pub trait Taps: Copy {
    ghost shape: { Self → Shape };

    /// The length of each register in bits.
    fn size(self) -> u32
        ensures { result ≡ (shape self).size };

    /// How many clocks may be worked out at once.
    fn width(self) -> u32
        ensures { result ≡ (shape self).width };

    /// The new bits of the linear register.
    fn linear(self, s: Window, b: Window) -> u64
        ensures { result ≡ word s b (shape self).linear };

    /// The new bits of the nonlinear register.
    fn nonlinear(self, s: Window, b: Window) -> u64
        ensures { result ≡ word s b (shape self).nonlinear };

    /// The output bits.
    fn output(self, s: Window, b: Window) -> u64
        ensures { result ≡ word s b (shape self).output };
}
