//! The two ciphers of the family: their feedbacks and outputs, in the order of their definitions, and what else is their own.
ghost use Rattle.std.specs.Prelude.{◌≡◌, ℕ};
ghost use Rattle.stream.specs.Bits.{bits};
ghost use Rattle.registers.specs.Words.{word};
ghost use Rattle.grain128.specs.Family.{Member};
ghost use Rattle.grain128.specs.Grain128.{member as grain128-member, tail_whole};
ghost use Rattle.grain128.specs.Grain128a.{member as grain128a-member, tail_but_last};

use registers::octets::bit_of;
use registers::window::Window;
use registers::{high, low, middle};

/// What a cipher of the family has of its own.
pub trait Version: Copy {
    ghost member: { Member };

    ghost TAIL: { ℕ };

    /// What fills the linear register after the IV, its first bit lowest.
    const TAIL: u32;

    /// The new bits of the nonlinear register.
    fn nonlinear(s: Window, b: Window) -> u64
        ensures { result ≡ word s b member.nonlinear };

    /// The output bits.
    fn output(s: Window, b: Window) -> u64
        ensures { result ≡ word s b member.output };

    /// Whether an IV has a bit that must be 0 and is not.
    fn forbids(iv: &[u8]) -> bool
        ensures { result ≡ member.forbids iv.now };

    ghost tail_is: { bits 32 TAIL ≡ member.tail };
}

/// Grain-128.
#[derive(Clone, Copy)]
pub struct Version128;

/// Grain-128a without authentication.
#[derive(Clone, Copy)]
pub struct Version128a;

/// The new bits of the nonlinear register in Grain-128, with which those in Grain-128a begin.
macro_rules! nonlinear_bits {
    ($s:ident, $b:ident) => {
        low!($s, 0)
            ^ low!($b, 0)
            ^ low!($b, 26)
            ^ middle!($b, 56)
            ^ high!($b, 91)
            ^ high!($b, 96)
            ^ low!($b, 3) & high!($b, 67)
            ^ low!($b, 11) & low!($b, 13)
            ^ low!($b, 17) & low!($b, 18)
            ^ low!($b, 27) & middle!($b, 59)
            ^ middle!($b, 40) & middle!($b, 48)
            ^ middle!($b, 61) & high!($b, 65)
            ^ high!($b, 68) & high!($b, 84)
    };
}

/// The output bits of both ciphers, but for the last product.
macro_rules! output_bits {
    ($s:ident, $b:ident) => {
        low!($b, 2)
            ^ low!($b, 15)
            ^ middle!($b, 36)
            ^ middle!($b, 45)
            ^ middle!($b, 64)
            ^ high!($b, 73)
            ^ high!($b, 89)
            ^ high!($s, 93)
            ^ low!($b, 12) & low!($s, 8)
            ^ low!($s, 13) & low!($s, 20)
            ^ high!($b, 95) & middle!($s, 42)
            ^ middle!($s, 60) & high!($s, 79)
    };
}

impl Version for Version128 {
    ghost member = { grain128-member };

    ghost TAIL = { 0xffff_ffff };

    ghost tail_is = { tail_whole };

    const TAIL: u32 = 0xffff_ffff;

    fn nonlinear(s: Window, b: Window) -> u64 {
        nonlinear_bits!(s, b)
    }

    fn output(s: Window, b: Window) -> u64 {
        output_bits!(s, b) ^ low!(b, 12) & high!(b, 95) & high!(s, 95)
    }

    fn forbids(_iv: &[u8]) -> bool {
        false
    }
}

impl Version for Version128a {
    ghost member = { grain128a-member };

    ghost TAIL = { 0x7fff_ffff };

    ghost tail_is = { tail_but_last };

    const TAIL: u32 = 0x7fff_ffff;

    fn nonlinear(s: Window, b: Window) -> u64 {
        nonlinear_bits!(s, b)
            ^ high!(b, 88) & high!(b, 92) & high!(b, 93) & high!(b, 95)
            ^ low!(b, 22) & low!(b, 24) & low!(b, 25)
            ^ high!(b, 70) & high!(b, 78) & high!(b, 82)
    }

    fn output(s: Window, b: Window) -> u64 {
        output_bits!(s, b) ^ low!(b, 12) & high!(b, 95) & high!(s, 94)
    }

    fn forbids(iv: &[u8]) -> bool {
        bit_of(iv, 0)
    }
}
