//! Registers clocked many times at once, and one clock undone.
ghost use Rattle.std.specs.Prelude.{◌≡◌, ℕ, ◌+◌, ◌-◌, ◌*◌, ◌/◌, ◌%◌, ◌^◌, ◌<◌, ◌≤◌, min};
ghost use Rattle.stream.specs.Bits.{first, packed, times};
ghost use Rattle.registers.specs.Registers.{Registers, held_by, next_by, initial_by, output_by};
ghost use Rattle.registers.specs.Words.{moved_by};

use crate::pair::{Clocked, Pair};
use crate::taps::Taps;
use crate::window::Window;

/// The lowest `m` bits of a word.
fn lowest(x: u64, m: u32) -> u64
    requires { m ≤ 32 }
    ensures { result ≡ x % 2 ^ m }
{
    x & ((1 << m) - 1)
}

/// The lowest `size` bits of a register.
fn kept(r: u128, size: u32) -> u128
    requires { size ≤ 128 }
    ensures { result ≡ r % 2 ^ size }
{
    if size < 128 { r & ((1 << size) - 1) } else { r }
}

/// A register of `size` bits moved down by `m`, with the lowest `m` bits of a word put last.
fn moved_by(r: u128, x: u64, size: u32, m: u32) -> u128
    requires some { 1 ≤ m }
    requires few { m ≤ 32 }
    requires inside { m ≤ size }
    requires fits { size ≤ 128 }
    ensures { result ≡ moved_by size m r x }
{
    kept(r, size) >> m | (lowest(x, m) as u128) << (size - m)
}

/// A register moved up by one, with the lowest bit of a word put first.
fn moved_up(r: u128, x: u64) -> u128
    ensures { result ≡ r % 2 ^ 127 * 2 + x % 2 }
{
    r << 1 | (x & 1) as u128
}

/// One bit of a register.
fn bit_at(r: u128, i: u32) -> u64
    requires { i < 128 }
    ensures { result ≡ r / 2 ^ i % 2 }
{
    (r >> i & 1) as u64
}

impl Pair {
    /// Clocks the registers by their taps and takes the output: the smallest of `n`, `stride` and the width of the taps.
    pub fn clocked<T: Taps>(self, taps: T, n: u32, stride: u32) -> Clocked
        ensures count { result.count ≡ min n (min stride (T.shape taps).width) }
        ensures drawn { let shape = T.shape taps in
            result.bits ≡ packed (first (min n (min stride shape.width)) (λ p. output_by shape (times p (next_by shape) (held_by shape self)))) }
        ensures moves { let shape = T.shape taps in
            held_by shape result.pair ≡ times (min n (min stride shape.width)) (next_by shape) (held_by shape self) }
    {
        let count = n.min(stride.min(taps.width()));
        if count == 0 {
            return Clocked {
                pair: self,
                bits: 0,
                count,
            };
        }
        let size = taps.size();
        let s = Window::from(self.linear);
        let b = Window::from(self.nonlinear);
        let z = lowest(taps.output(s, b), count);
        let linear = moved_by(self.linear, taps.linear(s, b), size, count);
        let nonlinear = moved_by(self.nonlinear, taps.nonlinear(s, b), size, count);
        Clocked {
            pair: Pair { linear, nonlinear },
            bits: z as u32,
            count,
        }
    }

    /// Clocks the registers `m` times, with the output added to both new bits.
    fn initialised_by<T: Taps>(self, taps: T, m: u32) -> Pair
        requires some { 1 ≤ m }
        requires at_once { m ≤ (T.shape taps).width }
        ensures { let shape = T.shape taps in held_by shape result ≡ times m (initial_by shape) (held_by shape self) }
    {
        let size = taps.size();
        let s = Window::from(self.linear);
        let b = Window::from(self.nonlinear);
        let z = taps.output(s, b);
        let linear = moved_by(self.linear, taps.linear(s, b) ^ z, size, m);
        let nonlinear = moved_by(self.nonlinear, taps.nonlinear(s, b) ^ z, size, m);
        Pair { linear, nonlinear }
    }

    /// Clocks the registers so many times, with the output added to both new bits at each clock.
    pub fn initialised<T: Taps>(self, taps: T, clocks: u32) -> Pair
        ensures { let shape = T.shape taps in held_by shape result ≡ times clocks (initial_by shape) (held_by shape self) }
    {
        let mut reached = self;
        for done in (0..clocks).step_by(taps.width() as usize) {
            reached = reached.initialised_by(taps, taps.width().min(clocks - done));
        }
        reached
    }

    /// Undoes one clock of the registers.
    pub fn undone<T: Taps>(self, taps: T) -> Pair
        ensures found { let shape = T.shape taps in next_by shape (held_by shape result) ≡ held_by shape self }
        ensures alone { let shape = T.shape taps in
            (t : Registers) → next_by shape t ≡ held_by shape self → held_by shape result ≡ t }
    {
        let top = taps.size() - 1;
        let s = Window::from(moved_up(self.linear, 0));
        let b = Window::from(moved_up(self.nonlinear, 0));
        let linear = moved_up(self.linear, taps.linear(s, b) ^ bit_at(self.linear, top));
        let lost = taps.nonlinear(Window::from(linear), b) ^ bit_at(self.nonlinear, top);
        let nonlinear = moved_up(self.nonlinear, lost);
        Pair { linear, nonlinear }
    }
}
