//! The interface of a mark store.
ghost use Rattle.std.specs.Prelude.{◌≡◌, ℕ, ◌+◌, ◌≤◌};
ghost use Rattle.marks.specs.Stores.{Raised, Torn, Granted, largest_mark};

use stream::refusal::Refusal;

/// A memory that keeps a mark over a loss of power.
///
/// It means two numbers, its mark and its raises left. A sender takes the mark as its session number and raises it before it sends.
pub trait MarkStore {
    ghost mark: { Self → ℕ };

    ghost left: { Self → ℕ };

    // how many writes a raise makes
    ghost writes: { ℕ };

    ghost bound: { (s : Self) → mark s + left s ≤ largest_mark };

    /// The mark.
    fn read(&self) -> u32
        ensures { result ≡ mark self.now };

    /// How many raises are left.
    fn raises_left(&self) -> u32
        ensures { result ≡ left self.now };

    /// Raises the mark by one; one raise less is left then. Refused with 10 when no raise is left, and only then; nothing changes then.
    fn raise(&mut self) -> Result<(), Refusal>
        ensures { Granted left self.old self.new (Raised mark left self.old self.new) result };

    /// A raise in which the power fails after the first `writes_done` of its writes, and leaves `junk` where it was writing.
    /// It is refused as a raise is. Else the mark is as it was or raised, and raised for certain where all writes went through.
    fn torn_raise(&mut self, writes_done: u32, junk: u32) -> Result<(), Refusal>
        ensures { Granted left self.old self.new (Torn mark left writes writes_done self.old self.new) result };
}
