//! The column as a mark store.
ghost use Rattle.std.specs.Prelude.{◌≡◌, MatchResult};
ghost use Rattle.marks.specs.Stores.{Granted, Raised, Torn};
ghost use Rattle.column.specs.Bounds.{column_bound};
ghost use Rattle.column.specs.Columns.{raised_by, torn_by};
ghost use Rattle.column.specs.Held.{held, held_mark, held_left};

use crate::words;
use marks::store::MarkStore;
use stream::refusal::Refusal;

/// A mark store in lent memory: 32-bit words in pairs, of which at most the first 8,192 words are used. An odd last word is ignored.
// That a call keeps the lent memory is one equation in each contract, `lender`: a definition would say it no shorter.
#[derive(Drop)]
pub struct Column<'a> {
    words: &'a mut [u32],
}

impl<'a> Column<'a> {
    /// The column that this memory holds.
    pub fn new(words: &'a mut [u32]) -> Self
        ensures memory { held result ≡ words.old }
        ensures lender { result.words.ghost_name ≡ words.entry.ghost_name }
    {
        Column { words }
    }
}

/// The mark and the raises left are those of the memory. Words that are not used stay as they are.
impl MarkStore for Column<'_> {
    ghost mark = { held_mark };

    ghost left = { held_left };

    ghost writes = { 2 };

    ghost bound = { λ s. column_bound (held s) };

    fn read(&self) -> u32 {
        words::mark(self.words)
    }

    fn raises_left(&self) -> u32 {
        words::raises_left(self.words)
    }

    fn raise(&mut self) -> Result<(), Refusal>
        ensures granted { Granted held_left self.old self.new (Raised held_mark held_left self.old self.new) result }
        ensures exact { MatchResult result (λ _. held self.new ≡ raised_by 1 (held self.old)) (λ _. held self.new ≡ held self.old) }
        ensures lender { self.new.words.ghost_name ≡ self.old.words.ghost_name }
    {
        words::raise(self.words)
    }

    fn torn_raise(&mut self, writes_done: u32, junk: u32) -> Result<(), Refusal>
        ensures granted { Granted held_left self.old self.new (Torn held_mark held_left 2 writes_done self.old self.new) result }
        ensures exact { MatchResult result (λ _. held self.new ≡ torn_by 1 writes_done junk (held self.old)) (λ _. held self.new ≡ held self.old) }
        ensures lender { self.new.words.ghost_name ≡ self.old.words.ghost_name }
    {
        words::torn_raise(self.words, writes_done, junk)
    }
}
