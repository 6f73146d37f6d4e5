//! The two mark stores over lent memory.
//!
//! Each has a function of its own for each call: a C program hands over octets or words, and what the memory holds afterwards
//! is a promise of the store, which the interface of all stores does not make.
ghost use Rattle.std.specs.Prelude.{◌≡◌, ◌<◌};
ghost use Rattle.strip.specs.Strips.{strip_mark, strip_left};
ghost use Rattle.strip.specs.Strips.{raised_by as strip_raised};
ghost use Rattle.column.specs.Columns.{column_mark, column_left};
ghost use Rattle.column.specs.Columns.{raised_by as column_raised};

use crate::answer::told;
use column::store::Column;
use marks::store::MarkStore;
use strip::strip::Strip;

/// The mark of the strip that a memory holds.
#[unsafe(no_mangle)]
pub extern "C" fn speed_strip_read(memory: &mut [u8]) -> u32
    ensures answer { result ≡ strip_mark memory.old }
    ensures memory { memory.new ≡ memory.old }
{
    Strip::new(memory).read()
}

/// Raises the strip that a memory holds. Answers 0, or 10 where no raise is left; nothing changes then.
#[unsafe(no_mangle)]
pub extern "C" fn speed_strip_raise(memory: &mut [u8]) -> u32
    ensures raised { result ≡ 0 → (0 < strip_left memory.old) × (memory.new ≡ strip_raised 1 memory.old) }
    ensures refused { 0 < result → (result ≡ 10) × (strip_left memory.old ≡ 0) × (memory.new ≡ memory.old) }
{
    told(Strip::new(memory).raise())
}

/// The mark of the column that a memory holds.
#[unsafe(no_mangle)]
pub extern "C" fn speed_column_read(memory: &mut [u32]) -> u32
    ensures answer { result ≡ column_mark memory.old }
    ensures memory { memory.new ≡ memory.old }
{
    Column::new(memory).read()
}

/// Raises the column that a memory holds. Answers 0, or 10 where no raise is left; nothing changes then.
#[unsafe(no_mangle)]
pub extern "C" fn speed_column_raise(memory: &mut [u32]) -> u32
    ensures raised { result ≡ 0 → (0 < column_left memory.old) × (memory.new ≡ column_raised 1 memory.old) }
    ensures refused { 0 < result → (result ≡ 10) × (column_left memory.old ≡ 0) × (memory.new ≡ memory.old) }
{
    told(Column::new(memory).raise())
}
