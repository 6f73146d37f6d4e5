//! What the words of a column mean, and how a raise changes them.
ghost use Rattle.std.specs.Prelude.{◌≡◌, ◌+◌, ◌<◌, ◌≤◌, ◌*◌, length, MatchResult};
ghost use Rattle.stream.specs.Refusals.{number};
ghost use Rattle.marks.specs.Stores.{Granted, Raised, Torn};
ghost use Rattle.column.specs.Columns.{used, counts, blank, column_mark, column_left, raised_by, torn_by};
ghost use Rattle.column.specs.Scans.{pairs, Scanned, Vacant};

use stream::refusal::Refusal;

// the most words that a column uses
const USED_WORDS: usize = 8192;

// every bit of a word
const ALL_ONES: u32 = 0xFFFF_FFFF;

// what a scan finds: the mark, how many pairs are blank, and which of the pairs is the first blank one
#[derive(Clone, Copy)]
struct Findings {
    mark: u32,
    blanks: u32,
    first_blank: Option<usize>,
}

// where a raise writes, and the mark that it writes there
#[derive(Clone, Copy)]
struct Slot {
    at: usize,
    mark: u32,
}

// Whether a pair counts: its second word is the complement of its first.
fn counted(first: u32, second: u32) -> bool
    ensures { result ≡ counts first second }
{
    second == !first
}

// Whether a pair is blank.
fn erased(first: u32, second: u32) -> bool
    ensures { result ≡ blank first second }
{
    first == ALL_ONES && second == ALL_ONES
}

// The pairs of words that a column uses; an odd last word is in none.
fn used_pairs(words: &[u32]) -> &[[u32; 2]]
    ensures value { result.now ≡ pairs (used words.now) }
    ensures few { length result.now ≤ 4096 }
{
    let (pairs, _) = words[..USED_WORDS.min(words.len())].as_chunks::<2>();
    pairs
}

// What the words of a memory hold. One loop and not a chain for each finding: a read passes over the memory once.
fn scan(words: &[u32]) -> Findings
    ensures { Scanned words.now result.mark result.blanks result.first_blank }
{
    let mut mark = 0u32;
    let mut blanks = 0u32;
    let mut first_blank = None;
    for (i, &[first, second]) in used_pairs(words).iter().enumerate() {
        if counted(first, second) {
            mark = mark.max(first);
        }
        if erased(first, second) {
            first_blank = first_blank.or(Some(i));
            blanks += 1;
        }
    }
    Findings {
        mark,
        blanks,
        first_blank,
    }
}

// Where a raise writes, and what; refused with 10 when no raise is left.
fn next_slot(words: &[u32]) -> Result<Slot, Refusal>
    ensures { MatchResult result (λ slot. (0 < column_left words.now) × (slot.mark ≡ column_mark words.now + 1) × Vacant words.now slot.at) (λ e. (number e ≡ 10) × (column_left words.now ≡ 0)) }
{
    let found = scan(words);
    let pair = found.first_blank.ok_or(Refusal::NoRaiseLeft)?;
    let mark = found.mark.checked_add(1).ok_or(Refusal::NoRaiseLeft)?;
    Ok(Slot { at: 2 * pair, mark })
}

/// The mark: the largest first word of a pair that counts, or 0.
pub fn mark(words: &[u32]) -> u32
    ensures { result ≡ column_mark words.now }
{
    scan(words).mark
}

/// How many raises are left: the smaller of the number of blank pairs and 4,294,967,295 less the mark.
pub fn raises_left(words: &[u32]) -> u32
    ensures { result ≡ column_left words.now }
{
    let found = scan(words);
    found.blanks.min(ALL_ONES - found.mark)
}

/// Raises the mark by one: writes it in the first word of the first blank pair, then its complement in the second.
/// Refused with 10 when no raise is left, and only then; nothing changes then.
pub fn raise(words: &mut [u32]) -> Result<(), Refusal>
    ensures { Granted column_left words.old words.new ((words.new ≡ raised_by 1 words.old) × Raised column_mark column_left words.old words.new) result }
{
    let slot = next_slot(words)?;
    words[slot.at] = slot.mark;
    words[slot.at + 1] = !slot.mark;
    Ok(())
}

// Each branch writes its own words, though the last writes those of a raise: so the order of the writes stands in the code.
/// A raise in which the power fails after the first `writes_done` of its two writes, and leaves `junk` where it was writing.
/// It is refused as a raise is.
pub fn torn_raise(words: &mut [u32], writes_done: u32, junk: u32) -> Result<(), Refusal>
    ensures { Granted column_left words.old words.new ((words.new ≡ torn_by 1 writes_done junk words.old) × Torn column_mark column_left 2 writes_done words.old words.new) result }
{
    let torn = next_slot(words)?;
    match writes_done {
        0 => words[torn.at] = junk,
        1 => {
            words[torn.at] = torn.mark;
            words[torn.at + 1] = junk;
        }
        _ => {
            words[torn.at] = torn.mark;
            words[torn.at + 1] = !torn.mark;
        }
    }
    Ok(())
}
