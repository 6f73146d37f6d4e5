//! The strip: a mark store over lent octets.
ghost use Rattle.std.specs.Prelude.{◌≡◌, ◌<◌, ◌≤◌, length, All, if◌then◌else◌, MatchResult};
ghost use Rattle.marks.specs.Stores.{Raised, Torn, Granted};
ghost use Rattle.stream.specs.Refusals.{number};
ghost use Rattle.strip.specs.Strips.{used, strip_mark, strip_left, lowered, raised_by, writes_made};
ghost use Rattle.strip.specs.Bounds.{strip_bound};
ghost use Rattle.strip.specs.Memories.{memory, mark_in, left_in};
ghost use Rattle.strip.specs.Places.{FirstSet, AllClear};

use marks::store::MarkStore;
use stream::refusal::Refusal;

/// How many octets of its memory a strip uses at most.
pub const MOST_OCTETS: usize = 4096;

/// How many writes a raise of a strip makes.
pub const WRITES: u32 = 1;

/// A mark store over lent octets, FF hex when fresh, of which at most the first 4,096 are used.
///
/// The mark counts the zero bits of the used octets, the raises left count their one bits. Whatever stands in the memory means a strip.
// That a call keeps the lent memory is one equation in each contract, `place`: a definition would say it no shorter.
#[derive(Drop)]
pub struct Strip<'a> {
    octets: &'a mut [u8],
}

impl<'a> Strip<'a> {
    /// The strip that a memory holds.
    pub fn new(octets: &'a mut [u8]) -> Self
        ensures holds { memory result ≡ octets.old }
        ensures place { result.octets.ghost_name ≡ octets.entry.ghost_name }
    {
        Strip { octets }
    }
}

impl MarkStore for Strip<'_> {
    ghost mark = { mark_in };

    ghost left = { left_in };

    ghost writes = { 1 };

    ghost bound = { λ s. strip_bound (memory s) };

    /// How many bits of the used octets are 0.
    fn read(&self) -> u32 {
        let octets = used_octets(self.octets);
        octets.iter().map(|octet| octet.count_zeros()).sum()
    }

    /// How many bits of the used octets are 1.
    fn raises_left(&self) -> u32 {
        let octets = used_octets(self.octets);
        octets.iter().map(|octet| octet.count_ones()).sum()
    }

    /// Clears the lowest one bit of the first used octet that has any. Refused with 10 when no bit is left to clear, and only then.
    fn raise(&mut self) -> Result<(), Refusal>
        ensures granted { Granted left_in self.old self.new (Raised mark_in left_in self.old self.new) result }
        ensures exact { MatchResult result (λ _. memory self.new ≡ raised_by 1 (memory self.old)) (λ _. memory self.new ≡ memory self.old) }
        ensures place { self.new.octets.ghost_name ≡ self.old.octets.ghost_name }
    {
        clear_lowest(self.octets, true)
    }

    /// A raise in which the power fails: before its write, which then clears its bit exactly when `junk` is odd, or after it.
    fn torn_raise(&mut self, writes_done: u32, junk: u32) -> Result<(), Refusal>
        ensures granted { Granted left_in self.old self.new (Torn mark_in left_in 1 writes_done self.old self.new) result }
        ensures exact { MatchResult result (λ _. memory self.new ≡ raised_by (writes_made 1 writes_done junk) (memory self.old)) (λ _. memory self.new ≡ memory self.old) }
        ensures place { self.new.octets.ghost_name ≡ self.old.octets.ghost_name }
    {
        let written = writes_done >= WRITES || junk % 2 == 1;
        clear_lowest(self.octets, written)
    }
}

// The octets of a memory that a strip uses.
fn used_octets(octets: &[u8]) -> &[u8]
    ensures front { result.now ≡ used octets.now }
    ensures few { length result.now ≤ 4096 }
    ensures octets { All (λ x. x < 256) result.now }
{
    &octets[..MOST_OCTETS.min(octets.len())]
}

// Where the first used octet stands that has a one bit. Refused with 10 when no used octet has any, and only then.
fn first_set(octets: &[u8]) -> Result<usize, Refusal>
    ensures { MatchResult result (FirstSet (used octets.now)) (λ e. (number e ≡ 10) × AllClear (used octets.now)) }
{
    used_octets(octets)
        .iter()
        .position(|octet| *octet > 0)
        .ok_or(Refusal::NoRaiseLeft)
}

// The one write of a raise: clears the lowest one bit of the first used octet that has any, if the write goes through.
// Refused with 10 when no used octet has a one bit, and only then; nothing changes then.
// `written` stays a parameter: a raise and a torn raise search and refuse alike, and two functions would say that twice.
fn clear_lowest(octets: &mut [u8], written: bool) -> Result<(), Refusal>
    ensures { Granted strip_left octets.old octets.new (octets.new ≡ raised_by (if written then 1 else 0) octets.old) result }
{
    let place = first_set(octets)?;
    let octet = octets[place];
    if written {
        octets[place] = without_lowest(octet);
    }
    Ok(())
}

// An octet with its lowest one bit cleared.
fn without_lowest(octet: u8) -> u8
    requires { 0 < octet }
    ensures { result ≡ lowered octet }
{
    octet & (octet - 1)
}
