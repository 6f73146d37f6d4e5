//! What can be done with any engine: take bits, cover octets, move forward and back.
ghost use Rattle.std.specs.Prelude.{◌≡◌, ℕ, ◌*◌, ◌/◌, ◌%◌, ◌^◌, ◌<◌, min, length, bit_xor, slice_index};
ghost use Rattle.stream.specs.Bits.{packed};
ghost use Rattle.stream.specs.Ciphers.{later, stream};
ghost use Rattle.stream.specs.Ciphers.{cover as covering};

use crate::engine::{Engine, Reversible};

/// The next bits of an engine at any stride, packed first bit lowest: as many as the smaller of `n` and 32.
/// The engine moves on by as many states.
pub fn take_bits<E: Engine>(engine: &mut E, n: u32) -> u32
    ensures taken { result ≡ packed (stream E.cipher (min n 32) (E.state engine.old)) }
    ensures moves { E.state engine.new ≡ later E.cipher (min n 32) (E.state engine.old) }
{
    let wanted = n.min(32);
    let mut have = 0u32;
    let mut word = 0u32;
    // no `for`: each draw says how many bits it gave
    while have < wanted {
        let (bits, count) = engine.draw(wanted - have);
        word |= bits << have;
        have += count;
    }
    word
}

// Adds the octets of a word to octets, the lowest to the first. Octets past the fourth stay as they are.
fn mix(octets: &mut [u8], word: u32)
    ensures { (i : ℕ) → i < length octets.old
        → slice_index octets.new i ≡ bit_xor (slice_index octets.old i) (word / 2 ^ (8 * i) % 256) }
{
    let mut rest = word;
    // no zip with the word's octets: a proof knows no element that a zip with `iter_mut` lent once its loop is over
    for x in octets.iter_mut() {
        *x ^= (rest & 0xff) as u8;
        rest >>= 8;
    }
}

/// Covers octets in place with the keystream from the engine's present state. The engine moves on by eight states an octet.
/// Covering once more from the same state uncovers them.
pub fn cover<E: Engine>(engine: &mut E, octets: &mut [u8])
    ensures covered { octets.new ≡ covering E.cipher (E.state engine.old) octets.old }
    ensures moves { E.state engine.new ≡ later E.cipher (8 * length octets.old) (E.state engine.old) }
{
    let mut done = 0;
    // by hand: tried with `chunks_mut(4)`, of which a proof knows no element once the loop is over; a `for` over the words
    // is no plainer, as it needs the start and the size of each too, and takes 7 to 15 in 100 more instructions at stride 32
    while done < octets.len() {
        let count = (octets.len() - done).min(4);
        let word = take_bits(engine, 8 * count as u32);
        mix(&mut octets[done..done + count], word);
        done += count;
    }
}

/// Moves an engine forward by the states of that many octets, eight an octet.
pub fn forward<E: Engine>(engine: &mut E, octets: u32)
    ensures { E.state engine.new ≡ later E.cipher (8 * octets) (E.state engine.old) }
{
    let mut left = 8 * octets as u64;
    // no `for`: each draw says how many states it moved on by
    while left > 0 {
        let (_, count) = engine.draw(left.min(32) as u32);
        left -= count as u64;
    }
}

/// Moves an engine back by the states of that many octets, eight an octet:
/// where the state found stands so far after some state, the engine is left in that state.
pub fn backward<E: Reversible>(engine: &mut E, octets: u32)
    ensures { (t : E.Engine.cipher.State)
        → later E.Engine.cipher (8 * octets) t ≡ E.Engine.state engine.old
        → E.Engine.state engine.new ≡ t }
{
    for _ in 0..8 * octets as u64 {
        engine.back();
    }
}
