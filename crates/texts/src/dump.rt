//! Octets written out as text.
ghost use Rattle.std.specs.Prelude.{◌≡◌, ◌+◌, ◌<◌, ◌≤◌, ◌++◌, All, length, take, Some, IfOk, string_bytes};
ghost use Rattle.std.specs.Char.{digit_char};
ghost use Rattle.std.specs.List.{flat_map};
ghost use Rattle.texts.specs.Hex.{HexOf};
ghost use Rattle.texts.specs.Dump.{hex_pair, piece, hex_digits, dump_line, dump_text};

use std::alloc::{AllocError, Global};
use std::fmt;

// How many octets a line of a dump has.
const LINE_OCTETS: usize = 16;

// How many octets are written at once, and the size of a text that has room for them.
const PIECES: usize = 16;

const PIECES_SIZE: usize = 48;

// The digit of a value, in lower case.
fn digit(value: u8) -> u8
    requires { value < 16 }
    ensures digit { result ≡ digit_char value }
    ensures ascii { result < 128 }
{
    if value < 10 {
        b'0' + value
    } else {
        b'a' + (value - 10)
    }
}

// Puts the two digits of an octet into a text, from an index on.
fn put_pair(text: &mut [u8], at: usize, octet: u8)
    requires { at + 2 ≤ length text.old }
    ensures size { length text.new ≡ length text.old }
    ensures front { take (at + 2) text.new ≡ take at text.old ++ hex_pair octet }
{
    text[at] = digit(octet / 16);
    text[at + 1] = digit(octet % 16);
}

// Puts the two digits of an octet into a text from an index on, after a space or not, and answers the index after them.
fn put_piece(text: &mut [u8], at: usize, spaced: bool, octet: u8) -> usize
    requires { at + 3 ≤ length text.old }
    ensures size { length text.new ≡ length text.old }
    ensures next { result ≡ at + length (piece spaced octet) }
    ensures front { take result text.new ≡ take at text.old ++ piece spaced octet }
{
    if spaced {
        text[at] = b' ';
        put_pair(text, at + 1, octet);
        at + 3
    } else {
        put_pair(text, at, octet);
        at + 2
    }
}

// Puts the digits of octets at the start of a text, each octet's after a space or not, and answers how many bytes they are.
fn put_pieces(text: &mut [u8; PIECES_SIZE], spaced: bool, octets: &[u8]) -> usize
    requires { length octets.now ≤ 16 }
    ensures size { result ≤ 48 }
    ensures front { take result text.new ≡ flat_map (piece spaced) octets.now }
    ensures ascii { All (λ x. x < 128) (take result text.new) }
{
    let mut at = 0;
    for &octet in octets {
        at = put_piece(text, at, spaced, octet);
    }
    at
}

// The text that bytes below 128 are.
fn ascii(bytes: &[u8]) -> &str
    requires { All (λ x. x < 128) bytes.now }
    ensures { result.now ≡ bytes.now }
{
    std::str::from_utf8(bytes).unwrap()
}

// Octets that are printed as the two digits of each, in lower case and the high one first, after a space or not.
#[derive(Clone, Copy)]
struct Pieces<'a> {
    spaced: bool,
    octets: &'a [u8],
}

impl fmt::Display for Pieces<'_> {
    ghost output = { λ x. Some (flat_map (piece x.spaced) x.octets.now) };

    fn fmt<W: fmt::Write>(&self, f: &mut fmt::Formatter<W>) -> fmt::Result {
        let mut text = [0; PIECES_SIZE];
        // many octets to a write: a hole `{:02x}` for each octet takes seven times as long
        for octets in self.octets.chunks(PIECES) {
            let size = put_pieces(&mut text, self.spaced, octets);
            f.write_str(ascii(&text[..size]))?;
        }
        Ok(())
    }
}

/// Octets that are printed as hexadecimal digits in lower case, two to an octet, the high digit first, with nothing between them.
#[derive(Clone, Copy)]
pub struct HexDigits<'a>(pub &'a [u8]);

impl<'a> HexDigits<'a> {
    /// The octets, to be printed as their digits. What is printed reads as those octets again, as `hex_octets` reads it.
    pub fn new(octets: &'a [u8]) -> Self
        ensures holds { result.0.now ≡ octets.now }
        ensures reads_back { HexOf (hex_digits result.0.now) octets.now }
    {
        HexDigits(octets)
    }
}

impl fmt::Display for HexDigits<'_> {
    ghost output = { λ x. Some (hex_digits x.0.now) };

    fn fmt<W: fmt::Write>(&self, f: &mut fmt::Formatter<W>) -> fmt::Result {
        let digits = Pieces {
            spaced: false,
            octets: self.0,
        };
        write!(f, "{digits}")
    }
}

// A line of a dump: octets, and the offset of the first of them.
#[derive(Clone, Copy)]
struct DumpLine<'a> {
    offset: u32,
    octets: &'a [u8],
}

impl fmt::Display for DumpLine<'_> {
    ghost output = { λ x. Some (dump_line x.offset x.octets.now) };

    fn fmt<W: fmt::Write>(&self, f: &mut fmt::Formatter<W>) -> fmt::Result {
        let offset = self.offset.to_be_bytes();
        let offset = HexDigits::new(&offset);
        let octets = Pieces {
            spaced: true,
            octets: self.octets,
        };
        write!(f, "{offset} {octets}\n")
    }
}

/// Octets that are printed as a dump: lines of 16, and the last one shorter where they do not fill it.
///
/// Line k, counted from 0, has the offset of its first octet, `first` + 16 k, as eight hexadecimal digits in lower case
/// (`ffffffff` where that is above 32 bits), two spaces, the octets as two digits each with a space between them, and a newline.
#[derive(Clone, Copy)]
pub struct Dump<'a> {
    /// The offset of the first octet.
    pub first: u32,
    /// The octets.
    pub octets: &'a [u8],
}

impl fmt::Display for Dump<'_> {
    ghost output = { λ x. Some (dump_text x.first x.octets.now) };

    fn fmt<W: fmt::Write>(&self, f: &mut fmt::Formatter<W>) -> fmt::Result {
        let mut offset = self.first;
        for octets in self.octets.chunks(LINE_OCTETS) {
            let line = DumpLine { offset, octets };
            write!(f, "{line}")?;
            // counted by hand, as the offset stays where it cannot grow
            offset = offset.saturating_add(LINE_OCTETS as u32);
        }
        Ok(())
    }
}

/// The text that `HexDigits` prints for the octets.
///
/// The text reads as those octets again, as `hex_octets` reads it.
pub fn hex_text(heap: Global, octets: &[u8]) -> Result<String, AllocError>
    ensures digits { IfOk result (λ s. string_bytes s ≡ hex_digits octets.now) }
    ensures reads_back { IfOk result (λ s. HexOf (string_bytes s) octets.now) }
{
    HexDigits::new(octets).to_string(heap)
}

/// The text that `Dump` prints for the octets.
pub fn hex_dump(heap: Global, first: u32, octets: &[u8]) -> Result<String, AllocError>
    ensures { IfOk result (λ s. string_bytes s ≡ dump_text first octets.now) }
{
    Dump { first, octets }.to_string(heap)
}
