//! Octets read from hexadecimal digits.
ghost use Rattle.std.specs.Prelude.{◌≡◌, ◌%◌, ◌<◌, ◌≤◌, length, Some, MatchBool, MatchResult};
ghost use Rattle.std.specs.Char.{digit_value};
ghost use Rattle.texts.specs.Hex.{Hex, HexOf, HexRefused, hex_fault_text};
ghost use Rattle.texts.specs.declared.hex.HexFault.TheVariants.{NoMemory};

use std::alloc::{AllocError, AllocFailed, Global};
use std::fmt;

/// Why a text does not read as octets.
#[derive(Clone, Copy, PartialEq, Eq, Debug)]
pub enum HexFault {
    /// The byte at this index, counted from 0, is no hexadecimal digit; those before it are.
    BadDigit(usize),
    /// Every byte is a hexadecimal digit, and their count is odd.
    OddCount,
    /// There was no memory for the octets.
    NoMemory,
}

// by hand, since clauses name the error that a `?` makes
impl From<AllocError> for HexFault {
    ghost from_gives = { λ _ r. r ≡ NoMemory };

    fn from(_e: AllocError) -> HexFault {
        HexFault::NoMemory
    }
}

impl<T: Drop> From<AllocFailed<T>> for HexFault {
    ghost from_gives = { λ _ r. r ≡ NoMemory };

    fn from(_e: AllocFailed<T>) -> HexFault {
        HexFault::NoMemory
    }
}

/// What is wrong with hexadecimal digits, in a few words.
// written by hand, as a derived one promises no text
impl fmt::Display for HexFault {
    ghost output = { λ x. Some (hex_fault_text x) };

    fn fmt<W: fmt::Write>(&self, f: &mut fmt::Formatter<W>) -> fmt::Result {
        match *self {
            HexFault::BadDigit(index) => write!(
                f,
                "no hexadecimal digit at byte {index} (counted from 0)"
            ),
            HexFault::OddCount => f.write_str("an odd count of hexadecimal digits"),
            HexFault::NoMemory => f.write_str("no memory"),
        }
    }
}

// The value of a hexadecimal digit, in either case.
fn digit_value(digit: u8) -> u8
    requires { digit_value digit < 16 }
    ensures { result ≡ digit_value digit }
{
    // by hand, as is the test of a digit: the library's `to_digit` takes twice as long
    match digit {
        b'0'..=b'9' => digit - b'0',
        b'a'..=b'f' => digit - b'a' + 10,
        _ => digit - b'A' + 10,
    }
}

// Whether a byte is a hexadecimal digit, in either case.
fn is_digit(byte: u8) -> bool
    ensures { MatchBool result (digit_value byte < 16) (16 ≤ digit_value byte) }
{
    matches!(byte, b'0'..=b'9' | b'a'..=b'f' | b'A'..=b'F')
}

// Refuses the first byte that is no hexadecimal digit, else an odd count of them.
fn check_digits(digits: &[u8]) -> Result<(), HexFault>
    ensures { MatchResult result
        (λ _. Hex (length digits.now) digits.now × (length digits.now % 2 ≡ 0))
        (HexRefused digits.now) }
{
    match digits.iter().position(|&digit| !is_digit(digit)) {
        Some(index) => Err(HexFault::BadDigit(index)),
        None if digits.len() % 2 == 1 => Err(HexFault::OddCount),
        None => Ok(()),
    }
}

/// The octets that a text of hexadecimal digits writes, two digits to an octet, in either case; none for an empty text.
///
/// `Ok` is answered only where every byte is a digit and their count is even. A refusal is the first
/// bad digit, else the odd count; want of memory can be answered for any text.
pub fn hex_octets(heap: Global, text: &str) -> Result<Vec<u8>, HexFault>
    ensures { MatchResult result (λ v. HexOf text.now v.items) (HexRefused text.now) }
{
    let digits = text.as_bytes();
    check_digits(digits)?;
    let mut octets = Vec::with_capacity(heap, digits.len() / 2)?;
    for pair in digits.chunks_exact(2) {
        let high = digit_value(pair[0]);
        let low = digit_value(pair[1]);
        octets.push(16 * high + low)?;
    }
    Ok(octets)
}
