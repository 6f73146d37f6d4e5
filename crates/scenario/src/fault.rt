//! Why a line is refused, and the text that is printed for it.
ghost use Rattle.std.specs.Prelude.{◌≡◌, Some};
ghost use Rattle.scenario.specs.Messages.{line_fault_text};
ghost use Rattle.scenario.specs.Says.{hex_fault};
ghost use Rattle.scenario.specs.declared.fault.LineFault.TheVariants.{UnknownEngine, NoMemory};

use std::alloc::AllocError;
use std::fmt;
use texts::hex::HexFault;
use texts::names::UnknownCipher;

/// Why a line is refused.
#[derive(Clone, Copy)]
pub enum LineFault {
    /// The first word is none that a line can begin with.
    UnknownWord,
    /// The first word does not take that many words after it; or two words follow `strip` or `column`, and the first of them is not `fresh`.
    WordCount,
    /// A word that is to name an engine names none.
    UnknownEngine,
    /// A word that is to be octets does not read as such.
    BadHex(HexFault),
    /// A word that is to be a number is no decimal number of 32 bits.
    BadNumber,
    /// The word that is to be junk is not 8 hexadecimal digits.
    BadWord32,
    /// The octets of a column do not come to whole words of 4 octets.
    PartWord,
    /// There was no memory for the line.
    NoMemory,
}

// by hand, since clauses name the error that a `?` makes
impl From<AllocError> for LineFault {
    ghost from_gives = { λ _ r. r ≡ NoMemory };

    fn from(_e: AllocError) -> LineFault {
        LineFault::NoMemory
    }
}

impl From<UnknownCipher> for LineFault {
    ghost from_gives = { λ _ r. r ≡ UnknownEngine };

    fn from(_e: UnknownCipher) -> LineFault {
        LineFault::UnknownEngine
    }
}

impl From<HexFault> for LineFault {
    ghost from_gives = { λ e r. r ≡ hex_fault e };

    fn from(fault: HexFault) -> LineFault {
        match fault {
            HexFault::NoMemory => LineFault::NoMemory,
            fault => LineFault::BadHex(fault),
        }
    }
}

/// What is wrong with a line, in a few words.
// written by hand, as a derived one promises no text
impl fmt::Display for LineFault {
    ghost output = { λ x. Some (line_fault_text x) };

    fn fmt<W: fmt::Write>(&self, f: &mut fmt::Formatter<W>) -> fmt::Result {
        match *self {
            LineFault::UnknownWord => f.write_str("no such word"),
            LineFault::WordCount => f.write_str("wrong number of words"),
            LineFault::UnknownEngine => f.write_str("no such engine"),
            LineFault::BadHex(fault) => write!(f, "{fault}"),
            LineFault::BadNumber => f.write_str("no decimal number of 32 bits"),
            LineFault::BadWord32 => f.write_str("junk is not 8 hexadecimal digits"),
            LineFault::PartWord => f.write_str("a column has words of 8 hexadecimal digits"),
            LineFault::NoMemory => f.write_str("no memory"),
        }
    }
}
