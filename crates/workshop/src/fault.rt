//! Why a request is refused, and the line that is printed for it.
ghost use Rattle.std.specs.Prelude.{◌≡◌, Some};
ghost use Rattle.workshop.specs.Messages.{word_fault_text, fault_text};
ghost use Rattle.workshop.specs.declared.fault.Fault.TheVariants.{UnknownCipher, NoMemory};

use crate::field::{Field, WordFault};
use std::alloc::AllocError;
use std::fmt;
use texts::hex::HexFault;
use texts::names;

/// What is wrong with a request.
#[derive(Clone, Copy, PartialEq, Eq, Debug)]
pub enum Fault {
    /// The word at this index, counted from 0, gives no field.
    BadWord(usize, WordFault),
    /// Two words give this field.
    Twice(Field),
    /// The field's value does not read as octets.
    BadHex(Field, HexFault),
    /// The field's value is no decimal number of 32 bits.
    BadNumber(Field),
    /// The value of `cipher` is no cipher's name.
    UnknownCipher,
    /// No word gives this field, which a request needs.
    Missing(Field),
    /// No word gives `iv`, `label` or `session`.
    NoNonce,
    /// `iv` is given, and so is `label` or `session`.
    TwoNonces,
    /// `label` is given, and `session` is not.
    LabelAlone,
    /// `session` is given, and `label` is not.
    SessionAlone,
    /// Both `message` and `text` are given.
    TwoMessages,
    /// There was no memory for the request.
    NoMemory,
}

// by hand, since clauses name the error that a `?` makes
impl From<AllocError> for Fault {
    ghost from_gives = { λ _ r. r ≡ NoMemory };

    fn from(_e: AllocError) -> Fault {
        Fault::NoMemory
    }
}

impl From<names::UnknownCipher> for Fault {
    ghost from_gives = { λ _ r. r ≡ UnknownCipher };

    fn from(_e: names::UnknownCipher) -> Fault {
        Fault::UnknownCipher
    }
}

/// What is wrong with a word, in a few words.
// written by hand, as a derived one promises no text
impl fmt::Display for WordFault {
    ghost output = { λ x. Some (word_fault_text x) };

    fn fmt<W: fmt::Write>(&self, f: &mut fmt::Formatter<W>) -> fmt::Result {
        match *self {
            WordFault::NoEquals => f.write_str("no '='"),
            WordFault::UnknownField => f.write_str("no such field"),
        }
    }
}

/// One line without its end: the field at fault or the place of the word, and what is wrong with it.
// written by hand, as a derived one promises no text
impl fmt::Display for Fault {
    ghost output = { λ x. Some (fault_text x) };

    fn fmt<W: fmt::Write>(&self, f: &mut fmt::Formatter<W>) -> fmt::Result {
        match *self {
            Fault::BadWord(index, fault) => write!(f, "word {index} (counted from 0): {fault}"),
            Fault::Twice(field) => write!(f, "{field}: given twice"),
            Fault::BadHex(field, fault) => write!(f, "{field}: {fault}"),
            Fault::BadNumber(field) => write!(f, "{field}: no decimal number of 32 bits"),
            Fault::UnknownCipher => f.write_str("cipher: no such cipher"),
            Fault::Missing(field) => write!(f, "{field}: not given"),
            Fault::NoNonce => f.write_str("iv: not given, and neither are label and session"),
            Fault::TwoNonces => f.write_str("iv: given together with label or session"),
            Fault::LabelAlone => f.write_str("label: given without session"),
            Fault::SessionAlone => f.write_str("session: given without label"),
            Fault::TwoMessages => f.write_str("message: given together with text"),
            Fault::NoMemory => f.write_str("no memory"),
        }
    }
}
