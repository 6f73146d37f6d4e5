//! The names of ciphers, and decimal numbers.
ghost use Rattle.std.specs.Prelude.{◌≡◌, ℕ, Some, MatchOption};
ghost use Rattle.texts.specs.Names.{cipher_word, Names, DecimalOf};

use std::fmt;
use std::str::FromStr;

/// A cipher, as one of the engines runs it.
#[derive(Clone, Copy, PartialEq, Eq, Debug)]
pub enum CipherName {
    /// `grain128`
    Grain128,
    /// `grain128x32`
    Grain128Wide,
    /// `grain128a`
    Grain128a,
    /// `grain128ax32`
    Grain128aWide,
    /// `sprout`
    Sprout,
}

/// A word that names no cipher.
#[derive(Clone, Copy, PartialEq, Eq, Debug)]
pub struct UnknownCipher;

impl CipherName {
    /// The word by which the cipher is asked for: `grain128`, `grain128x32`, `grain128a`, `grain128ax32` or `sprout`.
    pub fn word(self) -> &'static str
        ensures { result.now ≡ cipher_word self }
    {
        match self {
            CipherName::Grain128 => "grain128",
            CipherName::Grain128Wide => "grain128x32",
            CipherName::Grain128a => "grain128a",
            CipherName::Grain128aWide => "grain128ax32",
            CipherName::Sprout => "sprout",
        }
    }
}

/// The cipher that a word asks for: the one that has it as its word, and none for any other word.
impl FromStr for CipherName {
    type Err = UnknownCipher;

    ghost from_str_gives = { Names cipher_word };

    fn from_str(word: &str) -> Result<CipherName, UnknownCipher> {
        match word {
            "grain128" => Ok(CipherName::Grain128),
            "grain128x32" => Ok(CipherName::Grain128Wide),
            "grain128a" => Ok(CipherName::Grain128a),
            "grain128ax32" => Ok(CipherName::Grain128aWide),
            "sprout" => Ok(CipherName::Sprout),
            _ => Err(UnknownCipher),
        }
    }
}

/// A cipher is printed as its word.
impl fmt::Display for CipherName {
    ghost output = { λ x. Some (cipher_word x) };

    fn fmt<W: fmt::Write>(&self, f: &mut fmt::Formatter<W>) -> fmt::Result {
        f.write_str(self.word())
    }
}

/// The number that decimal digits write, if the text is one or more digits and nothing else and the number fits 32 bits.
pub fn decimal_number(text: &str) -> Option<u32>
    ensures { MatchOption result ((n : ℕ) → DecimalOf text.now n → ⊥) (DecimalOf text.now) }
{
    if text.starts_with('+') {
        return None;
    }
    text.parse::<u32>().ok()
}
