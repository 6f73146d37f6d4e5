//! The fields of a request, and the words that give them.
ghost use Rattle.std.specs.Prelude.{◌≡◌, ℕ, List, ◌∷◌, ◌++◌, Some, IfErr, MatchBool, MatchOption, MatchResult};
ghost use Rattle.texts.specs.Names.{Names};
ghost use Rattle.workshop.specs.Fields.{field_name, Plain, Gives, WordRefused, Given, IsGiven, NotGiven};
ghost use Rattle.workshop.specs.declared.field.WordFault.TheVariants.{UnknownField};

use std::fmt;
use std::str::FromStr;

/// A field of a request.
#[derive(Clone, Copy, PartialEq, Eq, Debug)]
pub enum Field {
    /// The name of a cipher.
    Cipher,
    /// The key, in hexadecimal digits.
    Key,
    /// The IV, in hexadecimal digits.
    Iv,
    /// The label of a session, in hexadecimal digits.
    Label,
    /// The number of a session, in decimal digits.
    Session,
    /// The first octet that is asked for, in decimal digits.
    First,
    /// How many octets are asked for, in decimal digits.
    Count,
    /// A message, in hexadecimal digits.
    Message,
    /// A message, as it stands.
    Text,
}

/// Why a word gives no field.
#[derive(Clone, Copy, PartialEq, Eq, Debug)]
pub enum WordFault {
    /// It has no `=`.
    NoEquals,
    /// What stands before its first `=` is no field's name.
    UnknownField,
}

impl Field {
    /// The name of the field: `cipher`, `key`, `iv`, `label`, `session`, `first`, `count`, `message` or `text`.
    pub(crate) fn name(self) -> &'static str
        ensures { result.now ≡ field_name self }
    {
        match self {
            Field::Cipher => "cipher",
            Field::Key => "key",
            Field::Iv => "iv",
            Field::Label => "label",
            Field::Session => "session",
            Field::First => "first",
            Field::Count => "count",
            Field::Message => "message",
            Field::Text => "text",
        }
    }
}

/// The field of this name, and none for any other name.
impl FromStr for Field {
    type Err = WordFault;

    ghost from_str_gives = { λ w r. Names field_name w r × IfErr r (λ e. e ≡ UnknownField) };

    fn from_str(name: &str) -> Result<Field, WordFault> {
        match name {
            "cipher" => Ok(Field::Cipher),
            "key" => Ok(Field::Key),
            "iv" => Ok(Field::Iv),
            "label" => Ok(Field::Label),
            "session" => Ok(Field::Session),
            "first" => Ok(Field::First),
            "count" => Ok(Field::Count),
            "message" => Ok(Field::Message),
            "text" => Ok(Field::Text),
            _ => Err(WordFault::UnknownField),
        }
    }
}

/// A field is printed as its name.
impl fmt::Display for Field {
    ghost output = { λ x. Some (field_name x) };

    fn fmt<W: fmt::Write>(&self, f: &mut fmt::Formatter<W>) -> fmt::Result {
        f.write_str(self.name())
    }
}

// What stands before and after the first `=` of a word, if it has one.
fn split_word(word: &str) -> Option<(&str, &str)>
    ensures { MatchOption result (Plain word.now) (λ p. (word.now ≡ p.0.now ++ (61 ∷ p.1.now)) × Plain p.0.now) }
{
    word.split_once('=')
}

/// The field that a word gives, and the value that it gives it.
pub(crate) fn read_word(word: &str) -> Result<(Field, &str), WordFault>
    ensures { MatchResult result (λ p. Gives p.0 p.1.now word.now) (WordRefused word.now) }
{
    let (name, value) = split_word(word).ok_or(WordFault::NoEquals)?;
    Ok((name.parse()?, value))
}

// The value that the word gives the field, if it gives it one.
fn value_in(word: &str, field: Field) -> Option<&str>
    ensures { MatchOption result ((v : List ℕ) → Gives field v word.now → ⊥) (λ v. Gives field v.now word.now) }
{
    word.strip_prefix(field.name())?.strip_prefix('=')
}

/// The value that the first word that gives the field gives it, if there is one.
pub(crate) fn value_of(words: &[String], field: Field) -> Option<&str>
    ensures { MatchOption result (NotGiven words.now field) (λ v. Given words.now field v.now) }
{
    words.iter().find_map(|word| value_in(word.as_str(), field))
}

/// Whether a word gives the field a value.
pub(crate) fn is_given(words: &[String], field: Field) -> bool
    ensures { MatchBool result (IsGiven words.now field) (NotGiven words.now field) }
{
    value_of(words, field).is_some()
}
