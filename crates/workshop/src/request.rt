//! What is asked of the tool, read from words of the form `name=value`.
ghost use Rattle.std.specs.Prelude.{length, Some, MatchResult};
ghost use Rattle.texts.specs.Names.{cipher_word};
ghost use Rattle.workshop.specs.Fields.{Given, Apart};
ghost use Rattle.workshop.specs.Requests.{RequestRefused, OctetsIn, NumberIn, NumberOr, NonceIn, MessageIn, Asked};
ghost use Rattle.workshop.specs.declared.field.Field.TheVariants.{Cipher, Key};

use crate::fault::Fault;
use crate::field::{Field, is_given, read_word, value_of};
use std::alloc::Global;
use texts::hex::{HexFault, hex_octets};
use texts::names::{CipherName, decimal_number};

/// The number, used once, that a session's keystream starts from.
#[derive(Drop)]
pub enum Nonce {
    /// An IV, as it stands.
    Iv(Vec<u8>),
    /// The label and the number of a session, which make the IV.
    Session {
        /// The octets of the label.
        label: Vec<u8>,
        /// The number of the session.
        session: u32,
    },
}

/// What was asked of the tool.
#[derive(Drop)]
pub struct Request {
    /// The cipher.
    pub cipher: CipherName,
    /// The octets of the key.
    pub key: Vec<u8>,
    /// The IV, or what makes it.
    pub nonce: Nonce,
    /// The first keystream octet that is asked for, counted from 0.
    pub first: u32,
    /// How many keystream octets are asked for.
    pub count: u32,
    /// The message to cover or uncover, if there is one.
    pub message: Option<Vec<u8>>,
}

// Each word gives a field, and no two give the same.
fn check_words(words: &[String]) -> Result<(), Fault>
    ensures { MatchResult result (λ _. Apart words.now (length words.now)) (RequestRefused words.now) }
{
    for (i, word) in words.iter().enumerate() {
        let (field, _) = read_word(word.as_str()).map_err(|fault| Fault::BadWord(i, fault))?;
        if is_given(&words[0..i], field) {
            return Err(Fault::Twice(field));
        }
    }
    Ok(())
}

// The words of a request, and the heap that what is read of them is put in.
#[derive(Clone, Copy)]
struct Words<'a> {
    heap: Global,
    words: &'a [String],
}

impl Words<'_> {
    fn octets(&self, field: Field) -> Result<Option<Vec<u8>>, Fault>
        ensures { MatchResult result (OctetsIn self.now.words.now field) (RequestRefused self.now.words.now) }
    {
        let Some(text) = value_of(self.words, field) else {
            return Ok(None);
        };
        // a match: the error needs the field, which a `From` does not have
        match hex_octets(self.heap, text) {
            Ok(octets) => Ok(Some(octets)),
            Err(HexFault::NoMemory) => Err(Fault::NoMemory),
            Err(fault) => Err(Fault::BadHex(field, fault)),
        }
    }

    fn number(&self, field: Field) -> Result<Option<u32>, Fault>
        ensures { MatchResult result (NumberIn self.now.words.now field) (RequestRefused self.now.words.now) }
    {
        let Some(text) = value_of(self.words, field) else {
            return Ok(None);
        };
        let number = decimal_number(text).ok_or(Fault::BadNumber(field))?;
        Ok(Some(number))
    }

    fn number_or(&self, field: Field, default: u32) -> Result<u32, Fault>
        ensures { MatchResult result (NumberOr self.now.words.now field default) (RequestRefused self.now.words.now) }
    {
        Ok(self.number(field)?.unwrap_or(default))
    }

    fn cipher(&self) -> Result<CipherName, Fault>
        ensures { MatchResult result (λ c. Given self.now.words.now Cipher (cipher_word c)) (RequestRefused self.now.words.now) }
    {
        let word = value_of(self.words, Field::Cipher).ok_or(Fault::Missing(Field::Cipher))?;
        Ok(word.parse()?)
    }

    fn key(&self) -> Result<Vec<u8>, Fault>
        ensures { MatchResult result (λ v. OctetsIn self.now.words.now Key (Some v)) (RequestRefused self.now.words.now) }
    {
        self.octets(Field::Key)?.ok_or(Fault::Missing(Field::Key))
    }

    fn nonce(&self) -> Result<Nonce, Fault>
        ensures { MatchResult result (NonceIn self.now.words.now) (RequestRefused self.now.words.now) }
    {
        let words = self.words;
        if let Some(iv) = self.octets(Field::Iv)? {
            if is_given(words, Field::Label) || is_given(words, Field::Session) {
                return Err(Fault::TwoNonces);
            }
            return Ok(Nonce::Iv(iv));
        }
        let label = self.octets(Field::Label)?;
        let session = self.number(Field::Session)?;
        match (label, session) {
            (Some(label), Some(session)) => Ok(Nonce::Session { label, session }),
            (Some(_), None) => Err(Fault::LabelAlone),
            (None, Some(_)) => Err(Fault::SessionAlone),
            (None, None) => Err(Fault::NoNonce),
        }
    }

    fn message(&self) -> Result<Option<Vec<u8>>, Fault>
        ensures { MatchResult result (MessageIn self.now.words.now) (RequestRefused self.now.words.now) }
    {
        let message = self.octets(Field::Message)?;
        match (message, value_of(self.words, Field::Text)) {
            (Some(_), Some(_)) => Err(Fault::TwoMessages),
            (None, Some(text)) => Ok(Some(Vec::from_slice(self.heap, text.as_bytes())?)),
            (message, None) => Ok(message),
        }
    }
}

/// The request that words make: each gives one field, as `cipher=sprout` does, and none is given twice.
///
/// - `cipher` is `grain128`, `grain128x32`, `grain128a`, `grain128ax32` or `sprout`, and is needed.
/// - `key` is hexadecimal digits, as `hex_octets` reads them, and is needed.
/// - `iv` is hexadecimal digits; or else `label` is, and `session` is one or more decimal digits that write a number of 32 bits.
/// - `first` and `count` are decimal digits too, and are 0 and 16 where no word gives them.
/// - `message` is hexadecimal digits, or `text` is the octets of the message as they stand, if there is a message.
///
/// What a refusal says is wrong is so. Where several things are wrong, the contract does not say which is answered;
/// want of memory can be answered for any words.
pub fn read_request(heap: Global, words: &[String]) -> Result<Request, Fault>
    ensures { MatchResult result (Asked words.now) (RequestRefused words.now) }
{
    check_words(words)?;
    let words = Words { heap, words };
    Ok(Request {
        cipher: words.cipher()?,
        key: words.key()?,
        nonce: words.nonce()?,
        first: words.number_or(Field::First, 0)?,
        count: words.number_or(Field::Count, 16)?,
        message: words.message()?,
    })
}
