//! The words after the first, and the values that they write.
ghost use Rattle.std.specs.Prelude.{◌≡◌, ℕ, List, [], ◌∷◌, map, string_bytes, MatchResult, ◌≢◌};
ghost use Rattle.texts.specs.Hex.{HexOf};
ghost use Rattle.texts.specs.Names.{cipher_word, DecimalOf};
ghost use Rattle.scenario.specs.Grammar.{engine_kind, number_kind, octets_kind, word32_kind, fresh_kind, command_word, takes, line_words, ReadAs};
ghost use Rattle.scenario.specs.Says.{Word32Of, NumberAfter, OctetsAfter, MemoryAfter, WordsSay, WordsRefused};
ghost use Rattle.scenario.specs.declared.fault.LineFault.TheVariants.{WordCount};

use crate::command::Command;
use crate::fault::LineFault;
use crate::line::Line;
use std::alloc::Global;
use texts::hex::hex_octets;
use texts::names::{CipherName, decimal_number};

/// What a memory is made of.
#[derive(Drop)]
pub(crate) enum Memory {
    /// These octets.
    Written(Vec<u8>),
    /// That many fresh octets or words.
    Fresh(u32),
}

// The engine that a word names. A refusal holds of any words in which that word is to name an engine.
fn engine(word: &str) -> Result<CipherName, LineFault>
    ensures { MatchResult result (λ c. word.now ≡ cipher_word c) (λ e. (ws : List (List ℕ)) → ReadAs engine_kind ws word.now → WordsRefused ws e) }
{
    Ok(word.parse()?)
}

// The number that a word writes. A refusal holds of any words in which that word is to be a number.
pub(crate) fn number(word: &str) -> Result<u32, LineFault>
    ensures { MatchResult result (DecimalOf word.now) (λ e. (ws : List (List ℕ)) → ReadAs number_kind ws word.now → WordsRefused ws e) }
{
    decimal_number(word).ok_or(LineFault::BadNumber)
}

// The octets that a word writes. A refusal holds of any words in which that word is to be octets.
pub(crate) fn octets(heap: Global, word: &str) -> Result<Vec<u8>, LineFault>
    ensures { MatchResult result (λ v. HexOf word.now v.items) (λ e. (ws : List (List ℕ)) → ReadAs octets_kind ws word.now → WordsRefused ws e) }
{
    Ok(hex_octets(heap, word)?)
}

// The number that a word of 8 hexadecimal digits writes. A refusal holds of any words in which that word is to be such a number.
pub(crate) fn word32(word: &str) -> Result<u32, LineFault>
    ensures { MatchResult result (Word32Of word.now) (λ e. (ws : List (List ℕ)) → ReadAs word32_kind ws word.now → WordsRefused ws e) }
{
    if word.len() != 8 || word.starts_with('+') {
        return Err(LineFault::BadWord32);
    }
    u32::from_str_radix(word, 16).map_err(|_| LineFault::BadWord32)
}

/// The words of a line that begins with a command, and the heap that what they write is put in.
#[derive(Clone, Copy)]
pub(crate) struct CommandWords<'a> {
    /// The heap.
    pub(crate) heap: Global,
    /// The command that the first word names.
    pub(crate) command: Command,
    /// The words after it.
    pub(crate) rest: &'a [String],
}

impl CommandWords<'_> {
    /// What a command that takes no words says, where none follows it.
    pub(crate) fn bare(&self, line: Line) -> Result<Line, LineFault>
        requires no_words { takes self.now.command ≡ [] ∷ [] }
        requires says { WordsSay (command_word self.now.command ∷ []) line }
        ensures { MatchResult result (WordsSay (line_words self.now)) (WordsRefused (line_words self.now)) }
    {
        if self.rest.is_empty() {
            Ok(line)
        } else {
            Err(LineFault::WordCount)
        }
    }

    /// The engine that the one word after that of the command names.
    pub(crate) fn engine(&self) -> Result<CipherName, LineFault>
        requires { takes self.now.command ≡ (engine_kind ∷ []) ∷ [] }
        ensures { MatchResult result (λ c. line_words self.now ≡ command_word self.now.command ∷ cipher_word c ∷ []) (WordsRefused (line_words self.now)) }
    {
        let [word] = self.rest else {
            return Err(LineFault::WordCount);
        };
        engine(word.as_str())
    }

    /// The number that the one word after that of the command writes.
    #[tactic(auto, using(crate::proofs::Places::one_word, crate::proofs::Places::reads_number))]
    pub(crate) fn number(&self) -> Result<u32, LineFault>
        requires { takes self.now.command ≡ (number_kind ∷ []) ∷ [] }
        ensures { MatchResult result (NumberAfter (command_word self.now.command) (line_words self.now)) (WordsRefused (line_words self.now)) }
    {
        let [word] = self.rest else {
            return Err(LineFault::WordCount);
        };
        number(word.as_str())
    }

    /// The octets that the one word after that of the command writes, and none where no word follows.
    pub(crate) fn octets(&self) -> Result<Vec<u8>, LineFault>
        requires { takes self.now.command ≡ [] ∷ (octets_kind ∷ []) ∷ [] }
        ensures { MatchResult result (λ v. OctetsAfter (command_word self.now.command) (line_words self.now) v.items) (WordsRefused (line_words self.now)) }
    {
        match self.rest {
            [] => Ok(Vec::new(self.heap)),
            [word] => octets(self.heap, word.as_str()),
            _ => Err(LineFault::WordCount),
        }
    }

    /// The memory that is written after the word of the command: octets, or `fresh` and a number.
    pub(crate) fn memory(&self) -> Result<Memory, LineFault>
        requires { takes self.now.command ≡ (octets_kind ∷ []) ∷ (fresh_kind ∷ number_kind ∷ []) ∷ [] }
        ensures { MatchResult result (MemoryAfter (command_word self.now.command) (line_words self.now)) (WordsRefused (line_words self.now)) }
    {
        match self.rest {
            [word] => Ok(Memory::Written(octets(self.heap, word.as_str())?)),
            [mark, count] if mark.as_str() == "fresh" => Ok(Memory::Fresh(number(count.as_str())?)),
            _ => Err(LineFault::WordCount),
        }
    }
}
