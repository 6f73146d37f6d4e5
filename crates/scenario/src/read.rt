//! A line read.
ghost use Rattle.std.specs.Prelude.{◌≡◌, [], ◌∷◌, ◌++◌, map, string_bytes, codes, MatchOption, MatchResult};
ghost use Rattle.scenario.specs.Grammar.{command_word, takes, line_words};
ghost use Rattle.scenario.specs.Says.{WordsSay, WordsRefused, Unquoted, Says, Unsaid};
ghost use Rattle.scenario.specs.declared.command.Command.TheVariants.{Strip, Column, Torn, Alter};

use crate::command::Command;
use crate::fault::LineFault;
use crate::line::Line;
use crate::values::{CommandWords, Memory, number, octets, word32};
use std::alloc::Global;
use texts::words::split_words;

impl CommandWords<'_> {
    fn strip(&self) -> Result<Line, LineFault>
        requires { self.now.command ≡ Strip }
        ensures { MatchResult result (WordsSay (line_words self.now)) (WordsRefused (line_words self.now)) }
    {
        match self.memory()? {
            Memory::Written(octets) => Ok(Line::Strip(octets)),
            Memory::Fresh(count) => Ok(Line::FreshStrip(count)),
        }
    }

    fn column(&self) -> Result<Line, LineFault>
        requires { self.now.command ≡ Column }
        ensures { MatchResult result (WordsSay (line_words self.now)) (WordsRefused (line_words self.now)) }
    {
        match self.memory()? {
            Memory::Written(octets) => {
                if octets.len() % 4 == 0 {
                    Ok(Line::Column(octets))
                } else {
                    Err(LineFault::PartWord)
                }
            }
            Memory::Fresh(count) => Ok(Line::FreshColumn(count)),
        }
    }

    fn torn(&self) -> Result<Line, LineFault>
        requires { self.now.command ≡ Torn }
        ensures { MatchResult result (WordsSay (line_words self.now)) (WordsRefused (line_words self.now)) }
    {
        let [writes, junk] = self.rest else {
            return Err(LineFault::WordCount);
        };
        Ok(Line::TornOpen {
            writes: number(writes.as_str())?,
            junk: word32(junk.as_str())?,
        })
    }

    fn alter(&self) -> Result<Line, LineFault>
        requires { self.now.command ≡ Alter }
        ensures { MatchResult result (WordsSay (line_words self.now)) (WordsRefused (line_words self.now)) }
    {
        let [frame, at, change] = self.rest else {
            return Err(LineFault::WordCount);
        };
        Ok(Line::Alter {
            frame: number(frame.as_str())?,
            at: number(at.as_str())?,
            change: octets(self.heap, change.as_str())?,
        })
    }

    // What the command says with the words after its own.
    fn line(&self) -> Result<Line, LineFault>
        ensures { MatchResult result (WordsSay (line_words self.now)) (WordsRefused (line_words self.now)) }
    {
        match self.command {
            Command::Sender => Ok(Line::Sender(self.engine()?)),
            Command::Receiver => Ok(Line::Receiver(self.engine()?)),
            Command::Strip => self.strip(),
            Command::Column => self.column(),
            Command::Key => Ok(Line::Key(self.octets()?)),
            Command::Label => Ok(Line::Label(self.octets()?)),
            Command::Allowance => Ok(Line::Allowance(self.number()?)),
            Command::Room => Ok(Line::Room(self.number()?)),
            Command::Open => self.bare(Line::Open),
            Command::Close => self.bare(Line::Close),
            Command::Cut => self.bare(Line::Cut),
            Command::Pair => self.bare(Line::Pair),
            Command::Torn => self.torn(),
            Command::Send => Ok(Line::Send(self.octets()?)),
            Command::Say => self.bare(Line::Send(Vec::new(self.heap))),
            Command::Deliver => Ok(Line::Deliver(self.number()?)),
            Command::Alter => self.alter(),
            Command::Noise => Ok(Line::Noise(self.octets()?)),
        }
    }
}

fn read_words(heap: Global, words: &[String]) -> Result<Line, LineFault>
    ensures { MatchResult result (WordsSay (map string_bytes words.now)) (WordsRefused (map string_bytes words.now)) }
{
    let Some((first, rest)) = words.split_first() else {
        return Ok(Line::Blank);
    };
    let command = first.as_str().parse()?;
    CommandWords {
        heap,
        command,
        rest,
    }
    .line()
}

// The text after `say` and a space, if the line begins so.
fn quoted_text(line: &str) -> Option<&str>
    ensures { MatchOption result (Unquoted line.now) (λ t. line.now ≡ codes "say " ++ t.now) }
{
    line.strip_prefix("say ")
}

/// What one line of a scenario says, without the line's end.
///
/// A line that begins with `say` and a space is to send the rest of it, as it stands. Any other line goes by its words, as `split_words`
/// cuts them: the first is one of those that `Command` has, and `Line` says what follows it in each case.
///
/// - A number is one or more decimal digits that write a number of 32 bits, as `decimal_number` reads it.
/// - Octets are an even count of hexadecimal digits, as `hex_octets` reads them.
/// - An engine is the word of a `CipherName`.
///
/// What a refusal says is wrong is so. Where several things are wrong, the contract does not say which is answered;
/// want of memory can be answered for any line.
pub fn read_line(heap: Global, line: &str) -> Result<Line, LineFault>
    ensures { MatchResult result (Says line.now) (Unsaid line.now) }
{
    if let Some(text) = quoted_text(line) {
        return Ok(Line::Send(Vec::from_slice(heap, text.as_bytes())?));
    }
    let words = split_words(heap, line)?;
    read_words(heap, words.as_slice())
}
