//! The words that a line can begin with.
ghost use Rattle.scenario.specs.Says.{NamesCommand};

use crate::fault::LineFault;
use std::str::FromStr;

/// What a line begins with, which says what its other words are.
#[derive(Clone, Copy)]
pub enum Command {
    /// `sender`
    Sender,
    /// `receiver`
    Receiver,
    /// `strip`
    Strip,
    /// `column`
    Column,
    /// `key`
    Key,
    /// `label`
    Label,
    /// `allowance`
    Allowance,
    /// `room`
    Room,
    /// `open`
    Open,
    /// `close`
    Close,
    /// `cut`
    Cut,
    /// `pair`
    Pair,
    /// `torn`
    Torn,
    /// `send`
    Send,
    /// `say`
    Say,
    /// `deliver`
    Deliver,
    /// `alter`
    Alter,
    /// `noise`
    Noise,
}

/// The command that a word names, and `LineFault::UnknownWord` where it names none.
impl FromStr for Command {
    type Err = LineFault;

    ghost from_str_gives = { NamesCommand };

    fn from_str(word: &str) -> Result<Command, LineFault> {
        match word {
            "sender" => Ok(Command::Sender),
            "receiver" => Ok(Command::Receiver),
            "strip" => Ok(Command::Strip),
            "column" => Ok(Command::Column),
            "key" => Ok(Command::Key),
            "label" => Ok(Command::Label),
            "allowance" => Ok(Command::Allowance),
            "room" => Ok(Command::Room),
            "open" => Ok(Command::Open),
            "close" => Ok(Command::Close),
            "cut" => Ok(Command::Cut),
            "pair" => Ok(Command::Pair),
            "torn" => Ok(Command::Torn),
            "send" => Ok(Command::Send),
            "say" => Ok(Command::Say),
            "deliver" => Ok(Command::Deliver),
            "alter" => Ok(Command::Alter),
            "noise" => Ok(Command::Noise),
            _ => Err(LineFault::UnknownWord),
        }
    }
}
