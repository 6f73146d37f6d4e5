//! The transcript, row by row.
ghost use Rattle.std.specs.Prelude.{◌≡◌, Some};
ghost use Rattle.bench_run.specs.Rows.{answer_text, row_text, rows_text, step_text};

use crate::note::Note;
use runs::calls::{ReceiverStep, SenderStep};
use std::fmt;
use transcript::text::{ReceiverText, SenderText};
use trial::plan::Planned;

/// The steps of a scenario once they are made: the calls on the sender and those on the receiver.
#[derive(Clone, Copy)]
pub struct Steps<'a> {
    /// The calls on the sender.
    pub calls: &'a [SenderStep],
    /// The calls on the receiver.
    pub receipts: &'a [ReceiverStep],
}

// What the step that a line asks for answered, if it asks for one.
#[derive(Clone, Copy)]
struct Answer<'a> {
    planned: Planned,
    steps: Steps<'a>,
}

impl fmt::Display for Answer<'_> {
    ghost output = { λ x. Some (step_text x.planned x.steps.calls.now x.steps.receipts.now) };

    fn fmt<W: fmt::Write>(&self, f: &mut fmt::Formatter<W>) -> fmt::Result {
        match self.planned {
            Planned::NoStep => Ok(()),
            Planned::Call(index) => {
                let Some(step) = self.steps.calls.get(index) else {
                    return Ok(());
                };
                let text = SenderText(step);
                write!(f, "  ->  {text}")
            }
            Planned::Send { call, number } => {
                let Some(step) = self.steps.calls.get(call) else {
                    return Ok(());
                };
                let text = SenderText(step);
                write!(f, "  ->  send {number}: {text}")
            }
            Planned::Receipt(index) => {
                let Some(step) = self.steps.receipts.get(index) else {
                    return Ok(());
                };
                let text = ReceiverText(step);
                write!(f, "  ->  {text}")
            }
        }
    }
}

// A row: a line with its number and what stands behind it.
#[derive(Clone, Copy)]
struct Row<'a> {
    number: usize,
    line: &'a str,
    note: Note,
    steps: Steps<'a>,
}

#[tactic(auto, unfolding(crate::specs::Rows::row_text))]
impl fmt::Display for Row<'_> {
    ghost output = { λ x. Some (row_text x.number x.line.now (answer_text x.note x.steps.calls.now x.steps.receipts.now)) };

    fn fmt<W: fmt::Write>(&self, f: &mut fmt::Formatter<W>) -> fmt::Result {
        let number = self.number;
        let line = self.line;
        let steps = self.steps;
        match self.note {
            Ok(planned) => {
                let answer = Answer { planned, steps };
                write!(f, "{number}  {line}{answer}\n")
            }
            Err(fault) => write!(f, "{number}  {line}  ->  bad line: {fault}\n"),
        }
    }
}

/// The rows of a transcript: each line with its number and what it answered, as far as there are notes.
#[derive(Clone, Copy)]
pub struct Rows<'a> {
    /// The lines.
    pub lines: &'a [String],
    /// What became of each line.
    pub notes: &'a [Note],
    /// The steps that the lines asked for.
    pub steps: Steps<'a>,
}

impl fmt::Display for Rows<'_> {
    ghost output = { λ x. Some (rows_text x.steps.calls.now x.steps.receipts.now 1 x.lines.now x.notes.now) };

    fn fmt<W: fmt::Write>(&self, f: &mut fmt::Formatter<W>) -> fmt::Result {
        for (index, (line, note)) in self.lines.iter().zip(self.notes).enumerate() {
            let row = Row {
                number: index + 1,
                line: line.as_str(),
                note: *note,
                steps: self.steps,
            };
            write!(f, "{row}")?;
        }
        Ok(())
    }
}
