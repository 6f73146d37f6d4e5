//! What is replied to the words of a request.
ghost use Rattle.std.specs.Prelude.{◌≡◌, Some};
ghost use Rattle.keystreams.specs.Replies.{Replied, complaint_text};
ghost use Rattle.keystreams.specs.declared.replies.Complaint.TheVariants.{NoMemory};

use crate::named::answer_named;
use crate::text::{FaultLine, ReportText};
use std::alloc::{AllocError, Global};
use std::error::Error;
use std::fmt;
use workshop::request::read_request;

/// Why words have no answer.
#[derive(Debug, Drop)]
pub enum Complaint {
    /// One line without its end: what is wrong with the words, or why their request has no answer.
    Line(String),
    /// There was no memory for the reply.
    NoMemory,
}

// by hand, since clauses name the error that a `?` makes
impl From<AllocError> for Complaint {
    ghost from_gives = { λ _ r. r ≡ NoMemory };

    fn from(_e: AllocError) -> Complaint {
        Complaint::NoMemory
    }
}

/// One line without its end.
// written by hand, as a derived one promises no text
impl fmt::Display for Complaint {
    ghost output = { λ x. Some (complaint_text x) };

    fn fmt<W: fmt::Write>(&self, f: &mut fmt::Formatter<W>) -> fmt::Result {
        match self {
            Complaint::Line(line) => f.write_str(line.as_str()),
            Complaint::NoMemory => f.write_str("memory allocation failed"),
        }
    }
}

impl Error for Complaint {}

/// The reply to words: the text of the report that answers the request that they make, which ends its last line,
/// or what is wrong with them or with it.
pub fn reply_to(heap: Global, words: &[String]) -> Result<String, Complaint>
    ensures { Replied words.now result }
{
    let request = read_request(heap, words).try_map_err(|fault| {
        let line = format!(in heap; "{fault}")?;
        Ok(Complaint::Line(line))
    })?;
    // a match: under a second try_map_err the proof does not reach the text of the line
    match answer_named(heap, &request) {
        Ok(report) => {
            let text = ReportText {
                request: &request,
                report: &report,
            };
            Ok(format!(in heap; "{text}")?)
        }
        Err(fault) => {
            let line = FaultLine {
                request: &request,
                fault,
            };
            Err(Complaint::Line(format!(in heap; "{line}")?))
        }
    }
}
