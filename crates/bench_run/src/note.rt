//! What became of a line.
ghost use Rattle.std.specs.Prelude.{◌≡◌, Some};
ghost use Rattle.bench_run.specs.Rows.{bad_line_text};
ghost use Rattle.bench_run.specs.declared.note.BadLine.TheVariants.{Unread, Untaken};

use scenario::fault::LineFault;
use std::fmt;
use trial::plan::{PlanFault, Planned};

/// Why a line of a scenario is bad.
#[derive(Clone, Copy)]
pub enum BadLine {
    /// It says nothing that a scenario can say.
    Unread(LineFault),
    /// It can be read, and the plan could not take it.
    Untaken(PlanFault),
}

/// What became of a line of a scenario: what the plan that took it then has for it, or why it is bad.
pub type Note = Result<Planned, BadLine>;

// By hand, since clauses name the error that a `?` makes.
impl From<LineFault> for BadLine {
    ghost from_gives = { λ e r. r ≡ Unread e };

    fn from(fault: LineFault) -> BadLine {
        BadLine::Unread(fault)
    }
}

impl From<PlanFault> for BadLine {
    ghost from_gives = { λ e r. r ≡ Untaken e };

    fn from(fault: PlanFault) -> BadLine {
        BadLine::Untaken(fault)
    }
}

/// Why a line is bad, in a few words.
// written by hand, as a derived one promises no text
impl fmt::Display for BadLine {
    ghost output = { λ x. Some (bad_line_text x) };

    fn fmt<W: fmt::Write>(&self, f: &mut fmt::Formatter<W>) -> fmt::Result {
        match *self {
            BadLine::Unread(fault) => write!(f, "{fault}"),
            BadLine::Untaken(fault) => write!(f, "{fault}"),
        }
    }
}
