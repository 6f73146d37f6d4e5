//! A scenario, conducted.
ghost use Rattle.std.specs.Prelude.{IfOk};
ghost use Rattle.bench_run.specs.Replies.{Replied, Written};

use crate::note::Note;
use crate::noting::{count_bad, note_lines};
use crate::reply::Reply;
use crate::rows::{Rows, Steps};
use std::alloc::{AllocError, Global};
use transcript::counts::tally;
use trial::perform::perform;
use trial::plan::Plan;

// The rows of the lines, and then the totals.
fn written(
    heap: Global,
    lines: &[String],
    notes: &[Note],
    steps: Steps<'_>,
) -> Result<Reply, AllocError>
    ensures { IfOk result (λ x. Written lines.now notes.now steps.entry.calls.now steps.entry.receipts.now x) }
{
    let rows = Rows {
        lines,
        notes,
        steps,
    };
    let totals = tally(steps.calls, steps.receipts);
    Ok(Reply {
        text: format!(in heap; "{rows}{totals}\n")?,
        bad_lines: count_bad(notes),
    })
}

/// Takes the lines of a scenario into a plan, makes its steps over the engines and the store that it names, and writes the transcript.
/// The promise over whole runs holds of the steps, as `trial::perform::perform` says.
pub fn conduct(heap: Global, lines: &[String]) -> Result<Reply, AllocError>
    ensures { IfOk result (Replied lines.now) }
{
    let mut plan = Plan::new(heap)?;
    let notes = note_lines(heap, &mut plan, lines)?;
    let Plan {
        setup,
        mut calls,
        mut receipts,
        sends: _,
    } = plan;
    perform(
        setup.sender,
        setup.receiver,
        setup.memory,
        calls.as_mut_slice(),
        receipts.as_mut_slice(),
    );
    let steps = Steps {
        calls: calls.as_slice(),
        receipts: receipts.as_slice(),
    };
    written(heap, lines, notes.as_slice(), steps)
}
