//! The lines of a scenario, taken into a plan one by one.
ghost use Rattle.std.specs.Prelude.{◌≡◌, IfOk, is_err, count_by};
ghost use Rattle.bench_run.specs.Noted.{Noted, NotedAll};

use crate::note::{BadLine, Note};
use scenario::read::read_line;
use std::alloc::{AllocError, Global};
use trial::plan::{Plan, Planned};

/// Reads a line and takes it into a plan.
pub fn note_line(heap: Global, plan: &mut Plan, line: &str) -> Result<Planned, BadLine>
    ensures { Noted plan.old line.now result plan.new }
{
    let said = read_line(heap, line)?;
    Ok(plan.take(heap, said)?)
}

/// Reads lines in order and takes each into a plan.
#[tactic(auto, using(crate::proofs::Lines::noted_more))]
pub fn note_lines(heap: Global, plan: &mut Plan, lines: &[String]) -> Result<Vec<Note>, AllocError>
    ensures { IfOk result (λ v. NotedAll plan.old lines.now v.items plan.new) }
{
    let mut notes = Vec::new(heap);
    for line in lines {
        let note = note_line(heap, plan, line.as_str());
        notes.push(note)?;
    }
    Ok(notes)
}

/// How many of the lines are bad.
pub fn count_bad(notes: &[Note]) -> usize
    ensures { result ≡ count_by is_err notes.now }
{
    notes.iter().filter(|note| note.is_err()).count()
}
