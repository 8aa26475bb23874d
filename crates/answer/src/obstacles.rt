// Why a step that could not be carried out is refused. The step is read again, slowly: this happens once in a refutation.
ghost use Rattle.std.specs.Prelude.{◌≡◌, ◌+◌};
ghost use Rattle.answer.specs.Joint.{lowest, clashing, has, opposes};
ghost use Rattle.answer.specs.Passes.{blamed};
ghost use Rattle.answer.specs.Steps.{matched, suited, come_before};

use crate::lines::{clause_at, clause_count};
use crate::steps::{Progress, Step, refusal};
use sheet::fault::{Cause, Fault};

// The lower of the literals that two clauses begin with.
fn lowest(first: &[u32], second: &[u32]) -> Option<u32>
    ensures { result ≡ lowest first.now second.now }
{
    match (first, second) {
        ([x, ..], [y, ..]) => Some(*x.min(y)),
        ([x, ..], []) | ([], [x, ..]) => Some(*x),
        ([], []) => None,
    }
}

// Whether a variable comes twice in the two clauses joined without the pivot's variable.
fn clash(mut first: &[u32], mut second: &[u32], pivot: u32) -> bool
    ensures { result ≡ clashing first.now second.now pivot }
{
    let mut last = pivot;
    while let Some(literal) = lowest(first, second) {
        let variable = literal / 2;
        if variable != pivot {
            if variable == last {
                return true;
            }
            last = variable;
        }
        first = first.strip_prefix(&[literal]).unwrap_or(first);
        second = second.strip_prefix(&[literal]).unwrap_or(second);
    }
    false
}

fn has_literal(clause: &[u32], literal: u64) -> bool
    ensures { result ≡ has literal clause.now }
{
    clause.iter().any(|x| u64::from(*x) == literal)
}

// Whether the pivot stands plain in the first clause and negated in the second.
fn oppose(first: &[u32], second: &[u32], pivot: u32) -> bool
    ensures { result ≡ opposes first.now second.now pivot }
{
    // The literals of a large pivot leave 32 bits, and then stand in no clause.
    let plain = 2 * u64::from(pivot);
    has_literal(first, plain) && has_literal(second, plain + 1)
}

fn check_clauses(first: &[u32], second: &[u32], pivot: u32, step: u32) -> Result<(), Fault>
    ensures { result ≡ matched first.now second.now pivot step }
{
    if !oppose(first, second, pivot) {
        return Err(refusal(Cause::PivotNotOpposed, step));
    }
    if clash(first, second, pivot) {
        return Err(refusal(Cause::Clash, step));
    }
    Ok(())
}

// Whether both lines of a step come before it.
pub(crate) fn come_before(question: &[u32], step: u32, s: Step) -> bool
    ensures { result ≡ come_before question.now step s }
{
    let lines = u64::from(clause_count(question)) + u64::from(step);
    u64::from(s.first) < lines && u64::from(s.second) < lines
}

// The checks of a step but for that of room.
fn check_step(question: &[u32], work: &[u32], s: Step, at: Progress) -> Result<(), Fault>
    ensures { result ≡ suited question.now work.now s at }
{
    if !come_before(question, at.step, s) {
        return Err(refusal(Cause::LaterLine, at.step));
    }
    let done = &work[..at.end.min(work.len())];
    check_clauses(
        clause_at(question, done, s.first),
        clause_at(question, done, s.second),
        s.pivot,
        at.step,
    )
}

// Why a step that has no clause, or no room for it, has none.
pub(crate) fn blame(question: &[u32], work: &[u32], s: Step, at: Progress) -> Fault
    ensures { result ≡ blamed at.step (suited question.now work.now s at) }
{
    match check_step(question, work, s, at) {
        Ok(()) => refusal(Cause::WorkTooShort, at.step),
        Err(fault) => fault,
    }
}
