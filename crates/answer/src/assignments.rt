// Assignments that satisfy a question: a number for each variable, 0 or 1.
ghost use Rattle.std.specs.Prelude.{◌≡◌, ◌^◌, ◌≤◌, length, is_ok, Decides};
ghost use Rattle.lists.specs.Counted.{counted};
ghost use Rattle.signal.specs.Truth.{bits_of, holds};
ghost use Rattle.question.specs.Questions.{clause_count, clause_of};
ghost use Rattle.answer.specs.Assignments.{first_non_bit, lowest_false, unless_found, judged, Satisfying};
ghost use Rattle.answer.specs.Reasons.{AssignmentReasoned};

use crate::lines::clause_count;
use lists::counted;
use question::read::{clause, number_at};
use sheet::fault::{Cause, Fault, Layer};
use signal::clauses::satisfies_clause;

fn first_non_bit(assignment: &[u32]) -> Option<u32>
    requires { length assignment.now ≤ 2 ^ 28 }
    ensures { result ≡ first_non_bit 0 assignment.now }
{
    let variable = assignment.iter().position(|number| *number > 1)?;
    Some(variable as u32)
}

// Whether clause `k` is true.
fn is_true(question: &[u32], assignment: &[u32], k: u32) -> bool
    requires few { length question.now ≤ 2 ^ 28 }
    requires short { length assignment.now ≤ 2 ^ 28 }
    ensures { result ≡ holds (bits_of assignment.now) (clause_of question.now k) }
{
    satisfies_clause(assignment, clause(question, k))
}

fn lowest_false_clause(question: &[u32], assignment: &[u32]) -> Option<u32>
    requires few { length question.now ≤ 2 ^ 28 }
    requires short { length assignment.now ≤ 2 ^ 28 }
    ensures { result ≡ lowest_false question.now (bits_of assignment.now) 0 (clause_count question.now) }
{
    (0..clause_count(question)).find(|k| !is_true(question, assignment, *k))
}

// A refusal where something was found.
fn unless_found(cause: Cause, found: Option<u32>) -> Result<(), Fault>
    ensures { result ≡ unless_found cause found }
{
    match found {
        None => Ok(()),
        Some(place) => Err(Fault {
            layer: Layer::Assignment,
            cause,
            place,
        }),
    }
}

// The checks where every place counts.
fn judge(question: &[u32], assignment: &[u32]) -> Result<(), Fault>
    requires few { length question.now ≤ 2 ^ 28 }
    requires short { length assignment.now ≤ 2 ^ 28 }
    ensures { result ≡ judged question.now assignment.now }
{
    if assignment.len() != number_at(question, 0) as usize {
        return Err(Fault {
            layer: Layer::Assignment,
            cause: Cause::WrongCount,
            place: 0,
        });
    }
    unless_found(Cause::NotABit, first_non_bit(assignment))?;
    unless_found(
        Cause::FalseClause,
        lowest_false_clause(question, assignment),
    )
}

// Whether an assignment has a number for each variable (else 31), each 0 or 1 (else 32, at the first variable whose number
// is not), and makes every clause true (else 33, at the lowest false clause).
pub fn satisfies(question: &[u32], assignment: &[u32]) -> Result<(), Fault>
    ensures judges_in_order { result ≡ judged (counted question.now) (counted assignment.now) }
    ensures accepts_exactly_satisfying_bits { Decides (is_ok result) (Satisfying (counted question.now) (counted assignment.now)) }
    ensures gives_the_reason { AssignmentReasoned (counted question.now) (counted assignment.now) result }
{
    judge(counted(question), counted(assignment))
}
