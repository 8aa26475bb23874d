// Which clause of a question ends a branch. Every place counts.
ghost use Rattle.std.specs.Prelude.{◌≡◌, ◌^◌, ◌≤◌, length};
ghost use Rattle.question.specs.Questions.{clause_count, clause_of};
ghost use Rattle.producer.specs.Procedure.{is_due, closes, lowest};

use question::read::{clause, clause_count};
use signal::clauses::falsifies_clause;

// Whether the last literal of a clause is of the variable that was set last, where `depth` variables are set.
fn is_due(literals: &[u32], depth: u32) -> bool
    ensures { result ≡ is_due depth literals.now }
{
    literals.last().is_some_and(|x| *x / 2 + 1 == depth)
}

// Whether clause `k` has become false as the last of `depth` variables was set.
fn closes_branch(question: &[u32], numbers: &[u32], depth: u32, k: u32) -> bool
    requires size { length question.now ≤ 2 ^ 28 }
    requires short { length numbers.now ≤ 2 ^ 28 }
    ensures { result ≡ closes numbers.now depth (clause_of question.now k) }
{
    let literals = clause(question, k);
    is_due(literals, depth) && falsifies_clause(numbers, literals)
}

// The lowest clause that has become false as the last of `depth` variables was set.
pub(crate) fn find_false(question: &[u32], numbers: &[u32], depth: u32) -> Option<u32>
    requires size { length question.now ≤ 2 ^ 28 }
    requires short { length numbers.now ≤ 2 ^ 28 }
    ensures { result ≡ lowest question.now numbers.now depth (clause_count question.now) 0 }
{
    (0..clause_count(question)).find(|k| closes_branch(question, numbers, depth, *k))
}
