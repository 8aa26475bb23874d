// Refutations: steps that derive the empty clause from the clauses of a question by resolution.
ghost use Rattle.std.specs.Prelude.{◌≡◌, ℕ, ◌+◌, ◌^◌, ◌<◌, ◌≤◌, true, false, length, take, replicate, is_some, is_ok, IfOk, Err, Decides};
ghost use Rattle.sheet.specs.declared.fault.Cause.TheVariants.{Clash};
ghost use Rattle.std.proofs.lemmas.List.Edits.{sets};
ghost use Rattle.lists.specs.Counted.{counted, on_counted};
ghost use Rattle.question.specs.Questions.{span, IsQuestion, Satisfiable};
ghost use Rattle.answer.specs.Derivations.{Derives, Refutes, CancelsTwo};
ghost use Rattle.answer.specs.Layout.{Lays};
ghost use Rattle.answer.specs.Passes.{passed};
ghost use Rattle.answer.specs.Reasons.{RefutationReasoned};
ghost use Rattle.answer.specs.Runs.{start, run, outcome, verdict, left, checked, Held};
ghost use Rattle.answer.specs.Steps.{step_count, step_of, refused, made_by, advanced, noted};

use crate::lines::{clause_at, part};
use crate::obstacles::{blame, come_before};
use crate::passes::join;
use crate::steps::{Progress, Step, count_steps, read_step, refusal};
use lists::{counted, counted_len};
use sheet::fault::{Cause, Fault};

// Writes the clause of a step behind what is done, and answers where it ends; `None` where it has none, or no room.
fn join_lines(question: &[u32], work: &mut [u32], s: Step, at: Progress) -> Option<usize>
    ensures says_where { result ≡ passed question.now work.old s at }
    ensures writes { is_some result ≡ true → work.new ≡ sets work.old at.end (made_by question.now work.old s at.end) }
    ensures keeps_the_front { take at.end work.new ≡ take at.end work.old }
{
    // The list is cut before all else: the compiler then reads the count of the question's clauses once for the rest.
    let (done, free) = work.split_at_mut_checked(at.end)?;
    if !come_before(question, at.step, s) {
        return None;
    }
    let first = clause_at(question, done, s.first);
    let second = clause_at(question, done, s.second);
    let count = join(first, second, s.pivot, free)?;
    Some(at.end + count)
}

// Carries out the next step: writes its clause, and the place where that ends.
fn take_step(
    question: &[u32],
    refutation: &[u32],
    work: &mut [u32],
    at: Progress,
) -> Result<Progress, Fault>
    requires behind { at.step + 1 < at.end }
    requires few { length work.old ≤ 2 ^ 28 }
    ensures goes_on { result ≡ advanced question.now work.old (step_of refutation.now at.step) at }
    ensures writes { IfOk result (λ more. work.new ≡ noted question.now work.old (step_of refutation.now at.step) at) }
{
    let s = read_step(refutation, at.step);
    let Some(end) = join_lines(question, work, s, at) else {
        return Err(blame(question, work, s, at));
    };
    work[at.step as usize + 1] = end as u32;
    Ok(Progress {
        step: at.step + 1,
        end,
    })
}

// Carries out all steps, into a working list that is zero but for its first place.
fn take_steps(
    question: &[u32],
    refutation: &[u32],
    work: &mut [u32],
    steps: u32,
) -> Result<(), Fault>
    requires some { 1 ≤ steps }
    requires few { length work.old ≤ 2 ^ 28 }
    ensures answers { result ≡ verdict (run question.now refutation.now steps work.old (start steps)) }
    ensures leaves { Held (run question.now refutation.now steps work.old (start steps)) work.new }
{
    let mut end = steps as usize + 1;
    for step in 0..steps {
        end = take_step(question, refutation, work, Progress { step, end })?.end;
    }
    let last = steps - 1;
    if part(work, last as usize).is_empty() {
        Ok(())
    } else {
        Err(refusal(Cause::NotEmpty, last))
    }
}

// The checks, into a working list that is all zero.
fn derive(question: &[u32], refutation: &[u32], work: &mut [u32]) -> Result<(), Fault>
    requires zero { work.old ≡ replicate (length work.old) 0 }
    requires few { length work.old ≤ 2 ^ 28 }
    ensures answers { result ≡ verdict (outcome question.now refutation.now (length work.old)) }
    ensures leaves { Held (outcome question.now refutation.now (length work.old)) work.new }
{
    let steps = count_steps(refutation)?;
    if let Some(first) = work.first_mut() {
        *first = steps + 1;
    }
    take_steps(question, refutation, work, steps)
}

// The checks where every place counts. The working list is cleared before the first step, and again after a refusal.
fn check_counted(question: &[u32], refutation: &[u32], work: &mut [u32]) -> Result<(), Fault>
    requires { length work.old ≤ 2 ^ 28 }
    ensures answers { result ≡ verdict (outcome question.now refutation.now (length work.old)) }
    ensures leaves { work.new ≡ left (length work.old) (outcome question.now refutation.now (length work.old)) }
{
    work.fill(0);
    let result = derive(question, refutation, work);
    if result.is_err() {
        work.fill(0);
    }
    result
}

// Checks a refutation: S, from 1 to 16777216, and for each of S steps a first line, a second line and a pivot variable (else
// 41). The lines are the clauses of the question, and behind them one for each step: the two lines joined without the pivot.
// A step is refused if one of its lines is not earlier (42), if the pivot is not plain in the first and negated in the second
// (43), if they clash in another variable (44), or if the working list has no room for its clause (45); and the last if its
// clause is not empty (46). The working list then holds the S + 1 places where the derived clauses start and end, their
// literals, and zeros; it is all zero if the refutation is refused.
pub fn check_refutation(question: &[u32], refutation: &[u32], work: &mut [u32]) -> Result<(), Fault>
    ensures checks_each_step_in_order { (result, work.new) ≡ on_counted (checked (counted question.now) (counted refutation.now)) work.old }
    ensures accepts_exactly_refutations { IsQuestion (counted question.now) → Decides (is_ok result) (Refutes (counted question.now) (counted refutation.now) (length (counted work.old))) }
    ensures derives_the_lines { IsQuestion (counted question.now) → is_ok result ≡ true → Derives (counted question.now) (counted refutation.now) (span (counted work.new)) }
    ensures lays_the_lines_out { is_ok result ≡ true → Lays (step_count (counted refutation.now)) (counted work.new) }
    ensures clears_the_working_list_if_refused { is_ok result ≡ false → counted work.new ≡ replicate (length (counted work.old)) 0 }
    ensures refutes { IsQuestion (counted question.now) → is_ok result ≡ true → Satisfiable (counted question.now) → ⊥ }
    ensures gives_the_reason { IsQuestion (counted question.now) → RefutationReasoned (counted question.now) (counted refutation.now) (length (counted work.old)) result }
    ensures a_step_that_cancels_two_variables_is_refused { (i : ℕ) → IsQuestion (counted question.now) → CancelsTwo (counted question.now) (counted refutation.now) (length (counted work.old)) i → result ≡ Err (refused Clash i) }
{
    let room = counted_len(work.len());
    check_counted(counted(question), counted(refutation), &mut work[0..room])
}
