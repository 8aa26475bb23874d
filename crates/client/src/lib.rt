// Uses each state of a check as it is meant to be used.
#![tactic(auto)]

ghost use Rattle.std.specs.Prelude.{◌≡◌, Ok, Err, IfOk, IfErr};
ghost use Rattle.checker.specs.Lists.{lists};
ghost use Rattle.checker.specs.Calls.{shown, weighed, taken, set_aside};
ghost use Rattle.checker.specs.Reports.{read_off};

use checker::report::Report;
use checker::{Asked, Ended, Moved, Refused, Weighed};
use sheet::fault::Fault;

// Weighs a refutation, and takes it if it is one. Else the check is handed back, and its lists are as they were.
pub fn weigh_and_take(
    check: Asked,
    sheet: &[u32],
    formula: &mut [u32],
    line_values: &mut [u32],
    question: &mut [u32],
    refutation: &[u32],
    work: &mut [u32],
) -> Result<Moved, Refused>
    ensures takes_what_was_weighed { IfOk result (λ m. (w : Weighed) × ((Ok w, work.new) ≡ weighed check question.old refutation.now work.old) × ((m, lists formula.new line_values.new question.new) ≡ taken sheet.now w refutation.now (lists formula.old line_values.old question.old))) }
    ensures hands_back_what_was_refused { IfErr result (λ r. ((Err r, work.new) ≡ weighed check question.old refutation.now work.old) × (lists formula.new line_values.new question.new ≡ lists formula.old line_values.old question.old)) }
{
    let weighed = check.weigh(question, refutation, work)?;
    Ok(weighed.take(sheet, formula, line_values, question, refutation))
}

// Leaves a refutation that was weighed, and shows an assignment instead.
pub fn set_aside_and_show(
    check: Weighed,
    sheet: &[u32],
    formula: &mut [u32],
    line_values: &mut [u32],
    question: &mut [u32],
    assignment: &[u32],
) -> Result<Moved, Refused>
    ensures shows_to_the_check_that_was_asked { (result, lists formula.new line_values.new question.new) ≡ shown sheet.now (set_aside check) assignment.now (lists formula.old line_values.old question.old) }
{
    let asked = check.set_aside();
    asked.show(sheet, formula, line_values, question, assignment)
}

// Reads off a check that has ended, and keeps it.
pub fn read_off(
    check: &Ended,
    sheet: &[u32],
    assignment: &[u32],
    run: &mut [u32],
) -> Result<Report, Fault>
    ensures reads_off_by_the_rules { (result, run.new) ≡ read_off sheet.now check.now assignment.now run.old }
{
    check.read_off(sheet, assignment, run)
}
