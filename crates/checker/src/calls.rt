// The calls of a check: what each does, and what then holds over a series of calls.
ghost use Rattle.std.specs.Prelude.{◌≡◌, ◌+◌, ◌*◌, ◌≤◌, length};
ghost use Rattle.lists.specs.Counted.{counted};
ghost use Rattle.sheet.specs.Faults.{fault};
ghost use Rattle.sheet.specs.Sheets.{gate_count, Legal};
ghost use Rattle.sheet.specs.declared.fault.Layer.TheVariants.{Open};
ghost use Rattle.formula.specs.Built.{size_of_start, write_start};
ghost use Rattle.checker.specs.Lists.{lists};
ghost use Rattle.checker.specs.Lent.{held, SameLists};
ghost use Rattle.checker.specs.Opening.{Opened, opened, start_made};
ghost use Rattle.checker.specs.Calls.{handed_back, fetched, shown, weighed, taken, set_aside};
ghost use Rattle.checker.specs.Promises.{Begins, ShowGoesOn, WeighGoesOn, TakeGoesOn, AsideGoesOn, ShownAnswers, TakenAnswers, FetchedStands, CountsTurns, ShownFewer, MovedFewer, WeighedSame};

use crate::lent::{Lists, said_part, used_part};
use crate::{Answer, Asked, Kind, Limits, Moved, Refused, Region, Weighed};
use answer::assignments::satisfies;
use answer::refutations::check_refutation;
use formula::start::{start_formula, start_size};
use lists::counted_len;
use question::build::start_question;
use sheet::fault::{Cause, Fault, Layer};
use sheet::legal::LegalSheet;

// The largest step limit.
const MOST_BOUND: u32 = 30;

// A refusal to open a check.
fn unopened(cause: Cause) -> Fault
    ensures { result ≡ fault Open cause 0 }
{
    Fault {
        layer: Layer::Open,
        cause,
        place: 0,
    }
}

// How many numbers the start question has, where the start formula has so many gates.
fn start_question_size(sheet: LegalSheet<'_>, gates: u32) -> usize
    ensures { result ≡ 10 + 10 * (gate_count sheet.entry.numbers.now + gates) }
{
    10 + 10 * (sheet.gates() as usize + gates as usize)
}

// Writes the start formula and the start question, where both fit.
fn begin(
    sheet: &[u32],
    limits: Limits,
    formula: &mut [u32],
    question: &mut [u32],
) -> Result<Asked, Fault>
    requires legal { Legal (counted sheet.now) }
    requires room { 2 * size_of_start (counted sheet.now) ≤ length (counted formula.old) }
    requires space { 10 + 10 * (gate_count (counted sheet.now) + size_of_start (counted sheet.now)) ≤ length (counted question.old) }
    ensures { ◌≡◌ {A = Opened} (result, formula.new, question.new) (start_made sheet.now limits.bound limits.turns formula.old question.old (write_start sheet.now formula.old)) }
{
    let start = start_formula(sheet, formula).ok_or(unopened(Cause::StartFormulaTooLong))?;
    let posed = start_question(sheet, formula, start.gates, start.literal, question);
    let size = posed.ok_or(unopened(Cause::StartQuestionTooLong))?;
    let opening = Region {
        literal: start.literal,
        gates: start.gates,
        grown: false,
    };
    Ok(Asked {
        kind: Kind::Start,
        size,
        bound: 0,
        region: opening,
        opening,
        limits,
        turns: 0,
    })
}

impl Asked {
    // The check as it was, with what was wrong with an answer.
    fn refused(self, fault: Fault) -> Refused
        ensures { result ≡ handed_back self fault }
    {
        Refused { asked: self, fault }
    }

    // Opens a check of a sheet: the start question stands. Refused, with nothing written, for a sheet list that reading does not
    // write (21), a step limit above 30 (22), a turn limit of 0 (23), and if the start formula (24) or the start question (25)
    // does not fit.
    pub fn open(
        sheet: &[u32],
        step_limit: u32,
        turn_limit: u32,
        formula: &mut [u32],
        question: &mut [u32],
    ) -> Result<Asked, Fault>
        ensures opens_by_the_rules { ◌≡◌ {A = Opened} (result, formula.new, question.new) (opened sheet.now step_limit turn_limit formula.old question.old) }
        ensures a_series_begins { Begins sheet.now step_limit turn_limit result formula.new question.new }
    {
        let legal = LegalSheet::new(sheet).ok_or(unopened(Cause::NotLegal))?;
        if step_limit > MOST_BOUND {
            return Err(unopened(Cause::StepLimit));
        }
        if turn_limit == 0 {
            return Err(unopened(Cause::TurnLimit));
        }
        let gates = start_size(sheet);
        if counted_len(formula.len()) < 2 * gates as usize {
            return Err(unopened(Cause::StartFormulaTooLong));
        }
        if counted_len(question.len()) < start_question_size(legal, gates) {
            return Err(unopened(Cause::StartQuestionTooLong));
        }
        let limits = Limits {
            bound: step_limit,
            turns: turn_limit,
        };
        begin(sheet, limits, formula, question)
    }

    // How many answers were shown or taken so far.
    pub fn turns(&self) -> u32
        ensures is_the_count { result ≡ self.now.turns }
        ensures counts_the_answers { CountsTurns self.now result }
    {
        self.turns
    }

    // The question that stands, where it lies.
    pub fn fetch<'a>(&self, question: &'a [u32]) -> &'a [u32]
        ensures lends_the_question { result.now ≡ fetched self.now question.now }
        ensures asks_what_it_stands_for { FetchedStands self.now question.now result.now }
    {
        used_part(question, self.size)
    }

    // Shows an assignment. If it satisfies the question the check moves on; else the check is handed back as it was.
    pub fn show(
        self,
        sheet: &[u32],
        formula: &mut [u32],
        line_values: &mut [u32],
        question: &mut [u32],
        assignment: &[u32],
    ) -> Result<Moved, Refused>
        ensures moves_by_the_rules { (result, lists formula.new line_values.new question.new) ≡ shown sheet.now self assignment.now (lists formula.old line_values.old question.old) }
        ensures the_series_goes_on { ShowGoesOn sheet.now self assignment.now (lists formula.old line_values.old question.old) result (lists formula.new line_values.new question.new) }
        ensures fewer_answers_are_left { ShownFewer self result }
        ensures answers_in_the_procedure { ShownAnswers sheet.now self assignment.now (lists formula.old line_values.old question.old) result (lists formula.new line_values.new question.new) }
    {
        match satisfies(self.fetch(question), assignment) {
            Ok(()) => {
                let mut lists = Lists {
                    formula,
                    values: line_values,
                    question,
                };
                Ok(self.moved(Answer::Assignment, assignment, sheet, &mut lists))
            }
            Err(fault) => Err(self.refused(fault)),
        }
    }

    // Weighs a refutation. If it is one the check is weighed; else it is handed back as it was, and the working list is zero.
    pub fn weigh(
        self,
        question: &[u32],
        refutation: &[u32],
        work: &mut [u32],
    ) -> Result<Weighed, Refused>
        ensures judges_by_the_rules { (result, work.new) ≡ weighed self question.now refutation.now work.old }
        ensures is_the_same_check { WeighedSame self result }
        ensures the_series_goes_on { WeighGoesOn self question.now refutation.now result }
    {
        match check_refutation(self.fetch(question), refutation, work) {
            Ok(()) => Ok(Weighed { asked: self }),
            Err(fault) => Err(self.refused(fault)),
        }
    }
}

impl Weighed {
    // Takes the refutation that was weighed: the check moves on.
    pub fn take(
        self,
        sheet: &[u32],
        formula: &mut [u32],
        line_values: &mut [u32],
        question: &mut [u32],
        refutation: &[u32],
    ) -> Moved
        ensures moves_by_the_rules { (result, lists formula.new line_values.new question.new) ≡ taken sheet.now self refutation.now (lists formula.old line_values.old question.old) }
        ensures the_series_goes_on { TakeGoesOn sheet.now self refutation.now (lists formula.old line_values.old question.old) result (lists formula.new line_values.new question.new) }
        ensures fewer_answers_are_left { MovedFewer self.asked result }
        ensures answers_in_the_procedure { TakenAnswers sheet.now self refutation.now (lists formula.old line_values.old question.old) result (lists formula.new line_values.new question.new) }
    {
        let mut lists = Lists {
            formula,
            values: line_values,
            question,
        };
        let said = said_part(refutation);
        self.asked
            .moved(Answer::Refutation, said, sheet, &mut lists)
    }

    // Leaves the refutation, and returns to the question.
    pub fn set_aside(self) -> Asked
        ensures returns_to_the_question { result ≡ set_aside self }
        ensures the_series_goes_on { AsideGoesOn self result }
    {
        let Weighed { asked } = self;
        asked
    }
}
