// Drives a check: while a question stands the producer is asked, and its answer is shown, or weighed and taken.
ghost use Rattle.std.specs.Prelude.{◌≡◌, ℕ};
ghost use Rattle.checker.specs.Lists.{lists};
ghost use Rattle.checker.specs.Promises.{ShownFewer};
ghost use Rattle.checker.specs.Series.{at_asked, Series};
ghost use Rattle.driver.specs.Driving.{Marked, Asking, Driven, unanswered};
ghost use Rattle.driver.specs.declared.drive.Stopped.TheVariants.{Unopened, Refused as StoppedAt};
ghost use Rattle.driver.specs.Guarantee.{DriveIsOne, RunIsOne, Guarantee};

use checker::{Asked, Ended, Moved, Refused};
use lists::{counted, front};
use producer::interface::{Producer, Reply};
use question::read::variable_count;
use sheet::fault::{Cause, Fault, Layer};

// Why a run came to no end: the check was not opened, or an answer was refused, with which the standing check comes back.
#[derive(Drop)]
pub enum Stopped {
    Unopened(Fault),
    Refused(Refused),
}

impl From<Fault> for Stopped {
    ghost from_gives = { λ fault stopped. stopped ≡ Unopened fault };

    fn from(fault: Fault) -> Stopped {
        Stopped::Unopened(fault)
    }
}

impl From<Refused> for Stopped {
    ghost from_gives = { λ refused stopped. stopped ≡ StoppedAt refused };

    fn from(refused: Refused) -> Stopped {
        Stopped::Refused(refused)
    }
}

// The producer gave no answer.
fn unanswered(asked: Asked) -> Refused
    ensures { result ≡ unanswered asked }
{
    let fault = Fault {
        layer: Layer::Run,
        cause: Cause::NoAnswer,
        place: asked.turns(),
    };
    Refused { asked, fault }
}

// Asks the producer once, and shows what it answered, or weighs and takes it.
fn ask<P: Producer>(
    asked: Asked,
    producer: &mut P,
    sheet: &[u32],
    formula: &mut [u32],
    line_values: &mut [u32],
    question: &mut [u32],
    answer: &mut [u32],
    work: &mut [u32],
) -> Result<Moved, Refused>
    ensures is_asked { Asking (Marked P.Producer.replies P.Producer.honest) sheet.now asked (lists formula.old line_values.old question.old) answer.old work.old producer.old result (lists formula.new line_values.new question.new) answer.new work.new producer.new }
    ensures fewer_answers_are_left { ShownFewer asked result }
{
    let reply = producer.answer(asked.fetch(question), answer, work);
    match reply {
        Reply::Assignment => {
            let variables = variable_count(asked.fetch(question));
            let assignment = front(counted(answer), variables as usize);
            asked.show(sheet, formula, line_values, question, assignment)
        }
        Reply::Refutation => {
            let weighed = asked.weigh(question, answer, work)?;
            Ok(weighed.take(sheet, formula, line_values, question, answer))
        }
        Reply::TooLong => Err(unanswered(asked)),
    }
}

// Drives a check with a producer to its end, or to the first refusal, with which the standing check comes back.
pub fn drive<P: Producer>(
    asked: Asked,
    producer: &mut P,
    sheet: &[u32],
    formula: &mut [u32],
    line_values: &mut [u32],
    question: &mut [u32],
    answer: &mut [u32],
    work: &mut [u32],
) -> Result<Ended, Refused>
    ensures is_driven { Driven (Marked P.Producer.replies P.Producer.honest) sheet.now asked (lists formula.old line_values.old question.old) answer.old work.old producer.old result (lists formula.new line_values.new question.new) answer.new work.new producer.new }
    ensures the_guarantee { (K Q n : ℕ) → Series sheet.now K Q (at_asked asked) (lists formula.old line_values.old question.old) n → Guarantee P.Producer.replies P.Producer.honest sheet.now K Q (DriveIsOne (Marked P.Producer.replies P.Producer.honest) sheet.now K Q asked (lists formula.old line_values.old question.old) answer.old work.old producer.old result (lists formula.new line_values.new question.new) answer.new work.new producer.new) }
{
    let mut asked = asked;
    loop {
        match ask(
            asked,
            producer,
            sheet,
            formula,
            line_values,
            question,
            answer,
            work,
        )? {
            Moved::Asked(next) => asked = next,
            Moved::Ended(ended) => return Ok(ended),
        }
    }
}

// Runs a check of a sheet with a producer: opens it, and drives it to its end or to the first refusal.
pub fn run<P: Producer>(
    sheet: &[u32],
    step_limit: u32,
    turn_limit: u32,
    producer: &mut P,
    formula: &mut [u32],
    line_values: &mut [u32],
    question: &mut [u32],
    answer: &mut [u32],
    work: &mut [u32],
) -> Result<Ended, Stopped>
    ensures the_guarantee { Guarantee P.Producer.replies P.Producer.honest sheet.now step_limit turn_limit (RunIsOne (Marked P.Producer.replies P.Producer.honest) sheet.now step_limit turn_limit (lists formula.old line_values.old question.old) answer.old work.old producer.old result (lists formula.new line_values.new question.new) answer.new work.new producer.new) }
{
    let asked = Asked::open(sheet, step_limit, turn_limit, formula, question)?;
    let ended = drive(
        asked,
        producer,
        sheet,
        formula,
        line_values,
        question,
        answer,
        work,
    )?;
    Ok(ended)
}
