// The steps of a refutation: how many there are, and for each the two lines that it joins and the variable that it joins
// them on.
ghost use Rattle.std.specs.Prelude.{◌≡◌, Ok};
ghost use Rattle.sheet.specs.declared.fault.Cause.TheVariants.{NotWhole};
ghost use Rattle.lists.specs.Counted.{counted};
ghost use Rattle.sheet.specs.Faults.{demand};
ghost use Rattle.answer.specs.Runs.{is_whole};
ghost use Rattle.answer.specs.Steps.{step_count, step_of, refused};

use lists::counted;
use question::read::number_at;
use sheet::fault::{Cause, Fault, Layer};

// Two lines, and the variable that stands plain in the first and negated in the second.
#[derive(Clone, Copy, PartialEq, Eq)]
pub struct Step {
    pub first: u32,
    pub second: u32,
    pub pivot: u32,
}

// How far a refutation has been checked: the next step, and the place behind the literals so far.
#[derive(Clone, Copy)]
pub(crate) struct Progress {
    pub step: u32,
    pub end: usize,
}

pub(crate) fn refusal(cause: Cause, step: u32) -> Fault
    ensures { result ≡ refused cause step }
{
    Fault {
        layer: Layer::Refutation,
        cause,
        place: step,
    }
}

// How many steps there are, from 1 to 16777216, if all their numbers are there.
pub(crate) fn count_steps(refutation: &[u32]) -> Result<u32, Fault>
    ensures { result ≡ demand (is_whole refutation.now) (refused NotWhole 0) (Ok (step_count refutation.now)) }
{
    let steps = number_at(refutation, 0);
    if (1..=16_777_216).contains(&steps) && 1 + 3 * steps as usize <= refutation.len() {
        Ok(steps)
    } else {
        Err(refusal(Cause::NotWhole, 0))
    }
}

// A step where every number counts.
pub(crate) fn read_step(refutation: &[u32], i: u32) -> Step
    ensures { result ≡ step_of refutation.now i }
{
    let before = 3 * i as usize;
    Step {
        first: number_at(refutation, before + 1),
        second: number_at(refutation, before + 2),
        pivot: number_at(refutation, before + 3),
    }
}

// Step `i` of a refutation, counted from 0. A number that is not there counts as 0.
pub fn step_at(refutation: &[u32], i: u32) -> Step
    ensures is_the_step { result ≡ step_of (counted refutation.now) i }
{
    read_step(counted(refutation), i)
}
