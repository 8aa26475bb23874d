// The lists of a check: what is cleared, kept and cut.
ghost use Rattle.std.specs.Prelude.{◌≡◌};
ghost use Rattle.lists.specs.Counted.{counted};
ghost use Rattle.interpolant.specs.Parting.{width_in};
ghost use Rattle.checker.specs.Lists.{lists, restored, used_part, said_part};
ghost use Rattle.checker.specs.Turns.{left_by};
ghost use Rattle.checker.specs.Lent.{held, SameLists};

use crate::End;
use interpolant::draw::clear;
use lists::{counted, counted_len, front};
use question::read::number_at;

// The lists that a check writes, as a call is lent them.
#[derive(Drop)]
pub(crate) struct Lists<'a> {
    pub(crate) formula: &'a mut [u32],
    pub(crate) values: &'a mut [u32],
    pub(crate) question: &'a mut [u32],
}

impl Lists<'_> {
    // Leaves the lists at the end of a check: cleared, where one was too short.
    pub(crate) fn leave(&mut self, end: End)
        ensures clears_where_short { held self.new ≡ left_by end (held self.old) }
        ensures same_lists { SameLists self.old self.new }
    {
        if let End::Short(_) = end {
            clear(self.formula);
            clear(self.values);
            clear(self.question);
        }
    }

    // Keeps the first gates of the formula list, and writes zeros behind them.
    pub(crate) fn restore(&mut self, gates: u32)
        ensures keeps_the_gates { held self.new ≡ lists (restored gates self.old.formula.now) self.old.values.now self.old.question.now }
        ensures same_lists { SameLists self.old self.new }
    {
        let len = counted_len(self.formula.len());
        let from = (2 * gates as usize).min(len);
        self.formula[from..len].fill(0);
    }
}

// The used part of a question list.
pub(crate) fn used_part(question: &[u32], size: usize) -> &[u32]
    ensures { result.now ≡ used_part size question.now }
{
    front(counted(question), size)
}

// The part of a list that a refutation says it is: how many steps, and three numbers for each.
pub(crate) fn said_part(refutation: &[u32]) -> &[u32]
    ensures { result.now ≡ said_part refutation.now }
{
    let refutation = counted(refutation);
    front(refutation, 1 + 3 * number_at(refutation, 0) as usize)
}

// How many nodes a sheet has.
pub(crate) fn width(sheet: &[u32]) -> u32
    ensures { result ≡ width_in (counted sheet.now) }
{
    let sheet = counted(sheet);
    number_at(sheet, 0)
        .saturating_add(number_at(sheet, 1))
        .saturating_add(number_at(sheet, 2))
        .saturating_add(1)
}
