// Where a path question is cut in two. Its variables are those of frames, with one for each node of the sheet, and behind
// the last frame those of formula gates.
ghost use Rattle.std.specs.Prelude.{◌≡◌};
ghost use Rattle.lists.specs.Counted.{counted};
ghost use Rattle.interpolant.specs.Parting.{parts_of, cut_by, latch_in};

use formula::question_literal::QuestionLiteral;
use lists::counted;
use question::read::{first_count, number_at, variable_count};
use sheet::literal::Literal;

// How many clauses the first part has, how many nodes, inputs and latches a frame, the first variable behind the frames, and how
// many variables there are.
#[derive(Clone, Copy)]
pub(crate) struct Parts {
    pub first: u32,
    pub width: u32,
    pub inputs: u32,
    pub latches: u32,
    pub fresh: u32,
    pub variables: u32,
}

impl Parts {
    // A question whose last variables are those of `gates` formula gates.
    pub(crate) fn new(sheet: &[u32], question: &[u32], gates: u32) -> Parts
        ensures { result ≡ parts_of (counted sheet.now) (counted question.now) gates }
    {
        let sheet = counted(sheet);
        let inputs = number_at(sheet, 0);
        let latches = number_at(sheet, 1);
        let variables = variable_count(question);
        Parts {
            first: first_count(question),
            width: inputs
                .saturating_add(latches)
                .saturating_add(number_at(sheet, 2))
                .saturating_add(1),
            inputs,
            latches,
            fresh: variables.saturating_sub(gates),
            variables,
        }
    }

    // Whether a variable is of a latch in frame 1: both parts have those.
    fn shares(self, variable: u32) -> bool
        ensures { result ≡ (cut_by self).shared variable }
    {
        let first = self.width as u64 + 1 + self.inputs as u64;
        first <= variable as u64 && (variable as u64) < first + self.latches as u64
    }

    // Whether a variable is of frame 0 or of a formula gate: only the first part has those.
    pub(crate) fn is_local(self, variable: u32) -> bool
        ensures { result ≡ (cut_by self).local variable }
    {
        variable < self.width || self.fresh <= variable && variable < self.variables
    }

    // The latch's literal that a shared literal is of in frame 1. None for a literal that is not shared.
    pub(crate) fn latch_in(self, x: QuestionLiteral) -> Option<Literal>
        ensures { result ≡ latch_in self x.0 }
    {
        if self.shares(x.variable()) {
            Some(Literal::from_number(x.number() - 2 * self.width))
        } else {
            None
        }
    }
}
