// Refusals, of every layer.
ghost use Rattle.std.specs.Prelude.{◌≡◌, Some};
ghost use Rattle.sheet.specs.Faults.{cause_number, fault_words};

use std::fmt;

// What refused.
#[derive(Clone, Copy, PartialEq, Eq)]
pub enum Layer {
    Sheet,
    Machine,
    Assignment,
    Refutation,
    Open,
    ReadOff,
    Run,
}

// Which check failed. Its number is the one that is printed.
#[derive(Clone, Copy, PartialEq, Eq)]
pub enum Cause {
    TextTooLong = 11,
    LineNotEnded = 12,
    WrongLetter = 13,
    NotNumbers = 14,
    OutOfRange = 15,
    OutOfOrder = 16,
    TextGoesOn = 17,
    ListTooShort = 18,
    NotLegal = 21,
    StepLimit = 22,
    TurnLimit = 23,
    StartFormulaTooLong = 24,
    StartQuestionTooLong = 25,
    WrongCount = 31,
    NotABit = 32,
    FalseClause = 33,
    NotWhole = 41,
    LaterLine = 42,
    PivotNotOpposed = 43,
    Clash = 44,
    WorkTooShort = 45,
    NotEmpty = 46,
    RunTooShort = 51,
    NoAnswer = 61,
}

// A refusal: what refused, which check failed, and the place it speaks of (0 where there is none).
#[derive(Clone, Copy, PartialEq, Eq)]
pub struct Fault {
    pub layer: Layer,
    pub cause: Cause,
    pub place: u32,
}

impl Fault {
    // The number of the check that failed.
    pub fn number(self) -> u32
        ensures is_the_number_of_the_check { result ≡ cause_number self.cause }
    {
        self.cause as u32
    }
}

impl fmt::Display for Fault {
    ghost output = { λ f. Some (fault_words f) };

    fn fmt<W: fmt::Write>(&self, f: &mut fmt::Formatter<W>) -> fmt::Result {
        let number = self.number();
        let place = self.place;
        write!(f, "no {number} {place}")
    }
}
