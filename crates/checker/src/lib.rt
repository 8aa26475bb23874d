// The check of a sheet, in turns: it asks a question, is shown an assignment or weighs a refutation, and asks the next, until it
// ends. Its states are moved values of plain numbers. Its lists are lent at each call, each as the call before left it.
#![tactic(auto)]

use sheet::fault::Fault;
use sheet::literal::Literal;

pub mod calls;
mod lent;
pub mod policy;
pub mod report;
mod runs;
mod turns;

// The question that stands: is a state in R bad; is a bad state reached from one in R in 1 to k + 1 steps; is a state in the
// drawn formula P outside R.
#[derive(Clone, Copy)]
pub(crate) enum Kind {
    Start,
    Path,
    Inclusion(Literal),
}

// What was shown or taken.
#[derive(Clone, Copy)]
pub(crate) enum Answer {
    Assignment,
    Refutation,
}

// The formula R that holds where the machine can be, how many gates the formula list has, and whether R has grown at this bound.
#[derive(Clone, Copy)]
pub(crate) struct Region {
    literal: Literal,
    gates: u32,
    grown: bool,
}

// The largest bound of a path question, and how many answers may be shown or taken.
#[derive(Clone, Copy)]
pub(crate) struct Limits {
    bound: u32,
    turns: u32,
}

// The lists that can be too short for what is due.
#[derive(Clone, Copy, PartialEq, Eq)]
pub enum Lack {
    Formula,
    Question,
    LineValues,
}

// How a check ended. After a run: the last frame of the question, and how many variables it has.
#[derive(Clone, Copy)]
pub(crate) enum End {
    Safe,
    Run { last: u32, variables: u32 },
    Undecided,
    Spent,
    Short(Lack),
}

// A check whose question stands: its kind and length, the bound k, R as it is and as it was opened, the limits, and the
// answers shown or taken so far.
#[derive(Drop)]
pub struct Asked {
    kind: Kind,
    size: usize,
    bound: u32,
    region: Region,
    opening: Region,
    limits: Limits,
    turns: u32,
}

// A check that has weighed a refutation of its question, and not taken it yet.
#[derive(Drop)]
pub struct Weighed {
    asked: Asked,
}

// A check that is over.
#[derive(Drop)]
pub struct Ended {
    end: End,
    bound: u32,
    turns: u32,
}

// What an answer that was shown or taken leads to.
#[derive(Drop)]
pub enum Moved {
    Asked(Asked),
    Ended(Ended),
}

// The check as it was, with what was wrong with the answer.
#[derive(Drop)]
pub struct Refused {
    pub asked: Asked,
    pub fault: Fault,
}
