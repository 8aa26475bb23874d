// Formulas over the latches of a sheet: AND gates in a lent list, the start formula, and where literals stand in a question.
#![tactic(auto)]

pub mod builder;
pub mod frame;
pub mod question_literal;
pub mod root;
pub mod start;
