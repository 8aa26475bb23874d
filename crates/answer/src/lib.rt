// Answers to a question, checked against the question alone: an assignment that satisfies it, or a refutation. Of each list
// that is lent the first 2^28 places count.
#![tactic(auto)]

pub mod assignments;
pub mod lines;
mod obstacles;
mod passes;
pub mod refutations;
pub mod steps;
