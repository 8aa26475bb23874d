// Interpolants, drawn from refutations of path questions as formulas over latches.
#![tactic(auto)]

pub mod draw;
pub mod laws;
mod lines;
mod parts;
