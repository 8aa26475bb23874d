// A sheet describes a machine of inputs, latches and AND gates with one bad condition: its text, the list of numbers that
// lays it out, and the way from each to the other.
#![tactic(auto)]

pub mod fault;
pub mod legal;
mod line;
pub mod literal;
pub mod read;
pub mod write;
