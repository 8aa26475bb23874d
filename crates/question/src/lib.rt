// Questions: clauses in a lent list of numbers. Reading one, and building the three that are asked of a machine.
#![tactic(auto)]

pub mod build;
mod gates;
pub mod laws;
mod page;
mod path;
pub mod read;
mod size;
mod state;
mod unroll;
