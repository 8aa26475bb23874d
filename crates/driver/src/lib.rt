// Drives a check with a producer to its end, and says in text how it ended.
#![tactic(auto)]

pub mod drive;
pub mod text;
