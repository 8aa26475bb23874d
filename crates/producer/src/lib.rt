// Producers of answers to a question, each behind one trait. Of each list that is lent the first 2^28 places count.
#![tactic(auto)]

pub mod combine;
pub mod interface;
mod reading;
pub mod replay;
mod rows;
pub mod split;
