// Datagrams told in words: a line of text for each, and a count of them all.
#![tactic(auto)]

pub mod cli;
pub mod dump;
pub mod tally;
pub mod told;
