// Cells and faults: what every other layer builds on.
#![tactic(auto)]

pub mod cell;
pub mod fault;
pub mod raw;
pub mod reading;
pub mod readings;
pub mod text;
