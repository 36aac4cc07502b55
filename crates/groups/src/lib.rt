// Groups: what a cabinet keeps, volume by volume and block by block.
#![tactic(auto)]

pub mod compare;
pub mod flat;
pub mod group;
pub mod lent;
pub mod records;
pub mod shape;
pub mod sparse;
pub mod volumes;
