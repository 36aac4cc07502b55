// Frames, written into bytes and read from them, over any kind of cell.
#![tactic(auto)]

pub mod addresses;
pub mod figures;
pub mod frame;
mod kind;
pub mod make;
pub mod reader;
pub mod text;
pub mod writer;
