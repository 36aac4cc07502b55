// Captured datagrams: lines of hexadecimal digits, read a character at a time.
#![tactic(auto)]

pub mod hex;
pub mod line;
