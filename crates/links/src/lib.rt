// Links: what carries datagrams from one cabinet to the other.
#![tactic(auto)]

mod datagram;
pub mod exchange;
pub mod fate;
pub mod latch;
pub mod link;
pub mod place;
pub mod queue;
mod waiting;
