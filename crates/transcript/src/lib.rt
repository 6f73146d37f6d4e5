//! What a run did, as text: a line for each step of a sender and of a receiver, and the totals at the end.
#![tactic(auto)]

pub mod counts;
pub mod text;
pub mod totals;

// How many octets the header of a frame has.
const HEADER_OCTETS: usize = 10;
