//! The strip: a mark store that spends one bit of a memory for each raise.
#![tactic(auto)]

pub mod strip;
