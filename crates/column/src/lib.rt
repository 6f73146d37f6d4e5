//! The column: a mark store in pairs of 32-bit words, each a number with its complement.
#![tactic(auto)]

pub mod store;
pub mod words;
