//! What a mark store is.
#![tactic(auto)]

pub mod store;
