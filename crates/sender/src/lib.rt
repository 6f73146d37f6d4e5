//! The sender: two types, at rest and in a session, for every engine and every mark store.
#![tactic(auto)]

pub mod progress;
pub mod resting;
pub mod sending;
