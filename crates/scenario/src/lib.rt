//! The lines of a bench scenario: each is read by itself, as one thing that the bench is to do or to be set up with.
#![tactic(auto)]

pub mod command;
pub mod fault;
pub mod line;
pub mod read;
mod values;
