//! The bench's work: the lines of a scenario in, its transcript out.
#![tactic(auto)]

pub mod conduct;
pub mod note;
pub mod noting;
pub mod reply;
pub mod rows;
