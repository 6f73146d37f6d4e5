//! Sprout, one bit to a draw.
#![tactic(auto)]

mod counter;
pub mod engine;
pub mod round;
