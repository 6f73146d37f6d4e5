//! Trials: the steps that a scenario asks for, made over the engines and the store that it names.
#![tactic(auto)]

pub mod memory;
pub mod perform;
pub mod plan;
pub mod planning;
