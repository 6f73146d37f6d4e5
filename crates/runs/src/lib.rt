//! Whole runs: any calls on a sender and on a receiver, given as data, with what each answered.
#![tactic(auto)]

pub mod calls;
pub mod comings;
pub mod run;
pub mod size;
pub mod stage;
pub mod turns;
