//! What an engine is: traits, refusals, and code that works over any engine.
#![tactic(auto)]

pub mod draws;
pub mod engine;
pub mod figures;
pub mod refusal;
pub mod session;
