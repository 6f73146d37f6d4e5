//! Pairs of shift registers that are clocked many times at once and back again.
#![tactic(auto)]

pub mod clocks;
mod macros;
pub mod octets;
pub mod pair;
pub mod taps;
pub mod window;
