//! Tests that run sender and receiver against each other.
#![tactic(auto)]

#[cfg(test)]
mod exchanges;
#[cfg(test)]
mod refusals;
#[cfg(test)]
mod shared;
#[cfg(test)]
mod whole_runs;
