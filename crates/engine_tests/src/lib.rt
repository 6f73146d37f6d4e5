//! Tests that run the engines: printed vectors, one stride against the other, steps back, refusals, session IVs and covering.
// Each test names the engines one by one: an engine is a type, and no list can hold types.
#![tactic(auto)]

#[cfg(test)]
mod covering;
#[cfg(test)]
mod draws;
#[cfg(test)]
mod refusals;
#[cfg(test)]
mod shared;
#[cfg(test)]
mod vectors;
