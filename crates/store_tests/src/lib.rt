//! Tests that run the two mark stores on their edges.
#![tactic(auto)]

#[cfg(test)]
mod columns;
#[cfg(test)]
mod shared;
#[cfg(test)]
mod strips;
