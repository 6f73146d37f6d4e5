//! Tests of the bench.
#![tactic(auto)]

#[cfg(test)]
mod bad_lines;
