//! What is asked of the tool `keystream`: the words of a request, the fields that they give, and what can be wrong with them.
#![tactic(auto)]

pub mod fault;
pub mod field;
pub mod request;
