//! Keystreams of the ciphers by their names: parts of a keystream, the answer to a request, and its text.
#![tactic(auto)]

pub mod answers;
pub mod fault;
pub mod named;
pub mod parts;
pub mod replies;
pub mod report;
pub mod text;
