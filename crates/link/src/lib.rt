//! The link: frames, senders and receivers.
#![tactic(auto)]

pub mod frame;
pub mod pairing;
