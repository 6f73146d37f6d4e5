//! Text that people write and read: hexadecimal digits, dumps, words, the names of ciphers and decimal numbers.
#![tactic(auto)]

pub mod dump;
pub mod hex;
pub mod names;
pub mod words;
