//! What is answered to a request.

/// A message as it was given, covered, and uncovered again.
#[derive(Drop)]
pub struct Covered {
    /// The message as it was given.
    pub plain: Vec<u8>,
    /// The message covered with the keystream.
    pub covered: Vec<u8>,
    /// What was covered, covered once more: the message again.
    pub uncovered: Vec<u8>,
}

/// The answer to a request.
#[derive(Drop)]
pub struct Report {
    /// The IV, as it was given or made from the label and the session.
    pub iv: Vec<u8>,
    /// The keystream octets that were asked for.
    pub keystream: Vec<u8>,
    /// The message, where one was given.
    pub message: Option<Covered>,
}
