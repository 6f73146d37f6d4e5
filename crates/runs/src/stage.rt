//! A sender that is either at rest or in a session.
use sender::resting::Resting;
use sender::sending::Sending;

/// A sender, at rest or in a session.
// an enum over the two types that the rules ask for
#[derive(Drop)]
pub enum Stage<E, S> {
    /// At rest.
    AtRest(Resting<E, S>),
    /// In a session.
    InSession(Sending<E, S>),
}
