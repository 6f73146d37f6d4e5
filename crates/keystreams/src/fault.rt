//! Why a request has no answer.
ghost use Rattle.std.specs.Prelude.{◌≡◌};
ghost use Rattle.keystreams.specs.declared.fault.Fault.TheVariants.{NoMemory};

use std::alloc::AllocError;
use stream::refusal::Refusal;

/// Why a request has no answer.
#[derive(Clone, Copy)]
pub enum Fault {
    /// The keystream octets asked for are refused.
    Refused(Refusal),
    /// The keystream octets asked for are not refused, and those that the message needs are.
    MessageRefused(Refusal),
    /// There was no memory for the answer.
    NoMemory,
}

// by hand, since clauses name the error that a `?` makes
impl From<AllocError> for Fault {
    ghost from_gives = { λ _ r. r ≡ NoMemory };

    fn from(_e: AllocError) -> Fault {
        Fault::NoMemory
    }
}
