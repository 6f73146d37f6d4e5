//! What the lines of a scenario ask for.
ghost use Rattle.std.specs.Prelude.{◌≡◌, Some};
ghost use Rattle.trial.specs.Messages.{plan_fault_text};
ghost use Rattle.trial.specs.declared.plan.PlanFault.TheVariants.{NoMemory};

use crate::memory::Memory;
use runs::calls::{Pairing, ReceiverStep, SenderStep};
use std::alloc::{AllocError, AllocFailed};
use std::fmt;
use texts::names::CipherName;

/// What the lines set, each until a later line sets it again.
#[derive(Drop)]
pub struct Setup {
    /// The engine of the sender.
    pub sender: CipherName,
    /// The engine of the receiver.
    pub receiver: CipherName,
    /// The memory of the store.
    pub memory: Memory,
    /// The key, the label and the allowance of the opens and pairs to come.
    pub pairing: Pairing,
    /// The size of the buffers that the sends and deliveries to come are lent.
    pub room: u32,
}

/// What the lines set, and the steps that they ask for, in order.
#[derive(Drop)]
pub struct Plan {
    /// What is set.
    pub setup: Setup,
    /// The calls on the sender.
    pub calls: Vec<SenderStep>,
    /// The calls on the receiver.
    pub receipts: Vec<ReceiverStep>,
    /// The index of the call of each line that sends.
    // indices, as a delivery names the call of a frame that is yet to be made
    pub sends: Vec<usize>,
}

/// What a line asked for.
// `NoStep` is a case among the four and no `Option` around three: each case says what stands behind a line.
#[derive(Clone, Copy)]
pub enum Planned {
    /// No step: the line sets something, or is blank.
    NoStep,
    /// The call of this index on the sender, which is no send.
    Call(usize),
    /// The send of this index among the calls on the sender.
    Send {
        /// The index of the call.
        call: usize,
        /// The number of the line among those that send, counted from 1.
        number: usize,
    },
    /// The call of this index on the receiver.
    Receipt(usize),
}

/// Why a plan cannot take a line.
#[derive(Clone, Copy)]
pub enum PlanFault {
    /// Engines and memory are set before the first step.
    Late,
    /// No line above sends a frame of that number.
    NoSuchSend,
    /// There was no memory.
    NoMemory,
}

// By hand, since clauses name the fault that a `?` makes.
impl From<AllocError> for PlanFault {
    ghost from_gives = { λ _ r. r ≡ NoMemory };

    fn from(_e: AllocError) -> PlanFault {
        PlanFault::NoMemory
    }
}

impl<T: Drop> From<AllocFailed<T>> for PlanFault {
    ghost from_gives = { λ _ r. r ≡ NoMemory };

    fn from(_e: AllocFailed<T>) -> PlanFault {
        PlanFault::NoMemory
    }
}

/// Why a plan cannot take a line, in a few words.
// written by hand, as a derived one promises no text
impl fmt::Display for PlanFault {
    ghost output = { λ x. Some (plan_fault_text x) };

    fn fmt<W: fmt::Write>(&self, f: &mut fmt::Formatter<W>) -> fmt::Result {
        f.write_str(match self {
            PlanFault::Late => "engines and memory are set before the first step",
            PlanFault::NoSuchSend => "no line above sends a frame of that number",
            PlanFault::NoMemory => "no memory",
        })
    }
}
