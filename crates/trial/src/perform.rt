//! The steps of a trial, made.
// The calls and the receipts stay two parameters, as those of `runs::run::run` do.
ghost use Rattle.trial.specs.Named.{cipher_of};
ghost use Rattle.trial.specs.Performed.{Performed};

use crate::memory::Memory;
use column::store::Column;
use grain128::engines::*;
use runs::calls::{ReceiverStep, SenderStep};
use runs::run::run;
use sprout::engine::*;
use stream::engine::{Engine, Reversible};
use strip::strip::Strip;
use texts::names::CipherName;

// Over an engine for the sender and one for the receiver, and a store over a memory.
// The calls and the receipts stay two parameters, as `run` takes them: of a struct of two `&mut` slices no clause says so plainly what they hold afterwards.
fn over_memory<E: Engine + Drop, F: Reversible + Drop>(
    engine: E,
    receiver_engine: F,
    memory: Memory,
    calls: &mut [SenderStep],
    receipts: &mut [ReceiverStep],
)
    ensures { Performed E.Engine.cipher F.Engine.cipher memory calls.old calls.new receipts.old receipts.new }
{
    match memory {
        Memory::Strip(mut octets) => {
            let store = Strip::new(octets.as_mut_slice());
            run(engine, store, receiver_engine, calls, receipts);
        }
        Memory::Column(mut words) => {
            let store = Column::new(words.as_mut_slice());
            run(engine, store, receiver_engine, calls, receipts);
        }
    }
}

// Over an engine for the sender, and the receiver's engine by its name.
// The choice by name stands here and in `perform`, once for each end: a choice that took what to do next would be a trait with an impl for each end.
fn over_receiver<E: Engine + Drop>(
    engine: E,
    receiver: CipherName,
    memory: Memory,
    calls: &mut [SenderStep],
    receipts: &mut [ReceiverStep],
)
    ensures { Performed E.Engine.cipher (cipher_of receiver) memory calls.old calls.new receipts.old receipts.new }
{
    match receiver {
        CipherName::Grain128 => over_memory(engine, Grain128::new(), memory, calls, receipts),
        CipherName::Grain128Wide => {
            over_memory(engine, Grain128x32::new(), memory, calls, receipts)
        }
        CipherName::Grain128a => over_memory(engine, Grain128a::new(), memory, calls, receipts),
        CipherName::Grain128aWide => {
            over_memory(engine, Grain128ax32::new(), memory, calls, receipts)
        }
        CipherName::Sprout => over_memory(engine, Sprout::new(), memory, calls, receipts),
    }
}

/// Makes a sender and a receiver over the engines of these names and a store over this memory, and all steps on them, as `runs::run::run` does:
/// its promise holds of them, for every pair of engines and either store. Nothing is allocated.
pub fn perform(
    sender: CipherName,
    receiver: CipherName,
    memory: Memory,
    calls: &mut [SenderStep],
    receipts: &mut [ReceiverStep],
)
    ensures { Performed (cipher_of sender) (cipher_of receiver) memory calls.old calls.new receipts.old receipts.new }
{
    match sender {
        CipherName::Grain128 => over_receiver(Grain128::new(), receiver, memory, calls, receipts),
        CipherName::Grain128Wide => {
            over_receiver(Grain128x32::new(), receiver, memory, calls, receipts)
        }
        CipherName::Grain128a => over_receiver(Grain128a::new(), receiver, memory, calls, receipts),
        CipherName::Grain128aWide => {
            over_receiver(Grain128ax32::new(), receiver, memory, calls, receipts)
        }
        CipherName::Sprout => over_receiver(Sprout::new(), receiver, memory, calls, receipts),
    }
}
