//! Runs over both ends.
// The calls on a sender and those on a receiver stay two parameters: two lists, made one after the other, which a struct of both would only hold until then.
ghost use Rattle.std.specs.Prelude.{None};
ghost use Rattle.receiver.specs.Receiving.{holds};
ghost use Rattle.histories.specs.Histories.{at_rest, receiver};
ghost use Rattle.histories.specs.Promises.{Promise};
ghost use Rattle.runs.specs.Readings.{ReceiverRan, SenderRan, entries, events, receiver_as, resting_as};

use crate::calls::{ReceiverStep, SenderStep};
use crate::comings::take_in;
use crate::stage::Stage;
use crate::turns::turn;
use marks::store::MarkStore;
use receiver::Receiver;
use sender::resting::Resting;
use stream::engine::{Engine, Reversible};

/// Makes the calls of all steps on a sender, in order, and notes in each step what it answered.
pub fn run_sender<E: Engine + Drop, S: MarkStore + Drop>(
    sender: Resting<E, S>,
    steps: &mut [SenderStep],
)
    ensures { SenderRan E.Engine.cipher S.MarkStore.writes (resting_as E.Engine.cipher S.MarkStore.mark S.MarkStore.left sender)
        steps.old steps.new }
{
    let mut stage = Stage::AtRest(sender);
    for step in steps.iter_mut() {
        stage = turn(stage, step);
    }
}

/// Makes the calls of all steps on a receiver, in order, where a sender's calls were made, and notes in each step what it answered.
pub fn run_receiver<F: Reversible + Drop>(
    mut receiver: Receiver<F>,
    sent: &[SenderStep],
    steps: &mut [ReceiverStep],
)
    ensures { ReceiverRan F.Engine.cipher sent.now (receiver_as F.Engine.cipher (holds F.Engine.cipher F.Engine.state receiver))
        steps.old steps.new }
{
    for step in steps.iter_mut() {
        take_in(&mut receiver, sent, step);
    }
}

/// Makes a sender over an engine and a store in any state, and a receiver over an engine of its own; makes the calls of all steps, first those on the sender and then those on
/// the receiver, which can be handed the frames that the sender wrote; and notes in each step what its call answered. Nothing is allocated: each step brings its buffer.
///
/// The contract is the promise of the link. Every call is made, and every answer is the one that the rules give. In each session the payloads, joined, are the accepted
/// plains, joined, covered by that session's keystream from its first octet. No keystream octet, known by session number and place, covers two payload octets, whichever store
/// write the power fails at and whatever junk that leaves. Every accepted send belongs to one of the sessions. And where the engines are of one cipher, each frame sent opens to
/// its own plain whenever it comes unaltered while the receiver is paired for its session, in any order, any number of times, whatever other octets come.
pub fn run<E: Engine + Drop, S: MarkStore + Drop, F: Reversible + Drop>(
    engine: E,
    store: S,
    receiver_engine: F,
    calls: &mut [SenderStep],
    receipts: &mut [ReceiverStep],
)
    ensures sender { SenderRan E.Engine.cipher S.MarkStore.writes (at_rest (S.MarkStore.mark store, S.MarkStore.left store))
        calls.old calls.new }
    ensures receiver { ReceiverRan F.Engine.cipher calls.new (receiver None None 0 (F.Engine.state receiver_engine))
        receipts.old receipts.new }
    ensures promise { Promise E.Engine.cipher F.Engine.cipher
        (entries calls.old calls.new) (events calls.new receipts.old receipts.new) }
{
    run_sender(Resting::new(engine, store), calls);
    run_receiver(Receiver::new(receiver_engine), calls, receipts);
}
