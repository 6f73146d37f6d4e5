//! One call on a receiver.
// What a receiver stands for is named by `receiver_as` and `holds` in each clause: a model's `Value` cannot name a bound's ghost member.
ghost use Rattle.std.specs.Prelude.{◌≡◌, ℕ, ◌≤◌, List, length, IfSome, Some};
ghost use Rattle.std.specs.Option.{option_map};
ghost use Rattle.receiver.specs.Receiving.{holds};
ghost use Rattle.histories.specs.Calls.{came, receiving};
ghost use Rattle.histories.specs.Histories.{Receives};
ghost use Rattle.runs.specs.Readings.{Beyond, Handled, Taken, changed, frame_at, octets_opened, outcome_of, pairing_of, receiver_as};

use crate::calls::{Pairing, ReceiverAnswer, ReceiverCall, ReceiverStep, SenderAnswer, SenderStep};
use receiver::Receiver;
use stream::engine::Reversible;

fn pair<F: Reversible>(receiver: &mut Receiver<F>, pairing: &Pairing) -> ReceiverAnswer
    ensures step { (out : List ℕ) → Receives F.Engine.cipher
        (receiver_as F.Engine.cipher (holds F.Engine.cipher F.Engine.state receiver.old))
        (came (pairing_of pairing.now) (outcome_of result out))
        (receiver_as F.Engine.cipher (holds F.Engine.cipher F.Engine.state receiver.new)) }
    ensures unwritten { octets_opened (Some result) ≡ 0 }
{
    match receiver.pair(
        pairing.key.as_slice(),
        pairing.label.as_slice(),
        pairing.allowance,
    ) {
        Ok(()) => ReceiverAnswer::Paired,
        Err(refusal) => ReceiverAnswer::Declined(refusal),
    }
}

fn receive<F: Reversible>(
    receiver: &mut Receiver<F>,
    octets: &[u8],
    out: &mut [u8],
) -> ReceiverAnswer
    ensures step { Receives F.Engine.cipher
        (receiver_as F.Engine.cipher (holds F.Engine.cipher F.Engine.state receiver.old))
        (came (receiving octets.now (length out.old)) (outcome_of result out.new))
        (receiver_as F.Engine.cipher (holds F.Engine.cipher F.Engine.state receiver.new)) }
    ensures beyond { Beyond (octets_opened (Some result)) out.old out.new }
{
    match receiver.receive(octets, out) {
        Ok(received) => ReceiverAnswer::Uncovered(received),
        Err(refusal) => ReceiverAnswer::Declined(refusal),
    }
}

// The frame that the call of an index wrote, if it wrote one. Its size stands beside its buffer, as a run allocates nothing: each step is lent its buffer.
fn frame_at(sent: &[SenderStep], call: usize) -> Option<&[u8]>
    ensures value { option_map (λ x. x.now) result ≡ frame_at sent.now call }
    ensures short { IfSome result (λ f. length f.now ≤ 1034) }
{
    let step = sent.get(call)?;
    let SenderAnswer::Sent(size) = step.answer else {
        return None;
    };
    let out = step.out.as_slice();
    Some(&out[0..size.octets.min(out.len())])
}

// Adds a change bit by bit to the first octets of a frame.
fn change_octets(octets: &mut [u8], change: &[u8])
    ensures { octets.new ≡ changed octets.old change.now }
{
    let end = octets.len().min(change.len());
    // by index: a proof knows no element that a zip with `iter_mut` lent once its loop is over
    for i in 0..end {
        octets[i] ^= change[i];
    }
}

// Hands a frame of at most 1,034 octets to a receiver, with a change added on its way.
fn deliver<F: Reversible>(
    receiver: &mut Receiver<F>,
    frame: &[u8],
    change: &[u8],
    out: &mut [u8],
) -> ReceiverAnswer
    requires { length frame.now ≤ 1034 }
    ensures step { Receives F.Engine.cipher
        (receiver_as F.Engine.cipher (holds F.Engine.cipher F.Engine.state receiver.old))
        (came (receiving (changed frame.now change.now) (length out.old)) (outcome_of result out.new))
        (receiver_as F.Engine.cipher (holds F.Engine.cipher F.Engine.state receiver.new)) }
    ensures beyond { Beyond (octets_opened (Some result)) out.old out.new }
{
    // an array, as a run allocates nothing
    let mut copy = [0u8; 1034];
    let octets = &mut copy[0..frame.len()];
    octets.copy_from_slice(frame);
    change_octets(octets, change);
    receive(receiver, octets, out)
}

// One call on a receiver, where the sender's calls were made. No answer: there was no frame to deliver, and no call was made.
fn handled<F: Reversible>(
    receiver: &mut Receiver<F>,
    sent: &[SenderStep],
    call: &ReceiverCall,
    out: &mut [u8],
) -> Option<ReceiverAnswer>
    ensures { Handled F.Engine.cipher sent.now
        (receiver_as F.Engine.cipher (holds F.Engine.cipher F.Engine.state receiver.old))
        call.now out.old out.new result
        (receiver_as F.Engine.cipher (holds F.Engine.cipher F.Engine.state receiver.new)) }
{
    match call {
        ReceiverCall::Pair(pairing) => Some(pair(receiver, pairing)),
        ReceiverCall::Receive { octets } => Some(receive(receiver, octets.as_slice(), out)),
        ReceiverCall::Deliver { call, change } => {
            let frame = frame_at(sent, *call)?;
            Some(deliver(receiver, frame, change.as_slice(), out))
        }
    }
}

/// Makes the call of a step on a receiver, where the sender's calls were made, and notes what it answered.
pub fn take_in<F: Reversible>(
    receiver: &mut Receiver<F>,
    sent: &[SenderStep],
    step: &mut ReceiverStep,
)
    ensures { Taken F.Engine.cipher sent.now
        (receiver_as F.Engine.cipher (holds F.Engine.cipher F.Engine.state receiver.old))
        step.old step.new
        (receiver_as F.Engine.cipher (holds F.Engine.cipher F.Engine.state receiver.new)) }
{
    step.answer = handled(receiver, sent, &step.call, step.out.as_mut_slice());
}
