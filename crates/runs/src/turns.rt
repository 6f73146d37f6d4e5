//! One call on a sender.
// What a sender stands for is named by `resting_as`, `sending_as` and `stage_as` in each clause. A model was tried: its `Value` cannot
// name a bound's ghost member ("projects from a record, but this has type `Type 0`"), and "an impl of `Model` for an enum is not supported yet".
ghost use Rattle.std.specs.Prelude.{◌≡◌, ℕ, List, length};
ghost use Rattle.histories.specs.Calls.{made, opening, torn_opening, sending};
ghost use Rattle.histories.specs.Histories.{Step, marks_of};
ghost use Rattle.runs.specs.Readings.{Acted, Beyond, Turned, answer_of, octets_sent, resting_as, sending_as, stage_as};

use crate::calls::{Pairing, SenderAnswer, SenderCall, SenderStep};
use crate::size::FrameSize;
use crate::stage::Stage;
use marks::store::MarkStore;
use sender::resting::Resting;
use sender::sending::Sending;
use stream::engine::Engine;

fn open<E: Engine + Drop, S: MarkStore + Drop>(
    sender: Resting<E, S>,
    pairing: &Pairing,
) -> (Stage<E, S>, SenderAnswer)
    ensures step { (out : List ℕ) → Step E.Engine.cipher S.MarkStore.writes (resting_as E.Engine.cipher S.MarkStore.mark S.MarkStore.left sender)
        (made (opening pairing.now.key.items pairing.now.label.items pairing.now.allowance) (answer_of result.1 out))
        (stage_as E.Engine.cipher E.Engine.state S.MarkStore.mark S.MarkStore.left result.0) }
    ensures unwritten { octets_sent result.1 ≡ 0 }
{
    match sender.open(
        pairing.key.as_slice(),
        pairing.label.as_slice(),
        pairing.allowance,
    ) {
        Ok(sending) => {
            let session = sending.progress().session;
            (Stage::InSession(sending), SenderAnswer::Opened(session))
        }
        Err((refusal, resting)) => (Stage::AtRest(resting), SenderAnswer::Refused(refusal)),
    }
}

fn torn_open<E: Engine + Drop, S: MarkStore + Drop>(
    sender: Resting<E, S>,
    pairing: &Pairing,
    writes_done: u32,
    junk: u32,
) -> (Stage<E, S>, SenderAnswer)
    ensures step { (out : List ℕ) → Step E.Engine.cipher S.MarkStore.writes (resting_as E.Engine.cipher S.MarkStore.mark S.MarkStore.left sender)
        (made (torn_opening pairing.now.key.items pairing.now.label.items pairing.now.allowance writes_done junk) (answer_of result.1 out))
        (stage_as E.Engine.cipher E.Engine.state S.MarkStore.mark S.MarkStore.left result.0) }
    ensures unwritten { octets_sent result.1 ≡ 0 }
{
    let (key, label) = (pairing.key.as_slice(), pairing.label.as_slice());
    match sender.torn_open(key, label, pairing.allowance, writes_done, junk) {
        Ok(resting) => (Stage::AtRest(resting), SenderAnswer::Torn),
        Err((refusal, resting)) => (Stage::AtRest(resting), SenderAnswer::Refused(refusal)),
    }
}

fn send<E: Engine + Drop, S: MarkStore + Drop>(
    mut sender: Sending<E, S>,
    plain: &[u8],
    out: &mut [u8],
) -> (Stage<E, S>, SenderAnswer)
    ensures step { Step E.Engine.cipher S.MarkStore.writes (sending_as E.Engine.cipher E.Engine.state S.MarkStore.mark S.MarkStore.left sender)
        (made (sending plain.now (length out.old)) (answer_of result.1 out.new))
        (stage_as E.Engine.cipher E.Engine.state S.MarkStore.mark S.MarkStore.left result.0) }
    ensures beyond { Beyond (octets_sent result.1) out.old out.new }
{
    match sender.send(plain, out) {
        Ok(octets) => (
            Stage::InSession(sender),
            SenderAnswer::Sent(FrameSize { octets }),
        ),
        Err(refusal) => (Stage::InSession(sender), SenderAnswer::Refused(refusal)),
    }
}

// One call on a sender at rest, whatever buffer it is lent. What the build does not admit there is not made.
fn turn_at_rest<E: Engine + Drop, S: MarkStore + Drop>(
    sender: Resting<E, S>,
    call: &SenderCall,
) -> (Stage<E, S>, SenderAnswer)
    ensures { (out : List ℕ) → Acted E.Engine.cipher S.MarkStore.writes (resting_as E.Engine.cipher S.MarkStore.mark S.MarkStore.left sender)
        call.now out out result.1
        (stage_as E.Engine.cipher E.Engine.state S.MarkStore.mark S.MarkStore.left result.0) }
{
    match call {
        SenderCall::Open(pairing) => open(sender, pairing),
        SenderCall::TornOpen {
            pairing,
            writes_done,
            junk,
        } => torn_open(sender, pairing, *writes_done, *junk),
        SenderCall::Send { .. } | SenderCall::Close => {
            (Stage::AtRest(sender), SenderAnswer::NotAdmitted)
        }
        SenderCall::PowerCut => (Stage::AtRest(sender.power_cut()), SenderAnswer::Rested),
    }
}

// One call on a sender in a session. What the build does not admit there is not made.
fn turn_in_session<E: Engine + Drop, S: MarkStore + Drop>(
    sender: Sending<E, S>,
    call: &SenderCall,
    out: &mut [u8],
) -> (Stage<E, S>, SenderAnswer)
    ensures { Acted E.Engine.cipher S.MarkStore.writes
        (sending_as E.Engine.cipher E.Engine.state S.MarkStore.mark S.MarkStore.left sender)
        call.now out.old out.new result.1
        (stage_as E.Engine.cipher E.Engine.state S.MarkStore.mark S.MarkStore.left result.0) }
{
    match call {
        SenderCall::Send { plain } => send(sender, plain.as_slice(), out),
        SenderCall::Close => (Stage::AtRest(sender.close()), SenderAnswer::Rested),
        SenderCall::PowerCut => (Stage::AtRest(sender.power_cut()), SenderAnswer::Rested),
        SenderCall::Open(_) | SenderCall::TornOpen { .. } => {
            (Stage::InSession(sender), SenderAnswer::NotAdmitted)
        }
    }
}

// One call on a sender, if the build admits it on such a sender.
fn acted<E: Engine + Drop, S: MarkStore + Drop>(
    stage: Stage<E, S>,
    call: &SenderCall,
    out: &mut [u8],
) -> (Stage<E, S>, SenderAnswer)
    ensures { Acted E.Engine.cipher S.MarkStore.writes
        (stage_as E.Engine.cipher E.Engine.state S.MarkStore.mark S.MarkStore.left stage)
        call.now out.old out.new result.1
        (stage_as E.Engine.cipher E.Engine.state S.MarkStore.mark S.MarkStore.left result.0) }
{
    match stage {
        Stage::AtRest(sender) => turn_at_rest(sender, call),
        Stage::InSession(sender) => turn_in_session(sender, call, out),
    }
}

// The mark of a sender's store and the raises left.
fn store_numbers<E: Engine + Drop, S: MarkStore + Drop>(stage: &Stage<E, S>) -> (u32, u32)
    ensures { marks_of E.Engine.cipher (stage_as E.Engine.cipher E.Engine.state S.MarkStore.mark S.MarkStore.left stage.now)
        ≡ (result.0, result.1) }
{
    match stage {
        Stage::AtRest(sender) => (sender.store().read(), sender.store().raises_left()),
        Stage::InSession(sender) => (sender.store().read(), sender.store().raises_left()),
    }
}

/// Makes the call of a step on a sender, if the build admits it on such a sender, and notes what it answered and the numbers of the store after it.
pub fn turn<E: Engine + Drop, S: MarkStore + Drop>(
    stage: Stage<E, S>,
    step: &mut SenderStep,
) -> Stage<E, S>
    ensures { Turned E.Engine.cipher S.MarkStore.writes
        (stage_as E.Engine.cipher E.Engine.state S.MarkStore.mark S.MarkStore.left stage)
        step.old step.new
        (stage_as E.Engine.cipher E.Engine.state S.MarkStore.mark S.MarkStore.left result) }
{
    let (stage, answer) = acted(stage, &step.call, step.out.as_mut_slice());
    step.answer = answer;
    (step.mark, step.left) = store_numbers(&stage);
    stage
}
