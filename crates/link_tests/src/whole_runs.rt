//! Whole runs, from steps given as data.
use crate::shared::*;
use grain128::engines::*;
use marks::store::MarkStore;
use receiver::Received;
use runs::calls::{
    Pairing, ReceiverAnswer, ReceiverCall, ReceiverStep, SenderAnswer, SenderCall, SenderStep,
};
use runs::run::run;
use std::alloc::Global;
use std::process::Abort;
use std::test::Fail;
use stream::engine::{Engine, Reversible};
use stream::refusal::Refusal;
use strip::strip::*;

// The key and the label at an allowance of 10 octets.
fn pairing<E: Engine>(heap: Global) -> Result<Pairing, Fail> {
    Ok(Pairing {
        key: key::<E>().to_vec(heap)?,
        label: label::<E>().to_vec(heap)?,
        allowance: 10,
    })
}

// A send before the open, an open, a send, a close.
fn sender_steps<E: Engine>(heap: Global) -> Result<Vec<SenderStep>, Fail> {
    let mut steps = Vec::new(heap);
    let plain = b"12 up".to_vec(heap)?;
    steps.push(SenderStep::new(SenderCall::Send { plain }, vec![in heap; 0u8; 15]?))?;
    let open = SenderCall::Open(pairing::<E>(heap)?);
    steps.push(SenderStep::new(open, Vec::new(heap)))?;
    let plain = b"12 up".to_vec(heap)?;
    steps.push(SenderStep::new(SenderCall::Send { plain }, vec![in heap; 0u8; 16]?))?;
    steps.push(SenderStep::new(SenderCall::Close, Vec::new(heap)))?;
    Ok(steps)
}

fn delivery(heap: Global, call: usize, change: &[u8]) -> Result<ReceiverStep, Fail> {
    let change = change.to_vec(heap)?;
    Ok(ReceiverStep::new(
        ReceiverCall::Deliver { call, change },
        vec![in heap; 0xeeu8; 6]?,
    ))
}

// A pair; then deliveries of the frame that was not sent, of the one that was, of it with a payload bit and with the length altered, and a call past the last.
fn receiver_steps<F: Engine>(heap: Global) -> Result<Vec<ReceiverStep>, Fail> {
    let mut steps = Vec::new(heap);
    let pair = ReceiverCall::Pair(pairing::<F>(heap)?);
    steps.push(ReceiverStep::new(pair, Vec::new(heap)))?;
    steps.push(delivery(heap, 0, b"")?)?;
    steps.push(delivery(heap, 2, b"")?)?;
    steps.push(delivery(heap, 2, &[0, 0, 0, 0, 0, 0, 0, 0, 0, 0, 1])?)?;
    steps.push(delivery(heap, 2, &[0, 0, 0, 0, 0, 0, 0, 0, 1])?)?;
    steps.push(delivery(heap, 4, b"")?)?;
    Ok(steps)
}

fn check_receipt(
    rt: &impl Abort,
    step: Option<&ReceiverStep>,
    answer: Option<ReceiverAnswer>,
    out: &[u8],
    at: &str,
) -> Result<(), Fail> {
    let step = step.ok_or("no such step")?;
    assert_eq!(rt; step.answer, answer, "the answer: {at}");
    assert_eq!(rt; step.out.as_slice(), out, "the buffer: {at}");
    Ok(())
}

fn opened(distance: i32) -> Option<ReceiverAnswer> {
    Some(ReceiverAnswer::Uncovered(Received {
        length: 5,
        distance,
    }))
}

// An open, a send and a close.
fn calls<E: Engine>(heap: Global) -> Result<Vec<SenderStep>, Fail> {
    let mut calls = Vec::new(heap);
    let open = SenderCall::Open(pairing::<E>(heap)?);
    calls.push(SenderStep::new(open, Vec::new(heap)))?;
    let plain = b"12 up".to_vec(heap)?;
    calls.push(SenderStep::new(SenderCall::Send { plain }, vec![in heap; 0u8; 15]?))?;
    calls.push(SenderStep::new(SenderCall::Close, Vec::new(heap)))?;
    Ok(calls)
}

// The frame of the second call.
fn frame_of<E: Engine + Drop, S: MarkStore + Drop, F: Reversible + Drop>(
    rt: &impl Abort,
    heap: Global,
    engine: E,
    store: S,
    other: F,
) -> Result<Vec<u8>, Fail> {
    let mut calls = calls::<E>(heap)?;
    let mut none = Vec::new(heap);
    run(
        engine,
        store,
        other,
        calls.as_mut_slice(),
        none.as_mut_slice(),
    );
    let open = calls.get(0).ok_or("no such step")?;
    assert_eq!(rt; open.answer, SenderAnswer::Opened(0), "the open is made");
    let close = calls.get(2).ok_or("no such step")?;
    assert_eq!(rt; close.answer, SenderAnswer::Rested, "the close is made");
    let send = calls.get(1).ok_or("no such step")?;
    match send.answer {
        SenderAnswer::Sent(size) => {
            assert_eq!(rt; size.octets, 15, "the frame fills its buffer");
            Ok(send.out.as_slice().to_vec(heap)?)
        }
        _ => Err(Fail::new("the send is not accepted")),
    }
}

// A pair, and a receive of the frame.
fn opens<E: Engine + Drop, S: MarkStore + Drop, F: Reversible + Drop>(
    rt: &impl Abort,
    heap: Global,
    engine: E,
    store: S,
    other: F,
    frame: Vec<u8>,
) -> Result<(), Fail> {
    let mut receipts = Vec::new(heap);
    let pair = ReceiverCall::Pair(pairing::<F>(heap)?);
    receipts.push(ReceiverStep::new(pair, Vec::new(heap)))?;
    receipts.push(ReceiverStep::new(
        ReceiverCall::Receive { octets: frame },
        vec![in heap; 0u8; 5]?,
    ))?;
    let mut none = Vec::new(heap);
    run(
        engine,
        store,
        other,
        none.as_mut_slice(),
        receipts.as_mut_slice(),
    );
    check_receipt(
        rt,
        receipts.get(0),
        Some(ReceiverAnswer::Paired),
        b"",
        "the pair is made",
    )?;
    check_receipt(rt, receipts.get(1), opened(0), b"12 up", "the frame opens")
}

#[test]
fn a_run_makes_every_call_and_its_frame_opens(rt: HostRuntime) -> Result<(), Fail> {
    let heap = rt.alloc();
    let mut octets = [0xff];
    let frame = frame_of(
        &rt,
        heap,
        Grain128x32::new(),
        Strip::new(&mut octets),
        Grain128::new(),
    )?;
    assert_eq!(rt; octets, [0xfe], "the store is raised once");
    opens(
        &rt,
        heap,
        Grain128::new(),
        Strip::new(&mut octets),
        Grain128::new(),
        frame,
    )
}

#[test]
fn a_run_makes_every_call_and_delivers_its_frames(rt: HostRuntime) -> Result<(), Fail> {
    let heap = rt.alloc();
    let mut octets = [0xff];
    let mut calls = sender_steps::<Grain128x32>(heap)?;
    let mut receipts = receiver_steps::<Grain128>(heap)?;
    run(
        Grain128x32::new(),
        Strip::new(&mut octets),
        Grain128::new(),
        calls.as_mut_slice(),
        receipts.as_mut_slice(),
    );
    assert_eq!(rt; octets, [0xfe], "the store is raised once");
    let early = calls.get(0).ok_or("no such step")?;
    assert_eq!(rt; early.answer, SenderAnswer::NotAdmitted, "a send at rest");
    let send = calls.get(2).ok_or("no such step")?;
    assert_eq!(rt; (send.mark, send.left), (1, 7), "the numbers of the store");
    let paired = Some(ReceiverAnswer::Paired);
    let refused = Some(ReceiverAnswer::Declined(Refusal::BadFrame));
    check_receipt(&rt, receipts.get(0), paired, b"", "pair")?;
    check_receipt(&rt, receipts.get(1), None, &[0xee; 6], "nothing sent")?;
    check_receipt(&rt, receipts.get(2), opened(0), b"12 up\xee", "the frame")?;
    check_receipt(
        &rt,
        receipts.get(3),
        opened(-5),
        b"02 up\xee",
        "one payload bit",
    )?;
    check_receipt(
        &rt,
        receipts.get(4),
        refused,
        &[0xee; 6],
        "the length altered",
    )?;
    check_receipt(&rt, receipts.get(5), None, &[0xee; 6], "past the last call")
}
