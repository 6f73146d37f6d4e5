//! Refused calls.
use crate::shared::*;
use grain128::engines::*;
use marks::store::MarkStore;
use receiver::{Received, Receiver};
use sender::resting::Resting;
use sender::sending::Sending;
use std::process::Abort;
use std::test::Fail;
use stream::engine::{Engine, Reversible};
use stream::refusal::*;
use strip::strip::*;

/// Checks that an open is refused, and gives the sender back.
fn refused_open<E: Engine + Drop, S: MarkStore + Drop>(
    rt: &impl Abort,
    resting: Resting<E, S>,
    key: &[u8],
    label: &[u8],
    allowance: u32,
    why: Refusal,
) -> Result<Resting<E, S>, Fail> {
    let resting = match resting.open(key, label, allowance) {
        Ok(_) => return Err(Fail::new("an open is accepted")),
        Err((refusal, resting)) => {
            assert_eq!(rt; refusal, why, "an open");
            resting
        }
    };
    match resting.torn_open(key, label, allowance, 1, 1) {
        Ok(_) => Err(Fail::new("a torn open is accepted")),
        Err((refusal, resting)) => {
            assert_eq!(rt; refusal, why, "a torn open");
            Ok(resting)
        }
    }
}

/// Checks the refusals of opens over a store that has no raise left.
fn opens<E: Engine + Drop, S: MarkStore + Drop>(
    rt: &impl Abort,
    engine: E,
    store: S,
) -> Result<(), Fail> {
    let (key, label) = (key::<E>(), label::<E>());
    let half_key = &key[0..key.len() / 2];
    let half_label = &label[0..label.len() / 2];
    let resting = Resting::new(engine, store);
    let resting = refused_open(rt, resting, half_key, half_label, 0, Refusal::KeyLength)?;
    let resting = refused_open(rt, resting, key, half_label, 0, Refusal::LabelLength)?;
    let resting = refused_open(rt, resting, key, label, 0, Refusal::BadAllowance)?;
    let resting = refused_open(rt, resting, key, label, 16_777_217, Refusal::BadAllowance)?;
    let _ = refused_open(rt, resting, key, label, 16_777_216, Refusal::NoRaiseLeft)?;
    Ok(())
}

#[test]
fn opens_are_refused_in_order(rt: HostRuntime) -> Result<(), Fail> {
    let mut octets = [0x00];
    opens(&rt, Grain128x32::new(), Strip::new(&mut octets))?;
    assert_eq!(rt; octets, [0x00]);
    Ok(())
}

/// Checks the refusals of sends at allowance 10, and sends at places 0 and 4.
fn sends<E: Engine, S: MarkStore>(
    rt: &impl Abort,
    sender: &mut Sending<E, S>,
    frames: &mut [u8; 40],
) {
    let plain = [7; 1025];
    assert_eq!(rt;
        sender.send(&plain[0..0], &mut frames[0..9]),
        Err(Refusal::PlainLength),
        "no octet"
    );
    assert_eq!(rt;
        sender.send(&plain, &mut frames[0..9]),
        Err(Refusal::PlainLength),
        "1,025 octets"
    );
    assert_eq!(rt;
        sender.send(&plain[0..11], &mut frames[0..20]),
        Err(Refusal::ShortBuffer)
    );
    assert_eq!(rt; sender.send(&plain[0..4], &mut frames[0..14]), Ok(14));
    assert_eq!(rt;
        sender.send(&plain[0..7], &mut frames[14..40]),
        Err(Refusal::AboveAllowance)
    );
    assert_eq!(rt; sender.send(&plain[0..6], &mut frames[14..40]), Ok(16));
}

/// Checks the refusals of receives, and the distances to the frame at place 4.
fn receives<F: Reversible>(
    rt: &impl Abort,
    receiver: &mut Receiver<F>,
    frames: &mut [u8; 40],
) -> Result<(), Fail> {
    let mut out = [0; 6];
    assert_eq!(rt;
        receiver.receive(&frames[0..9], &mut out),
        Err(Refusal::NeverPaired)
    );
    receiver.pair(key::<F>(), label::<F>(), 10)?;
    assert_eq!(rt;
        receiver.receive(&frames[0..9], &mut out),
        Err(Refusal::BadFrame)
    );
    assert_eq!(rt;
        receiver.receive(&frames[0..13], &mut out),
        Err(Refusal::BadFrame)
    );
    assert_eq!(rt;
        receiver.receive(&frames[14..30], &mut out[0..5]),
        Err(Refusal::ShortBuffer)
    );
    assert_eq!(rt;
        receiver.receive(&frames[14..30], &mut out),
        Ok(Received {
            length: 6,
            distance: 4,
        })
    );
    assert_eq!(rt;
        receiver.receive(&frames[14..30], &mut out),
        Ok(Received {
            length: 6,
            distance: -6,
        })
    );
    frames[18] = 0xff;
    frames[21] = 0xff;
    assert_eq!(rt;
        receiver.receive(&frames[14..30], &mut out),
        Err(Refusal::AboveAllowance),
        "a place near 32 bits"
    );
    Ok(())
}

/// Sends and receives with refusals between.
fn both<E: Engine + Drop, S: MarkStore + Drop, F: Reversible + Drop>(
    rt: &impl Abort,
    engine: E,
    store: S,
    other: F,
) -> Result<(), Fail> {
    let mut frames = [0; 40];
    match Resting::new(engine, store).open(key::<E>(), label::<E>(), 10) {
        Ok(mut sender) => sends(rt, &mut sender, &mut frames),
        Err(_) => return Err(Fail::new("the open is refused")),
    }
    let mut receiver = Receiver::new(other);
    receives(rt, &mut receiver, &mut frames)
}

#[test]
fn sends_and_receives_are_refused_in_order(rt: HostRuntime) -> Result<(), Fail> {
    let mut octets = [0xff];
    both(
        &rt,
        Grain128x32::new(),
        Strip::new(&mut octets),
        Grain128x32::new(),
    )
}
