//! Refused loads.
use crate::shared::*;
use grain128::engines::*;
use sprout::engine::*;
use std::process::Abort;
use std::test::Fail;
use stream::engine::Engine;
use stream::refusal::*;

/// An IV whose bit 0 is one.
const ODD: [u8; 12] = *b"\x01twelve more";

/// An engine whose loads are refused, and one that shows what it must still hold.
#[derive(Drop)]
struct Refusing<E> {
    engine: E,
    still: E,
}

impl<E: Engine> Refusing<E> {
    /// Checks that a load is refused and leaves the engine as it was.
    fn refuses(&mut self, rt: &impl Abort, key: &[u8], iv: &[u8], why: Refusal) {
        assert_eq!(rt; E::check(key, iv), Err(why), "what the check answers");
        assert_eq!(rt;
            self.engine.load(key, iv),
            Err(why),
            "what the load answers"
        );
        agree(
            rt,
            &mut self.engine,
            &mut self.still,
            "a refused load changed the engine",
        );
    }

    /// Checks that wrong lengths are refused, that of the key first, whatever bit 0 of the IV is.
    fn refuses_lengths(&mut self, rt: &impl Abort) {
        for iv in [&IV[0..12], &ODD[0..12], &ODD[0..11]] {
            self.refuses(rt, &KEY[0..15], iv, Refusal::KeyLength);
        }
        self.refuses(rt, b"seventeen octets.", &IV, Refusal::KeyLength);
        for iv in [&IV[0..11], &ODD[0..11], &KEY[0..13]] {
            self.refuses(rt, &KEY, iv, Refusal::LabelLength);
        }
    }
}

/// Checks the loads of one cipher, which forbids that bit 0 of the IV is one or does not.
fn loads<E: Engine + Drop>(
    rt: &impl Abort,
    engine: E,
    still: E,
    forbids: bool,
) -> Result<(), Fail> {
    let mut both = Refusing { engine, still };
    assert_eq!(rt; E::check(&KEY, &IV), Ok(()), "bit 0 of the IV is zero");
    start(&mut both.engine)?;
    start(&mut both.still)?;
    both.refuses_lengths(rt);
    if forbids {
        both.refuses(rt, &KEY, &ODD, Refusal::ForbiddenBit);
    } else {
        assert_eq!(rt;
            both.engine.load(&KEY, &ODD),
            Ok(()),
            "bit 0 of the IV is free"
        );
    }
    Ok(())
}

/// Checks the numbers of a load's refusals.
fn numbers(rt: &impl Abort) {
    assert_eq!(rt; Refusal::KeyLength.number(), 1, "the key's length");
    assert_eq!(rt; Refusal::LabelLength.number(), 2, "the IV's length");
    assert_eq!(rt; Refusal::ForbiddenBit.number(), 3, "the forbidden bit");
}

#[test]
fn loads_are_refused_in_order_and_change_nothing(rt: HostRuntime) -> Result<(), Fail> {
    numbers(&rt);
    loads(&rt, Grain128::new(), Grain128::new(), false)?;
    loads(&rt, Grain128x32::new(), Grain128x32::new(), false)?;
    loads(&rt, Grain128a::new(), Grain128a::new(), true)?;
    loads(&rt, Grain128ax32::new(), Grain128ax32::new(), true)
}

#[test]
fn sprout_takes_63_and_refuses_64_in_octet_8(rt: HostRuntime) {
    let mut engine = Sprout::new();
    let key = [7; 10];
    let mut iv = [9; 9];
    iv[8] = 63;
    assert_eq!(rt; engine.load(&key, &iv), Ok(()), "63");
    iv[8] = 64;
    assert_eq!(rt; engine.load(&key, &iv), Err(Refusal::ForbiddenBit), "64");
    iv[8] = 128;
    assert_eq!(rt; Sprout::check(&key, &iv), Err(Refusal::ForbiddenBit), "128");
}
