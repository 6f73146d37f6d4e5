//! Draws of any size, and steps forward and back.
use crate::shared::*;
use grain128::engines::*;
use sprout::engine::*;
use std::process::Abort;
use std::test::Fail;
use stream::draws::{backward, forward, take_bits};
use stream::engine::{Engine, Reversible};

/// What is asked of the draws of one round. They give 106 bits at stride 32.
const ASKED: [u32; 7] = [0, 1, 3, 7, 31, 32, 40];

/// So many rounds give more than the bits of 4,096 octets.
const ROUNDS: u32 = 310;

/// Holds the bits of an engine of stride 32 against those of one of stride 1.
fn strides_agree<E: Engine + Drop, F: Engine + Drop>(
    rt: &impl Abort,
    mut wide: E,
    mut narrow: F,
) -> Result<(), Fail> {
    start(&mut wide)?;
    start(&mut narrow)?;
    for _ in 0..ROUNDS {
        for asked in ASKED {
            let (bits, count) = wide.draw(asked);
            assert_eq!(rt; count, asked.min(32), "the count of a draw at stride 32");
            assert_eq!(rt; bits, take_bits(&mut narrow, count), "the strides differ");
        }
    }
    Ok(())
}

#[test]
fn both_strides_agree_over_uneven_draws(rt: HostRuntime) -> Result<(), Fail> {
    strides_agree(&rt, Grain128x32::new(), Grain128::new())?;
    strides_agree(&rt, Grain128ax32::new(), Grain128a::new())
}

/// Holds the count of a draw against the smaller of what was asked and the stride.
fn draws_by<E: Engine + Drop>(rt: &impl Abort, mut engine: E, stride: u32) -> Result<(), Fail> {
    start(&mut engine)?;
    assert_eq!(rt; E::STRIDE, stride, "the stride");
    for asked in ASKED {
        let (bits, count) = engine.draw(asked);
        assert_eq!(rt; count, asked.min(stride), "the count of a draw");
        assert_eq!(rt;
            bits as u64 >> count.min(32),
            0,
            "a draw has more bits than it counts"
        );
    }
    Ok(())
}

#[test]
fn draws_give_the_smaller_of_asked_and_stride(rt: HostRuntime) -> Result<(), Fail> {
    draws_by(&rt, Grain128::new(), 1)?;
    draws_by(&rt, Grain128x32::new(), 32)?;
    draws_by(&rt, Grain128a::new(), 1)?;
    draws_by(&rt, Grain128ax32::new(), 32)?;
    draws_by(&rt, Sprout::new(), 1)
}

/// Moves an engine 10,000 steps forward and back, by steps and by octets. The other one shows where it must arrive.
fn comes_back<E: Reversible + Drop>(
    rt: &impl Abort,
    mut engine: E,
    mut still: E,
) -> Result<(), Fail> {
    start(&mut engine)?;
    start(&mut still)?;
    for _ in 0..10_000u32 {
        let _ = engine.draw(1);
    }
    for _ in 0..10_000u32 {
        engine.back();
    }
    agree(rt, &mut engine, &mut still, "by steps");
    forward(&mut engine, 1250);
    backward(&mut engine, 1250);
    agree(rt, &mut engine, &mut still, "by octets");
    Ok(())
}

#[test]
fn ten_thousand_steps_forward_and_back(rt: HostRuntime) -> Result<(), Fail> {
    comes_back(&rt, Grain128::new(), Grain128::new())?;
    comes_back(&rt, Grain128x32::new(), Grain128x32::new())?;
    comes_back(&rt, Grain128a::new(), Grain128a::new())?;
    comes_back(&rt, Grain128ax32::new(), Grain128ax32::new())?;
    comes_back(&rt, Sprout::new(), Sprout::new())
}
