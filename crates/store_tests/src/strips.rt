//! The strip.
use crate::shared::*;
use marks::store::MarkStore;
use std::test::Fail;
use strip::strip::*;

#[test]
fn a_strip_of_no_octets_is_full(rt: HostRuntime) -> Result<(), Fail> {
    let mut octets = [0u8; 0];
    full(&rt, &mut Strip::new(&mut octets), 0, "no octet");
    Ok(())
}

#[test]
fn raises_clear_the_lowest_bit_of_the_first_octet_that_has_any(
    rt: HostRuntime,
) -> Result<(), Fail> {
    let mut octets = [0xfe, 0x7f];
    let mut strip = Strip::new(&mut octets);
    stands(&rt, &strip, 2, 14, "as found");
    strip.raise()?;
    stands(&rt, &strip, 3, 13, "raised once");
    strip.torn_raise(0, 2)?;
    stands(&rt, &strip, 3, 13, "even junk writes nothing");
    strip.torn_raise(0, 3)?;
    stands(&rt, &strip, 4, 12, "odd junk writes the bit");
    strip.torn_raise(1, 2)?;
    stands(&rt, &strip, 5, 11, "the write went through");
    assert_eq!(rt; octets, [0xf0, 0x7f]);
    Ok(())
}

#[test]
fn a_strip_is_raised_until_it_is_full(rt: HostRuntime) -> Result<(), Fail> {
    let mut octets = [0x00, 0x80, 0x01, 0x00];
    let mut strip = Strip::new(&mut octets);
    stands(&rt, &strip, 30, 2, "as found");
    strip.raise()?;
    stands(&rt, &strip, 31, 1, "raised once");
    strip.raise()?;
    full(&rt, &mut strip, 32, "raised twice");
    assert_eq!(rt; octets, [0; 4]);
    Ok(())
}

#[test]
fn at_most_4096_octets_are_used(rt: HostRuntime) -> Result<(), Fail> {
    let mut octets = vec![in rt.alloc(); 0u8; 4097]?;
    octets[4095] = 0x80;
    octets[4096] = 0xff;
    let mut strip = Strip::new(&mut octets);
    stands(&rt, &strip, 32_767, 1, "as found");
    strip.raise()?;
    full(&rt, &mut strip, 32_768, "raised once");
    let mut fresh = vec![in rt.alloc(); 0xffu8; 4096]?;
    stands(&rt, &Strip::new(&mut fresh), 0, 32_768, "fresh");
    Ok(())
}
