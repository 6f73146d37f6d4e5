//! What the tests share.
use std::process::Abort;
use std::test::Fail;
use stream::draws::take_bits;
use stream::engine::Engine;

/// A key.
pub const KEY: [u8; 16] = *b"sixteen octets..";

/// An IV. All bits of octet 0 but bit 0 are ones, and octet 8 is below 64.
pub const IV: [u8; 12] = *b"\xfetwelve 12 x";

/// Loads the key and the IV, as many octets of them as the cipher has.
pub fn start<E: Engine>(engine: &mut E) -> Result<(), Fail> {
    let figures = E::figures();
    engine.load(&KEY[0..figures.key.min(16)], &IV[0..figures.iv.min(12)])?;
    Ok(())
}

/// Holds the next 256 bits of two engines against each other; `at` says where.
pub fn agree<E: Engine, F: Engine>(rt: &impl Abort, one: &mut E, other: &mut F, at: &str) {
    for _ in 0..8u32 {
        assert_eq!(rt;
            take_bits(one, 32),
            take_bits(other, 32),
            "the engines differ: {at}"
        );
    }
}
