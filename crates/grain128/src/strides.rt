//! How many bits a draw gives at the most.
ghost use Rattle.std.specs.Prelude.{ℕ, ◌≤◌};
ghost use Rattle.std.proofs.Common.{lit≤};
ghost use Rattle.stream.specs.Ciphers.{OneCipher};
ghost use Rattle.grain128.specs.Family.{SameCipher};
ghost use Rattle.grain128.specs.Grain128.{grain128, grain128x32};
ghost use Rattle.grain128.specs.Grain128a.{grain128a, grain128ax32};

use crate::engines::{Grain128, Grain128a, Grain128ax32, Grain128x32};
use stream::engine::Engine;

/// A stride of an engine.
pub trait Stride {
    ghost BITS: { ℕ };

    ghost low: { 1 ≤ BITS };

    ghost high: { BITS ≤ 32 };

    /// The most bits that one draw gives, from 1 to 32.
    const BITS: u32;
}

/// One bit to a draw.
pub struct Stride1;

/// Up to 32 bits to a draw.
pub struct Stride32;

impl Stride for Stride1 {
    ghost BITS = { 1 };

    ghost low = { lit≤ tt };

    ghost high = { lit≤ tt };

    const BITS: u32 = 1;
}

impl Stride for Stride32 {
    ghost BITS = { 32 };

    ghost low = { lit≤ tt };

    ghost high = { lit≤ tt };

    const BITS: u32 = 32;
}

/// The engines of stride 1 and of stride 32 are of one cipher: `Grain128` and `Grain128x32`, and `Grain128a` and `Grain128ax32`, agree in figures but the
/// stride, in refusals and in keystream, for every key and IV. The first two clauses say so of the ciphers, the other four that each engine's cipher is the one
/// of its name, the stride among its figures too.
/// This call states it; it computes nothing.
pub fn strides_are_of_one_cipher()
    ensures plain { OneCipher grain128 grain128x32 }
    ensures revised { OneCipher grain128a grain128ax32 }
    ensures engine128 { SameCipher grain128 ⟦<Grain128 as Engine>⟧.cipher }
    ensures engine128x32 { SameCipher grain128x32 ⟦<Grain128x32 as Engine>⟧.cipher }
    ensures engine128a { SameCipher grain128a ⟦<Grain128a as Engine>⟧.cipher }
    ensures engine128ax32 { SameCipher grain128ax32 ⟦<Grain128ax32 as Engine>⟧.cipher }
{}
