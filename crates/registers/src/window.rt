//! A register in three overlapping parts.
ghost use Rattle.std.specs.Prelude.{◌≡◌};
ghost use Rattle.registers.specs.Words.{window_of};

/// Three overlapping parts of a register of up to 128 bits.
///
/// The 32 bits from any index up to 96 on lie in one of them, so that a tap is one shift of a `u64`.
#[derive(Clone, Copy)]
pub struct Window {
    /// Bits 0 to 63.
    pub low: u64,
    /// Bits 32 to 95.
    pub middle: u64,
    /// Bits 64 to 127.
    pub high: u64,
}

/// The three parts of a register.
impl From<u128> for Window {
    ghost from_gives = { λ r w. w ≡ window_of r };

    fn from(r: u128) -> Window {
        Window {
            low: (r & 0xffff_ffff_ffff_ffff) as u64,
            middle: (r >> 32 & 0xffff_ffff_ffff_ffff) as u64,
            high: (r >> 64) as u64,
        }
    }
}
