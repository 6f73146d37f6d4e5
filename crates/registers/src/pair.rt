//! The two registers of a cipher.

/// The two registers of a cipher, index 0 of each in bit 0.
#[derive(Clone, Copy, PartialEq, Eq, Debug)]
pub struct Pair {
    /// The linear register.
    pub linear: u128,
    /// The nonlinear register.
    pub nonlinear: u128,
}

/// What some clocks gave.
#[derive(Clone, Copy)]
pub struct Clocked {
    /// The registers after them.
    pub pair: Pair,
    /// Their output bits, the first one lowest.
    pub bits: u32,
    /// How many clocks there were.
    pub count: u32,
}
