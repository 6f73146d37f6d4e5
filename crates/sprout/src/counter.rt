//! The count of the clocks.
ghost use Rattle.std.specs.Prelude.{◌≡◌, ◌<◌, false, slice_index_or};
ghost use Rattle.stream.specs.Bits.{bit, bits};
ghost use Rattle.sprout.specs.Sprout.{counted};

use std::marker::Model;

/// How many clocks there were, modulo 80.
#[derive(Clone, Copy)]
pub(crate) struct Counter {
    count: u32,
}

impl Model for Counter {
    ghost use Rattle.std.specs.Prelude.{ℕ, ◌<◌};

    ghost Value = { ℕ };

    ghost view = { λ c. c.count };

    ghost invariant = { λ c. c.count < 80 };

    ghost inverse = { λ n. record { count = n } };
}

impl Counter {
    /// No clock yet.
    pub(crate) fn new() -> Self
        ensures { result ≡ 0 }
    {
        Counter { count: 0 }
    }

    /// The counter one clock later.
    pub(crate) fn next(self) -> Self
        ensures { result ≡ counted self }
    {
        Counter {
            count: if self.count == 79 { 0 } else { self.count + 1 },
        }
    }

    /// The counter one clock before.
    pub(crate) fn previous(self) -> Self
        ensures before { counted result ≡ self }
        ensures below { result < 80 }
    {
        Counter {
            count: if self.count == 0 { 79 } else { self.count - 1 },
        }
    }

    /// The bit of a key at the counter.
    pub(crate) fn bit_of(self, key: u128) -> bool
        ensures { result ≡ slice_index_or (bits 80 key) self false }
    {
        key >> self.count & 1 == 1
    }

    /// The counter's bit 4.
    pub(crate) fn bit_4(self) -> bool
        ensures { result ≡ bit self 4 }
    {
        self.count >> 4 & 1 == 1
    }
}
