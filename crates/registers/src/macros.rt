// Macros and not methods: written out, a tap computes to its definition, so that no feedback needs a proof of its own.

/// The bits of a register from an index up to 32 on.
#[macro_export]
macro_rules! low {
    ($register:expr, $index:expr) => {
        $register.low >> $index
    };
}

/// The bits of a register from an index from 33 to 64 on.
#[macro_export]
macro_rules! middle {
    ($register:expr, $index:expr) => {
        $register.middle >> ($index - 32)
    };
}

/// The bits of a register from an index from 65 to 96 on.
#[macro_export]
macro_rules! high {
    ($register:expr, $index:expr) => {
        $register.high >> ($index - 64)
    };
}
