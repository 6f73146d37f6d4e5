//! The size of a frame.
ghost use Rattle.std.specs.Prelude.{◌≤◌};

/// The size of a frame in octets: no frame has more than 1,034, ten of header and 1,024 of payload.
#[derive(Clone, Copy, PartialEq, Eq, Debug)]
pub struct FrameSize {
    /// The octets.
    pub octets: usize,
    ghost most: { octets ≤ 1034 },
}
