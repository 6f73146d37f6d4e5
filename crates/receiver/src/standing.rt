//! Where a receiver stands.
ghost use Rattle.std.specs.Prelude.{◌≡◌, ◌≤◌, None};

/// The present session, if there is one, and the place in it, counted in octets.
#[derive(Clone, Copy)]
pub struct Standing {
    /// The number of the session for which the engine is loaded.
    pub session: Option<u32>,
    /// How many octets of the session stand before the engine.
    pub place: u32,
    ghost capped: { place ≤ 16777216 },
}

impl Standing {
    /// No present session, and place 0.
    pub(crate) fn unset() -> Standing
        ensures session { result.session ≡ None }
        ensures place { result.place ≡ 0 }
    {
        Standing {
            session: None,
            place: 0,
        }
    }
}
