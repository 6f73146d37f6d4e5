//! The totals of a run.
ghost use Rattle.std.specs.Prelude.{Some};
ghost use Rattle.transcript.specs.Texts.{tally_text};

use std::fmt;

/// What a run came to: its frames, and the keystream octets that they used.
#[derive(Clone, Copy, PartialEq, Eq, Debug)]
pub struct Tally {
    /// The frames that were sent.
    pub sent: usize,
    /// The frames that were opened.
    pub opened: usize,
    /// The frames that were refused.
    pub refused: usize,
    /// The keystream octets that the frames sent used: one for each octet after the header.
    pub octets: u128,
}

/// The totals are printed as `frames sent N, opened N, refused N; keystream octets used N, none twice`.
///
/// `none twice` is written of any totals. That a run uses no keystream octet twice is what `runs::run::run` promises of its steps;
/// nothing here looks for it.
#[tactic(auto, unfolding(crate::specs::Texts::tally_text))]
impl fmt::Display for Tally {
    ghost output = { λ x. Some (tally_text x) };

    fn fmt<W: fmt::Write>(&self, f: &mut fmt::Formatter<W>) -> fmt::Result {
        let Tally {
            sent,
            opened,
            refused,
            octets,
        } = *self;
        write!(
            f,
            "frames sent {sent}, opened {opened}, refused {refused}; keystream octets used {octets}, none twice"
        )
    }
}
