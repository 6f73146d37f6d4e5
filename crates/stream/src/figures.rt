//! The figures of a cipher, and the checks of a load by them.
ghost use Rattle.std.specs.Prelude.{not, [], ◌∷◌, length, ◌==◌};
ghost use Rattle.stream.specs.Refusals.{Checked, first_refusal};

use crate::refusal::Refusal;

/// The figures of a cipher as one engine runs it.
///
/// Lengths and the ceiling count octets, the stride counts bits.
#[derive(Clone, Copy, PartialEq, Eq, Debug)]
pub struct Figures {
    /// The length of a key.
    pub key: usize,
    /// The length of an IV, four more than that of a label.
    pub iv: usize,
    /// The length of a label.
    pub label: usize,
    /// The most bits that one draw gives.
    pub stride: u32,
    /// The most octets that one session may cover.
    pub ceiling: u32,
}

impl Figures {
    /// The checks of a load: refused with the first that applies of 1 and 2, by the figures, and 3, where the caller found that the IV is forbidden.
    pub fn check_load(self, key: &[u8], iv: &[u8], forbidden: bool) -> Result<(), Refusal>
        ensures { Checked
            (first_refusal
            ((not (length key.now == self.key), 1) ∷
            (not (length iv.now == self.iv), 2) ∷
            (forbidden, 3) ∷ []))
            result }
    {
        if key.len() != self.key {
            Err(Refusal::KeyLength)
        } else if iv.len() != self.iv {
            Err(Refusal::LabelLength)
        } else if forbidden {
            Err(Refusal::ForbiddenBit)
        } else {
            Ok(())
        }
    }
}
