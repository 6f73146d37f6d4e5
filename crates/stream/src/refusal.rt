//! Why a call is refused, and the text that is printed for it.
ghost use Rattle.std.specs.Prelude.{◌≡◌, Some};
ghost use Rattle.stream.specs.Refusals.{number, reason_text};

use std::fmt;

/// Why a call was refused. Each case has a number, which `Refusal::number` gives.
#[derive(Clone, Copy, PartialEq, Eq, Debug)]
pub enum Refusal {
    /// 1: the key's length is not the cipher's.
    KeyLength = 1,
    /// 2: the label's length, or for a load the IV's, is not the cipher's.
    LabelLength = 2,
    /// 3: the IV has a bit that must be 0 and is not.
    ForbiddenBit = 3,
    /// 4: the allowance is 0 or above the ceiling.
    BadAllowance = 4,
    /// 5: the plain has 0 or more than 1,024 octets.
    PlainLength = 5,
    /// 6: the octets are no frame.
    BadFrame = 6,
    /// 7: the output buffer is too short.
    ShortBuffer = 7,
    /// 10: the store has no raise left.
    NoRaiseLeft = 10,
    /// 11: place plus length is above the allowance.
    AboveAllowance = 11,
    /// 12: the receiver was never paired.
    NeverPaired = 12,
}

impl Refusal {
    /// The number by which the refusal is known.
    pub fn number(self) -> u32
        ensures { result ≡ number self }
    {
        self as u32
    }

    /// Why the call was refused, in a few words and without the number.
    #[tactic(auto, unfolding(crate::specs::Refusals::reason_text))]
    pub fn reason(self) -> &'static str
        ensures { result.now ≡ reason_text self }
    {
        match self {
            Refusal::KeyLength => "the key's length is not the cipher's",
            Refusal::LabelLength => "the label's length is not the cipher's",
            Refusal::ForbiddenBit => "the IV has a bit that must be 0 and is not",
            Refusal::BadAllowance => "the allowance is 0 or above the ceiling",
            Refusal::PlainLength => "the plain has 0 or more than 1,024 octets",
            Refusal::BadFrame => "no frame",
            Refusal::ShortBuffer => "the buffer is too short",
            Refusal::NoRaiseLeft => "the store has no raise left",
            Refusal::AboveAllowance => "place plus length is above the allowance",
            Refusal::NeverPaired => "never paired",
        }
    }
}

/// A refusal is printed as its reason.
impl fmt::Display for Refusal {
    ghost output = { λ x. Some (reason_text x) };

    fn fmt<W: fmt::Write>(&self, f: &mut fmt::Formatter<W>) -> fmt::Result {
        f.write_str(self.reason())
    }
}
