//! How far a session has come.
ghost use Rattle.std.specs.Prelude.{◌≤◌};
ghost use Rattle.link.specs.Senders.{send_refusal};
ghost use Rattle.stream.specs.Refusals.{Checked};

use stream::refusal::Refusal;

/// How far a session has come.
#[derive(Clone, Copy, PartialEq, Eq, Debug)]
pub struct Progress {
    /// The session number.
    pub session: u32,
    /// The place of the next octet: how many octets the session has covered.
    pub place: u32,
    /// The most octets that the session may cover.
    pub allowance: u32,
    ghost within: { place ≤ allowance },
    ghost capped: { allowance ≤ 16777216 },
}

impl Progress {
    // The checks of a send of so many octets into so much room: refused with the first that applies of 5, 7 and 11.
    pub(crate) fn check_send(self, size: usize, room: usize) -> Result<(), Refusal>
        ensures { Checked (send_refusal self.place self.allowance size room) result }
    {
        if size == 0 || size > 1024 {
            Err(Refusal::PlainLength)
        } else if room < 10 + size {
            Err(Refusal::ShortBuffer)
        } else if self.place + size as u32 > self.allowance {
            Err(Refusal::AboveAllowance)
        } else {
            Ok(())
        }
    }
}
