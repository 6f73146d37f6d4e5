//! A frame as it came.
ghost use Rattle.std.specs.Prelude.{◌≡◌, ◌+◌, ◌≤◌, length, take, drop, Some, MatchResult};
ghost use Rattle.link.specs.Frames.{octets_number};
ghost use Rattle.stream.specs.Refusals.{number};
ghost use Rattle.receiver.specs.Receiving.{Admits, frame_refusal};

use stream::refusal::Refusal;

/// A frame: the session and the place that its header tells, and its payload.
#[derive(Clone, Copy)]
pub struct Frame<'a> {
    /// The number of the session.
    pub session: u32,
    /// The place of the payload in the session.
    pub place: u32,
    /// The payload.
    pub payload: &'a [u8],
}

// The number of four octets from an index on.
fn number_at(octets: &[u8], at: usize) -> u32
    requires { at + 4 ≤ length octets.now }
    ensures { result ≡ octets_number (take 4 (drop at octets.now)) }
{
    u32::from_le_bytes([octets[at], octets[at + 1], octets[at + 2], octets[at + 3]])
}

// The length field of octets that have a whole header.
fn length_field(octets: &[u8]) -> usize
    requires { 10 ≤ length octets.now }
    ensures { result ≡ octets_number (take 2 (drop 8 octets.now)) }
{
    u16::from_le_bytes([octets[8], octets[9]]) as usize
}

impl<'a> Frame<'a> {
    /// The frame that octets are, where it stays within the allowance and the room for the plain;
    /// else the first refusal that applies of 6, 11 and 7. Place and length are summed in 64 bits.
    pub fn admitted(octets: &'a [u8], allowance: u32, room: usize) -> Result<Frame<'a>, Refusal>
        ensures { MatchResult result
            (λ frame. Admits allowance octets.now room frame)
            (λ e. frame_refusal allowance octets.now room ≡ Some (number e)) }
    {
        if octets.len() < 10 {
            return Err(Refusal::BadFrame);
        }
        let length = length_field(octets);
        let payload = &octets[10..octets.len()];
        if length == 0 || length > 1024 || payload.len() != length {
            return Err(Refusal::BadFrame);
        }
        let place = number_at(octets, 4);
        if place as u64 + length as u64 > allowance as u64 {
            return Err(Refusal::AboveAllowance);
        }
        if room < length {
            return Err(Refusal::ShortBuffer);
        }
        Ok(Frame {
            session: number_at(octets, 0),
            place,
            payload,
        })
    }
}
