//! The IV of a session.
ghost use Rattle.std.specs.Prelude.{◌≡◌, ◌+◌, ◌<◌, ◌≤◌, ◌++◌, length, drop, MatchResult};
ghost use Rattle.stream.specs.Ciphers.{session_iv};
ghost use Rattle.stream.specs.Refusals.{number};

use crate::refusal::Refusal;

/// Writes the IV of a session at the start of a buffer and answers its length, four more than the label's:
/// label octet 0, the session number in four octets, least significant first, the other label octets. The rest of the buffer stays.
/// A buffer that is shorter than the IV is refused with 7 and stays as it was.
pub fn session_iv(label: &[u8], session: u32, iv: &mut [u8]) -> Result<usize, Refusal>
    ensures { MatchResult result
        (λ n. (n ≡ length label.now + 4)
        × (n ≤ length iv.old)
        × (iv.new ≡ session_iv label.now session ++ drop n iv.old))
        (λ e. (number e ≡ 7)
        × (length iv.old < length label.now + 4)
        × (iv.new ≡ iv.old)) }
{
    if iv.len() < 4 || iv.len() - 4 < label.len() {
        return Err(Refusal::ShortBuffer);
    }
    let head = label.len().min(1);
    let octets = session.to_le_bytes();
    iv[0..head].copy_from_slice(&label[0..head]);
    iv[head..head + 4].copy_from_slice(&octets);
    iv[head + 4..label.len() + 4].copy_from_slice(&label[head..label.len()]);
    Ok(label.len() + 4)
}
