//! The header of a frame.
ghost use Rattle.std.specs.Prelude.{◌≡◌, ◌<◌, ◌≤◌, ◌++◌, length, drop};
ghost use Rattle.link.specs.Frames.{header};

/// Writes a frame's header over the first ten octets of a buffer: session number, place, and the length of the payload.
/// The rest of the buffer stays, and so does all of one that is shorter.
pub fn write_header(out: &mut [u8], session: u32, place: u32, size: u16)
    ensures written { 10 ≤ length out.old → out.new ≡ header session place size ++ drop 10 out.old }
    ensures short { length out.old < 10 → out.new ≡ out.old }
{
    if out.len() < 10 {
        return;
    }
    out[0..4].copy_from_slice(&session.to_le_bytes());
    out[4..8].copy_from_slice(&place.to_le_bytes());
    out[8..10].copy_from_slice(&size.to_le_bytes());
}
