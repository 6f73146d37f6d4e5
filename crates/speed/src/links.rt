//! A session sent, and frames received, by Grain-128 at stride 32.
ghost use Rattle.std.specs.Prelude.{◌<◌, ◌≤◌, ℕ, Ok, length};

use grain128::engines::Grain128x32;
use marks::store::MarkStore;
use receiver::Receiver;
use sender::resting::Resting;
use sender::sending::Sending;
use stream::engine::{Engine, Reversible};
use stream::refusal::Refusal;
use strip::strip::Strip;

// Hands pieces of so many octets, the last one maybe shorter, in turn to a call that writes at the start of what is left of a buffer, up to the first that it refuses.
// Answers how many octets of the buffer were written.
fn written_in_turn<F: FnMut(&[u8], &mut [u8]) -> Result<usize, Refusal>>(
    octets: &[u8],
    size: usize,
    out: &mut [u8],
    mut write: F,
) -> usize
    requires sized { 0 < size }
    requires called { F.IsAlwaysCallable write }
    requires fits { (f next : F) (piece : _) (rest left : _) (added : ℕ) → F.step f piece rest (Ok added) left next → added ≤ length rest.now }
    ensures { result ≤ length out.old }
{
    let mut written = 0;
    for piece in octets.chunks(size) {
        let Ok(added) = write(piece, &mut out[written..]) else {
            return written;
        };
        written += added;
    }
    written
}

// Sends a plain in frames of so many octets, the last one shorter where they do not come out even, one after the other into a buffer.
// Stops at the first send that is refused. Answers how many octets of the buffer are frames.
fn send_frames<E: Engine, S: MarkStore>(
    sender: &mut Sending<E, S>,
    plain: &[u8],
    size: usize,
    out: &mut [u8],
) -> usize
    ensures { result ≤ length out.old }
{
    written_in_turn(plain, size.max(1), out, |piece, rest| {
        sender.send(piece, rest)
    })
}

// Receives frames of so many octets of payload each, one after the other from a buffer, and writes their plains one after the other.
// Stops at the first that is refused. Answers how many octets of plain were written.
fn receive_frames<E: Reversible>(
    receiver: &mut Receiver<E>,
    frames: &[u8],
    size: usize,
    out: &mut [u8],
) -> usize
    ensures { result ≤ length out.old }
{
    written_in_turn(frames, size.min(1024) + 10, out, |frame, rest| {
        let received = receiver.receive(frame, rest)?;
        Ok(received.length as usize)
    })
}

// Opens a session at the ceiling, and sends a plain as `send_frames` does. Answers 0 where the open is refused.
fn send_session<E: Engine + Drop, S: MarkStore + Drop>(
    sender: Resting<E, S>,
    key: &[u8],
    label: &[u8],
    plain: &[u8],
    size: usize,
    out: &mut [u8],
) -> usize
    ensures { result ≤ length out.old }
{
    match sender.open(key, label, E::figures().ceiling) {
        Ok(mut sending) => send_frames(&mut sending, plain, size, out),
        Err(_) => 0,
    }
}

/// Opens a session at the ceiling on the strip that a memory holds, and sends a plain in frames of so many octets, the last one shorter where
/// they do not come out even, one after the other into a buffer. Stops at the first send that is refused.
/// Answers how many octets of the buffer are frames: 0 where the open is refused.
#[unsafe(no_mangle)]
pub extern "C" fn speed_send(
    key: &[u8],
    label: &[u8],
    memory: &mut [u8],
    plain: &[u8],
    size: usize,
    out: &mut [u8],
) -> usize
    ensures { result ≤ length out.old }
{
    let sender = Resting::new(Grain128x32::new(), Strip::new(memory));
    send_session(sender, key, label, plain, size, out)
}

/// Pairs a receiver at the ceiling, and receives frames of so many octets of payload each, the last one maybe shorter, one after the other
/// from a buffer, in any order of their places. Answers how many octets of plain were written: 0 where the pair is refused.
#[unsafe(no_mangle)]
pub extern "C" fn speed_receive(
    key: &[u8],
    label: &[u8],
    frames: &[u8],
    size: usize,
    out: &mut [u8],
) -> usize
    ensures { result ≤ length out.old }
{
    let mut receiver = Receiver::new(Grain128x32::new());
    match receiver.pair(key, label, Grain128x32::CEILING) {
        Ok(()) => receive_frames(&mut receiver, frames, size, out),
        Err(_) => 0,
    }
}
