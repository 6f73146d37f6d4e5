//! A sender in a session.
ghost use Rattle.std.specs.Prelude.{◌≡◌, ℕ, ◌+◌, ◌*◌, ◌≤◌, ◌++◌, length, drop, Some, MatchResult};
ghost use Rattle.std.specs.Option.{option_map};
ghost use Rattle.stream.specs.Ciphers.{later};
ghost use Rattle.stream.specs.Refusals.{number};
ghost use Rattle.link.specs.Senders.{send_refusal, sent_frame};
ghost use Rattle.sender.specs.Calls.{Sent};

use crate::progress::Progress;
use crate::resting::Resting;
use link::frame::write_header;
use marks::store::MarkStore;
use stream::draws::cover;
use stream::engine::Engine;
use stream::refusal::Refusal;

/// A sender in a session: engine and store as at rest, and how far the session has come.
// `store` and `power_cut` stand in both types of a sender: the rules ask for two, so that a send at rest does not build.
#[derive(Drop)]
pub struct Sending<E, S> {
    pub(crate) engine: E,
    pub(crate) store: S,
    pub(crate) progress: Progress,
}

// Writes the frame of a plain at the start of a buffer that has room for it.
fn write_frame<E: Engine>(engine: &mut E, progress: Progress, plain: &[u8], out: &mut [u8])
    requires size { length plain.now ≤ 1024 }
    requires room { 10 + length plain.now ≤ length out.old }
    ensures written { out.new ≡ sent_frame E.cipher progress.session progress.place (E.state engine.old) plain.now
        ++ drop (10 + length plain.now) out.old }
    ensures moves { E.state engine.new ≡ later E.cipher (8 * length plain.now) (E.state engine.old) }
{
    let end = 10 + plain.len();
    out[10..end].copy_from_slice(plain);
    cover(engine, &mut out[10..end]);
    write_header(out, progress.session, progress.place, plain.len() as u16);
}

impl<E: Engine, S: MarkStore> Sending<E, S> {
    /// The session's number, place and allowance.
    pub fn progress(&self) -> Progress
        ensures { result ≡ self.now.progress }
    {
        self.progress
    }

    /// The store.
    pub fn store(&self) -> &S
        ensures { result.now ≡ self.now.store }
    {
        &self.store
    }

    /// Sends a plain of 1 to 1,024 octets: writes its frame at the start of a buffer and answers the frame's length, ten more than the plain's.
    /// The place moves on by the plain's length; the rest of the buffer stays.
    /// Refused with the first that applies of 5, 7 and 11, it leaves sender and buffer as they were.
    pub fn send(&mut self, plain: &[u8], out: &mut [u8]) -> Result<usize, Refusal>
        ensures { MatchResult result
            (λ n. Sent E.Engine.cipher self.old.progress self.new.progress
            (E.Engine.state self.old.engine) (E.Engine.state self.new.engine)
            plain.now out.old out.new n
            × (self.new.store ≡ self.old.store))
            (λ e. (send_refusal self.old.progress.place self.old.progress.allowance
            (length plain.now) (length out.old) ≡ Some (number e))
            × (self.new ≡ self.old)
            × (out.new ≡ out.old)) }
    {
        let progress = self.progress;
        progress.check_send(plain.len(), out.len())?;
        write_frame(&mut self.engine, progress, plain, out);
        // `..progress` is not supported in a literal of a struct with a ghost field
        self.progress = Progress {
            session: progress.session,
            place: progress.place + plain.len() as u32,
            allowance: progress.allowance,
        };
        Ok(10 + plain.len())
    }

    /// Ends the session. The store stays as it is.
    pub fn close(self) -> Resting<E, S>
        ensures { result.store ≡ self.store }
    {
        let Sending { engine, store, .. } = self;
        Resting { engine, store }
    }

    /// A loss of power in a session, which ends it: the store keeps its octets, the engine's state is lost.
    pub fn power_cut(self) -> Resting<E, S>
        ensures { result.store ≡ self.store }
    {
        self.close()
    }
}
