//! A sender at rest.
ghost use Rattle.std.specs.Prelude.{◌≡◌, Some, None, MatchResult};
ghost use Rattle.stream.specs.Refusals.{number};
ghost use Rattle.link.specs.Senders.{open_refusal};
ghost use Rattle.link.specs.Sessions.{pair_refusal};
ghost use Rattle.sender.specs.Calls.{Opened, Cut};

use crate::progress::Progress;
use crate::sending::Sending;
use link::pairing::{check_pairing, load_session};
use marks::store::MarkStore;
use stream::engine::Engine;
use stream::refusal::Refusal;

/// A sender at rest: an engine, and the store that numbers its sessions.
#[derive(Drop)]
pub struct Resting<E, S> {
    pub(crate) engine: E,
    pub(crate) store: S,
}

impl<E: Engine, S: MarkStore> Resting<E, S> {
    /// A sender over an engine in any state and a store in any state.
    pub fn new(engine: E, store: S) -> Resting<E, S>
        ensures engine { result.engine ≡ engine }
        ensures store { result.store ≡ store }
    {
        Resting { engine, store }
    }

    /// The store.
    pub fn store(&self) -> &S
        ensures { result.now ≡ self.now.store }
    {
        &self.store
    }

    // The sender again, where a key, a label and an allowance pass the checks of a pairing; else the first refusal that applies, with the sender.
    fn checked(
        self,
        key: &[u8],
        label: &[u8],
        allowance: u32,
    ) -> Result<Resting<E, S>, (Refusal, Resting<E, S>)>
        ensures { MatchResult result
            (λ s. (pair_refusal E.Engine.cipher key.now label.now allowance ≡ None)
            × (s ≡ self))
            (λ e. (pair_refusal E.Engine.cipher key.now label.now allowance ≡ Some (number e.0))
            × (e.1 ≡ self)) }
    {
        // a match: a `?` cannot hand the sender back
        match check_pairing::<E>(key, label, allowance) {
            Ok(()) => Ok(self),
            Err(refusal) => Err((refusal, self)),
        }
    }

    // key, label and allowance: three parameters here and below, as the rules have them
    /// Opens a session of at most `allowance` octets under a key and a label.
    /// The store's mark becomes the session number; the store is raised, and then the engine is set to the session's start.
    /// Refused with the first that applies of 1, 2, 3, 4 and 10, it gives the sender back as it was.
    pub fn open(
        self,
        key: &[u8],
        label: &[u8],
        allowance: u32,
    ) -> Result<Sending<E, S>, (Refusal, Resting<E, S>)>
        ensures { MatchResult result
            (λ s. Opened E.Engine.cipher S.MarkStore.mark S.MarkStore.left key.now label.now allowance
            self.store s.store s.progress (E.Engine.state s.engine))
            (λ e. (open_refusal E.Engine.cipher (S.MarkStore.left self.store) key.now label.now allowance
            ≡ Some (number e.0))
            × (e.1 ≡ self)) }
    {
        let resting = self.checked(key, label, allowance)?;
        let Resting {
            mut engine,
            mut store,
        } = resting;
        let session = store.read();
        if let Err(refusal) = store.raise() {
            return Err((refusal, Resting { engine, store }));
        }
        load_session(&mut engine, key, label, session);
        let progress = Progress {
            session,
            place: 0,
            allowance,
        };
        Ok(Sending {
            engine,
            store,
            progress,
        })
    }

    /// An open in which the power fails during the raise, after the first `writes_done` of its writes,
    /// and leaves `junk` where the store was writing. The sender is at rest then, with the store as the torn raise leaves it.
    /// It is refused as an open is, and then gives the sender back as it was.
    pub fn torn_open(
        self,
        key: &[u8],
        label: &[u8],
        allowance: u32,
        writes_done: u32,
        junk: u32,
    ) -> Result<Resting<E, S>, (Refusal, Resting<E, S>)>
        ensures { MatchResult result
            (λ s. Cut E.Engine.cipher S.MarkStore.mark S.MarkStore.left S.MarkStore.writes writes_done
            key.now label.now allowance self.store s.store)
            (λ e. (open_refusal E.Engine.cipher (S.MarkStore.left self.store) key.now label.now allowance
            ≡ Some (number e.0))
            × (e.1 ≡ self)) }
    {
        let Resting { engine, mut store } = self.checked(key, label, allowance)?;
        // a match, for the same reason
        match store.torn_raise(writes_done, junk) {
            Ok(()) => Ok(Resting { engine, store }),
            Err(refusal) => Err((refusal, Resting { engine, store })),
        }
    }

    /// A loss of power at rest: the store keeps its octets, the engine's state is lost.
    pub fn power_cut(self) -> Resting<E, S>
        ensures { result.store ≡ self.store }
    {
        self
    }
}
