//! The stages of an accepted receive: the engine is turned to the frame's session, moved to its place, and uncovers the payload.
ghost use Rattle.std.specs.Prelude.{◌≡◌, ℕ, ◌+◌, ◌*◌, ◌≤◌, ◌++◌, length, drop, pos, ◌-ℤ◌, Some};
ghost use Rattle.stream.specs.Ciphers.{later};
ghost use Rattle.stream.specs.Ciphers.{cover as covering};
ghost use Rattle.link.specs.Receivers.{place_for};
ghost use Rattle.receiver.specs.Receiving.{InPlace, holds};

use crate::Receiver;
use crate::pairing::Pairing;
use crate::standing::Standing;
use link::pairing::load_session;
use stream::draws::{backward, cover, forward};
use stream::engine::{Engine, Reversible};

impl<E: Reversible> Receiver<E> {
    // Turns the engine to a session of what was told: nothing is done for the present one, any other is loaded, at place 0.
    pub(crate) fn turn(&mut self, pairing: Pairing, session: u32)
        requires { self.old.pairing ≡ Some pairing }
        ensures pairing { self.new.pairing ≡ self.old.pairing }
        ensures session { self.new.standing.session ≡ Some session }
        ensures place { self.new.standing.place ≡ place_for self.old.standing.session self.old.standing.place session }
        ensures stands { InPlace E.Engine.cipher (holds E.Engine.cipher E.Engine.state self.old)
            → InPlace E.Engine.cipher (holds E.Engine.cipher E.Engine.state self.new) }
    {
        if self.standing.session == Some(session) {
            return;
        }
        let figures = E::figures();
        let key = &pairing.key[0..figures.key];
        let label = &pairing.label[0..figures.label];
        load_session(&mut self.engine, key, label, session);
        self.standing = Standing {
            session: Some(session),
            place: 0,
        };
    }

    // Moves the engine to a place of the present session, and answers the distance in octets, negative for a place that lies before.
    pub(crate) fn reach(&mut self, place: u32) -> i32
        requires { place ≤ 16777216 }
        ensures distance { result ≡ pos place -ℤ pos self.old.standing.place }
        ensures pairing { self.new.pairing ≡ self.old.pairing }
        ensures session { self.new.standing.session ≡ self.old.standing.session }
        ensures place { self.new.standing.place ≡ place }
        ensures moves { (s : E.Engine.cipher.State)
            → E.Engine.state self.old.engine ≡ later E.Engine.cipher (8 * self.old.standing.place) s
            → E.Engine.state self.new.engine ≡ later E.Engine.cipher (8 * place) s }
    {
        let Standing {
            session,
            place: from,
        } = self.standing;
        if from <= place {
            forward(&mut self.engine, place - from);
        } else {
            backward(&mut self.engine, from - place);
        }
        self.standing = Standing { session, place };
        place as i32 - from as i32
    }

    // Writes a payload uncovered at the start of a buffer, and nothing beyond it. The engine and the place move on by the payload.
    pub(crate) fn uncover(&mut self, payload: &[u8], out: &mut [u8])
        requires room { length payload.now ≤ length out.old }
        requires within { self.old.standing.place + length payload.now ≤ 16777216 }
        ensures plain { out.new ≡ covering E.Engine.cipher (E.Engine.state self.old.engine) payload.now
            ++ drop (length payload.now) out.old }
        ensures pairing { self.new.pairing ≡ self.old.pairing }
        ensures session { self.new.standing.session ≡ self.old.standing.session }
        ensures place { self.new.standing.place ≡ self.old.standing.place + length payload.now }
        ensures moves { E.Engine.state self.new.engine
            ≡ later E.Engine.cipher (8 * length payload.now) (E.Engine.state self.old.engine) }
    {
        out[0..payload.len()].copy_from_slice(payload);
        cover(&mut self.engine, &mut out[0..payload.len()]);
        self.standing = Standing {
            session: self.standing.session,
            place: self.standing.place + payload.len() as u32,
        };
    }
}
