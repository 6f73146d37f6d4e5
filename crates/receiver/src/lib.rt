//! The receiver: it opens frames, in order, late or again, of any session under the key that it was paired with.
#![tactic(auto)]

ghost use Rattle.std.specs.Prelude.{◌≡◌, length, Some, None, MatchResult};
ghost use Rattle.stream.specs.Refusals.{number};
ghost use Rattle.link.specs.Receivers.{receive_refusal};
ghost use Rattle.link.specs.Sessions.{pair_refusal};
ghost use Rattle.receiver.specs.Receiving.{InPlace, Pairs, Accepts, holds, known};

use crate::frame::Frame;
use crate::pairing::Pairing;
use crate::standing::Standing;
use link::pairing::check_pairing;
use stream::engine::Reversible;
use stream::refusal::Refusal;

mod frame;
mod pairing;
mod stages;
mod standing;

/// A receiver: an engine, what the last accepted pair told, and where the engine stands.
// What it holds is named by `holds` in each clause: a model's `Value` cannot name a bound's ghost member.
#[derive(Drop)]
pub struct Receiver<E> {
    engine: E,
    pairing: Option<Pairing>,
    standing: Standing,
}

/// What an accepted receive answers.
#[derive(Clone, Copy, PartialEq, Eq, Debug)]
pub struct Received {
    /// How many octets of plain were written.
    pub length: u32,
    /// How far the engine was moved to the frame's place, in octets: negative for a late frame.
    pub distance: i32,
}

impl<E: Reversible> Receiver<E> {
    /// A receiver over an engine in any state: never paired, with no present session, at place 0.
    pub fn new(engine: E) -> Receiver<E>
        ensures keeps { result.engine ≡ engine }
        ensures fresh { holds E.Engine.cipher E.Engine.state result
            ≡ record { pairing = None; session = None; place = 0; state = E.Engine.state engine } }
        ensures stands { InPlace E.Engine.cipher (holds E.Engine.cipher E.Engine.state result) }
    {
        Receiver {
            engine,
            pairing: None,
            standing: Standing::unset(),
        }
    }

    // key, label and allowance: three parameters, as the rules have them
    /// Pairs the receiver with a key, a label and an allowance, which replace all that it knew:
    /// afterwards there is no present session and the place is 0.
    /// Refused with 1, 2, 3 or 4, the first that applies, it leaves the receiver as it was.
    pub fn pair(&mut self, key: &[u8], label: &[u8], allowance: u32) -> Result<(), Refusal>
        ensures { MatchResult result
            (λ _. Pairs E.Engine.cipher
            (holds E.Engine.cipher E.Engine.state self.old)
            (holds E.Engine.cipher E.Engine.state self.new)
            key.now label.now allowance)
            (λ e. (pair_refusal E.Engine.cipher key.now label.now allowance ≡ Some (number e))
            × (self.new ≡ self.old)) }
    {
        check_pairing::<E>(key, label, allowance)?;
        self.pairing = Some(Pairing::told(key, label, allowance));
        self.standing = Standing::unset();
        Ok(())
    }

    /// Opens a frame: writes its plain at the start of the buffer and nothing beyond, and answers how many octets that is
    /// and how far the engine was moved to the frame's place.
    /// A frame of another session than the present one has the engine loaded for it, at place 0.
    /// Refused with 12, 6, 11 or 7, the first that applies, it leaves receiver and buffer as they were.
    pub fn receive(&mut self, frame: &[u8], out: &mut [u8]) -> Result<Received, Refusal>
        ensures { MatchResult result
            (λ d. Accepts E.Engine.cipher
            (holds E.Engine.cipher E.Engine.state self.old)
            (holds E.Engine.cipher E.Engine.state self.new)
            frame.now out.old out.new d)
            (λ e. (receive_refusal (known E.Engine.cipher self.old.pairing) frame.now (length out.old)
            ≡ Some (number e))
            × (self.new ≡ self.old)
            × (out.new ≡ out.old)) }
    {
        let Some(pairing) = self.pairing else {
            return Err(Refusal::NeverPaired);
        };
        let frame = Frame::admitted(frame, pairing.allowance, out.len())?;
        self.turn(pairing, frame.session);
        let distance = self.reach(frame.place);
        self.uncover(frame.payload, out);
        Ok(Received {
            length: frame.payload.len() as u32,
            distance,
        })
    }
}
