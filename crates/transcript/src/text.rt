//! The steps of a run as text, each a line without its end.
ghost use Rattle.std.specs.Prelude.{◌≡◌, Some, take};
ghost use Rattle.transcript.specs.Texts.{refused_text, frame_text, plain_text, sender_answer_text, sender_text, receiver_answer_text, receiver_text};

use crate::HEADER_OCTETS;
use receiver::Received;
use runs::calls::{ReceiverAnswer, ReceiverStep, SenderAnswer, SenderStep};
use std::fmt;
use stream::refusal::Refusal;
use texts::dump::HexDigits;

// The first octets, or all where there are fewer.
fn first_octets(octets: &[u8], count: usize) -> &[u8]
    ensures { result.now ≡ take count octets.now }
{
    octets.get(..count).unwrap_or(octets)
}

// A call that was refused, by the refusal's number and its reason.
#[derive(Clone, Copy)]
struct Refused(Refusal);

#[tactic(auto, unfolding(crate::specs::Texts::refused_text))]
impl fmt::Display for Refused {
    ghost output = { λ x. Some (refused_text x.0) };

    fn fmt<W: fmt::Write>(&self, f: &mut fmt::Formatter<W>) -> fmt::Result {
        let Refused(refusal) = *self;
        let number = refusal.number();
        write!(f, "refused {number}: {refusal}")
    }
}

// A frame, by its header and its payload.
#[derive(Clone, Copy)]
struct Frame<'a>(&'a [u8]);

#[tactic(auto, unfolding(crate::specs::Texts::frame_text))]
impl fmt::Display for Frame<'_> {
    ghost output = { λ x. Some (frame_text x.0.now) };

    fn fmt<W: fmt::Write>(&self, f: &mut fmt::Formatter<W>) -> fmt::Result {
        let (header, payload) = self.0.split_at(HEADER_OCTETS.min(self.0.len()));
        let header = HexDigits::new(header);
        let payload = HexDigits::new(payload);
        write!(f, "frame {header} {payload}")
    }
}

// What a call on a sender answered, and its buffer: a frame stands at the start of that.
#[derive(Clone, Copy)]
struct Answered<'a> {
    answer: SenderAnswer,
    out: &'a [u8],
}

#[tactic(auto, unfolding(crate::specs::Texts::sender_answer_text))]
impl fmt::Display for Answered<'_> {
    ghost output = { λ x. Some (sender_answer_text x.answer x.out.now) };

    fn fmt<W: fmt::Write>(&self, f: &mut fmt::Formatter<W>) -> fmt::Result {
        match self.answer {
            SenderAnswer::Opened(session) => write!(f, "session {session}"),
            SenderAnswer::Torn => f.write_str("power lost in the raise"),
            SenderAnswer::Sent(size) => {
                let frame = Frame(first_octets(self.out, size.octets));
                write!(f, "{frame}")
            }
            SenderAnswer::Rested => f.write_str("at rest"),
            SenderAnswer::Refused(refusal) => {
                let refused = Refused(refusal);
                write!(f, "{refused}")
            }
            SenderAnswer::NotAdmitted => {
                f.write_str("not made: the build does not admit it here")
            }
        }
    }
}

/// A step of a sender, printed as what the call answered, then `; mark M, raises left L` with the numbers of the store after it.
///
/// The answer is `session N`, `power lost in the raise`, `frame HEADER PAYLOAD`, `at rest`, `refused N: REASON` or
/// `not made: the build does not admit it here`. A frame is as many of the first octets of the step's buffer as its size says,
/// in hexadecimal digits in lower case: its first ten octets, a space, and the others.
#[derive(Clone, Copy)]
pub struct SenderText<'a>(pub &'a SenderStep);

#[tactic(auto, unfolding(crate::specs::Texts::sender_text))]
impl fmt::Display for SenderText<'_> {
    ghost output = { λ x. Some (sender_text x.0.now) };

    fn fmt<W: fmt::Write>(&self, f: &mut fmt::Formatter<W>) -> fmt::Result {
        let step = self.0;
        let answer = Answered {
            answer: step.answer,
            out: step.out.as_slice(),
        };
        let mark = step.mark;
        let left = step.left;
        write!(f, "{answer}; mark {mark}, raises left {left}")
    }
}

// What an accepted receive answered, and its buffer: the plain stands at the start of that.
#[derive(Clone, Copy)]
struct Plain<'a> {
    received: Received,
    out: &'a [u8],
}

#[tactic(auto, unfolding(crate::specs::Texts::plain_text))]
impl fmt::Display for Plain<'_> {
    ghost output = { λ x. Some (plain_text x.received x.out.now) };

    fn fmt<W: fmt::Write>(&self, f: &mut fmt::Formatter<W>) -> fmt::Result {
        let length = self.received.length;
        let distance = self.received.distance;
        let plain = HexDigits::new(first_octets(self.out, length as usize));
        write!(f, "plain {plain}, length {length}, distance {distance}")
    }
}

/// A step of a receiver, printed as what the call answered, or that there was no frame to deliver.
///
/// That is `paired`, `plain PLAIN, length N, distance D`, `refused N: REASON` or `nothing came: no frame was sent there`.
/// A plain is as many of the first octets of the step's buffer as its length says, in hexadecimal digits in lower case.
/// The distance has a `-` before it where it is negative.
#[derive(Clone, Copy)]
pub struct ReceiverText<'a>(pub &'a ReceiverStep);

#[tactic(auto, unfolding(crate::specs::Texts::receiver_text, crate::specs::Texts::receiver_answer_text))]
impl fmt::Display for ReceiverText<'_> {
    ghost output = { λ x. Some (receiver_text x.0.now) };

    fn fmt<W: fmt::Write>(&self, f: &mut fmt::Formatter<W>) -> fmt::Result {
        match self.0.answer {
            Some(ReceiverAnswer::Paired) => f.write_str("paired"),
            Some(ReceiverAnswer::Uncovered(received)) => {
                let out = self.0.out.as_slice();
                let plain = Plain { received, out };
                write!(f, "{plain}")
            }
            Some(ReceiverAnswer::Declined(refusal)) => {
                let refused = Refused(refusal);
                write!(f, "{refused}")
            }
            None => f.write_str("nothing came: no frame was sent there"),
        }
    }
}
