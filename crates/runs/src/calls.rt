//! Calls as data, each with the buffer that it is lent and what it answered.
ghost use Rattle.std.specs.Prelude.{◌≡◌, None};
ghost use Rattle.runs.specs.declared.calls.SenderAnswer.TheVariants.{NotAdmitted};

use crate::size::FrameSize;
use receiver::Received;
use stream::refusal::Refusal;

/// A key, a label and an allowance, as an open, a torn open and a pair take them.
#[derive(Debug, Drop)]
pub struct Pairing {
    /// The octets of the key.
    pub key: Vec<u8>,
    /// The octets of the label.
    pub label: Vec<u8>,
    /// The allowance in octets.
    pub allowance: u32,
}

/// A call on a sender.
#[derive(Debug, Drop)]
pub enum SenderCall {
    /// Open a session.
    Open(Pairing),
    /// Open a session, with the power failing in the store's raise.
    TornOpen {
        /// The key, the label and the allowance.
        pairing: Pairing,
        /// How many of the raise's writes go through.
        writes_done: u32,
        /// What is left where the store was writing.
        junk: u32,
    },
    /// Send a plain.
    Send {
        /// The plain octets.
        plain: Vec<u8>,
    },
    /// Close the session.
    Close,
    /// Cut the power.
    PowerCut,
}

/// What a call on a sender answered.
// No `Result` with the refusal as its error: a call that the build does not admit is neither, and the cases are those of the definitions.
#[derive(Clone, Copy, PartialEq, Eq, Debug)]
pub enum SenderAnswer {
    /// An accepted open: the session's number.
    Opened(u32),
    /// An accepted torn open.
    Torn,
    /// An accepted send: the size of the frame, which stands at the start of the step's buffer.
    Sent(FrameSize),
    /// An accepted close or power cut: the sender rests.
    Rested,
    /// The call was refused.
    Refused(Refusal),
    /// The build does not admit the call on such a sender, so it was not made.
    NotAdmitted,
}

/// A call on a sender, the buffer that is lent to it, and, once it was made, what it answered.
#[derive(Debug, Drop)]
pub struct SenderStep {
    /// The call.
    pub call: SenderCall,
    /// The buffer that a send is handed for its frame. No other call writes into it.
    pub out: Vec<u8>,
    /// What the call answered; `NotAdmitted` until it was made, as `new` promises, which an `Option` would not.
    pub answer: SenderAnswer,
    /// The store's mark after the call.
    pub mark: u32,
    /// The raises left after the call.
    pub left: u32,
}

impl SenderStep {
    /// A call that is yet to be made, with the buffer that it is lent.
    pub fn new(call: SenderCall, out: Vec<u8>) -> SenderStep
        ensures { result ≡ record { call = call; out = out; answer = NotAdmitted; mark = 0; left = 0 } }
    {
        SenderStep {
            call,
            out,
            answer: SenderAnswer::NotAdmitted,
            mark: 0,
            left: 0,
        }
    }
}

/// A call on a receiver.
#[derive(Debug, Drop)]
pub enum ReceiverCall {
    /// Pair the receiver.
    Pair(Pairing),
    /// Hand octets to the receiver.
    Receive {
        /// The octets that come.
        octets: Vec<u8>,
    },
    /// Hand a frame of the sender to the receiver.
    Deliver {
        /// The index of the call on the sender that wrote the frame, counted from 0.
        // an index, as the frame is yet to be written
        call: usize,
        /// What is added bit by bit to the first octets of the frame on its way; none for a frame that comes unaltered.
        change: Vec<u8>,
    },
}

/// What a call on a receiver answered.
// No `Result` with the refusal as its error: the cases are those of the definitions, and a `Result` would need a second enum for what is accepted.
#[derive(Clone, Copy, PartialEq, Eq, Debug)]
pub enum ReceiverAnswer {
    /// An accepted pair.
    Paired,
    /// An accepted receive: the plain stands at the start of the step's buffer, and this is what the receiver answered.
    Uncovered(Received),
    /// The call was refused.
    Declined(Refusal),
}

/// A call on a receiver, the buffer that is lent to it, and, once it was made, what it answered.
#[derive(Debug, Drop)]
pub struct ReceiverStep {
    /// The call.
    pub call: ReceiverCall,
    /// The buffer that a receive is handed for the plain. No other call writes into it.
    pub out: Vec<u8>,
    /// What the call answered; none where a frame was to be delivered that the sender did not write, so that no call was made.
    pub answer: Option<ReceiverAnswer>,
}

impl ReceiverStep {
    /// A call that is yet to be made, with the buffer that it is lent.
    pub fn new(call: ReceiverCall, out: Vec<u8>) -> ReceiverStep
        ensures { result ≡ record { call = call; out = out; answer = None } }
    {
        ReceiverStep {
            call,
            out,
            answer: None,
        }
    }
}
