//! The answer to a request as text, and the line that is printed where there is none.
ghost use Rattle.std.specs.Prelude.{◌≡◌, Some};
ghost use Rattle.keystreams.specs.Texts.{message_text, report_text, nonce_octets, field_refused, reason_text, refusal_text, fault_line};

use crate::fault::Fault;
use crate::named::figures_named;
use crate::report::{Covered, Report};
use std::fmt;
use stream::figures::Figures;
use stream::refusal::Refusal;
use texts::dump::{Dump, HexDigits};
use workshop::request::{Nonce, Request};

// A message, if there is one, printed as dumps of it as it was given, covered, and uncovered again.
// It begins at octet `first` of the keystream.
#[derive(Clone, Copy)]
struct MessageText<'a> {
    first: u32,
    message: &'a Option<Covered>,
}

#[tactic(auto, unfolding(crate::specs::Texts::covered_text))]
impl fmt::Display for MessageText<'_> {
    ghost output = { λ x. Some (message_text x.first x.message.now) };

    fn fmt<W: fmt::Write>(&self, f: &mut fmt::Formatter<W>) -> fmt::Result {
        let first = self.first;
        let Some(message) = self.message else {
            return Ok(());
        };
        let plain = Dump {
            first,
            octets: message.plain.as_slice(),
        };
        let covered = Dump {
            first,
            octets: message.covered.as_slice(),
        };
        let uncovered = Dump {
            first,
            octets: message.uncovered.as_slice(),
        };
        write!(
            f,
            "plain\n{plain}covered\n{covered}uncovered again\n{uncovered}"
        )
    }
}

/// A report, printed as lines for the cipher, the key and the IV, a dump of the keystream octets, and, where there is a message,
/// dumps of it as it was given, covered, and uncovered again. The offsets of all dumps are places in the keystream.
#[derive(Clone, Copy)]
pub struct ReportText<'a> {
    /// The request.
    pub request: &'a Request,
    /// What is answered to it.
    pub report: &'a Report,
}

#[tactic(auto, unfolding(crate::specs::Texts::report_text))]
impl fmt::Display for ReportText<'_> {
    ghost output = { λ x. Some (report_text x.request.now x.report.now) };

    fn fmt<W: fmt::Write>(&self, f: &mut fmt::Formatter<W>) -> fmt::Result {
        let request = self.request;
        let report = self.report;
        let first = request.first;
        let cipher = request.cipher;
        let key = HexDigits::new(request.key.as_slice());
        let iv = HexDigits::new(report.iv.as_slice());
        let keystream = Dump {
            first,
            octets: report.keystream.as_slice(),
        };
        let message = MessageText {
            first,
            message: &report.message,
        };
        write!(
            f,
            "cipher    {cipher}\nkey       {key}\niv        {iv}\nkeystream\n{keystream}{message}"
        )
    }
}

// The field that a refusal is about, where `size` names what gives how many octets are used.
fn field_refused(nonce: &Nonce, size: &'static str, refusal: Refusal) -> &'static str
    ensures { result.now ≡ field_refused nonce.now size.now refusal }
{
    match refusal {
        Refusal::KeyLength => "key",
        Refusal::LabelLength | Refusal::ForbiddenBit => match nonce {
            Nonce::Iv(_) => "iv",
            Nonce::Session { .. } => "label",
        },
        _ => size,
    }
}

fn nonce_octets(figures: Figures, nonce: &Nonce) -> usize
    ensures { result ≡ nonce_octets figures nonce.now }
{
    match nonce {
        Nonce::Iv(_) => figures.iv,
        Nonce::Session { .. } => figures.label,
    }
}

// What a refusal says of a cipher with these figures and of what gives the IV.
#[derive(Clone, Copy)]
struct Reason<'a> {
    figures: Figures,
    nonce: &'a Nonce,
    refusal: Refusal,
}

#[tactic(auto, unfolding(crate::specs::Texts::reason_text))]
impl fmt::Display for Reason<'_> {
    ghost output = { λ x. Some (reason_text x.figures x.nonce.now x.refusal) };

    fn fmt<W: fmt::Write>(&self, f: &mut fmt::Formatter<W>) -> fmt::Result {
        match self.refusal {
            Refusal::KeyLength => {
                let octets = self.figures.key;
                write!(f, "its length is not the cipher's, {octets} octets")
            }
            Refusal::LabelLength => {
                let octets = nonce_octets(self.figures, self.nonce);
                write!(f, "its length is not the cipher's, {octets} octets")
            }
            Refusal::ForbiddenBit => f.write_str("a bit of the IV that must be 0 is 1"),
            Refusal::AboveAllowance => {
                let ceiling = self.figures.ceiling;
                write!(f, "the octets end above the ceiling, {ceiling} octets")
            }
            _ => f.write_str("not allowed"),
        }
    }
}

// A refusal of a request, printed as the field at fault, the refusal's number and what it says.
// `size` names what gives how many octets are used.
#[derive(Clone, Copy)]
struct RefusalText<'a> {
    request: &'a Request,
    size: &'static str,
    refusal: Refusal,
}

#[tactic(auto, unfolding(crate::specs::Texts::refusal_text))]
impl fmt::Display for RefusalText<'_> {
    ghost output = { λ x. Some (refusal_text x.request.now x.size.now x.refusal) };

    fn fmt<W: fmt::Write>(&self, f: &mut fmt::Formatter<W>) -> fmt::Result {
        let refusal = self.refusal;
        let nonce = &self.request.nonce;
        let field = field_refused(nonce, self.size, refusal);
        let number = refusal.number();
        let reason = Reason {
            figures: figures_named(self.request.cipher),
            nonce,
            refusal,
        };
        write!(f, "{field}: refused with {number}: {reason}")
    }
}

/// A fault of a request, printed as one line without its end: the field at fault, the refusal's number, and what it says;
/// or `no memory`.
#[derive(Clone, Copy)]
pub struct FaultLine<'a> {
    /// The request.
    pub request: &'a Request,
    /// Why it has no answer.
    pub fault: Fault,
}

#[tactic(auto, unfolding(crate::specs::Texts::fault_line))]
impl fmt::Display for FaultLine<'_> {
    ghost output = { λ x. Some (fault_line x.request.now x.fault) };

    fn fmt<W: fmt::Write>(&self, f: &mut fmt::Formatter<W>) -> fmt::Result {
        let request = self.request;
        let (size, refusal) = match self.fault {
            Fault::Refused(refusal) => ("first and count", refusal),
            Fault::MessageRefused(refusal) => ("first and message", refusal),
            Fault::NoMemory => return f.write_str("no memory"),
        };
        let text = RefusalText {
            request,
            size,
            refusal,
        };
        write!(f, "{text}")
    }
}
