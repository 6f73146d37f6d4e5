//! The totals of a run, counted from its steps.
ghost use Rattle.std.specs.Prelude.{◌≡◌};
ghost use Rattle.transcript.specs.Totals.{sent_frame, opened_frame, refused_frame, octets_used, tally_of};

use crate::HEADER_OCTETS;
use crate::totals::Tally;
use runs::calls::{ReceiverAnswer, ReceiverCall, ReceiverStep, SenderAnswer, SenderStep};

fn sent_frame(step: &SenderStep) -> bool
    ensures { result ≡ sent_frame step.now }
{
    matches!(step.answer, SenderAnswer::Sent(_))
}

fn opened_frame(step: &ReceiverStep) -> bool
    ensures { result ≡ opened_frame step.now }
{
    matches!(step.answer, Some(ReceiverAnswer::Uncovered(_)))
}

fn refused_frame(step: &ReceiverStep) -> bool
    ensures { result ≡ refused_frame step.now }
{
    !matches!(step.call, ReceiverCall::Pair(_))
        && matches!(step.answer, Some(ReceiverAnswer::Declined(_)))
}

fn octets_used(step: &SenderStep) -> usize
    ensures { result ≡ octets_used step.now }
{
    match step.answer {
        SenderAnswer::Sent(size) => size.octets.saturating_sub(HEADER_OCTETS),
        _ => 0,
    }
}

/// The totals of a run from its steps, as they stand once they were made.
///
/// A frame counts as sent where the answer is `Sent`, as opened where it is `Uncovered`, and as refused where a `Receive` or a
/// `Deliver` was answered `Declined`; a `Pair` that was declined counts nowhere. A frame that was sent used one keystream octet
/// for each of its octets but the ten of the header, and none where it has no more than those.
pub fn tally(calls: &[SenderStep], receipts: &[ReceiverStep]) -> Tally
    ensures { result ≡ tally_of calls.now receipts.now }
{
    Tally {
        sent: calls.iter().filter(|step| sent_frame(step)).count(),
        opened: receipts.iter().filter(|step| opened_frame(step)).count(),
        refused: receipts.iter().filter(|step| refused_frame(step)).count(),
        octets: calls.iter().map(|step| octets_used(step) as u128).sum(),
    }
}
