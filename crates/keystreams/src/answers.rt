//! The answer to a request, by any engine.
ghost use Rattle.std.specs.Prelude.{◌≡◌, length, IfOk, None, MatchResult};
ghost use Rattle.stream.specs.Ciphers.{cover as covering};
ghost use Rattle.keystreams.specs.Answers.{nonce_iv, KeystreamRefused, CoverRefused, CoveredFrom, Answered, AnswerRefused};
ghost use Rattle.keystreams.specs.Uses.{part_refusal, part_start, part_octets};

use crate::fault::Fault;
use crate::parts::Start;
use crate::report::{Covered, Report};
use std::alloc::{AllocError, Global};
use stream::engine::Engine;
use stream::session::session_iv;
use workshop::request::{Nonce, Request};

// The IV: a copy of it as it stands, or that of the label and the session.
fn iv_of(heap: Global, nonce: &Nonce) -> Result<Vec<u8>, AllocError>
    ensures { IfOk result (λ v. v.items ≡ nonce_iv nonce.now) }
{
    match nonce {
        Nonce::Iv(iv) => Vec::from_slice(heap, iv.as_slice()),
        Nonce::Session { label, session } => {
            let mut iv = vec![in heap; 0u8; label.len() + 4]?;
            session_iv(label.as_slice(), *session, iv.as_mut_slice()).unwrap();
            Ok(iv)
        }
    }
}

// So many keystream octets from a start on. Memory is taken only where they are not refused.
fn keystream_from<E: Engine>(
    heap: Global,
    engine: &mut E,
    start: &Start<'_>,
    count: u32,
) -> Result<Vec<u8>, Fault>
    ensures { MatchResult result
        (λ v. (part_refusal E.cipher start.now count ≡ None)
        × (v.items ≡ part_octets E.cipher start.now count))
        (KeystreamRefused E.cipher start.now.key.now start.now.iv.now start.now.first count) }
{
    start.check::<E>(count as usize).map_err(Fault::Refused)?;
    let mut octets = vec![in heap; 0u8; count as usize]?;
    start
        .write_keystream(engine, octets.as_mut_slice())
        .map_err(Fault::Refused)?;
    Ok(octets)
}

// A covered copy of octets.
fn covered_copy<E: Engine>(
    heap: Global,
    engine: &mut E,
    start: &Start<'_>,
    octets: &[u8],
) -> Result<Vec<u8>, Fault>
    ensures { MatchResult result
        (λ v. (part_refusal E.cipher start.now (length octets.now) ≡ None)
        × (v.items ≡ covering E.cipher (part_start E.cipher start.now) octets.now))
        (CoverRefused E.cipher start.now.key.now start.now.iv.now start.now.first (length octets.now)) }
{
    let mut copy = Vec::from_slice(heap, octets)?;
    start
        .cover(engine, copy.as_mut_slice())
        .map_err(Fault::MessageRefused)?;
    Ok(copy)
}

// A message, covered, and uncovered again.
fn message_from<E: Engine>(
    heap: Global,
    engine: &mut E,
    start: &Start<'_>,
    message: &[u8],
) -> Result<Covered, Fault>
    ensures { MatchResult result
        (λ v. (part_refusal E.cipher start.now (length message.now) ≡ None)
        × CoveredFrom E.cipher (part_start E.cipher start.now) message.now v)
        (CoverRefused E.cipher start.now.key.now start.now.iv.now start.now.first (length message.now)) }
{
    let plain = Vec::from_slice(heap, message)?;
    let covered = covered_copy(heap, engine, start, message)?;
    let uncovered = covered_copy(heap, engine, start, covered.as_slice())?;
    Ok(Covered {
        plain,
        covered,
        uncovered,
    })
}

/// The answer to a request by an engine: the IV, the keystream octets asked for, and the message, if there is one, covered from
/// keystream octet `first` on and uncovered again. The cipher that the request names is not looked at.
///
/// Refused with the first of 1, 2, 3 and 11 that applies to the keystream octets, else to as many octets as the message has.
pub fn answer<E: Engine + Drop>(
    heap: Global,
    mut engine: E,
    request: &Request,
) -> Result<Report, Fault>
    ensures { MatchResult result (Answered E.Engine.cipher request.now) (AnswerRefused E.Engine.cipher request.now) }
{
    let iv = iv_of(heap, &request.nonce)?;
    let start = Start {
        key: request.key.as_slice(),
        iv: iv.as_slice(),
        first: request.first,
    };
    let keystream = keystream_from(heap, &mut engine, &start, request.count)?;
    // a match: map and transpose around a closure are longer
    let message = match &request.message {
        Some(plain) => Some(message_from(heap, &mut engine, &start, plain.as_slice())?),
        None => None,
    };
    Ok(Report {
        iv,
        keystream,
        message,
    })
}
