//! Session IVs, and covering octets.
use crate::shared::*;
use grain128::engines::*;
use sprout::engine::*;
use std::alloc::Global;
use std::process::Abort;
use std::test::Fail;
use stream::draws::cover;
use stream::engine::Engine;
use stream::refusal::*;
use stream::session::session_iv;

#[test]
fn a_session_iv_is_the_label_with_the_session_in_it(rt: HostRuntime) {
    let label = *b"\xa0\xa1\xa2\xa3\xa4\xa5\xa6\xa7";
    let mut iv = [0xee; 13];
    assert_eq!(rt;
        session_iv(&label, 258, &mut iv[0..11]),
        Err(Refusal::ShortBuffer),
        "11 octets"
    );
    assert_eq!(rt; iv, [0xee; 13], "a refusal writes nothing");
    assert_eq!(rt; session_iv(&label, 258, &mut iv), Ok(12), "13 octets");
    assert_eq!(rt;
        iv,
        *b"\xa0\x02\x01\x00\x00\xa1\xa2\xa3\xa4\xa5\xa6\xa7\xee"
    );
}

/// Some octets to cover.
fn plain(heap: Global, length: usize) -> Result<Vec<u8>, Fail> {
    let mut octets = vec![in heap; 0u8; length]?;
    let mut next = 7u8;
    for octet in octets.iter_mut() {
        *octet = next;
        next = next.wrapping_mul(5).wrapping_add(1);
    }
    Ok(octets)
}

/// Covers octets from the start of the keystream on, three at a time.
fn cover_by_threes<E: Engine>(engine: &mut E, octets: &mut [u8]) -> Result<(), Fail> {
    start(engine)?;
    for piece in octets.chunks_mut(3) {
        cover(engine, piece);
    }
    Ok(())
}

/// Covers plains of many lengths, at once and in pieces, and uncovers them.
fn covers<E: Engine + Drop>(rt: &impl Abort, heap: Global, mut engine: E) -> Result<(), Fail> {
    for length in [0, 1, 3, 4, 5, 1024] {
        let mut once = plain(heap, length)?;
        let mut twice = plain(heap, length)?;
        start(&mut engine)?;
        cover(&mut engine, &mut once);
        cover_by_threes(&mut engine, &mut twice)?;
        assert_eq!(rt; &once[..], &twice[..], "covered in pieces");
        start(&mut engine)?;
        cover(&mut engine, &mut twice);
        assert_eq!(rt; twice, plain(heap, length)?, "covered twice");
    }
    Ok(())
}

#[test]
fn covering_twice_uncovers_and_pieces_do_not_matter(rt: HostRuntime) -> Result<(), Fail> {
    covers(&rt, rt.alloc(), Grain128::new())?;
    covers(&rt, rt.alloc(), Grain128x32::new())?;
    covers(&rt, rt.alloc(), Grain128a::new())?;
    covers(&rt, rt.alloc(), Grain128ax32::new())?;
    covers(&rt, rt.alloc(), Sprout::new())
}
