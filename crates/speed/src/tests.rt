//! A session sent in frames, and the frames received.
use crate::covering::speed_cover;
use crate::links::{speed_receive, speed_send};

/// A key.
const KEY: [u8; 16] = *b"sixteen octets..";

/// A label.
const LABEL: [u8; 8] = *b"tilt 12.";

/// The IV of session 0 under the label.
const IV: [u8; 12] = *b"t\0\0\0\0ilt 12.";

/// What is sent: 20 octets, in frames of 8, 8 and 4.
const PLAIN: [u8; 20] = *b"blade 12 degrees up.";

#[test]
fn a_session_is_sent_in_frames_and_received(rt: HostRuntime) {
    let mut memory = [0xff];
    let mut frames = [0xee; 52];
    let written = speed_send(&KEY, &LABEL, &mut memory, &PLAIN, 8, &mut frames);
    assert_eq!(rt; written, 50, "18, 18 and 14 octets");
    assert_eq!(rt; memory, [0xfe], "the strip is raised once");
    let mut covered = PLAIN;
    assert_eq!(rt;
        speed_cover(2, &KEY, &IV, &mut covered),
        0,
        "covered at stride 1"
    );
    assert_eq!(rt;
        &frames[0..10],
        &b"\0\0\0\0\0\0\0\0\x08\0"[..],
        "the header at 0"
    );
    assert_eq!(rt; &frames[10..18], &covered[0..8], "the payload at 0");
    assert_eq!(rt;
        &frames[18..28],
        &b"\0\0\0\0\x08\0\0\0\x08\0"[..],
        "the header at 8"
    );
    assert_eq!(rt; &frames[28..36], &covered[8..16], "the payload at 8");
    assert_eq!(rt;
        &frames[36..46],
        &b"\0\0\0\0\x10\0\0\0\x04\0"[..],
        "the header at 16"
    );
    assert_eq!(rt; &frames[46..50], &covered[16..20], "the payload at 16");
    assert_eq!(rt; &frames[50..52], &b"\xee\xee"[..], "past the frames");
    let mut plain = [0xee; 21];
    let opened = speed_receive(&KEY, &LABEL, &frames[0..50], 8, &mut plain);
    assert_eq!(rt; opened, 20, "the plains");
    assert_eq!(rt; &plain[0..20], &PLAIN[..], "what was sent");
    assert_eq!(rt; plain[20], 0xee, "past the plains");
}

#[test]
fn a_session_ends_where_a_send_or_the_open_is_refused(rt: HostRuntime) {
    let mut memory = [0xff];
    let mut frames = [0xee; 40];
    let few = speed_send(&KEY, &LABEL, &mut memory, &PLAIN, 8, &mut frames);
    assert_eq!(rt; few, 36, "the third frame finds no room");
    let mut full = [0x00];
    let none = speed_send(&KEY, &LABEL, &mut full, &PLAIN, 8, &mut frames);
    assert_eq!(rt; none, 0, "no raise is left");
}
