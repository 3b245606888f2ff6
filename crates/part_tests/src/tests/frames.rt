//! Frames without a tag, as they are read: frames of the plain session, and values worked by hand.
ghost use Rattle.std.specs.Prelude.{◌≡◌, None};

use super::checks::check;
use frame_headers::{Class, Flags, Header, Peer, classify};
use std::process::Abort;
use worked_sessions::written_frames::{DATA, OPENING};

const CLIENT: Peer = Peer {
    addr: 0x0a00_0001,
    port: 40000,
};

const SERVER: Peer = Peer {
    addr: 0x0a00_0002,
    port: 80,
};

const CLIENT_MAC: [u8; 6] = [0x02, 0, 0, 0, 0, 0x01];

const SERVER_MAC: [u8; 6] = [0x02, 0, 0, 0, 0, 0x02];

// Writes bytes over those of a frame from a place on.
pub(super) fn change(frame: &mut [u8], place: usize, bytes: &[u8]) {
    for (old, new) in frame.iter_mut().skip(place).zip(bytes) {
        *old = *new;
    }
}

// The first of these frames with both checksums unfilled, as a capture of outgoing packets holds it.
fn opening_unfilled() -> [u8; 54] {
    let mut frame = OPENING;
    change(&mut frame, 24, b"\0\0");
    change(&mut frame, 50, b"\0\0");
    frame
}

// A header from the client to the server.
pub(super) fn sent(seq: u32, ack: u32, flags: Flags) -> Header
    ensures { result.vlan ≡ None }
{
    Header {
        mac_from: CLIENT_MAC,
        mac_to: SERVER_MAC,
        vlan: None,
        from: CLIENT,
        to: SERVER,
        seq,
        ack,
        flags,
    }
}

// A header from the server to the client.
pub(super) fn answered(seq: u32, ack: u32, flags: Flags) -> Header
    ensures { result.vlan ≡ None }
{
    Header {
        mac_from: SERVER_MAC,
        mac_to: CLIENT_MAC,
        vlan: None,
        from: SERVER,
        to: CLIENT,
        seq,
        ack,
        flags,
    }
}

// The name of a frame's class.
pub(super) fn class_of(frame: &[u8]) -> &'static str {
    match classify(frame) {
        Class::Short => "Short",
        Class::NotIpv4 => "NotIpv4",
        Class::BadIpv4 => "BadIpv4",
        Class::Fragment => "Fragment",
        Class::NotTcp => "NotTcp",
        Class::Cut => "Cut",
        Class::BadTcp => "BadTcp",
        Class::SameEnds => "SameEnds",
        Class::Segment(_) => "Segment",
    }
}

// Whether a frame is a segment with this header and payload.
pub(super) fn is_read_as(frame: &[u8], header: &Header, payload: &[u8]) -> bool {
    match classify(frame) {
        Class::Segment(segment) => {
            segment.mac_from == header.mac_from
                && segment.mac_to == header.mac_to
                && segment.vlan == header.vlan
                && segment.from == header.from
                && segment.to == header.to
                && segment.seq == header.seq
                && segment.ack == header.ack
                && segment.flags == header.flags
                && segment.payload == payload
        }
        _ => false,
    }
}

// Whether a frame is read as the first of the session, which has no payload.
fn is_opening(frame: &[u8]) -> bool {
    is_read_as(frame, &sent(1000, 0, Flags::SYN), b"")
}

// That the first frame of the session with bytes of it changed has this class.
fn check_changed(rt: &impl Abort, place: usize, bytes: &[u8], class: &str) {
    let mut frame = opening_unfilled();
    change(&mut frame, place, bytes);
    check(rt, class, class_of(&frame) == class);
}

#[test]
fn classes_of_changed_frames(rt: HostRuntime) {
    check_changed(&rt, 13, b"\x06", "NotIpv4");
    check_changed(&rt, 14, b"\x65", "BadIpv4");
    check_changed(&rt, 14, b"\x44", "BadIpv4");
    check_changed(&rt, 16, b"\0\0", "BadIpv4");
    check_changed(&rt, 20, b"\x20", "Fragment");
    check_changed(&rt, 20, b"\x1f", "Fragment");
    check_changed(&rt, 20, b"\xe0", "Fragment");
    check_changed(&rt, 21, b"\x01", "Fragment");
    check_changed(&rt, 23, b"\x11", "NotTcp");
    check_changed(&rt, 46, b"\x40", "BadTcp");
    check_changed(&rt, 46, b"\x60", "BadTcp");

    // source and destination: the address alone, the port alone, both
    check_changed(&rt, 30, b"\x0a\0\0\x01", "Segment");
    check_changed(&rt, 36, b"\x9c\x40", "Segment");
    check_changed(&rt, 30, b"\x0a\0\0\x01\x9c\x40\x9c\x40", "SameEnds");
}

// That the first frame of the session with a byte of it changed is read as before.
fn check_kept(rt: &impl Abort, place: usize, byte: u8) {
    let mut frame = opening_unfilled();
    change(&mut frame, place, &[byte]);
    check(rt, "the opening", is_opening(&frame));
}

#[test]
fn frames_that_stay_a_segment(rt: HostRuntime) {
    check(&rt, "unfilled sums", is_opening(&opening_unfilled()));
    check(&rt, "right sums", is_opening(&OPENING));

    // the reserved flag of IPv4; it and "don't fragment"; wrong checksums of IPv4 and of TCP
    check_kept(&rt, 20, 0x80);
    check_kept(&rt, 20, 0xc0);
    check_kept(&rt, 24, 0x77);
    check_kept(&rt, 50, 0x77);
}

// That the first bytes of a frame have this class.
pub(super) fn check_front(rt: &impl Abort, frame: &[u8], len: usize, class: &str) {
    let front = frame.get(..len).unwrap_or(&[]);
    check(rt, class, front.len() == len && class_of(front) == class);
}

#[test]
fn classes_of_each_length(rt: HostRuntime) {
    let mut padded = [0; 60];
    change(&mut padded, 0, &opening_unfilled());
    check_front(&rt, &padded, 0, "Short");
    check_front(&rt, &padded, 13, "Short");
    check_front(&rt, &padded, 14, "BadIpv4");
    check_front(&rt, &padded, 33, "BadIpv4");
    check_front(&rt, &padded, 34, "Cut");
    check_front(&rt, &padded, 53, "Cut");
    check_front(&rt, &padded, 54, "Segment");
    check_front(&rt, &padded, 60, "Segment");
    check(&rt, "padded", is_opening(&padded));
    check_front(&rt, &[0; 60], 13, "Short");
    check_front(&rt, &[0; 60], 14, "NotIpv4");
    check_front(&rt, &[0; 60], 60, "NotIpv4");
}

// Whether a frame is read as the session's data.
fn is_data(frame: &[u8]) -> bool {
    is_read_as(
        frame,
        &sent(1001, 5001, Flags::PSH.with(Flags::ACK)),
        b"hello",
    )
}

#[test]
fn payload_after_options_and_before_padding(rt: HostRuntime) {
    let mut padded = [0xaa; 70];
    change(&mut padded, 0, &DATA);
    check(&rt, "padding", is_data(&padded));

    // six words of IPv4 header
    change(&mut padded, 14, b"\x46");
    change(&mut padded, 17, b"\x31");
    change(&mut padded, 34, b"\x01\x01\x01\0");
    change(&mut padded, 38, &DATA[34..]);
    check(&rt, "options of IPv4", is_data(&padded));

    // six words of TCP header too
    change(&mut padded, 17, b"\x35");
    change(&mut padded, 50, b"\x60");
    change(&mut padded, 58, b"\x01\x01\x01\0hello");
    check(&rt, "options of TCP", is_data(&padded));

    // a TCP header that reaches into the padding, and one byte of it too few
    change(&mut padded, 50, b"\x80");
    check(&rt, "a long header", class_of(&padded) == "BadTcp");
    change(&mut padded, 50, b"\x50");
    change(&mut padded, 17, b"\x2b");
    check(&rt, "a short header", class_of(&padded) == "BadTcp");
}
