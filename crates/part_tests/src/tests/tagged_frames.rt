//! Frames with a tag, as they are read and written, and values worked by hand.
//! The frames are those of the plain session with a tag put after their two Ethernet addresses.
ghost use Rattle.std.specs.Prelude.{◌≤◌, length};

use super::checks::check;
use super::frames::{answered, change, check_front, class_of, is_read_as, sent};
use super::written_headers::{check_payload, is_known};
use frame_headers::{Class, Flags, Header, classify};
use std::alloc::{AllocError, Global};
use std::process::Abort;
use worked_sessions::written_frames::{
    ACKNOWLEDGED, CLIENT_ENDS, DATA, OPENING, OPENING_ANSWERED, SERVER_ENDS,
};

// A frame with these bytes put after its two Ethernet addresses.
fn tagged(alloc: Global, frame: &[u8], tag: &[u8]) -> Result<Vec<u8>, AllocError>
    requires { 12 ≤ length frame.now }
{
    let mut bytes = Vec::new(alloc);
    bytes.extend_from_slice(&frame[..12])?;
    bytes.extend_from_slice(tag)?;
    bytes.extend_from_slice(&frame[12..])?;
    Ok(bytes)
}

// The same header of a VLAN, or of none.
fn in_vlan(vlan: Option<u16>, header: Header) -> Header {
    Header { vlan, ..header }
}

// That the first frame of the session with this tag is the same segment of this VLAN.
fn check_tag(rt: &impl Abort, alloc: Global, tag: &[u8], vlan: Option<u16>) {
    let frame = tagged(alloc, &OPENING, tag).expect(rt, "memory");
    let opening = in_vlan(vlan, sent(1000, 0, Flags::SYN));
    check(rt, "a tag", is_read_as(&frame, &opening, b""));
}

// The lower 12 bits are the number of the VLAN, the four above them are not, and 0 is the number of none.
#[test]
fn numbers_of_vlans(rt: HostRuntime) {
    let alloc = rt.alloc();
    check_tag(&rt, alloc, b"", None);
    check_tag(&rt, alloc, b"\x81\0\x20\x07", Some(7));
    check_tag(&rt, alloc, b"\x81\0\0\x01", Some(1));
    check_tag(&rt, alloc, b"\x81\0\x0f\xff", Some(4095));
    check_tag(&rt, alloc, b"\x81\0\xff\xff", Some(4095));
    check_tag(&rt, alloc, b"\x81\0\x10\x01", Some(1));
    check_tag(&rt, alloc, b"\x81\0\0\0", None);
    check_tag(&rt, alloc, b"\x81\0\x20\0", None);
    check_tag(&rt, alloc, b"\x81\0\xf0\0", None);
}

// That the first frame of the session with these bytes after its addresses has this class.
fn check_class(rt: &impl Abort, alloc: Global, tags: &[u8], class: &str) {
    let frame = tagged(alloc, &OPENING, tags).expect(rt, "memory");
    check(rt, class, class_of(&frame) == class);
}

// Two tags, other types in a tag's place, of which 88a8 begins a tag of another kind, and a type after the tag that is not IPv4's.
#[test]
fn more_than_one_tag_of_one_type(rt: HostRuntime) {
    let alloc = rt.alloc();
    check_class(&rt, alloc, b"\x81\0\0\x07", "Segment");
    check_class(&rt, alloc, b"\x81\0\0\x07\x81\0\0\x08", "NotIpv4");
    check_class(&rt, alloc, b"\x81\0\0\0\x81\0\0\x08", "NotIpv4");
    check_class(&rt, alloc, b"\x88\xa8\0\x07", "NotIpv4");
    check_class(&rt, alloc, b"\x88\xa8\0\x07\x81\0\0\x08", "NotIpv4");
    check_class(&rt, alloc, b"\x81\x01\0\x07", "NotIpv4");
    check_class(&rt, alloc, b"\x91\0\0\x07", "NotIpv4");
    let mut frame = tagged(alloc, &OPENING, b"\x81\0\0\x07").expect(&rt, "memory");
    change(&mut frame, 16, b"\x08\x06");
    check(&rt, "another type", class_of(&frame) == "NotIpv4");
}

#[test]
fn classes_of_each_tagged_length(rt: HostRuntime) {
    let mut padded = [0; 60];
    change(
        &mut padded,
        0,
        &tagged(rt.alloc(), &OPENING, b"\x81\0\x20\x07").expect(&rt, "memory"),
    );
    check_front(&rt, &padded, 0, "Short");
    check_front(&rt, &padded, 13, "Short");
    check_front(&rt, &padded, 14, "Short");
    check_front(&rt, &padded, 17, "Short");
    check_front(&rt, &padded, 18, "BadIpv4");
    check_front(&rt, &padded, 37, "BadIpv4");
    check_front(&rt, &padded, 38, "Cut");
    check_front(&rt, &padded, 57, "Cut");
    check_front(&rt, &padded, 58, "Segment");
    check_front(&rt, &padded, 60, "Segment");
    let opening = in_vlan(Some(7), sent(1000, 0, Flags::SYN));
    check(&rt, "padded", is_read_as(&padded, &opening, b""));

    // without the tag, 14 bytes are the whole Ethernet header
    check_front(&rt, &OPENING, 13, "Short");
    check_front(&rt, &OPENING, 14, "BadIpv4");
}

// Whether a frame is read as the session's data of VLAN 7.
fn is_data(frame: &[u8]) -> bool {
    let header = sent(1001, 5001, Flags::PSH.with(Flags::ACK));
    is_read_as(frame, &in_vlan(Some(7), header), b"hello")
}

// Where the payload of a segment begins in its frame, and 0 where the frame is no segment.
fn offset_of(frame: &[u8]) -> u16 {
    match classify(frame) {
        Class::Segment(segment) => segment.offset,
        _ => 0,
    }
}

// Each header stands 4 bytes further on than in an untagged frame.
#[test]
fn tagged_payload_after_options_and_before_padding(rt: HostRuntime) {
    check(&rt, "no tag", offset_of(&DATA) == 54);
    let mut padded = [0xaa; 74];
    change(
        &mut padded,
        0,
        &tagged(rt.alloc(), &DATA, b"\x81\0\x20\x07").expect(&rt, "memory"),
    );
    check(&rt, "padding", is_data(&padded) && offset_of(&padded) == 58);

    // six words of IPv4 header
    change(&mut padded, 18, b"\x46");
    change(&mut padded, 21, b"\x31");
    change(&mut padded, 38, b"\x01\x01\x01\0");
    change(&mut padded, 42, &DATA[34..]);
    let after_options = is_data(&padded) && offset_of(&padded) == 62;
    check(&rt, "options of IPv4", after_options);

    // six words of TCP header too
    change(&mut padded, 21, b"\x35");
    change(&mut padded, 54, b"\x60");
    change(&mut padded, 62, b"\x01\x01\x01\0hello");
    let after_options = is_data(&padded) && offset_of(&padded) == 66;
    check(&rt, "options of TCP", after_options);

    // a TCP header that reaches into the padding, and one byte of it too few
    change(&mut padded, 54, b"\x80");
    check(&rt, "a long header", class_of(&padded) == "BadTcp");
    change(&mut padded, 54, b"\x50");
    change(&mut padded, 21, b"\x2b");
    check(&rt, "a short header", class_of(&padded) == "BadTcp");
}

// That a frame of the known session with the tag of VLAN 7 is read, summed and written as it stands.
fn check_known(rt: &impl Abort, alloc: Global, row: &str, frame: &[u8], header: Header)
    requires { 12 ≤ length frame.now }
{
    let frame = tagged(alloc, frame, b"\x81\0\0\x07").expect(rt, "memory");
    check(rt, row, is_known(&frame, &in_vlan(Some(7), header)));
}

// No byte after the tag is another than in the untagged frame: no checksum covers the tag.
#[test]
fn known_frames_of_a_vlan(rt: HostRuntime) {
    let alloc = rt.alloc();
    let syn_ack = Flags::SYN.with(Flags::ACK);
    let psh_ack = Flags::PSH.with(Flags::ACK);
    let fin_ack = Flags::FIN.with(Flags::ACK);
    let opened = answered(5000, 1001, syn_ack);
    let acknowledged = sent(1001, 5001, Flags::ACK);
    let data = sent(1001, 5001, psh_ack);
    let client_ends = sent(1006, 5001, fin_ack);
    let server_ends = answered(5001, 1007, fin_ack);
    check_known(&rt, alloc, "SYN", &OPENING, sent(1000, 0, Flags::SYN));
    check_known(&rt, alloc, "SYN ACK", &OPENING_ANSWERED, opened);
    check_known(&rt, alloc, "ACK", &ACKNOWLEDGED, acknowledged);
    check_known(&rt, alloc, "data", &DATA, data);
    check_known(&rt, alloc, "FIN", &CLIENT_ENDS, client_ends);
    check_known(&rt, alloc, "FIN back", &SERVER_ENDS, server_ends);
}

#[test]
fn long_payloads_of_a_vlan_read_back(rt: HostRuntime) {
    check_payload(&rt, Some(7), 0);
    check_payload(&rt, Some(7), 1);
    check_payload(&rt, Some(7), 1459);
    check_payload(&rt, Some(7), 1460);
    check_payload(&rt, Some(1), 1460);
    check_payload(&rt, Some(4095), 1460);
}
