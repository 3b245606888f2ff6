//! Headers and sums as they are written: frames of the plain session, RFC 1071's own example, and values worked by hand.
ghost use Rattle.std.specs.Prelude.{◌≤◌};

use super::checks::check;
use super::frames::{answered, is_read_as, sent};
use frame_headers::{
    Flags, Header, LEAST_HEADERS_LEN, MOST_HEADERS_LEN, PAYLOAD_LIMIT, checksum, headers_len,
    put_headers, tcp_checksum,
};
use std::process::Abort;
use worked_sessions::written_frames::{
    ACKNOWLEDGED, CLIENT_ENDS, DATA, OPENING, OPENING_ANSWERED, SERVER_ENDS,
};

// Whether both checksums of a frame with this header are filled and right.
fn has_right_sums(frame: &[u8], header: &Header) -> bool {
    let link = if header.vlan.is_some() { 18 } else { 14 };
    match frame.get(link..) {
        Some(ip) if ip.len() >= 40 && ip.len() <= 1500 => {
            checksum(&ip[..20]) == 0
                && tcp_checksum(header.from.addr, header.to.addr, &ip[20..]) == 0
        }
        _ => false,
    }
}

// Whether the headers before a frame's payload are written as they stand in the frame.
fn is_written_so(frame: &[u8], header: &Header) -> bool {
    let mut room = [0xaa; 63];
    let headers = headers_len(header.vlan);
    if frame.len() < headers || frame.len() > room.len() {
        return false;
    }
    let written = &mut room[..frame.len()];
    written[headers..].copy_from_slice(&frame[headers..]);
    put_headers(written, header);
    *written == *frame
}

// Whether a frame of the known session is read, summed and written as it stands.
pub(super) fn is_known(frame: &[u8], header: &Header) -> bool {
    match frame.get(headers_len(header.vlan)..) {
        Some(payload) => {
            is_read_as(frame, header, payload)
                && has_right_sums(frame, header)
                && is_written_so(frame, header)
        }
        None => false,
    }
}

#[test]
fn checksums_of_known_bytes(rt: HostRuntime) {
    check(&rt, "no byte", checksum(&[]) == 0xffff);
    check(&rt, "one byte", checksum(&[0x01]) == 0xfeff);
    check(&rt, "zeros", checksum(&[0, 0, 0, 0]) == 0xffff);
    check(&rt, "ones", checksum(&[0xff, 0xff]) == 0);

    // RFC 1071 section 3: the sum is ddf2
    let example = [0x00, 0x01, 0xf2, 0x03, 0xf4, 0xf5, 0xf6, 0xf7];
    check(&rt, "RFC 1071", checksum(&example) == 0x220d);

    // of no bytes: the protocol number alone
    check(&rt, "TCP of nothing", tcp_checksum(0, 0, &[]) == 0xfff9);
}

#[test]
fn known_frames(rt: HostRuntime) {
    let syn_ack = Flags::SYN.with(Flags::ACK);
    let psh_ack = Flags::PSH.with(Flags::ACK);
    let fin_ack = Flags::FIN.with(Flags::ACK);
    let opening = sent(1000, 0, Flags::SYN);
    check(&rt, "SYN", is_known(&OPENING, &opening));
    let opened = answered(5000, 1001, syn_ack);
    check(&rt, "SYN ACK", is_known(&OPENING_ANSWERED, &opened));
    let acknowledged = sent(1001, 5001, Flags::ACK);
    check(&rt, "ACK", is_known(&ACKNOWLEDGED, &acknowledged));
    let data = sent(1001, 5001, psh_ack);
    check(&rt, "data", is_known(&DATA, &data));
    let client_ends = sent(1006, 5001, fin_ack);
    check(&rt, "FIN", is_known(&CLIENT_ENDS, &client_ends));
    let server_ends = answered(5001, 1007, fin_ack);
    check(&rt, "FIN back", is_known(&SERVER_ENDS, &server_ends));
}

// That headers before a payload of `len` bytes are written so that the frame is read back, with right sums.
pub(super) fn check_payload(rt: &impl Abort, vlan: Option<u16>, len: usize)
    requires { len ≤ 1460 }
{
    let seq = 0xffff_fffe;
    let header = Header {
        vlan,
        ..sent(seq, 0x8000_0000, Flags::PSH.with(Flags::ACK))
    };
    let headers = headers_len(vlan);
    let mut frame = [0; 1518];
    for (place, byte) in frame.iter_mut().enumerate() {
        *byte = (place % 251) as u8;
    }
    let before = frame;
    let written = &mut frame[..headers + len];
    put_headers(written, &header);
    let read = is_read_as(written, &header, &before[headers..headers + len]);
    let summed = has_right_sums(written, &header);
    check(rt, "a long payload", read && summed);
}

#[test]
fn long_payloads_read_back(rt: HostRuntime) {
    check_payload(&rt, None, 0);
    check_payload(&rt, None, 1);
    check_payload(&rt, None, 1459);
    check_payload(&rt, None, 1460);
}

#[test]
fn lengths_of_headers(rt: HostRuntime) {
    check(&rt, "of no VLAN", headers_len(None) == 54);
    check(&rt, "of VLAN 7", headers_len(Some(7)) == 58);
    check(&rt, "the least", LEAST_HEADERS_LEN == 54);
    check(&rt, "the most", MOST_HEADERS_LEN == 58);
    check(&rt, "payload", PAYLOAD_LIMIT == 1460);
}

// That a flags byte is written and read back whole.
fn check_flags(rt: &impl Abort, byte: u8) {
    let flags = Flags::of(byte);
    let header = sent(1, 2, flags);
    let mut frame = [0; 54];
    put_headers(&mut frame, &header);
    let written = frame[47] == byte && flags.bits() == byte;
    check(
        rt,
        "a flags byte",
        written && is_read_as(&frame, &header, b""),
    );
}

#[test]
fn flags_read_back(rt: HostRuntime) {
    for byte in 0..=255 {
        check_flags(&rt, byte);
    }
    let opening = Flags::SYN.with(Flags::ACK);
    let same = opening == Flags::of(0x12);
    check(&rt, "SYN and ACK", same);
    let both = opening.has(Flags::SYN) && opening.has(Flags::ACK) && opening.has(opening);
    check(&rt, "has both", both);
    let more = opening.has(Flags::FIN) || opening.has(Flags::RST) || opening.has(Flags::PSH);
    check(&rt, "and no more", !more && !Flags::SYN.has(opening));
}
