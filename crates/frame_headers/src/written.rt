//! The headers of frames that are written.
ghost use Rattle.std.specs.Prelude.{◌≡◌, ℕ, ◌+◌, ◌-◌, ◌*◌, ◌≤◌, ◌++◌, is_some, length, drop};
ghost use Rattle.frame_headers.specs.HeaderLaws.{IsHeader, IsReadBack, IsVlan, SumsToNothing};
ghost use Rattle.frame_headers.specs.Layout.{mac_len, link_len, ipv4_len, tcp_len, headers_len, payload_limit};
ghost use Rattle.frame_headers.specs.Headers.{ethernet, headers, link_bytes, ipv4, ipv4_lengths, ipv4_route, ipv4_with, tcp, tcp_numbers, tcp_state, tcp_with};

use crate::flag_bits::Flags;
use crate::layout::{
    ACK_AT, DATA_OFFSET_AT, DESTINATION_AT, FRAGMENT_AT, IPV4_LEN, IPV4_SUM_AT, IPV4_TYPE, MAC_LEN,
    SEQ_AT, SOURCE_AT, TAG_TYPE, TCP_LEN, TCP_SUM_AT, TO_PORT_AT, TOTAL_LEN_AT, link_len,
};
use crate::peers::Peer;
use crate::sums::{checksum, tcp_checksum};
use byteorder::{BigEndian, ByteOrder};

/// The fields of a TCP segment to write and of the headers that carry it, from a sender to a receiver.
#[derive(Clone, Copy, Debug, PartialEq, Eq)]
pub struct Header {
    pub mac_from: [u8; MAC_LEN],
    pub mac_to: [u8; MAC_LEN],
    /// The number of its VLAN, 1 to 4095, if it has one.
    pub vlan: Option<u16>,
    pub from: Peer,
    pub to: Peer,
    pub seq: u32,
    pub ack: u32,
    pub flags: Flags,
}

/// Writes the headers before a payload that is in place: Ethernet II, with a tag for a VLAN (IEEE 802.1Q), IPv4 and TCP without options.
/// Both checksums are filled. `classify` reads the fields back if the two peers differ and the VLAN is none or 1 to 4095.
pub fn put_headers(frame: &mut [u8], header: &Header)
    requires room { headers_len header.now.vlan ≤ length frame.old }
    requires small { length frame.old ≤ headers_len header.now.vlan + payload_limit }
    ensures bytes { frame.new
        ≡ headers header.now (drop (headers_len header.now.vlan) frame.old) ++ drop (headers_len header.now.vlan) frame.old }
    ensures sums { SumsToNothing header.now frame.new }
    ensures read { IsVlan header.now.vlan → IsReadBack header.now (drop (headers_len header.now.vlan) frame.old) frame.new }
{
    header_fits(*header);
    write_headers(frame, header);
}

fn header_fits(header: Header)
    ensures { IsHeader header }
{}

fn write_headers(frame: &mut [u8], header: &Header)
    requires room { headers_len header.now.vlan ≤ length frame.old }
    requires small { length frame.old ≤ headers_len header.now.vlan + payload_limit }
    ensures { frame.new
        ≡ headers header.now (drop (headers_len header.now.vlan) frame.old) ++ drop (headers_len header.now.vlan) frame.old }
{
    let link = link_len(header.vlan.is_some());
    let segment_len = (frame.len() - (link + IPV4_LEN)) as u16;
    put_ethernet(frame, header);
    put_ipv4(&mut frame[link..], header, segment_len);
    put_tcp(&mut frame[link + IPV4_LEN..], header);
}

fn put_ethernet(frame: &mut [u8], header: &Header)
    requires { link_len (is_some header.now.vlan) ≤ length frame.old }
    ensures { frame.new ≡ ethernet header.now ++ drop (link_len (is_some header.now.vlan)) frame.old }
{
    frame[..MAC_LEN].copy_from_slice(&header.mac_to);
    frame[MAC_LEN..2 * MAC_LEN].copy_from_slice(&header.mac_from);
    put_link(&mut frame[2 * MAC_LEN..], header.vlan);
}

fn put_link(rest: &mut [u8], vlan: Option<u16>)
    requires { link_len (is_some vlan) - 2 * mac_len ≤ length rest.old }
    ensures { rest.new ≡ link_bytes vlan ++ drop (link_len (is_some vlan) - 2 * mac_len) rest.old }
{
    match vlan {
        Some(vlan) => {
            BigEndian::write_u16(rest, TAG_TYPE);
            BigEndian::write_u16(&mut rest[2..], vlan);
            BigEndian::write_u16(&mut rest[4..], IPV4_TYPE);
        }
        None => BigEndian::write_u16(rest, IPV4_TYPE),
    }
}

#[tactic(auto, unfolding(crate::specs::Headers::ipv4))]
fn put_ipv4(head: &mut [u8], header: &Header, segment_len: u16)
    requires room { ipv4_len ≤ length head.old }
    requires small { segment_len ≤ tcp_len + payload_limit }
    ensures { head.new ≡ ipv4 header.now segment_len ++ drop ipv4_len head.old }
{
    fill_ipv4(head, header, segment_len);
    let sum = checksum(&head[..IPV4_LEN]);
    BigEndian::write_u16(&mut head[IPV4_SUM_AT..], sum);
}

fn fill_ipv4(head: &mut [u8], header: &Header, segment_len: u16)
    requires room { ipv4_len ≤ length head.old }
    requires small { segment_len ≤ tcp_len + payload_limit }
    ensures { head.new ≡ ipv4_with 0 header.now segment_len ++ drop ipv4_len head.old }
{
    fill_lengths(head, segment_len);
    fill_route(&mut head[8..], header);
}

// Version 4 and 5 words of header, the total length, no identification, "don't fragment".
fn fill_lengths(head: &mut [u8], segment_len: u16)
    requires room { 8 ≤ length head.old }
    requires small { segment_len ≤ tcp_len + payload_limit }
    ensures { head.new ≡ ipv4_lengths segment_len ++ drop 8 head.old }
{
    BigEndian::write_u16(head, 0x4500);
    BigEndian::write_u16(&mut head[TOTAL_LEN_AT..], IPV4_LEN as u16 + segment_len);
    BigEndian::write_u16(&mut head[4..], 0);
    BigEndian::write_u16(&mut head[FRAGMENT_AT..], 0x4000);
}

// 64 hops and TCP's protocol number, 0 in place of the checksum, both addresses.
fn fill_route(head: &mut [u8], header: &Header)
    requires { 12 ≤ length head.old }
    ensures { head.new ≡ ipv4_route 0 header.now ++ drop 12 head.old }
{
    BigEndian::write_u16(head, 0x4006);
    BigEndian::write_u16(&mut head[2..], 0);
    BigEndian::write_u32(&mut head[4..], header.from.addr);
    BigEndian::write_u32(&mut head[8..], header.to.addr);
}

#[tactic(auto, unfolding(crate::specs::Headers::tcp))]
fn put_tcp(head: &mut [u8], header: &Header)
    requires room { tcp_len ≤ length head.old }
    requires small { length head.old ≤ tcp_len + payload_limit }
    ensures { head.new ≡ tcp header.now (drop tcp_len head.old) ++ drop tcp_len head.old }
{
    fill_tcp(head, header);
    let sum = tcp_checksum(header.from.addr, header.to.addr, head);
    BigEndian::write_u16(&mut head[TCP_SUM_AT..], sum);
}

fn fill_tcp(head: &mut [u8], header: &Header)
    requires { tcp_len ≤ length head.old }
    ensures { head.new ≡ tcp_with 0 header.now ++ drop tcp_len head.old }
{
    fill_numbers(head, header);
    fill_state(&mut head[DATA_OFFSET_AT..], header.flags);
}

fn fill_numbers(head: &mut [u8], header: &Header)
    requires { 12 ≤ length head.old }
    ensures { head.new ≡ tcp_numbers header.now ++ drop 12 head.old }
{
    BigEndian::write_u16(head, header.from.port);
    BigEndian::write_u16(&mut head[TO_PORT_AT..], header.to.port);
    BigEndian::write_u32(&mut head[SEQ_AT..], header.seq);
    BigEndian::write_u32(&mut head[ACK_AT..], header.ack);
}

// 5 words of header and the flags, the widest window, 0 in place of the checksum, no urgent bytes.
fn fill_state(head: &mut [u8], flags: Flags)
    requires { 8 ≤ length head.old }
    ensures { head.new ≡ tcp_state 0 flags ++ drop 8 head.old }
{
    BigEndian::write_u16(head, 0x5000 + u16::from(flags.bits()));
    BigEndian::write_u16(&mut head[2..], 0xffff);
    BigEndian::write_u16(&mut head[4..], 0);
    BigEndian::write_u16(&mut head[6..], 0);
}
