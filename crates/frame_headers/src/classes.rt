//! Which class a captured frame has, and the fields of the TCP segment in it.
ghost use Rattle.std.specs.Prelude.{◌≡◌, ◌+◌, ◌≤◌, ◌<◌, ◌^◌, length, slice_range};
ghost use Rattle.frame_headers.specs.Layout.{link_len};
ghost use Rattle.frame_headers.specs.Class.{frame_class_of, HasFields, HasPayloadIn, IsPayloadIn, fields_of_segment};
ghost use Rattle.frame_headers.specs.Frame.{frame_class, segment_fields, datagram_in, header_len, total_len, is_tagged, vlan_in, is_not_ipv4, is_bad_ipv4, is_fragment, is_bad_tcp, ip_payload, data_offset};

use crate::flag_bits::Flags;
use crate::layout::{
    ACK_AT, DATA_OFFSET_AT, DESTINATION_AT, ETHERNET_LEN, FLAGS_AT, FRAGMENT_AT, IPV4_LEN,
    IPV4_TYPE, MAC_LEN, PROTOCOL_AT, SEQ_AT, SOURCE_AT, TAG_TYPE, TCP_LEN, TCP_PROTOCOL,
    TO_PORT_AT, TOTAL_LEN_AT, TYPE_LEN, VLAN_LIMIT, link_len,
};
use crate::peers::Peer;
use byteorder::{BigEndian, ByteOrder};

/// What a captured frame is: the first that holds. Checksums play no part, because captures of outgoing packets often have unfilled ones.
#[derive(Clone, Copy, Debug, PartialEq, Eq)]
pub enum Class<'a> {
    /// Fewer than the 14 bytes of an Ethernet II header, or the 18 of one with a tag.
    Short,
    /// The type, after a tag if there is one, is not IPv4's `0x0800`. A second tag has another type, too.
    NotIpv4,
    /// Fewer bytes than an IPv4 header, or an impossible version, header length or total length (RFC 791 section 3.1).
    BadIpv4,
    /// A fragment of a datagram: more fragments follow, or its offset is not 0.
    Fragment,
    NotTcp,
    /// The capture holds fewer bytes than the datagram's total length.
    Cut,
    /// Fewer bytes than a TCP header, or an impossible data offset (RFC 9293 section 3.1).
    BadTcp,
    /// The source and the destination have the same address and port.
    SameEnds,
    Segment(Segment<'a>),
}

/// The fields of a captured TCP segment and of the headers that carry it, from a sender to a receiver.
#[derive(Clone, Copy, Debug, PartialEq, Eq)]
pub struct Segment<'a> {
    pub mac_from: [u8; MAC_LEN],
    pub mac_to: [u8; MAC_LEN],
    /// The number of its VLAN, 1 to 4095, if it has a tag with one (IEEE 802.1Q).
    pub vlan: Option<u16>,
    pub from: Peer,
    pub to: Peer,
    pub seq: u32,
    pub ack: u32,
    pub flags: Flags,
    /// The bytes from the end of the TCP header to the datagram's total length, a slice of the frame.
    pub payload: &'a [u8],
    /// The place of the payload in the frame: the number of bytes of the headers of Ethernet, IPv4 and TCP.
    pub offset: u16,
}

/// The class of a captured frame, and the fields of a segment. It allocates nothing.
#[inline(always)]
#[tactic(auto, unfolding(crate::specs::Frame::frame_class, crate::specs::Frame::segment_fields))]
pub fn classify(packet: &[u8]) -> Class<'_>
    ensures class { frame_class_of result ≡ frame_class packet.now }
    ensures segment { HasFields result (segment_fields packet.now) }
    ensures payload { HasPayloadIn packet.now result }
{
    let tagged = is_tagged(packet);
    if packet.len() < link_len(tagged) {
        return Class::Short;
    }
    if is_not_ipv4(packet, tagged) {
        return Class::NotIpv4;
    }
    let ip = after_link(packet, tagged);
    if is_bad_ipv4(ip) {
        return Class::BadIpv4;
    }
    if is_fragment(ip) {
        return Class::Fragment;
    }
    if ip[PROTOCOL_AT] != TCP_PROTOCOL {
        return Class::NotTcp;
    }
    if ip.len() < total_len(ip) {
        return Class::Cut;
    }
    let tcp = &ip[header_len(ip)..total_len(ip)];
    if is_bad_tcp(tcp) {
        return Class::BadTcp;
    }
    let segment = segment_in(packet, tagged, ip, tcp);
    if segment.from == segment.to {
        return Class::SameEnds;
    }
    Class::Segment(segment)
}

fn is_tagged(packet: &[u8]) -> bool
    ensures { result ≡ is_tagged packet.now }
{
    packet.len() >= ETHERNET_LEN
        && BigEndian::read_u16(&packet[ETHERNET_LEN - TYPE_LEN..]) == TAG_TYPE
}

fn vlan_in(packet: &[u8], tagged: bool) -> Option<u16>
    requires { link_len tagged ≤ length packet.now }
    ensures { result ≡ vlan_in tagged packet.now }
{
    if !tagged {
        return None;
    }
    let number = BigEndian::read_u16(&packet[ETHERNET_LEN..]) % VLAN_LIMIT;
    if number == 0 { None } else { Some(number) }
}

fn is_not_ipv4(packet: &[u8], tagged: bool) -> bool
    requires { link_len tagged ≤ length packet.now }
    ensures { result ≡ is_not_ipv4 tagged packet.now }
{
    BigEndian::read_u16(&packet[link_len(tagged) - TYPE_LEN..]) != IPV4_TYPE
}

fn after_link(packet: &[u8], tagged: bool) -> &[u8]
    requires { link_len tagged ≤ length packet.now }
    ensures { result.now ≡ datagram_in tagged packet.now }
{
    &packet[link_len(tagged)..]
}

fn header_len(ip: &[u8]) -> usize
    requires { IPV4_LEN ≤ length ip.now }
    ensures { result ≡ header_len ip.now }
{
    4 * usize::from(ip[0] % 16)
}

fn total_len(ip: &[u8]) -> usize
    requires { IPV4_LEN ≤ length ip.now }
    ensures value { result ≡ total_len ip.now }
    ensures small { result < 2 ^ 16 }
{
    usize::from(BigEndian::read_u16(&ip[TOTAL_LEN_AT..]))
}

fn is_bad_ipv4(ip: &[u8]) -> bool
    ensures { result ≡ is_bad_ipv4 ip.now }
{
    ip.len() < IPV4_LEN
        || ip[0] / 16 != 4
        || header_len(ip) < IPV4_LEN
        || total_len(ip) < header_len(ip)
}

// More fragments follow, or the offset is not 0.
fn is_fragment(ip: &[u8]) -> bool
    requires { IPV4_LEN ≤ length ip.now }
    ensures { result ≡ is_fragment ip.now }
{
    BigEndian::read_u16(&ip[FRAGMENT_AT..]) % 0x4000 != 0
}

fn data_offset(tcp: &[u8]) -> usize
    requires { TCP_LEN ≤ length tcp.now }
    ensures { result ≡ data_offset tcp.now }
{
    4 * usize::from(tcp[DATA_OFFSET_AT] / 16)
}

fn is_bad_tcp(tcp: &[u8]) -> bool
    ensures { result ≡ is_bad_tcp tcp.now }
{
    tcp.len() < TCP_LEN || data_offset(tcp) < TCP_LEN || tcp.len() < data_offset(tcp)
}

#[inline(always)]
#[tactic(auto, unfolding(crate::specs::Frame::segment_fields))]
fn segment_in<'a>(packet: &[u8], tagged: bool, ip: &[u8], tcp: &'a [u8]) -> Segment<'a>
    requires tagged { tagged ≡ is_tagged packet.now }
    requires datagram { ip.now ≡ datagram_in tagged packet.now }
    requires ipv4 { IPV4_LEN ≤ length ip.now }
    requires whole { total_len ip.now ≤ length ip.now }
    requires carried { tcp.now ≡ ip_payload ip.now }
    requires tcp { TCP_LEN ≤ length tcp.now }
    requires offset { data_offset tcp.now ≤ length tcp.now }
    requires within { link_len tagged + header_len ip.now + length tcp.now ≤ length packet.now }
    requires short { length tcp.now < 2 ^ 16 }
    ensures fields { fields_of_segment result ≡ segment_fields packet.now }
    ensures payload { IsPayloadIn packet.now result }
{
    Segment {
        mac_from: mac_at(packet, MAC_LEN),
        mac_to: mac_at(packet, 0),
        vlan: vlan_in(packet, tagged),
        from: Peer {
            addr: BigEndian::read_u32(&ip[SOURCE_AT..]),
            port: BigEndian::read_u16(tcp),
        },
        to: Peer {
            addr: BigEndian::read_u32(&ip[DESTINATION_AT..]),
            port: BigEndian::read_u16(&tcp[TO_PORT_AT..]),
        },
        seq: BigEndian::read_u32(&tcp[SEQ_AT..]),
        ack: BigEndian::read_u32(&tcp[ACK_AT..]),
        flags: Flags::of(tcp[FLAGS_AT]),
        payload: &tcp[data_offset(tcp)..],
        offset: (link_len(tagged) + header_len(ip) + data_offset(tcp)) as u16,
    }
}

fn mac_at(packet: &[u8], at: usize) -> [u8; 6]
    requires { at + MAC_LEN ≤ length packet.now }
    ensures { result ≡ slice_range packet.now at (at + MAC_LEN) }
{
    let mut mac = [0; MAC_LEN];
    mac.copy_from_slice(&packet[at..at + MAC_LEN]);
    mac
}
