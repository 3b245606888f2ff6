//! Where the fields of a frame's headers stand: Ethernet II with at most one tag (IEEE 802.1Q), IPv4 (RFC 791 section 3.1)
//! and TCP (RFC 9293 section 3.1). A place is counted from the first byte of its own header.

ghost use Rattle.std.specs.Prelude.{◌≡◌};
ghost use Rattle.frame_headers.specs.Layout.{headers_len, link_len};

/// The length of an Ethernet address. A frame begins with its receiver's, and its sender's comes next.
pub(crate) const MAC_LEN: usize = 6;

/// The length of an Ethernet header without a tag: two addresses, and the type of what follows.
pub(crate) const ETHERNET_LEN: usize = 14;

/// The length of a tag, which stands before that type: a type of its own, and 16 bits. The lower 12 of these are a VLAN's number.
pub(crate) const TAG_LEN: usize = 4;

pub(crate) const TAG_TYPE: u16 = 0x8100;

/// Each number of a VLAN is below it.
pub(crate) const VLAN_LIMIT: u16 = 4096;

pub(crate) const TYPE_LEN: usize = 2;

pub(crate) const IPV4_TYPE: u16 = 0x0800;

/// The length of an IPv4 header without options, which is the shortest.
pub(crate) const IPV4_LEN: usize = 20;

pub(crate) const TOTAL_LEN_AT: usize = 2;

/// The place of the flags on fragments and of a fragment's offset.
pub(crate) const FRAGMENT_AT: usize = 6;

pub(crate) const PROTOCOL_AT: usize = 9;

pub(crate) const IPV4_SUM_AT: usize = 10;

pub(crate) const SOURCE_AT: usize = 12;

pub(crate) const DESTINATION_AT: usize = 16;

pub(crate) const TCP_PROTOCOL: u8 = 6;

/// The length of a TCP header without options, which is the shortest.
pub(crate) const TCP_LEN: usize = 20;

pub(crate) const TO_PORT_AT: usize = 2;

pub(crate) const SEQ_AT: usize = 4;

pub(crate) const ACK_AT: usize = 8;

/// The place of a TCP header's length in words of 32 bits: the upper half of this byte.
pub(crate) const DATA_OFFSET_AT: usize = 12;

pub(crate) const FLAGS_AT: usize = 13;

pub(crate) const TCP_SUM_AT: usize = 16;

pub(crate) fn link_len(tagged: bool) -> usize
    ensures { result ≡ link_len tagged }
{
    if tagged {
        ETHERNET_LEN + TAG_LEN
    } else {
        ETHERNET_LEN
    }
}

/// The bytes of the headers of a written segment of a VLAN, or of none: Ethernet II, and IPv4 and TCP without options.
pub fn headers_len(vlan: Option<u16>) -> usize
    ensures { result ≡ headers_len vlan }
{
    link_len(vlan.is_some()) + IPV4_LEN + TCP_LEN
}

/// The bytes of such headers without a VLAN.
pub const LEAST_HEADERS_LEN: usize = ETHERNET_LEN + IPV4_LEN + TCP_LEN;

/// The bytes of such headers with a VLAN.
pub const MOST_HEADERS_LEN: usize = LEAST_HEADERS_LEN + TAG_LEN;

/// The most payload bytes of a written segment: what the headers of IPv4 and TCP leave of an Ethernet frame's 1,500.
pub const PAYLOAD_LIMIT: usize = 1500 - IPV4_LEN - TCP_LEN;
