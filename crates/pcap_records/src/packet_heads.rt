//! How many first bytes of a packet are kept if only its headers and its length are used.
ghost use Rattle.std.specs.Prelude.{◌≡◌};
ghost use Rattle.pcap_records.specs.Heads.{head_len, is_usual};

/// The most bytes of a packet that its head has: an Ethernet header with a tag, the longest IPv4 header, a TCP header without options.
pub const HEAD_LIMIT: usize = 98;

// Ethernet without a tag, IPv4 without options, and TCP up to its flags.
const USUAL_HEAD_LEN: usize = 48;

/// The number of first bytes that are kept, if a packet has them: 48 of usual headers, else [`HEAD_LIMIT`].
#[tactic(auto, unfolding(crate::specs::Heads::head_len))]
pub fn head_len(packet: &[u8]) -> usize
    ensures { result ≡ head_len packet.now }
{
    if is_usual(packet) {
        USUAL_HEAD_LEN
    } else {
        HEAD_LIMIT
    }
}

// Whether a packet has the headers of most: Ethernet without a tag, and IPv4 without options.
fn is_usual(packet: &[u8]) -> bool
    ensures { result ≡ is_usual packet.now }
{
    packet.len() > 14 && packet[12] == 0x08 && packet[13] == 0x00 && packet[14] == 0x45
}
