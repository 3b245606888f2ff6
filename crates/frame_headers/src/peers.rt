//! The two peers of a TCP connection.

/// A peer of a TCP connection: an IPv4 address and a TCP port. `10.0.0.1` is the address `0x0a00_0001`.
#[derive(Clone, Copy, Debug, PartialEq, Eq, PartialOrd, Ord, Hash)]
pub struct Peer {
    /// The IPv4 address, its first byte the highest.
    pub addr: u32,
    pub port: u16,
}
