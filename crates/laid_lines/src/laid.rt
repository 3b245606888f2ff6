//! Lines that are laid flat, and the structs of C that they are made of. None of these has padding.

/// What both sides of all connections are delivered, laid flat: scenario after scenario, in each connection after connection in order of
/// number, and of each what the server is delivered before what the client is.
#[derive(Drop)]
pub struct LaidLines<'a> {
    /// The bytes of all directions, as slices of the capture.
    pub pieces: Vec<&'a [u8]>,
    /// The chunks of all directions.
    pub chunks: Vec<ToxicapChunk>,
    /// The connections.
    pub connections: Vec<ToxicapConnection>,
}

/// Bytes of a direction that come at once. It takes 16 bytes.
#[repr(C)]
#[derive(Clone, Copy, Debug, PartialEq, Eq)]
pub struct ToxicapChunk {
    /// The number of the direction's bytes up to the chunk's last.
    pub end: u64,
    /// When it comes, in nanoseconds since the opening.
    pub time: u64,
}

/// What one side of a connection sent, as it is delivered to the other. It takes 32 bytes.
#[repr(C)]
#[derive(Clone, Copy, Debug, PartialEq, Eq)]
pub struct ToxicapDirection {
    /// The number of its bytes.
    pub bytes: u64,
    /// The number of its chunks.
    pub chunks: u64,
    /// When it ends, in nanoseconds since the opening; 0 if it does not.
    pub end_time: u64,
    /// How it ends: 0 for not at all, 1 by a FIN, 2 by a close of a toxic, 3 by a reset, 4 if a disabled proxy refuses the connection.
    pub end: u64,
}

/// A connection in a scenario. It takes 88 bytes.
#[repr(C)]
#[derive(Clone, Copy, Debug, PartialEq, Eq)]
pub struct ToxicapConnection {
    /// When it was opened, in nanoseconds since 1970.
    pub opened: u64,
    /// What the client sent.
    pub up: ToxicapDirection,
    /// What the server sent.
    pub down: ToxicapDirection,
    /// The client's IPv4 address, its first byte the highest.
    pub client_address: u32,
    /// The server's IPv4 address, its first byte the highest.
    pub server_address: u32,
    /// The client's port.
    pub client_port: u16,
    /// The server's port.
    pub server_port: u16,
    /// The number of the VLAN, or 0 without one.
    pub vlan: u32,
}
