//! Who waits for whom.

/// Who waits for whom.
#[derive(Clone, Copy, Debug, PartialEq, Eq)]
pub struct Manners {
    /// Whether a client sends a packet only once it has received what it had received before it in the recording.
    pub client_waits: bool,
    /// The same of a server.
    pub server_waits: bool,
    /// Whether a connection opens only once an earlier one of its client has ended, if that one had ended before in the recording.
    pub in_turn: bool,
}
