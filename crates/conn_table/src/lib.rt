//! Connections of a capture: its segments grouped by their two peers, their VLAN and their openings, range by range.
//! `specs/Connections.antt` says what the connections of a list of segments are, and `laws` ties partials and tables to it.
#![tactic(auto)]

mod class_counts;
mod conns;
mod entries;
mod growth;
mod last_connections;
pub mod laws;
mod pair_keys;
mod partial;
mod table;

pub use class_counts::Counts;
pub use conns::{Conn, Member, Members, Pair};
pub use partial::Partial;
pub use table::{Table, finish};
