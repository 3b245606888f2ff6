//! The endpoints of a connection, as its segments name them.
ghost use Rattle.std.specs.Prelude.{◌≡◌};
ghost use Rattle.reassembly.specs.RecordedView.{recorded_view};
ghost use Rattle.segment_writer.specs.Endpoints.{endpoints_of};

use crate::senders::{Sender, Turn};
use conn_table::Conn;
use pcap_records::Moment;
use reassembly::Recorded;
use std::marker::Model;

/// The endpoints of a connection, as each of its segments names them, with its number and the instant of its opening. The rows of all
/// scenarios borrow them.
#[derive(Debug, Drop)]
pub struct Endpoints {
    /// The client, in the opening.
    pub(crate) client: Sender,
    pub(crate) opened: Moment,
}

impl Model for Endpoints {
    ghost use Rattle.segment_writer.specs.Endpoints.{EndpointsView, IsClient, endpoints_by};

    ghost Value = { EndpointsView };

    ghost view = { λ e. endpoints_by e.client e.opened };

    ghost invariant = { λ e. IsClient e.client };
}

impl Endpoints {
    ghost use Rattle.std.specs.Prelude.{◌≡◌};
    ghost use Rattle.reassembly.specs.RecordedView.{recorded_view};
    ghost use Rattle.segment_writer.specs.Endpoints.{endpoints_of};

    /// The endpoints of a connection with its recorded lines. A server that never answered counts from 0.
    pub fn of(conn: &Conn, recorded: &Recorded<'_>) -> Endpoints
        ensures { result ≡ endpoints_of recorded.now.up.ticks conn.now (recorded_view recorded.now) }
    {
        let mac_from = recorded.mac_client;
        let mac_to = recorded.mac_server;
        Endpoints {
            client: Sender {
                unit: recorded.up.unit(),
                conn: conn.number,
                turn: Turn::Opening,
                is_server: false,
                mac_from,
                mac_to,
                vlan: conn.vlan,
                from: conn.client,
                to: conn.server,
                base: recorded.client_base,
                peer_base: recorded.server_base.unwrap_or(0),
            },
            opened: recorded.opened,
        }
    }
}
