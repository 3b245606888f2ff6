//! What is seen of a run beside its outputs.
ghost use Rattle.std.specs.Prelude.{◌≡◌, IfOk, List, map};
ghost use Rattle.std.specs.List.{flat_map};
ghost use Rattle.pcap_records.specs.CaptureView.{contents_of};
ghost use Rattle.conn_table.specs.SeenCapture.{seen_capture};
ghost use Rattle.conn_workers.specs.Recordings.{whole_table, recordings_of};
ghost use Rattle.conn_workers.specs.RowShares.{seen_of_recording, meets, met_count, run_summary};

use crate::recordings::Recording;
use crate::scenario_texts::ShareTexts;
use conn_table::laws::indexed_connections_agree;
use conn_table::{Counts, Table};
use frame_headers::Peer;
use lists::Values;
use pcap_records::Capture;
use scenarios::Scenario;
use std::alloc::{AllocError, Global};

/// A connection, as summaries show it.
#[derive(Clone, Copy, Debug)]
pub struct SeenConn {
    pub server: Peer,
    /// The number of the client's bytes after a gap or its FIN.
    pub up_lost: u64,
    /// The number of the server's bytes after a gap or its FIN.
    pub down_lost: u64,
}

/// What a run has seen: its capture, and how many connections meet a proxy. No seed, plan or gate changes it.
#[derive(Debug, Drop)]
pub struct RunSummary {
    /// The number of whole records in the capture.
    pub records: usize,
    /// The number of bytes after the last whole record.
    pub rest: u32,
    /// The number of packets of each class.
    pub counts: Counts,
    /// The number of segments that belong to no connection.
    pub unopened: u64,
    /// The connections, in order of number.
    pub connections: Values<SeenConn>,
    /// For each scenario the number of connections that meet a proxy, enabled or not. A run without scenario files has one scenario.
    pub met: Values<usize>,
}

/// What summaries show of connections with these recordings.
pub fn seen_conns(
    alloc: Global,
    recordings: &[Recording<'_, '_>],
) -> Result<Values<SeenConn>, AllocError>
    ensures { IfOk result (λ v. v ≡ map seen_of_recording recordings.now) }
{
    let mut conns = Vec::with_capacity(alloc, recordings.len())?;
    for recording in recordings {
        conns.push(SeenConn {
            server: recording.conn.server,
            up_lost: recording.recorded.up_lost,
            down_lost: recording.recorded.down_lost,
        })?;
    }
    Ok(Values::of(conns))
}

/// The connections of shares, share after share.
pub fn conns_together(alloc: Global, shares: &[ShareTexts]) -> Result<Values<SeenConn>, AllocError>
    ensures { IfOk result (λ v. v ≡ flat_map (λ share. share.connections) shares.now) }
{
    let mut conns = Vec::new(alloc);
    for share in shares {
        conns.extend_from_slice(share.connections.as_slice())?;
    }
    Ok(Values::of(conns))
}

/// The summary of a run with these scenarios, by what is seen of the connections of its capture.
pub fn run_summary(
    alloc: Global,
    capture: &Capture<'_>,
    table: &Table,
    connections: Values<SeenConn>,
    scenarios: &[Scenario],
) -> Result<RunSummary, AllocError>
    requires table { table.now ≡ whole_table capture.now }
    requires connections { connections ≡ map seen_of_recording (recordings_of capture.now) }
    ensures { IfOk result (λ summary. summary ≡ run_summary (seen_capture (contents_of capture.now)) scenarios.now) }
{
    indexed_connections_agree();
    let met = met_counts(alloc, scenarios, connections.as_slice())?;
    Ok(RunSummary {
        records: capture.records().len(),
        rest: capture.rest(),
        counts: table.counts(),
        unopened: table.unopened(),
        connections,
        met,
    })
}

fn met_counts(
    alloc: Global,
    scenarios: &[Scenario],
    connections: &[SeenConn],
) -> Result<Values<usize>, AllocError>
    ensures { IfOk result (λ v. v ≡ map (λ proxies. met_count proxies connections.now) scenarios.now) }
{
    let counts = scenarios
        .iter()
        .map(|scenario| met_count(scenario, connections));
    Ok(Values::of(counts.collect(alloc)?))
}

fn met_count(scenario: &Scenario, connections: &[SeenConn]) -> usize
    ensures { result ≡ met_count scenario.now connections.now }
{
    connections
        .iter()
        .filter(|connection| meets(scenario, connection))
        .count()
}

fn meets(scenario: &Scenario, connection: &SeenConn) -> bool
    ensures { result ≡ meets scenario.now connection.now }
{
    scenario.proxy_of(connection.server).is_some()
}
