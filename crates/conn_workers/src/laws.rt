//! Theorems about what connections contribute: the contract of each function is a theorem.
ghost use Rattle.std.specs.Prelude.{All};
ghost use Rattle.std.specs.List.{AllByRecursion};
ghost use Rattle.reassembly.specs.RecordedLines.{recorded_connection};
ghost use Rattle.toxic_defs.specs.Laws.{IsRecordedInTime};
ghost use Rattle.scenarios.specs.ProxyLaws.{IsSound};
ghost use Rattle.conn_workers.specs.DeliveryLaws.{RowsAreWhole, DeliveriesArePlaced, ContributionsAreIsolated, FirstProxyIsMet, LinesAreContributed, RowsAreContributed, TablesAreWhole, table_connections, IsOfRecorded, IsOfScenario};
ghost use Rattle.conn_workers.specs.Recordings.{deliveries, recordings_of, recorded_row};

use conn_table::laws::indexed_connections_agree;
use pcap_records::Capture;
use reassembly::laws::{
    connections_are_in_time, recorded_sides_are_lines, recorded_sides_lie_between,
};
use scenarios::Scenario;
use scenarios::laws::first_is_met;
use toxic_defs::laws::{cut_lines_end_in_time, delayed_bytes_are_the_first, delivered_is_recorded};

/// Of C connections, the delivery of connection c to scenario s stands at place s * C + c and has both numbers.
pub fn deliveries_are_placed()
    ensures whole { RowsAreWhole }
    ensures placed { DeliveriesArePlaced }
{}

/// Whatever else a capture and a scenario hold does not change a contribution: other connections, packets and proxies.
pub fn contributions_are_isolated()
    ensures { ContributionsAreIsolated }
{}

/// A connection meets the first proxy whose upstream is its server, or none if no upstream is.
#[tactic(auto, using(crate::proofs::Meetings::first_proxy_is_met))]
pub fn first_proxy_is_met()
    ensures { FirstProxyIsMet }
{
    first_is_met();
}

/// The table of a capture has the connections of the definition, in order of number, as many unopened segments, and the same counts.
pub fn tables_are_whole()
    ensures { TablesAreWhole }
{
    indexed_connections_agree();
}

/// The recordings of a capture give what its connections contribute to a scenario.
#[tactic(auto, using(crate::proofs::RowLemmas::rows_are_contributed))]
pub fn rows_are_contributed()
    ensures { RowsAreContributed }
{
    indexed_connections_agree();
}

/// The recordings of a capture give the lines that its connections contribute.
#[tactic(auto, using(crate::proofs::RowLemmas::lines_are_contributed))]
pub fn lines_are_contributed()
    ensures { LinesAreContributed }
{
    indexed_connections_agree();
}

/// Both recorded lines of each connection follow the rule of lines. No byte is before the opening or past the horizon, and no end is before
/// the opening.
pub fn recordings_are_in_time(capture: &Capture<'_>)
    ensures recordings { AllByRecursion (λ r. IsRecordedInTime r.ticks r.recorded) (recordings_of capture.now) }
    ensures connections { AllByRecursion (λ x. IsRecordedInTime capture.now.ticks (recorded_connection x)) (table_connections capture.now) }
{
    indexed_connections_agree();
    connections_are_in_time();
    recorded_sides_are_lines();
    recorded_sides_lie_between();
    capture.bytes();
}

/// What `deliver` gives in each direction is the first bytes that were recorded, none before it was recorded. No end is before the opening,
/// and all instants are before the horizon.
pub fn deliveries_are_recorded(capture: &Capture<'_>, scenarios: &[Scenario], seed: u64)
    ensures { AllByRecursion (IsOfScenario capture.now seed scenarios.now)
        (deliveries capture.now.ticks seed (table_connections capture.now) scenarios.now) }
{
    recordings_are_in_time(capture);
    delivered_is_recorded();
    cut_lines_end_in_time();
    delayed_bytes_are_the_first();
    all_are_sound(scenarios);
}

/// The same of each delivery of a row, whose segments and lines `deliver_row` and `deliver_row_alone` give.
pub fn rows_are_recorded(capture: &Capture<'_>, number: u32, scenario: &Scenario, seed: u64)
    ensures { AllByRecursion (IsOfRecorded capture.now seed (number, scenario.now))
        (recorded_row seed (number, scenario.now) (recordings_of capture.now)) }
{
    recordings_are_in_time(capture);
    rows_are_contributed();
    delivered_is_recorded();
    cut_lines_end_in_time();
    delayed_bytes_are_the_first();
    scenario.proxies();
}

// The toxics of each proxy are in range.
fn all_are_sound(scenarios: &[Scenario])
    ensures { All (AllByRecursion IsSound) scenarios.now }
{
    for scenario in scenarios {
        scenario.proxies();
    }
}
