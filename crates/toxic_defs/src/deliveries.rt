//! What each side of a connection is delivered.
ghost use Rattle.std.specs.Prelude.{◌≡◌, ◌≤◌, IfOk, IfSome, length, option_map};
ghost use Rattle.pcap_records.specs.Instants.{ticks_of};
ghost use Rattle.reassembly.specs.LineLaws.{IsLine};
ghost use Rattle.reassembly.specs.RecordedView.{recorded_view};
ghost use Rattle.toxic_defs.specs.Limits.{most_toxics};
ghost use Rattle.toxic_defs.specs.DeliveredLines.{delivered_view, met_view, delivered_connection, connection_by_cut, connection_through, refused_connection};

use crate::laws::cut_lines_are_lines;
use crate::running::chain;
use crate::session_cut::cut_both;
use crate::toxic::Toxic;
use crate::words::Direction;
use pcap_records::Unit;
use reassembly::{End, Line, Recorded};
use std::alloc::{AllocError, Global};

/// What the two sides of a connection are delivered in a scenario.
#[derive(Debug, Drop)]
pub struct Delivered<'a> {
    /// The number in the scenario of the proxy that the connection met, if it met one.
    pub proxy: Option<u32>,
    /// Whether that proxy is disabled and refused the connection: both lines are empty then.
    pub refused: bool,
    /// What the server is delivered.
    pub up: Line<'a>,
    /// What the client is delivered.
    pub down: Line<'a>,
}

/// The proxy that a connection meets in a scenario.
#[derive(Clone, Copy, Debug)]
pub struct MetProxy<'p> {
    /// Its number in the scenario.
    pub number: u32,
    /// Whether it takes connections.
    pub enabled: bool,
    /// The toxics of the up line, in turn.
    pub up: &'p [Toxic],
    /// The toxics of the down line, in turn.
    pub down: &'p [Toxic],
}

/// What is delivered of a connection: each recorded line through the toxics of its direction, and then both under the session cut.
/// If no proxy is met, the recorded lines are only cut. A disabled proxy refuses the connection: both lines are empty.
/// Random words are drawn by the seed and the numbers of scenario and connection. The bytes are slices of the recorded ones.
#[tactic(auto, unfolding(crate::specs::DeliveredLines::delivered_connection))]
pub fn delivered_by<'a>(
    alloc: Global,
    recorded: &Recorded<'a>,
    met: Option<MetProxy<'_>>,
    seed: u64,
    scenario: u32,
    connection: u32,
) -> Result<Delivered<'a>, AllocError>
    requires up { IsLine recorded.now.up.line }
    requires down { IsLine recorded.now.down.line }
    requires one_unit { recorded.now.down.ticks ≡ recorded.now.up.ticks }
    requires few_up { IfSome met (λ m. length m.up.now ≤ most_toxics) }
    requires few_down { IfSome met (λ m. length m.down.now ≤ most_toxics) }
    ensures value { IfOk result (λ d. delivered_view d
        ≡ delivered_connection recorded.now.up.ticks seed scenario connection (option_map met_view met.entry) (recorded_view recorded.now)) }
    ensures up { IfOk result (λ d. IsLine d.up.line) }
    ensures down { IfOk result (λ d. IsLine d.down.line) }
    ensures up_ticks { IfOk result (λ d. d.up.ticks ≡ recorded.now.up.ticks) }
    ensures down_ticks { IfOk result (λ d. d.down.ticks ≡ recorded.now.up.ticks) }
{
    match met {
        None => {
            let up = recorded.up.copy(alloc)?;
            let down = recorded.down.copy(alloc)?;
            Ok(cut_lines(None, up, down))
        }
        Some(met) if !met.enabled => Ok(refused(alloc, recorded.up.unit(), met.number)),
        Some(met) => lines_through(alloc, recorded, &met, seed, scenario, connection),
    }
}

fn refused<'a>(alloc: Global, unit: Unit, number: u32) -> Delivered<'a>
    ensures value { delivered_view result ≡ refused_connection number }
    ensures up { IsLine result.up.line }
    ensures down { IsLine result.down.line }
    ensures up_ticks { result.up.ticks ≡ ticks_of unit }
    ensures down_ticks { result.down.ticks ≡ ticks_of unit }
{
    Delivered {
        proxy: Some(number),
        refused: true,
        up: Line::of_parts(unit, Vec::new(alloc), End::Live),
        down: Line::of_parts(unit, Vec::new(alloc), End::Live),
    }
}

fn lines_through<'a>(
    alloc: Global,
    recorded: &Recorded<'a>,
    met: &MetProxy<'_>,
    seed: u64,
    scenario: u32,
    connection: u32,
) -> Result<Delivered<'a>, AllocError>
    requires up { IsLine recorded.now.up.line }
    requires down { IsLine recorded.now.down.line }
    requires one_unit { recorded.now.down.ticks ≡ recorded.now.up.ticks }
    requires few_up { length met.now.up.now ≤ most_toxics }
    requires few_down { length met.now.down.now ≤ most_toxics }
    ensures value { IfOk result (λ d. delivered_view d
        ≡ connection_through recorded.now.up.ticks seed scenario connection (met_view met.now) (recorded_view recorded.now)) }
    ensures up { IfOk result (λ d. IsLine d.up.line) }
    ensures down { IfOk result (λ d. IsLine d.down.line) }
    ensures up_ticks { IfOk result (λ d. d.up.ticks ≡ recorded.now.up.ticks) }
    ensures down_ticks { IfOk result (λ d. d.down.ticks ≡ recorded.now.up.ticks) }
{
    let opened = recorded.opened;
    let up = recorded.up.copy(alloc)?;
    let down = recorded.down.copy(alloc)?;
    let up_number = Direction::Up.number();
    let down_number = Direction::Down.number();
    let up = chain(
        alloc, met.up, up, opened, seed, scenario, connection, up_number,
    )?;
    let down = chain(
        alloc,
        met.down,
        down,
        opened,
        seed,
        scenario,
        connection,
        down_number,
    )?;
    Ok(cut_lines(Some(met.number), up, down))
}

fn cut_lines<'a>(proxy: Option<u32>, up: Line<'a>, down: Line<'a>) -> Delivered<'a>
    requires up { IsLine up.line }
    requires down { IsLine down.line }
    requires one_unit { down.ticks ≡ up.ticks }
    ensures value { delivered_view result ≡ connection_by_cut up.entry.ticks proxy up.entry.line down.entry.line }
    ensures up { IsLine result.up.line }
    ensures down { IsLine result.down.line }
    ensures up_ticks { result.up.ticks ≡ up.entry.ticks }
    ensures down_ticks { result.down.ticks ≡ up.entry.ticks }
{
    cut_lines_are_lines();
    let (up, down) = cut_both(up, down);
    Delivered {
        proxy,
        refused: false,
        up,
        down,
    }
}
