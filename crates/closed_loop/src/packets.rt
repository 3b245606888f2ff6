//! What each packet of a connection waits for.
ghost use Rattle.std.specs.Prelude.{◌≡◌, ◌++◌, [], ◌∷◌, List, find, IfOk};
ghost use Rattle.reassembly.specs.MemberSpans.{is_reset_member};
ghost use Rattle.conn_table.specs.declared.conns.Member.{Member};
ghost use Rattle.closed_loop.specs.Packets.{last_of_side, is_waiting, heard_before, own_before, source_of, pause_of, packet_after, packet_of, packets_of, bringers_view, IsSeen, IsBefore};
ghost use Rattle.closed_loop.specs.Times.{spread};

use crate::arrivals::Arrivals;
use crate::manners::Manners;
use crate::times::instant_in;
use conn_table::Member;
use frame_headers::Flags;
use std::alloc::{AllocError, Global};

/// A packet of a connection but its opening, and what it waits for. Packets are known by the numbers of their records; the opening
/// stands for one that there is not.
#[derive(Clone, Copy, Debug)]
pub(crate) struct Packet {
    /// The number of its record.
    pub(crate) number: u32,
    /// Whether the client sends it.
    pub(crate) from_client: bool,
    /// The last packet of its side before it.
    pub(crate) own: u32,
    /// The first reset of the connection, if that is before it.
    pub(crate) reset: u32,
    /// Whether it is later than the last packet of its side.
    pub(crate) is_apart: bool,
    /// How many bytes of the other side it waits for, a FIN as one more.
    pub(crate) heard: u64,
    /// The packet that brings the last of these bytes.
    pub(crate) source: u64,
    /// How long it comes after the last of all these, in ticks.
    pub(crate) pause: u64,
}

/// When what both sides of a connection receive comes, by numbers of records.
#[derive(Clone, Copy)]
pub(crate) struct Bringers<'b> {
    pub(crate) up: &'b Arrivals,
    pub(crate) down: &'b Arrivals,
}

/// How many runs of what both sides receive come before record `number`, at least.
#[derive(Clone, Copy)]
pub(crate) struct Seen {
    up: usize,
    down: usize,
    number: u32,
}

/// The last packets of some members, and their first reset.
#[derive(Clone, Copy)]
pub(crate) struct Before {
    client: Option<Member>,
    server: Option<Member>,
    reset: Option<Member>,
}

fn nothing() -> Before
    ensures { IsBefore [] result }
{
    Before {
        client: None,
        server: None,
        reset: None,
    }
}

// The last packet of a side, one member more.
#[tactic(auto, using(crate::proofs::Befores::last_pushed))]
fn last_with(client: bool, last: Option<Member>, m: &Member) -> Option<Member>
    ensures { (list : List Member) → last ≡ last_of_side client list → result ≡ last_of_side client (list ++ m.now ∷ []) }
{
    if m.from_client == client {
        Some(*m)
    } else {
        last
    }
}

// The first reset, one member more.
#[tactic(auto, using(crate::proofs::Befores::reset_pushed))]
fn reset_with(reset: Option<Member>, m: &Member) -> Option<Member>
    ensures { (list : List Member) → reset ≡ find is_reset_member list → result ≡ find is_reset_member (list ++ m.now ∷ []) }
{
    match reset {
        Some(reset) => Some(reset),
        None if m.flags.has(Flags::RST) => Some(*m),
        None => None,
    }
}

fn with(before: &Before, m: &Member) -> Before
    ensures { (list : List Member) → IsBefore list before.now → IsBefore (list ++ m.now ∷ []) result }
{
    Before {
        client: last_with(true, before.client, m),
        server: last_with(false, before.server, m),
        reset: reset_with(before.reset, m),
    }
}

fn nothing_seen(brought: Bringers<'_>, number: u32) -> Seen
    ensures seen { IsSeen brought.entry result }
    ensures number { result.number ≡ number }
{
    Seen {
        up: 0,
        down: 0,
        number,
    }
}

// What has been seen, if the records before `number` are. Numbers of members rise; if not, it starts anew.
fn seen_up_to(brought: Bringers<'_>, seen: Seen, number: u32) -> Seen
    requires { IsSeen brought seen }
    ensures seen { IsSeen brought.entry result }
    ensures number { result.number ≡ number }
{
    if number < seen.number {
        return nothing_seen(brought, number);
    }
    Seen {
        up: seen.up,
        down: seen.down,
        number,
    }
}

// What had come before a member of its side's peer, and what has been seen then.
fn heard_before(brought: Bringers<'_>, seen: Seen, m: &Member) -> (u64, Seen)
    requires { IsSeen brought seen }
    ensures heard { result.0 ≡ heard_before (bringers_view brought.entry) m.now }
    ensures seen { IsSeen brought.entry result.1 }
{
    let mut seen = seen_up_to(brought, seen, m.index);
    if m.from_client {
        let passed = brought.down.passed(seen.down, u64::from(m.index));
        seen.down = passed.runs;
        (passed.count, seen)
    } else {
        let passed = brought.up.passed(seen.up, u64::from(m.index));
        seen.up = passed.runs;
        (passed.count, seen)
    }
}

fn is_waiting(manners: &Manners, opening: &Member, own: &Member, m: &Member) -> bool
    ensures { result ≡ is_waiting manners.now opening.now own.now m.now }
{
    let waits = if m.from_client {
        manners.client_waits
    } else {
        manners.server_waits
    };
    waits && (own.at.is_before(m.at) || own.index == opening.index)
}

// The record that brings the last of the first `count` bytes, or else the opening.
fn source_of(brought: &Arrivals, opening: u32, count: u64) -> u64
    ensures { result ≡ source_of (spread brought.now) opening count }
{
    if count == 0 {
        return u64::from(opening);
    }
    match brought.arrival(count) {
        Some(number) => number,
        None => u64::from(opening),
    }
}

fn pause_of(recorded: &[Option<u64>], own: &Member, reset: &Member, source: u64, m: &Member) -> u64
    ensures { result ≡ pause_of recorded.now own.now reset.now source m.now }
{
    let sent = own.at.count().max(reset.at.count());
    m.at.count()
        .saturating_sub(sent.max(instant_in(recorded, source)))
}

/// What packets are made by.
#[derive(Clone, Copy)]
pub(crate) struct Making<'p> {
    pub(crate) manners: Manners,
    pub(crate) recorded: &'p [Option<u64>],
}

// The packet of a member that waits for `heard` bytes.
fn packet_after(
    recorded: &[Option<u64>],
    brought: Bringers<'_>,
    opening: &Member,
    own: &Member,
    reset: &Member,
    heard: u64,
    m: &Member,
) -> Packet
    ensures { result ≡ packet_after recorded.now (bringers_view brought.entry) opening.now own.now reset.now heard m.now }
{
    let received = if m.from_client {
        brought.down
    } else {
        brought.up
    };
    let source = source_of(received, opening.index, heard);
    Packet {
        number: m.index,
        from_client: m.from_client,
        own: own.index,
        reset: reset.index,
        is_apart: own.at.is_before(m.at),
        heard,
        source,
        pause: pause_of(recorded, own, reset, source, m),
    }
}

fn own_before(opening: &Member, before: &Before, m: &Member) -> Member
    ensures { (list : List Member) → IsBefore list before.now → result ≡ own_before opening.now list m.now }
{
    let last = if m.from_client {
        before.client
    } else {
        before.server
    };
    last.unwrap_or(*opening)
}

// The packet of a member, and what has been seen then.
fn packet_of(
    making: Making<'_>,
    brought: Bringers<'_>,
    opening: &Member,
    before: &Before,
    seen: Seen,
    m: &Member,
) -> (Packet, Seen)
    requires { IsSeen brought seen }
    ensures packet { (list : List Member) → IsBefore list before.now
        → result.0 ≡ packet_of making.entry.manners making.entry.recorded.now (bringers_view brought.entry) opening.now list m.now }
    ensures seen { IsSeen brought.entry result.1 }
{
    let own = own_before(opening, before, m);
    let reset = before.reset.unwrap_or(*opening);
    let (came, seen) = heard_before(brought, seen, m);
    let heard = if is_waiting(&making.manners, opening, &own, m) {
        came
    } else {
        0
    };
    let packet = packet_after(making.recorded, brought, opening, &own, &reset, heard, m);
    (packet, seen)
}

/// The packets of a connection but its opening, and what each of them waits for.
pub(crate) fn packets_of(
    alloc: Global,
    making: Making<'_>,
    brought: Bringers<'_>,
    members: &[Member],
) -> Result<Vec<Packet>, AllocError>
    ensures { IfOk result (λ v. v.items ≡ packets_of making.entry.manners making.entry.recorded.now (bringers_view brought.entry) members.now) }
{
    if members.len() == 0 {
        return Ok(Vec::new(alloc));
    }
    let opening = &members[0];
    let mut packets = Vec::with_capacity(alloc, members.len() - 1)?;
    let mut before = with(&nothing(), opening);
    let mut seen = nothing_seen(brought, 0);
    for i in 1..members.len() {
        let m = &members[i];
        let (packet, now_seen) = packet_of(making, brought, opening, &before, seen, m);
        packets.push(packet)?;
        before = with(&before, m);
        seen = now_seen;
    }
    Ok(packets)
}
