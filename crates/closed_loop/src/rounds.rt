//! Rounds: each rehearses the capture with the times so far, and moves what is not yet settled.
ghost use Rattle.std.specs.Prelude.{◌≡◌, ◌<◌, ◌≤◌, true, map, length, IfOk};
ghost use Rattle.pcap_records.specs.CaptureView.{CaptureView};
ghost use Rattle.conn_workers.specs.Recordings.{recorded_delivered};
ghost use Rattle.closed_loop.specs.Scripts.{hearing_of};
ghost use Rattle.closed_loop.specs.declared.manners.Manners.{Manners};
ghost use Rattle.closed_loop.specs.Recordings.{IsCaptureAt, IsReadAs};
ghost use Rattle.closed_loop.specs.Settled.{hearings_in, IsClosedLoop, IsSettled};
ghost use Rattle.closed_loop.specs.Studies.{IsStudy, AreSettledBy};

use crate::fault::RoundFault;
use crate::forerunners::Forerunners;
use crate::moving::{Course, is_marked};
use crate::openings::{Ends, Opening, ends_of};
use crate::rehearsing::{Toxics, heard_of, hearings_of, read_again};
use crate::scripts::{Hearing, Script};
use crate::sessions::{Session, sessions_of};
use crate::settling::is_settled;
use crate::stamping::{Source, capture_at};
use pcap_records::{Capture, CaptureFault, read_capture};
use range_workers::table_alone;
use std::alloc::{AllocError, Global};

/// What rounds go by: a capture, what is scripted of its connections, and the scenario.
#[derive(Clone, Copy)]
pub(crate) struct Study<'s, 't, 'a> {
    pub(crate) source: Source<'s, 'a>,
    /// The number of connections of the capture.
    pub(crate) conns: usize,
    pub(crate) scripts: &'s [Script],
    pub(crate) forerunners: &'s [Forerunners],
    pub(crate) taken: &'s [bool],
    pub(crate) opening: Opening<'s>,
    pub(crate) toxics: Toxics<'t>,
}

/// Times that are settled, the capture with these times, and the number of rounds that it took.
#[derive(Drop)]
pub(crate) struct Settled {
    pub(crate) times: Vec<Option<u64>>,
    pub(crate) recording: Vec<u8>,
    pub(crate) rounds: u64,
}

// Whether times are settled by these hearings.
fn are_settled(
    alloc: Global,
    study: &Study<'_, '_, '_>,
    times: &[Option<u64>],
    hearings: &[Hearing],
) -> Result<bool, AllocError>
    requires { (manners : Manners) × IsStudy manners study.now }
    ensures { IfOk result (λ settled. settled ≡ true → AreSettledBy study.now times.now hearings.now) }
{
    let count = study.scripts.len();
    if hearings.len() != count || study.conns != count {
        return Ok(false);
    }
    let sessions = sessions_of(alloc, study.scripts, study.forerunners, hearings)?;
    is_settled(alloc, &study.opening, times, study.taken, &sessions)
}

// The times to try next, by what was heard at these times, and the number of rounds that it took. It works only on connections that moved.
fn settle(
    alloc: Global,
    study: &Study<'_, '_, '_>,
    times: Vec<Option<u64>>,
    hearings: Vec<Hearing>,
    rounds: u64,
) -> Result<(Vec<Option<u64>>, u64), RoundFault>
    requires { (manners : Manners) × IsStudy manners study.now }
{
    let mut hearings = hearings;
    let mut moved = vec![in alloc; true; study.scripts.len()]?;
    let ends = ends_by(alloc, study, &times, &hearings)?;
    let mut course = Course::of(alloc, times, ends)?;
    for round in 0..rounds {
        if !has_moved(alloc, study, &hearings, &mut course, &mut moved)? {
            return Ok((course.times, round));
        }
        let kept = course.kept(alloc, study.scripts, &moved)?;
        let file = capture_at(alloc, &study.source, &kept)?;
        hear_moved(alloc, study, &file, &moved, &mut hearings)?;
    }
    Ok((course.times, rounds))
}

// Connections with what was heard of them; none if there are other connections.
fn joined<'s>(
    alloc: Global,
    study: &Study<'s, '_, '_>,
    hearings: &'s [Hearing],
) -> Result<Vec<Session<'s>>, AllocError>
    requires { (manners : Manners) × IsStudy manners study.now }
{
    if hearings.len() != study.scripts.len() {
        return Ok(Vec::new(alloc));
    }
    sessions_of(alloc, study.scripts, study.forerunners, hearings)
}

fn ends_by(
    alloc: Global,
    study: &Study<'_, '_, '_>,
    times: &[Option<u64>],
    hearings: &[Hearing],
) -> Result<Ends, AllocError>
    requires { (manners : Manners) × IsStudy manners study.now }
{
    let sessions = joined(alloc, study, hearings)?;
    ends_of(alloc, times, &sessions)
}

// Moves connections; whether one has moved.
fn has_moved(
    alloc: Global,
    study: &Study<'_, '_, '_>,
    hearings: &[Hearing],
    course: &mut Course,
    moved: &mut Vec<bool>,
) -> Result<bool, AllocError>
    requires { (manners : Manners) × IsStudy manners study.now }
{
    let sessions = joined(alloc, study, hearings)?;
    Ok(course.step(&study.opening, &sessions, moved))
}

// Hears the connections anew that have moved.
fn hear_moved(
    alloc: Global,
    study: &Study<'_, '_, '_>,
    file: &[u8],
    moved: &[bool],
    hearings: &mut Vec<Hearing>,
) -> Result<(), RoundFault> {
    let capture = read_again(alloc, file)?;
    let table = table_alone(alloc, &capture)?;
    for i in 0..table.conns().len() {
        if is_marked(moved, i) {
            let heard = heard_of(alloc, study.toxics, &capture, &table, i)?;
            put(hearings, i, heard);
        }
    }
    Ok(())
}

fn put(hearings: &mut Vec<Hearing>, i: usize, heard: Hearing) {
    if let Some(it) = hearings.get_mut(i) {
        *it = heard;
    }
}

/// Times that settle within `rounds` rounds.
pub(crate) fn find_settled(
    alloc: Global,
    study: &Study<'_, '_, '_>,
    rounds: u64,
) -> Result<Settled, RoundFault>
    requires { (manners : Manners) × IsStudy manners study.now }
    ensures settled { IfOk result (λ r. (manners : Manners) → IsStudy manners study.now
        → IsClosedLoop study.now.source.capture.now manners study.now.toxics.scenario.now study.now.toxics.seed r.times.items r.recording.items) }
    ensures rounds { IfOk result (λ r. (0 < r.rounds) × (r.rounds ≤ rounds)) }
{
    let mut times = Vec::from_slice(alloc, study.source.recorded)?;
    let mut left = rounds;
    'rounds: while left > 0 {
        left -= 1;
        let recording = capture_at(alloc, &study.source, &times)?;
        let hearings = hearings_of(alloc, &recording, study.toxics)?;
        if are_settled(alloc, study, &times, &hearings)? {
            let rounds = rounds - left;
            return Ok(Settled {
                times,
                recording,
                rounds,
            });
        }
        let (next, used) = settle(alloc, study, times, hearings, left)?;
        times = next;
        left = left.saturating_sub(used.max(1));
    }
    Err(RoundFault::NotSettled)
}
