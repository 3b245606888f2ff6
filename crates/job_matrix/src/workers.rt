//! Workers, who claim the jobs of a work from one board, and the values of all jobs in order.
ghost use Rattle.std.specs.Prelude.{◌≡◌, ◌+◌, ◌-◌, ◌<◌, ◌≤◌, ℕ, true, [], ◌++◌, length, map, replicate, Some, None, IfOk, IsOkAnd};
ghost use Rattle.std.specs.Thread.{IsSync};
ghost use Rattle.job_matrix.specs.Counting.{times, CountsBelow};
ghost use Rattle.job_matrix.specs.Boards.{number_limit, pass_limit};
ghost use Rattle.job_matrix.specs.Plans.{worker_limit};
ghost use Rattle.job_matrix.specs.Trays.{jobs_in, AreDone, put_each};

use crate::boards::{Board, Chief, Pass};
use crate::trays::Tray;
use crate::works::{Gate, Phase, Work};
use lists::Values;
use std::alloc::{AllocError, Global};
use std::thread::{Threads, join};

// What all workers share beside the board.
#[derive(Drop)]
struct Shared<'s, W: Work, G: Gate> {
    alloc: Global,
    phase: Phase,
    gate: &'s G,
    work: &'s W,
}

// The jobs that one worker claims, with their values. When it is out of memory, it claims no more.
fn do_jobs<W: Work, G: Gate>(
    shared: &Shared<'_, W, G>,
    board: &Board,
    mut pass: Pass,
) -> (Pass, Result<Vec<(u64, W::Out)>, AllocError>)
where
    W::Out: Drop,
    requires pass { (pass.board ≡ board.now) × (pass.jobs ≡ []) }
    requires jobs { board.now.limit ≤ length (W.values shared.now.work.now) }
    ensures board { result.0.board ≡ board.now }
    ensures done { IfOk result.1 (λ v. AreDone (W.values shared.now.work.now) result.0.jobs v.items) }
    ensures told { IfOk result.1 (λ v. result.0.told ≡ true) }
{
    let mut done = Vec::new(shared.alloc);
    'claims: loop {
        let Some(job) = board.claim(&mut pass) else {
            return (pass, Ok(done));
        };
        shared.gate.pass(shared.phase, job);
        let Ok(value) = shared.work.value(job) else {
            return (pass, Err(AllocError));
        };
        if done.push((job, value)).is_err() {
            return (pass, Err(AllocError));
        }
    }
}

fn append_jobs<V: Drop>(
    first: Result<Vec<(u64, V)>, AllocError>,
    second: Result<Vec<(u64, V)>, AllocError>,
) -> Result<Vec<(u64, V)>, AllocError>
    ensures { IfOk result (λ v. IsOkAnd first (λ a. IsOkAnd second (λ b. v.items ≡ a.items ++ b.items))) }
{
    let mut all = first?;
    let mut more = second?;
    all.append(&mut more)?;
    Ok(all)
}

// The jobs that `workers` workers claim. This thread is one of them, and each other has a thread of its own.
fn spread<W: Work, G: Gate, R: Threads + Sync>(
    rt: &R,
    shared: &Shared<'_, W, G>,
    board: &Board,
    mut chief: Chief,
    workers: u64,
) -> (Chief, Result<Vec<(u64, W::Out)>, AllocError>)
where
    W::Out: Send + Drop,
    requires chief { (chief.board ≡ board.now) × (chief.jobs ≡ []) }
    requires workers { (0 < workers) × (chief.made + workers ≤ pass_limit) }
    requires jobs { board.now.limit ≤ length (W.values shared.now.work.now) }
    ensures board { result.0.board ≡ board.now }
    ensures back { (result.0.made ≡ chief.made + workers) × (result.0.back ≡ chief.back + workers) }
    ensures done { IfOk result.1 (λ v.
        AreDone (W.values shared.now.work.now) result.0.jobs v.items × (0 < result.0.told)) }
{
    let Ok(pass) = chief.split(board) else {
        unreachable!()
    };
    if workers == 1 {
        let (pass, done) = do_jobs(shared, board, pass);
        chief.take_back(board, pass);
        return (chief, done);
    }
    let ((pass, mine), (mut chief, others)) = join(
        rt,
        move || -> (Pass, Result<Vec<(u64, W::Out)>, AllocError>)
            requires { (pass.board ≡ board.now) × (pass.jobs ≡ []) × (board.now.limit ≤ length (W.values shared.now.work.now)) }
            ensures { (result.0.board ≡ board.entry.now) × IfOk result.1 (λ v.
                AreDone (W.values shared.entry.now.work.now) result.0.jobs v.items × (result.0.told ≡ true)) }
        { do_jobs(shared, board, pass) },
        move || -> (Chief, Result<Vec<(u64, W::Out)>, AllocError>)
            requires { IsSync R.row × (chief.board ≡ board.now) × (chief.jobs ≡ []) × (1 < workers)
                × (chief.made + (workers - 1) ≤ pass_limit) × (board.now.limit ≤ length (W.values shared.now.work.now)) }
            ensures { (result.0.board ≡ board.entry.now) × (result.0.made ≡ chief.made + (workers - 1))
                × (result.0.back ≡ chief.back + (workers - 1)) × IfOk result.1 (λ v.
                AreDone (W.values shared.entry.now.work.now) result.0.jobs v.items × (0 < result.0.told)) }
        { spread(rt, shared, board, chief, workers - 1) },
    );
    chief.take_back(board, pass);
    (chief, append_jobs(others, mine))
}

fn put_in_order<V: Drop>(
    alloc: Global,
    count: u64,
    done: Vec<(u64, V)>,
) -> Result<Values<V>, AllocError>
    requires { CountsBelow count (λ x. times x (jobs_in done.items)) }
    ensures { IfOk result (λ v. map Some v ≡ put_each (replicate count None) done.items) }
{
    let mut tray = Tray::open(alloc, count)?;
    for (job, value) in done {
        let Ok(()) = tray.put(job, value) else {
            unreachable!()
        };
    }
    let Ok(values) = tray.finish() else {
        unreachable!()
    };
    Ok(values)
}

/// The values of the `n` jobs of a work in order, made by this thread. It passes the gate before each job.
pub fn work_alone<W: Work, G: Gate>(
    alloc: Global,
    n: u64,
    phase: Phase,
    gate: &G,
    work: &W,
) -> Result<Values<W::Out>, AllocError>
where
    W::Out: Drop,
    requires { n ≡ length (W.values work.now) }
    ensures { IfOk result (λ v. v ≡ W.values work.now) }
{
    let mut values = Vec::with_capacity(alloc, n as usize)?;
    for job in 0..n {
        gate.pass(phase, job);
        let value = work.value(job)?;
        values.push(value)?;
    }
    Ok(Values::of(values))
}

/// The values of the `n` jobs of a work in order, made by at most `workers` threads, whose number changes no value.
pub fn work_all<W: Work, G: Gate, R: Threads + Sync>(
    rt: &R,
    alloc: Global,
    n: u64,
    workers: u64,
    phase: Phase,
    gate: &G,
    work: &W,
) -> Result<Values<W::Out>, AllocError>
where
    W::Out: Send + Drop,
    requires few { n ≤ number_limit }
    requires workers { (1 ≤ workers) × (workers ≤ worker_limit) }
    requires jobs { n ≡ length (W.values work.now) }
    ensures { IfOk result (λ v. v ≡ W.values work.now) }
{
    let workers = workers.min(n.max(1));
    if workers == 1 {
        return work_alone(alloc, n, phase, gate, work);
    }
    let (board, chief) = Board::open(alloc, n)?;
    let shared = Shared {
        alloc,
        phase,
        gate,
        work,
    };
    let (chief, done) = spread(rt, &shared, &board, chief, workers);
    let Ok(count) = board.close(chief) else {
        unreachable!()
    };
    put_in_order(alloc, count, done?)
}
