//! Works that several workers do: the values, the gate before each job, and that more than one thread does jobs.
ghost use Rattle.std.specs.Prelude.{◌≤◌, ◌^◌};

use super::checks::check;
use job_matrix::{Gate, Phase, Through, Work, work_all, work_alone};
use std::alloc::{AllocError, Global};
use std::process::Abort;
use std::sync::atomic::{AtomicU64, Ordering};
use std::thread::Threads;
use worked_sessions::gates::{Counting, Holding, wait_for};

// `count` jobs, each with three times its number and one more. The job `refused` is out of memory.
#[derive(Drop)]
struct Tripled {
    count: u64,
    refused: Option<u64>,
    ghost few: { count ≤ 2 ^ 32 },
}

impl Work for Tripled {
    type Out = u64;

    ghost use Rattle.std.specs.Prelude.{◌+◌, ◌*◌, map};
    ghost use Rattle.std.specs.List.{range_with_len};

    ghost values = { λ work. map (λ job. 3 * job + 1) (range_with_len 0 work.count) };

    fn value(&self, job: u64) -> Result<u64, AllocError> {
        if self.refused == Some(job) {
            return Err(AllocError);
        }
        Ok(3 * job + 1)
    }
}

// Two jobs, each of which waits until the other has begun.
#[derive(Drop)]
struct Meeting {
    first: AtomicU64,
    second: AtomicU64,
    gave_up: AtomicU64,
}

impl Work for Meeting {
    type Out = u64;

    ghost use Rattle.std.specs.List.{range_with_len};

    ghost values = { λ work. range_with_len 0 2 };

    fn value(&self, job: u64) -> Result<u64, AllocError> {
        if job == 0 {
            self.first.store(1, Ordering::SeqCst);
            wait_for(&self.second, &self.gave_up);
        } else {
            self.second.store(1, Ordering::SeqCst);
            wait_for(&self.first, &self.gave_up);
        }
        Ok(job)
    }
}

// Whether there are `count` values, which are those of the tripled jobs.
fn are_tripled(values: &[u64], count: usize) -> bool {
    let mut right = values.len() == count;
    for (value, job) in values.iter().zip(0_u64..) {
        right = right && *value == job.saturating_mul(3).saturating_add(1);
    }
    right
}

// That `workers` workers give the values of `count` jobs.
fn check_tripled<R: Abort + Threads + Sync>(rt: &R, alloc: Global, workers: u64, count: u64)
    requires workers { 1 ≤ workers × workers ≤ 16 }
    requires count { count ≤ 2 ^ 32 }
{
    let work = Tripled {
        count,
        refused: None,
    };
    let values = work_all(rt, alloc, count, workers, Phase::Jobs, &Through, &work);
    let values = values.expect(rt, "memory");
    check(rt, "values", are_tripled(values.as_slice(), count as usize));
}

#[test]
fn values_by_one_two_and_sixteen_workers(rt: HostRuntime) {
    check_tripled(&rt, rt.alloc(), 1, 300);
    check_tripled(&rt, rt.alloc(), 2, 300);
    check_tripled(&rt, rt.alloc(), 16, 300);
    check_tripled(&rt, rt.alloc(), 2, 0);
}

// That `workers` workers are out of memory if one of five jobs is, and then give the values of the three jobs before it.
fn check_refused<R: Abort + Threads + Sync>(rt: &R, alloc: Global, workers: u64)
    requires { 1 ≤ workers × workers ≤ 16 }
{
    let work = Tripled {
        count: 5,
        refused: Some(3),
    };
    let answer = work_all(rt, alloc, 5, workers, Phase::Jobs, &Through, &work);
    check(rt, "out of memory", answer.is_err());
    let work = Tripled {
        count: 3,
        refused: Some(3),
    };
    let values = work_all(rt, alloc, 3, workers, Phase::Jobs, &Through, &work).expect(rt, "memory");
    check(rt, "values", are_tripled(values.as_slice(), 3));
}

#[test]
fn want_of_memory_in_one_job(rt: HostRuntime) {
    check_refused(&rt, rt.alloc(), 1);
    check_refused(&rt, rt.alloc(), 2);
    check_refused(&rt, rt.alloc(), 16);
}

#[test]
fn values_after_want_of_memory_alone(rt: HostRuntime) {
    let work = Tripled {
        count: 5,
        refused: Some(3),
    };
    let answer = work_alone(rt.alloc(), 5, Phase::Jobs, &Through, &work);
    check(&rt, "out of memory", answer.is_err());
    let work = Tripled {
        count: 3,
        refused: Some(3),
    };
    let values = work_alone(rt.alloc(), 3, Phase::Jobs, &Through, &work).expect(&rt, "memory");
    check(&rt, "values", are_tripled(values.as_slice(), 3));
}

#[test]
fn job_held_until_the_next_has_passed(rt: HostRuntime) {
    let work = Tripled {
        count: 4,
        refused: None,
    };
    let gate = Holding::new(Phase::Jobs);
    let values = work_all(&rt, rt.alloc(), 4, 2, Phase::Jobs, &gate, &work).expect(&rt, "memory");
    check(&rt, "values", are_tripled(values.as_slice(), 4));
    check(&rt, "held", !gate.gave_up());
}

#[test]
fn two_jobs_that_wait_for_each_other(rt: HostRuntime) {
    let work = Meeting {
        first: AtomicU64::new(0),
        second: AtomicU64::new(0),
        gave_up: AtomicU64::new(0),
    };
    let values = work_all(&rt, rt.alloc(), 2, 2, Phase::Jobs, &Through, &work).expect(
        &rt, "memory",
    );
    check(&rt, "values", values.as_slice() == [0, 1].as_slice());
    let met = work.gave_up.load(Ordering::SeqCst) == 0;
    check(&rt, "they met", met);
}

#[test]
fn each_job_passes_the_gate_of_its_phase(rt: HostRuntime) {
    let work = Tripled {
        count: 10,
        refused: None,
    };
    let gate = Counting::new(Phase::Lines);
    let _values = work_all(&rt, rt.alloc(), 10, 3, Phase::Lines, &gate, &work).expect(
        &rt, "memory",
    );
    let passed = gate.passed() == 10 && gate.numbers() == 45;
    check(&rt, "passed", passed);
}

// A gate and a work of eight jobs, which count in lanes of eight bits how often each job has passed the gate, and was done. A job
// that is done before it has passed finds no memory.
#[derive(Drop)]
struct Lanes {
    passed: AtomicU64,
    done: AtomicU64,
}

impl Gate for Lanes {
    fn pass(&self, phase: Phase, job: u64) {
        if phase == Phase::Jobs && job < 8 {
            self.passed.fetch_add(1 << (8 * job), Ordering::SeqCst);
        }
    }
}

impl Work for Lanes {
    type Out = u64;

    ghost use Rattle.std.specs.List.{range_with_len};

    ghost values = { λ work. range_with_len 0 8 };

    fn value(&self, job: u64) -> Result<u64, AllocError> {
        if job >= 8 || (self.passed.load(Ordering::SeqCst) >> (8 * job)) % 256 == 0 {
            return Err(AllocError);
        }
        self.done.fetch_add(1 << (8 * job), Ordering::SeqCst);
        Ok(job)
    }
}

// A body that passes the gate after the job, or does a job twice, keeps every clause: it fails here.
#[test]
fn each_job_passes_the_gate_first_and_is_done_once(rt: HostRuntime) {
    let lanes = Lanes {
        passed: AtomicU64::new(0),
        done: AtomicU64::new(0),
    };
    let values = work_all(&rt, rt.alloc(), 8, 3, Phase::Jobs, &lanes, &lanes).expect(&rt, "memory");
    check(&rt, "values", values.as_slice().len() == 8);
    let once = 0x0101_0101_0101_0101;
    let passed = lanes.passed.load(Ordering::SeqCst) == once;
    check(&rt, "passed once", passed);
    let done = lanes.done.load(Ordering::SeqCst) == once;
    check(&rt, "done once", done);
}

// A gate and a work whose jobs come in turn, each after it has passed the gate once: at any other job there is no memory.
#[derive(Drop)]
struct InTurn {
    passed: AtomicU64,
    done: AtomicU64,
}

impl Gate for InTurn {
    fn pass(&self, phase: Phase, job: u64) {
        let in_turn = phase == Phase::Lines && self.passed.load(Ordering::SeqCst) == job;
        let passed = if in_turn {
            job.saturating_add(1)
        } else {
            u64::MAX
        };
        self.passed.store(passed, Ordering::SeqCst);
    }
}

impl Work for InTurn {
    type Out = u64;

    ghost use Rattle.std.specs.List.{range_with_len};

    ghost values = { λ work. range_with_len 0 5 };

    fn value(&self, job: u64) -> Result<u64, AllocError> {
        if self.passed.load(Ordering::SeqCst) != job.saturating_add(1) {
            return Err(AllocError);
        }
        self.done.fetch_add(1, Ordering::SeqCst);
        Ok(job)
    }
}

// Whether five jobs were done, once each, and these are their values.
fn are_in_turn(work: &InTurn, values: &[u64]) -> bool {
    let passed = work.passed.load(Ordering::SeqCst);
    let done = work.done.load(Ordering::SeqCst);
    passed == 5 && done == 5 && values == [0, 1, 2, 3, 4].as_slice()
}

// Jobs that come in turn, of which none was done.
fn in_turn() -> InTurn {
    InTurn {
        passed: AtomicU64::new(0),
        done: AtomicU64::new(0),
    }
}

// No clause speaks of the order in which one worker passes the gate.
#[test]
fn one_worker_does_the_jobs_in_turn(rt: HostRuntime) {
    let work = in_turn();
    let values = work_alone(rt.alloc(), 5, Phase::Lines, &work, &work).expect(&rt, "memory");
    check(&rt, "alone", are_in_turn(&work, values.as_slice()));
    let work = in_turn();
    let values = work_all(&rt, rt.alloc(), 5, 1, Phase::Lines, &work, &work).expect(&rt, "memory");
    check(&rt, "one worker", are_in_turn(&work, values.as_slice()));
}
