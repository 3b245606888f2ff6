//! Gates of tests: one holds a job back until another has begun, one counts the jobs of a phase.
use job_matrix::{Gate, Phase};
use std::sync::atomic::{AtomicU64, Ordering};
use std::thread;

// The most turns that one waits for another.
const TURNS: u64 = 100_000_000;

/// Waits until `flag` is 1. If it is not after `TURNS` turns, `gave_up` becomes 1.
pub fn wait_for(flag: &AtomicU64, gave_up: &AtomicU64) {
    'turns: for _ in 0..TURNS {
        if flag.load(Ordering::SeqCst) == 1 {
            return;
        }
        thread::yield_now();
    }
    gave_up.store(1, Ordering::SeqCst);
}

/// A gate that holds job 0 of a phase until job 1 of it has passed: one thread alone would give up.
#[derive(Drop)]
pub struct Holding {
    phase: Phase,
    passed: AtomicU64,
    gave_up: AtomicU64,
}

impl Holding {
    /// A gate that holds job 0 of this phase.
    pub fn new(phase: Phase) -> Self {
        Holding {
            phase,
            passed: AtomicU64::new(0),
            gave_up: AtomicU64::new(0),
        }
    }

    /// Whether job 1 has not passed while job 0 was held.
    pub fn gave_up(&self) -> bool {
        self.gave_up.load(Ordering::SeqCst) != 0
    }
}

impl Gate for Holding {
    fn pass(&self, phase: Phase, job: u64) {
        if phase != self.phase {
            return;
        }
        if job == 1 {
            self.passed.store(1, Ordering::SeqCst);
        }
        if job == 0 {
            wait_for(&self.passed, &self.gave_up);
        }
    }
}

/// A gate that counts the jobs of a phase that have passed, and adds up their numbers.
#[derive(Drop)]
pub struct Counting {
    phase: Phase,
    passed: AtomicU64,
    numbers: AtomicU64,
}

impl Counting {
    /// A gate that counts the jobs of this phase.
    pub fn new(phase: Phase) -> Self {
        Counting {
            phase,
            passed: AtomicU64::new(0),
            numbers: AtomicU64::new(0),
        }
    }

    /// How many jobs have passed.
    pub fn passed(&self) -> u64 {
        self.passed.load(Ordering::SeqCst)
    }

    /// The sum of their numbers.
    pub fn numbers(&self) -> u64 {
        self.numbers.load(Ordering::SeqCst)
    }
}

impl Gate for Counting {
    fn pass(&self, phase: Phase, job: u64) {
        if phase == self.phase {
            self.passed.fetch_add(1, Ordering::SeqCst);
            self.numbers.fetch_add(job, Ordering::SeqCst);
        }
    }
}
