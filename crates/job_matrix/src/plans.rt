//! How a rehearsal's work is spread. No outcome depends on it.
ghost use Rattle.std.specs.Prelude.{◌≡◌, ◌≤◌};
ghost use Rattle.job_matrix.specs.Plans.{cut_limit, plan_of, worker_limit};

use std::marker::Model;

// The most workers of a plan.
const WORKER_LIMIT: u32 = 16;

// The most records of a plan's range, which is one job.
const CUT_LIMIT: u32 = 1 << 20;

/// The number of workers, and the number of records of a range that one worker reads.
#[derive(Clone, Copy, Debug, PartialEq, Eq)]
pub struct Plan {
    workers: u32,
    cut: u32,
}

impl Model for Plan {
    ghost use Rattle.std.specs.Prelude.{◌≤◌};
    ghost use Rattle.job_matrix.specs.Plans.{PlanView, cut_limit, worker_limit};

    ghost Value = { PlanView };

    ghost view = { λ p. record { workers = p.workers; cut = p.cut } };

    ghost invariant = { λ p. (1 ≤ p.workers) × (p.workers ≤ worker_limit) × (1 ≤ p.cut) × (p.cut ≤ cut_limit) };

    ghost inverse = { λ p. record { workers = p.workers; cut = p.cut } };
}

impl Plan {
    /// A plan of 1 to 16 workers and ranges of 1 to 2^20 records; `None` for other numbers.
    pub fn new(workers: u32, cut: u32) -> Option<Plan>
        ensures { result ≡ plan_of workers cut }
    {
        let within = 1 <= workers && workers <= WORKER_LIMIT && 1 <= cut && cut <= CUT_LIMIT;
        if within {
            Some(Plan { workers, cut })
        } else {
            None
        }
    }

    /// The number of workers.
    pub fn workers(self) -> u32
        ensures value { result ≡ self.workers }
        ensures within { (1 ≤ result) × (result ≤ worker_limit) }
    {
        self.workers
    }

    /// The number of records of a range.
    pub fn cut(self) -> u32
        ensures value { result ≡ self.cut }
        ensures within { (1 ≤ result) × (result ≤ cut_limit) }
    {
        self.cut
    }
}
