//! Works, whose jobs are numbered, and gates, which a worker passes before each job.
use std::alloc::AllocError;

/// Jobs, numbered from 0, each with a value.
pub trait Work: Sync {
    ghost use Rattle.std.specs.Prelude.{◌≡◌, ◌<◌, List, length, get_or, IfOk};

    /// The value of a job.
    type Out;

    /// The value of each job, in order.
    ghost values: { Self → List Self.Out };

    /// Does a job and returns its value.
    fn value(&self, job: u64) -> Result<Self::Out, AllocError>
        requires { job < length (values self.now) }
        ensures { IfOk result (λ v. (other : Self.Out) → v ≡ get_or (values self.now) job other) };
}

/// What the workers do.
#[derive(Clone, Copy, Debug, PartialEq, Eq)]
pub enum Phase {
    /// Blocks of a file are loaded, or ranges of a capture's records are read.
    Ranges,
    /// The recorded lines of connections are made.
    Lines,
    /// Answers of scenarios are made: contributions of connections, lines of a report, or drafts of whole outputs.
    Jobs,
}

/// What a worker passes between the claim of a job and the job. A test may hold a worker here.
pub trait Gate: Sync {
    /// Passes the gate for a job of a phase.
    fn pass(&self, phase: Phase, job: u64);
}

/// The gate that holds nobody.
#[derive(Clone, Copy, Debug)]
pub struct Through;

impl Gate for Through {
    fn pass(&self, _phase: Phase, _job: u64) {}
}
