//! The workers of a plan.
use job_matrix::Plan;
use std::thread::Threads;

/// The workers of a plan: the calling thread, and threads that `rt` starts.
#[derive(Drop)]
pub struct Workers<'r, R: Threads + Sync> {
    /// What starts the threads.
    pub rt: &'r R,
    /// How many workers there are, and the most records that one takes at once.
    pub plan: Plan,
}
