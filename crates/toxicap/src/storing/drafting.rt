//! Drafts of outputs, made by workers in rounds, each of a few scenarios.
ghost use Rattle.std.specs.Prelude.{◌≡◌, ◌≢◌, ◌+◌, ◌<◌, ◌≤◌, IfOk, drop, length, take};
ghost use Rattle.toxicap.specs.{AllPairs, outputs_of_sources, paths_in, placed_from};

use crate::crews::{Alone, Workers};
use crate::sources::Sources;
use disks::Disk;
use job_matrix::{Phase, Through, Work, work_all};
use run_files::laws::draft_paths_differ;
use run_files::{DraftedOutput, Folder};
use std::alloc::AllocError;
use std::marker::Model;
use std::thread::Threads;

// The scenarios of a round for each worker, if as many are left.
const SCENARIOS_EACH: usize = 2;

/// The output of one scenario, as drafts. Contracts see the output, and the paths of its drafts.
#[derive(Drop)]
pub(crate) struct OutputDraft<'s, 'w, 'v, 'a, D: Disk> {
    sources: &'s Sources<'w, 'v, 'a>,
    number: usize,
    drafted: DraftedOutput<D::Draft>,
}

impl<'s, 'w, 'v, 'a, D: Disk> Model for OutputDraft<'s, 'w, 'v, 'a, D> {
    ghost use Rattle.std.specs.Prelude.{get_or};
    ghost use Rattle.toxicap.specs.Words.{IsDraftOf};
    ghost use Rattle.toxicap.specs.CaptureOutputs.{no_output, outputs_of_sources};
    ghost use Rattle.toxicap.specs.OutputParts.{PlacedOutput};

    ghost Value = { PlacedOutput };

    ghost view = { λ d. record {
      output = get_or (outputs_of_sources d.sources.now) d.number no_output;
      capture_path = D.path_of d.drafted.0;
      report_path = D.path_of d.drafted.1;
    } };

    ghost invariant = { λ d. IsDraftOf D.holds
        (get_or (outputs_of_sources d.sources.now) d.number no_output) d.drafted };
}

impl<'s, 'w, 'v, 'a, D: Disk> OutputDraft<'s, 'w, 'v, 'a, D> {
    ghost use Rattle.std.specs.Prelude.{◌≡◌};
    ghost use Rattle.toxicap.specs.Words.{IsDraftOf};

    pub(crate) fn into_drafts(self) -> DraftedOutput<D::Draft>
        ensures drafts { IsDraftOf D.holds self.entry.output result }
        ensures capture_path { D.path_of result.0 ≡ self.entry.capture_path }
        ensures report_path { D.path_of result.1 ≡ self.entry.report_path }
    {
        self.drafted
    }

    fn has_failed(&self) -> bool {
        D::has_failed(&self.drafted.0) || D::has_failed(&self.drafted.1)
    }
}

// Scenarios in a row: job j makes drafts of the output of the one with number first + j, in place j of the folder.
#[derive(Drop)]
struct DraftJobs<'j, 'f, 's, 'w, 'v, 'a, D: Disk> {
    sources: &'s Sources<'w, 'v, 'a>,
    first: usize,
    count: usize,
    folder: &'j Folder<'f>,
    disk: &'j D,
    ghost within: { first + count ≤ length sources.now.scenarios.now },
}

impl<'j, 'f, 's, 'w, 'v, 'a, D: Disk + Sync> Work for DraftJobs<'j, 'f, 's, 'w, 'v, 'a, D> {
    type Out = OutputDraft<'s, 'w, 'v, 'a, D>;

    ghost use Rattle.std.specs.Prelude.{◌≡◌, ◌<◌, IfOk, drop, get_or, length, take};
    ghost use Rattle.toxicap.specs.CaptureOutputs.{outputs_of_sources};
    ghost use Rattle.toxicap.specs.OutputParts.{placed_from};

    ghost values = { λ w. placed_from w.folder.now.path 0 (take w.count (drop w.first
        (outputs_of_sources w.sources.now))) };

    fn value(&self, job: u64) -> Result<OutputDraft<'s, 'w, 'v, 'a, D>, AllocError> {
        let number = self.first + job as usize;
        let place = job as usize;
        let drafted = self
            .sources
            .drafted(&Alone, number, self.folder, self.disk, place)?;
        Ok(OutputDraft {
            sources: self.sources,
            number,
            drafted,
        })
    }
}

/// Drafts of the outputs of some scenarios from a number on, one at least. Several workers make those of a round, each of one worker. If the
/// first of a round has failed, or one scenario is left, its connections are spread over the workers: then other drafts take no room of the
/// disk. A single worker makes those of one scenario.
pub(crate) fn drafts_from<'s, 'w, 'v, 'a, R: Threads + Sync, D: Disk + Sync>(
    crew: &Workers<'_, R>,
    sources: &'s Sources<'w, 'v, 'a>,
    number: usize,
    folder: &Folder<'_>,
    disk: &D,
) -> Result<Vec<OutputDraft<'s, 'w, 'v, 'a, D>>, AllocError>
where
    D::Draft: Send,
    requires { number < length sources.now.scenarios.now }
    ensures some { IfOk result (λ v. 0 < length v.items) }
    ensures next { IfOk result (λ v. v.items ≡ placed_from folder.now.path 0 (take (length v.items) (drop number
        (outputs_of_sources sources.now)))) }
    ensures apart { IfOk result (λ v. 0 < length folder.now.path → AllPairs (λ one other. one ≢ other) (paths_in v.items)) }
{
    draft_paths_differ();
    let left = sources.scenarios.len() - number;
    let workers = crew.plan.workers() as usize;
    let round = left.min(SCENARIOS_EACH * workers);
    if left.min(workers) > 1 {
        let drafts = drafts_of_round(crew, sources, number, round, folder, disk)?;
        if !drafts.is_empty() {
            return Ok(drafts);
        }
    }
    draft_by_workers(crew, sources, number, folder, disk)
}

// Drafts of the outputs of `count` scenarios, up to the first of which one has failed. The others are dropped.
fn drafts_of_round<'s, 'w, 'v, 'a, R: Threads + Sync, D: Disk + Sync>(
    crew: &Workers<'_, R>,
    sources: &'s Sources<'w, 'v, 'a>,
    number: usize,
    count: usize,
    folder: &Folder<'_>,
    disk: &D,
) -> Result<Vec<OutputDraft<'s, 'w, 'v, 'a, D>>, AllocError>
where
    D::Draft: Send,
    requires { number + count ≤ length sources.now.scenarios.now }
    ensures next { IfOk result (λ v. v.items ≡ placed_from folder.now.path 0 (take (length v.items) (drop number
        (outputs_of_sources sources.now)))) }
{
    let jobs = DraftJobs {
        sources,
        first: number,
        count,
        folder,
        disk,
    };
    let workers = crew.plan.workers() as u64;
    let drafts = work_all(
        crew.rt,
        sources.alloc,
        count as u64,
        workers,
        Phase::Jobs,
        &Through,
        &jobs,
    )?;
    let mut drafts = drafts.into_vec();
    let whole = drafts.iter().position(OutputDraft::has_failed);
    drafts.truncate(whole.unwrap_or(usize::MAX));
    Ok(drafts)
}

fn draft_by_workers<'s, 'w, 'v, 'a, R: Threads + Sync, D: Disk>(
    crew: &Workers<'_, R>,
    sources: &'s Sources<'w, 'v, 'a>,
    number: usize,
    folder: &Folder<'_>,
    disk: &D,
) -> Result<Vec<OutputDraft<'s, 'w, 'v, 'a, D>>, AllocError>
    requires { number < length sources.now.scenarios.now }
    ensures some { IfOk result (λ v. 0 < length v.items) }
    ensures next { IfOk result (λ v. v.items ≡ placed_from folder.now.path 0 (take (length v.items) (drop number
        (outputs_of_sources sources.now)))) }
{
    let drafted = sources.drafted(crew, number, folder, disk, 0)?;
    let mut drafts = Vec::with_capacity(sources.alloc, 1)?;
    drafts.push(OutputDraft {
        sources,
        number,
        drafted,
    })?;
    Ok(drafts)
}
