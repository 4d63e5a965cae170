//! Jobs on a new arena.
ghost use Rattle.std.specs.Prelude.{◌≡◌, ◌<◌, ◌≤◌, length, true, All, IfOk};
ghost use Rattle.arena_open.specs.Moves.{IsOpenState};
ghost use Rattle.bio_queue.specs.Ops.{fits_in, kind_of};

use crate::words::parent;
use arena_open::{ArenaState, Cell, CellKind, cell_of, open_arena};
use bio_queue::{Completion, Job, Op, OpReply};
use cut_words::{CutWords, Fuse, WordSpace};
use lane_core::ArenaWords;
use nvd_words::Items;
use std::alloc::{AllocError, Global};
use std::test::Fail;

/// How many sectors the arena has.
const SECTORS: u32 = 32_478;

/// The most jobs of a desk.
const MOST_JOBS: usize = 65_536;

/// The arena of these words.
pub(crate) fn opened(alloc: Global, words: Vec<u64>) -> Result<ArenaState, Fail>
    ensures open { IfOk result IsOpenState }
    ensures width { IfOk result (λ s. s.info.layout.sector ≡ 512) }
    ensures sectors { IfOk result (λ s. s.info.layout.external ≡ 32478) }
{
    let mut space = CutWords::new(alloc, words)?;
    if space.count() < 512 || space.count() >= 1 << 60 {
        return Err(AllocError)?;
    }
    let state = open_arena(alloc, &mut space, &mut Fuse::none(), 0, &parent())?;
    if state.info.layout.sector != 512 || state.info.layout.external != SECTORS {
        return Err(AllocError)?;
    }
    Ok(state)
}

/// The last word of a sector of the arena that opens from these words. `None` if it has no bytes.
pub(crate) fn left_in(alloc: Global, words: &ArenaWords, sector: u32) -> Result<Option<u64>, Fail>
    requires { sector < 32478 }
{
    let state = opened(alloc, words.kept.clone()?)?;
    let mut into = [0; 64];
    match cell_of(&state, sector, &mut into) {
        CellKind::Bytes => Ok(Some(into[63])),
        CellKind::Bad => Ok(None),
    }
}

/// A write of a sector, each word with the same value; or a read, if the value is 0. The sector
/// is one of the first 100.
pub(crate) fn op_of(alloc: Global, sector: u32, value: u64) -> Result<Op, AllocError>
    ensures { IfOk result (λ op. fits_in 32478 64 op ≡ true) }
{
    let sector = sector % 100;
    if value == 0 {
        return Ok(Op::Read { sector });
    }
    let words = Items::from_vec(vec![in alloc; value; 64]?);
    Ok(Op::Write { sector, words })
}

/// A completion's note: its tag, and the last word that was read, or 1 for a write.
pub(crate) fn note_of(tag: u64, reply: &OpReply) -> u64 {
    let told = match reply {
        OpReply::Got(Cell::Bytes(words)) => *words.as_slice().last().unwrap_or(&0),
        OpReply::Got(Cell::Bad) => 2,
        OpReply::Wrote => 1,
    };
    tag.wrapping_add(told)
}

/// A job that fits the arena.
#[derive(Drop)]
pub(crate) struct Fitting {
    pub(crate) op: Op,
    pub(crate) done: Completion,
    ghost made_for: { done.kind ≡ kind_of op },
    ghost fits: { fits_in 32478 64 op ≡ true },
}

/// The jobs of a desk, with the first one last. There are not too many.
#[derive(Drop)]
pub(crate) struct DeskJobs {
    pub(crate) jobs: Vec<Job>,
    ghost few: { length jobs.items ≤ 65536 },
    ghost fitting: { All (λ j. (j.done.kind ≡ kind_of j.op) × (fits_in 32478 64 j.op ≡ true)) jobs.items },
}

/// A desk without jobs.
pub(crate) fn no_jobs(alloc: Global) -> DeskJobs {
    DeskJobs {
        jobs: Vec::new(alloc),
    }
}

/// The jobs of a desk with one more, which comes before the others.
pub(crate) fn with_job(desk: DeskJobs, first: Fitting) -> Result<DeskJobs, AllocError> {
    let DeskJobs { mut jobs, .. } = desk;
    if jobs.len() >= MOST_JOBS {
        return Err(AllocError);
    }
    let Fitting { op, done, .. } = first;
    jobs.push(Job { op, done })?;
    Ok(DeskJobs { jobs })
}

/// The jobs of all desks.
#[derive(Drop)]
pub(crate) struct AllJobs {
    pub(crate) rows: Vec<Vec<Job>>,
    ghost few: { All (λ v. length v.items ≤ 65536) rows.items },
    ghost fitting: { All (λ v. All (λ j. (j.done.kind ≡ kind_of j.op) × (fits_in 32478 64 j.op ≡ true)) v.items) rows.items },
}

/// No desk.
pub(crate) fn no_desks(alloc: Global) -> AllJobs {
    AllJobs {
        rows: Vec::new(alloc),
    }
}

/// The jobs of all desks with those of one more.
pub(crate) fn with_desk(all: AllJobs, desk: DeskJobs) -> Result<AllJobs, AllocError> {
    let AllJobs { mut rows, .. } = all;
    let DeskJobs { jobs, .. } = desk;
    rows.push(jobs)?;
    Ok(AllJobs { rows })
}
