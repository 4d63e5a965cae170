//! The whole service.
ghost use Rattle.std.specs.Prelude.{◌≡◌, ◌<◌, ◌≤◌, length, map, true, All, IfOk};
ghost use Rattle.arena_open.specs.Moves.{IsOpenState};
ghost use Rattle.lane_core.specs.Arenas.{shape_in};
ghost use Rattle.lane_sessions.specs.Left.{IsArenaLeft};
ghost use Rattle.bio_queue.specs.declared.op.OpReply.{OpReply as AnyReply};
ghost use Rattle.bio_queue.specs.Ops.{fits, fits_in, kind_of};
ghost use Rattle.block_service.specs.Served.{AreServed, known_by};

use crate::beginning::{Begun, begin};
use crate::ending::{BlocksServed, end};
use crate::running::run_queue;
use crate::seating::open_desks;
use arena_open::ArenaState;
use bio_queue::{Job, OpReply};
use std::alloc::{AllocError, Global};
use std::sync::Wait;
use std::thread::Threads;

/// The greatest number of desks.
const MOST_DESKS: usize = 1 << 30;

// How many jobs there are in all. The one refusal is out of memory, also if there are 2^32.
fn count_jobs(jobs: &[Vec<Job>]) -> Result<u32, AllocError> {
    let mut count: u32 = 0;
    for own in jobs {
        let more = own.len();
        if more > u32::MAX as usize {
            return Err(AllocError);
        }
        let Some(sum) = count.checked_add(more as u32) else {
            return Err(AllocError);
        };
        count = sum;
    }
    Ok(count)
}

/// Plays the jobs of several desks on an arena, through a queue with room for `depth` operations, in
/// at most `threads` threads. A desk's list of jobs has its first one last.
///
/// All jobs are completed, each exactly once, with a reply that fits and a note that its callback
/// answered to it (`served`). The arena's one legal history has the operations of each worker,
/// in order, and nothing else (`arena`).
///
/// The one refusal is out of memory, also if there are 2^30 desks or 2^32 jobs. Then all is dropped.
///
/// Conditions: the arena is as opening left it. No desk has more than 65,536 jobs; each job fits the
/// arena, and its completion was made for its kind.
pub fn serve_operations<R: Threads + Wait + Sync>(
    rt: &R,
    alloc: Global,
    state: ArenaState,
    depth: u32,
    threads: usize,
    jobs: Vec<Vec<Job>>,
) -> Result<BlocksServed, AllocError>
    requires opened { IsOpenState state }
    requires depth { 0 < depth }
    requires threads { 0 < threads }
    requires few { All (λ v. length v.items ≤ 65536) jobs.items }
    requires fitting { All (λ v. All (λ j. (j.done.kind ≡ kind_of j.op) × (fits_in (shape_in state).sectors (shape_in state).width j.op ≡ true)) v.items) jobs.items }
    ensures served { IfOk result (λ r. AreServed (map (λ v. v.items) jobs.items) (map (λ v. v.items) r.completed.items)
        (λ j c. (c.op ≡ j.op) × (fits (kind_of j.op) c.reply ≡ true) × ((r : AnyReply) × (r ≡ c.reply) × ⟦<Box<dyn FnOnce(OpReply) -> u64 + Send> as FnOnce(OpReply) -> u64>⟧.post j.done.call r c.note))) }
    ensures arena { IfOk result (λ r. IsArenaLeft (length jobs.items) state (known_by (map (λ v. v.items) r.completed.items)) r.words) }
{
    let desks = jobs.len();
    if desks > MOST_DESKS {
        return Err(AllocError);
    }
    let calls = count_jobs(jobs.as_slice())?;
    let high = state.info.layout.external;
    let width = (state.info.layout.sector / 8) as usize;
    let begun = begin(alloc, state, threads, desks, calls)?;
    let Begun {
        sectors,
        aside,
        sessions,
    } = begun;
    let seated = open_desks(alloc, depth, high, width, sessions, jobs, calls)?;
    let over = run_queue(rt, alloc, &sectors, threads, seated)?;
    let served = end(rt, alloc, sectors, aside, over)?;
    Ok(served)
}
