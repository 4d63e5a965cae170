//! The queue and its desks.
ghost use Rattle.std.specs.Prelude.{◌≡◌, ◌+◌, ◌<◌, ◌≤◌, ◌^◌, ℕ, [], length, map, true, None, All, IfOk, vec_capacity};
ghost use mathlib.Core.Option.{some};
ghost use lib.ListN.{get_elem?};
ghost use Rattle.crossbeam_queue.specs.Passes.{view, IsPassOf};
ghost use Rattle.ticket_queue.specs.Law.{all_from, none_yet};
ghost use Rattle.ticket_queue.specs.Parties.{taken_in};
ghost use Rattle.bio_queue.specs.declared.op.OpReply.{OpReply as AnyReply};
ghost use Rattle.bio_queue.specs.Ops.{fits_in, kind_of};
ghost use Rattle.bio_queue.specs.Served.{IsCompletedOf, IsDone, IsFit};

use bio_queue::{BioCloser, BioOpened, BioQueue, Desk, Job, OpReply, Submitter, Worker};
use lane_calls::Session;
use std::alloc::{AllocError, Global};

/// A queue, and its desks.
#[derive(Drop)]
pub(crate) struct Seated {
    pub(crate) queue: BioQueue,
    pub(crate) closer: BioCloser,
    pub(crate) desks: Vec<Desk>,
}

// A desk for each submitter, with the worker and the jobs at its place.
fn seat_desks(
    mut desks: Vec<Desk>,
    submitters: Vec<Submitter>,
    workers: Vec<Worker>,
    jobs: Vec<Vec<Job>>,
    limit: u32,
) -> Vec<Desk>
    requires counts { (length workers.items ≡ length submitters.items) × (length jobs.items ≡ length submitters.items) }
    requires room { (desks.items ≡ []) × (length submitters.items ≤ vec_capacity desks) }
    requires fitting { (k : ℕ) (s : _) (v : _) → get_elem? submitters.items k ≡ some s → get_elem? jobs.items k ≡ some v
        → All (λ j. (j.done.kind ≡ kind_of j.op) × (fits_in s.sectors s.width j.op ≡ true)) v.items }
    ensures submitters { map (λ d. d.submitter) result.items ≡ submitters.items }
    ensures workers { map (λ d. d.worker) result.items ≡ workers.items }
    ensures jobs { map (λ d. d.jobs) result.items ≡ jobs.items }
    ensures limit { (k : ℕ) (d : _) → get_elem? result.items k ≡ some d → d.limit ≡ limit }
{
    let mut others = workers.into_iter();
    let mut rows = jobs.into_iter();
    for submitter in submitters {
        let Some(worker) = others.next() else {
            unreachable!();
        };
        let Some(own) = rows.next() else {
            unreachable!();
        };
        desks.push_reserved(Desk::new(submitter, worker, own, limit));
    }
    desks
}

/// Makes a queue of an arena with `high` sectors of `width` words each, and a desk for each session
/// and list of jobs. Its worker may complete `limit` operations.
///
/// The one refusal is out of memory. Then all is dropped.
pub(crate) fn open_desks(
    alloc: Global,
    depth: u32,
    high: u32,
    width: usize,
    sessions: Vec<Session>,
    jobs: Vec<Vec<Job>>,
    limit: u32,
) -> Result<Seated, AllocError>
    requires depth { 0 < depth }
    requires few { length jobs.items < 2 ^ 31 }
    requires count { length sessions.items ≡ length jobs.items }
    requires fitting { All (λ v. All (λ j. (j.done.kind ≡ kind_of j.op) × (fits_in high width j.op ≡ true)) v.items) jobs.items }
    ensures queue { IfOk result (λ o. (o.queue.sectors ≡ high) × (o.queue.width ≡ width)) }
    ensures closer { IfOk result (λ o. IsPassOf o.queue.queue o.closer.maker × (view o.closer.maker ≡ all_from (length o.desks.items + length o.desks.items))) }
    ensures sessions { IfOk result (λ o. map (λ d. d.worker.session) o.desks.items ≡ sessions.items) }
    ensures jobs { IfOk result (λ o. map (λ d. d.jobs) o.desks.items ≡ jobs.items) }
    ensures seats { IfOk result (λ o. (k : ℕ) (d : _) → get_elem? o.desks.items k ≡ some d
        → IsPassOf o.queue.queue d.submitter.pass × IsPassOf o.queue.queue d.worker.ticket × (view d.submitter.pass ≡ none_yet k)
        × (d.submitter.party ≡ k) × (d.submitter.sectors ≡ high) × (d.submitter.width ≡ width)
        × (d.worker.party ≡ length o.desks.items + k) × (d.worker.sectors ≡ high) × (d.worker.width ≡ width)
        × (d.worker.completed.items ≡ []) × (d.worker.cut ≡ None) × (d.limit ≡ limit)) }
    ensures done { IfOk result (λ o. (k : ℕ) (d : _) → get_elem? o.desks.items k ≡ some d → IsFit (taken_in (view d.worker.ticket)) (λ b. fits_in d.worker.sectors d.worker.width b.op ≡ true)
        → IsDone (taken_in (view d.worker.ticket)) d.worker.completed.items d.worker.cut (λ b c. IsCompletedOf b.submitter b.number b.op d.worker.session.number c × ((r : AnyReply) × (r ≡ c.reply) × ⟦<Box<dyn FnOnce(OpReply) -> u64 + Send> as FnOnce(OpReply) -> u64>⟧.post b.done.call r c.note))) }
{
    let count = jobs.len();
    let desks = Vec::with_capacity(alloc, count)?;
    let Ok(opened) = BioQueue::of(alloc, depth, count as u32, high, width, sessions) else {
        return Err(AllocError);
    };
    let BioOpened {
        queue,
        closer,
        submitters,
        workers,
    } = opened;
    Ok(Seated {
        queue,
        closer,
        desks: seat_desks(desks, submitters, workers, jobs, limit),
    })
}
