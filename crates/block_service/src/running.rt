//! The desks run, and the queue is closed.
ghost use Rattle.std.specs.Prelude.{◌≡◌, ◌+◌, ◌<◌, ◌≤◌, ℕ, [], length, map, true, None, All, IfOk};
ghost use mathlib.Core.Option.{some};
ghost use lib.ListN.{get_elem?};
ghost use Rattle.crossbeam_queue.specs.Passes.{view, IsPassOf};
ghost use Rattle.ticket_queue.specs.Law.{all_from, none_yet};
ghost use Rattle.ticket_queue.specs.Parties.{taken_in};
ghost use Rattle.bio_queue.specs.declared.op.OpReply.{OpReply as AnyReply};
ghost use Rattle.bio_queue.specs.Ops.{fits, fits_in, kind_of};
ghost use Rattle.bio_queue.specs.Served.{IsCompletedOf, IsDone, IsFit};
ghost use Rattle.bio_queue.specs.Serving.{MayMake, NeverSwitched};
ghost use Rattle.block_service.specs.Served.{AreServed};
ghost use Rattle.block_service.specs.Sessions.{AreOver};

use crate::seating::Seated;
use bio_queue::{BioClosed, Completed, Desk, OpReply, close_desks, run_desks};
use lane_calls::{Sectors, Session};
use std::alloc::{AllocError, Global};
use std::sync::Wait;
use std::thread::Threads;

/// What workers completed, and their sessions.
#[derive(Drop)]
pub(crate) struct Over {
    pub(crate) completed: Vec<Vec<Completed>>,
    pub(crate) sessions: Vec<Session>,
}

// Whether each desk submitted all its jobs, and no worker was told that power is off.
fn are_through(desks: &[Desk]) -> bool
    ensures { result ≡ true → All (λ d. (d.jobs.items ≡ []) × (d.worker.cut ≡ None)) desks.now }
{
    for desk in desks {
        if !desk.jobs.is_empty() || desk.worker.is_cut() {
            return false;
        }
    }
    true
}

/// Runs the desks of a queue, and closes it. It answers if all jobs are completed.
///
/// The one refusal is out of memory. Then all is dropped.
pub(crate) fn run_queue<R: Threads + Wait + Sync>(
    rt: &R,
    alloc: Global,
    sectors: &Sectors,
    threads: usize,
    seated: Seated,
) -> Result<Over, AllocError>
    requires threads { 0 < threads }
    requires closer { IsPassOf seated.queue.queue seated.closer.maker × (view seated.closer.maker ≡ all_from (length seated.desks.items + length seated.desks.items)) }
    requires few { All (λ d. length d.jobs.items ≤ 65536) seated.desks.items }
    requires seats { (k : ℕ) (d : _) → get_elem? seated.desks.items k ≡ some d
        → IsPassOf seated.queue.queue d.submitter.pass × IsPassOf seated.queue.queue d.worker.ticket × (view d.submitter.pass ≡ none_yet k)
        × (d.submitter.party ≡ k) × (d.submitter.sectors ≡ seated.queue.sectors) × (d.submitter.width ≡ seated.queue.width)
        × (d.worker.party ≡ length seated.desks.items + k) × (d.worker.sectors ≡ seated.queue.sectors) × (d.worker.width ≡ seated.queue.width)
        × (d.worker.completed.items ≡ []) × (d.worker.cut ≡ None) }
    requires sessions { (k : ℕ) (d : _) → get_elem? seated.desks.items k ≡ some d
        → (d.worker.session.number ≡ k) × MayMake sectors.now d.worker.sectors d.worker.width d.limit [] d.worker.session × NeverSwitched d.worker.session }
    requires done { (k : ℕ) (d : _) → get_elem? seated.desks.items k ≡ some d → IsFit (taken_in (view d.worker.ticket)) (λ b. fits_in d.worker.sectors d.worker.width b.op ≡ true)
        → IsDone (taken_in (view d.worker.ticket)) d.worker.completed.items d.worker.cut (λ b c. IsCompletedOf b.submitter b.number b.op d.worker.session.number c × ((r : AnyReply) × (r ≡ c.reply) × ⟦<Box<dyn FnOnce(OpReply) -> u64 + Send> as FnOnce(OpReply) -> u64>⟧.post b.done.call r c.note)) }
    ensures served { IfOk result (λ o. AreServed (map (λ d. d.jobs.items) seated.desks.items) (map (λ v. v.items) o.completed.items)
        (λ j c. (c.op ≡ j.op) × (fits (kind_of j.op) c.reply ≡ true) × ((r : AnyReply) × (r ≡ c.reply) × ⟦<Box<dyn FnOnce(OpReply) -> u64 + Send> as FnOnce(OpReply) -> u64>⟧.post j.done.call r c.note))) }
    ensures sessions { IfOk result (λ o. AreOver sectors.now (map (λ v. v.items) o.completed.items) o.sessions.items) }
{
    let Seated {
        queue,
        closer,
        mut desks,
    } = seated;
    run_desks(rt, alloc, &queue, sectors, threads, desks.as_mut_slice());
    if !are_through(desks.as_slice()) {
        return Err(AllocError);
    }
    let closed = close_desks(rt, alloc, queue, closer, desks)?;
    let BioClosed {
        completed,
        left,
        sessions,
        ..
    } = closed;
    if !left.is_empty() {
        return Err(AllocError);
    }
    Ok(Over {
        completed,
        sessions,
    })
}
