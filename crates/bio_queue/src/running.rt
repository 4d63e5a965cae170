//! All desks at once.
ghost use Rattle.std.specs.Prelude.{◌≡◌, ◌+◌, ◌≤◌, ◌<◌, length, true, All};
ghost use Rattle.crossbeam_queue.specs.Passes.{view, IsPassOf};
ghost use Rattle.ticket_queue.specs.Parties.{put_in, taken_in};
ghost use Rattle.bio_queue.specs.declared.op.OpReply.{OpReply as AnyReply};
ghost use Rattle.bio_queue.specs.Ops.{fits_in};
ghost use Rattle.bio_queue.specs.Served.{IsCompletedOf, IsDone, IsFit};
ghost use Rattle.bio_queue.specs.Serving.{IsAtWork};
ghost use Rattle.bio_queue.specs.Standing.{stands_of};
ghost use Rattle.bio_queue.specs.Lists.{AreChanged, AreSubmitted};

use crate::desk::Desk;
use crate::op::OpReply;
use crate::queue::BioQueue;
use crate::shift::run_all;
use lane_calls::Sectors;
use std::alloc::Global;
use std::sync::Wait;
use std::thread::Threads;

/// Runs all desks at one queue, in at most `threads` threads, until each has come to its end.
///
/// Each desk submits its jobs in order, and serves operations of any desk when the queue is full,
/// and when it has no job left. It comes to its end when it has none left and the queue is empty; or
/// when its worker may complete no more, there is no memory, or power is off.
pub fn run_desks<R: Threads + Wait + Sync>(
    rt: &R,
    alloc: Global,
    queue: &BioQueue,
    sectors: &Sectors,
    threads: usize,
    desks: &mut [Desk],
)
    requires threads { 0 < threads }
    requires desks { All (λ d. IsPassOf queue.now.queue d.submitter.pass × IsPassOf queue.now.queue d.worker.ticket
        × (length (put_in (view d.submitter.pass)) + length d.jobs.items ≤ 65536)
        × (length d.worker.completed.items ≤ d.limit)
        × IsAtWork sectors.now d.worker.sectors d.worker.width d.limit d.worker.cut (stands_of d.worker.completed.items) d.worker.session
        × (IsFit (taken_in (view d.worker.ticket)) (λ b. fits_in d.worker.sectors d.worker.width b.op ≡ true)
        → IsDone (taken_in (view d.worker.ticket)) d.worker.completed.items d.worker.cut (λ b c. IsCompletedOf b.submitter b.number b.op d.worker.session.number c × ((r : AnyReply) × (r ≡ c.reply) × ⟦<Box<dyn FnOnce(OpReply) -> u64 + Send> as FnOnce(OpReply) -> u64>⟧.post b.done.call r c.note)))) desks.old }
    ensures desks { All (λ d. IsPassOf queue.now.queue d.submitter.pass × IsPassOf queue.now.queue d.worker.ticket
        × (length (put_in (view d.submitter.pass)) + length d.jobs.items ≤ 65536)
        × (length d.worker.completed.items ≤ d.limit)
        × IsAtWork sectors.now d.worker.sectors d.worker.width d.limit d.worker.cut (stands_of d.worker.completed.items) d.worker.session
        × (IsFit (taken_in (view d.worker.ticket)) (λ b. fits_in d.worker.sectors d.worker.width b.op ≡ true)
        → IsDone (taken_in (view d.worker.ticket)) d.worker.completed.items d.worker.cut (λ b c. IsCompletedOf b.submitter b.number b.op d.worker.session.number c × ((r : AnyReply) × (r ≡ c.reply) × ⟦<Box<dyn FnOnce(OpReply) -> u64 + Send> as FnOnce(OpReply) -> u64>⟧.post b.done.call r c.note)))) desks.new }
    ensures since { AreChanged desks.old desks.new (λ d e.
        AreSubmitted (put_in (view d.submitter.pass)) (put_in (view e.submitter.pass)) d.jobs.items e.jobs.items (λ b j. (b.op ≡ j.op) × (b.done ≡ j.done))
        × (e.submitter.party ≡ d.submitter.party) × (e.submitter.sectors ≡ d.submitter.sectors) × (e.submitter.width ≡ d.submitter.width)
        × (e.worker.party ≡ d.worker.party) × (e.worker.sectors ≡ d.worker.sectors) × (e.worker.width ≡ d.worker.width)
        × (e.worker.session.number ≡ d.worker.session.number) × (e.limit ≡ d.limit)) }
{
    run_all(rt, alloc, queue, sectors, threads, desks);
}
