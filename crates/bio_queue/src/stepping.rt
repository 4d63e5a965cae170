//! A worker's turn at a desk, and a desk's steps.
ghost use Rattle.std.specs.Prelude.{◌≡◌, ◌+◌, ◌<◌, ◌≤◌, length, true, None, refl, vec_capacity, vec_len};
ghost use Rattle.std.proofs.Common.{◌∙◌};
ghost use Rattle.crossbeam_queue.specs.Passes.{view, IsPassOf, IsSamePass};
ghost use Rattle.ticket_queue.specs.Parties.{put_in, taken_in};
ghost use Rattle.bio_queue.specs.declared.op.OpReply.{OpReply as AnyReply};
ghost use Rattle.bio_queue.specs.Ops.{fits_in};
ghost use Rattle.bio_queue.specs.Served.{IsCompletedOf, IsDone, IsFit};
ghost use Rattle.bio_queue.specs.Serving.{IsAtWork};
ghost use Rattle.bio_queue.specs.Standing.{stands_of};
ghost use Rattle.bio_queue.specs.Lists.{AreSubmitted};
ghost use Rattle.bio_queue.specs.Submitted.{submitted_begins, submitted_goes_on};

use crate::bio::OneTurn;
use crate::completion::Callback;
use crate::desk::{Desk, DeskEnd, Sent};
use crate::op::OpReply;
use crate::queue::BioQueue;
use crate::shift::Shift;
use crate::worker::Worker;
use lane_calls::{Sectors, Waiting};
use nvd_media::NoGate;
use std::alloc::Global;
use std::sync::Wait;

/// What came of a worker's turn.
#[derive(Clone, Copy, Debug, PartialEq, Eq)]
enum Turned {
    Served,
    Empty,
    /// It takes no turn more.
    Over(DeskEnd),
}

/// A worker takes no turn more: it gives its set of lanes back, if it keeps one.
fn stop<R: Wait>(rt: &R, sectors: &Sectors, limit: u32, worker: &mut Worker)
    requires within { length worker.old.completed.items ≤ limit }
    requires works { IsAtWork sectors.now worker.old.sectors worker.old.width limit worker.old.cut (stands_of worker.old.completed.items) worker.old.session }
    requires going { worker.old.cut ≡ None }
    requires done { IsFit (taken_in (view worker.old.ticket)) (λ b. fits_in worker.old.sectors worker.old.width b.op ≡ true)
        → IsDone (taken_in (view worker.old.ticket)) worker.old.completed.items worker.old.cut (λ b c. IsCompletedOf b.submitter b.number b.op worker.old.session.number c × ((r : AnyReply) × (r ≡ c.reply) × ⟦<Box<dyn FnOnce(OpReply) -> u64 + Send> as FnOnce(OpReply) -> u64>⟧.post b.done.call r c.note)) }
    ensures queue { IsSamePass worker.old.ticket worker.new.ticket }
    ensures same { (worker.new.party ≡ worker.old.party) × (worker.new.sectors ≡ worker.old.sectors) × (worker.new.width ≡ worker.old.width) × (worker.new.session.number ≡ worker.old.session.number) }
    ensures within { length worker.new.completed.items ≤ limit }
    ensures works { IsAtWork sectors.now worker.new.sectors worker.new.width limit worker.new.cut (stands_of worker.new.completed.items) worker.new.session }
    ensures done { IsFit (taken_in (view worker.new.ticket)) (λ b. fits_in worker.new.sectors worker.new.width b.op ≡ true)
        → IsDone (taken_in (view worker.new.ticket)) worker.new.completed.items worker.new.cut (λ b c. IsCompletedOf b.submitter b.number b.op worker.new.session.number c × ((r : AnyReply) × (r ≡ c.reply) × ⟦<Box<dyn FnOnce(OpReply) -> u64 + Send> as FnOnce(OpReply) -> u64>⟧.post b.done.call r c.note)) }
{
    worker.pause(rt, sectors);
}

/// A worker's turn, which has room for one call.
fn take_turn<R: Wait>(
    rt: &R,
    queue: &BioQueue,
    sectors: &Sectors,
    limit: u32,
    worker: &mut Worker,
) -> Turned
    requires queue { IsPassOf queue.now.queue worker.old.ticket }
    requires within { length worker.old.completed.items + 1 ≤ limit }
    requires spare { (0 < length worker.old.rooms.items) × (vec_len worker.old.completed < vec_capacity worker.old.completed) }
    requires works { IsAtWork sectors.now worker.old.sectors worker.old.width limit worker.old.cut (stands_of worker.old.completed.items) worker.old.session }
    requires going { worker.old.cut ≡ None }
    requires done { IsFit (taken_in (view worker.old.ticket)) (λ b. fits_in worker.old.sectors worker.old.width b.op ≡ true)
        → IsDone (taken_in (view worker.old.ticket)) worker.old.completed.items worker.old.cut (λ b c. IsCompletedOf b.submitter b.number b.op worker.old.session.number c × ((r : AnyReply) × (r ≡ c.reply) × ⟦<Box<dyn FnOnce(OpReply) -> u64 + Send> as FnOnce(OpReply) -> u64>⟧.post b.done.call r c.note)) }
    ensures queue { IsSamePass worker.old.ticket worker.new.ticket }
    ensures same { (worker.new.party ≡ worker.old.party) × (worker.new.sectors ≡ worker.old.sectors) × (worker.new.width ≡ worker.old.width) × (worker.new.session.number ≡ worker.old.session.number) }
    ensures within { length worker.new.completed.items ≤ limit }
    ensures works { IsAtWork sectors.now worker.new.sectors worker.new.width limit worker.new.cut (stands_of worker.new.completed.items) worker.new.session }
    ensures done { IsFit (taken_in (view worker.new.ticket)) (λ b. fits_in worker.new.sectors worker.new.width b.op ≡ true)
        → IsDone (taken_in (view worker.new.ticket)) worker.new.completed.items worker.new.cut (λ b c. IsCompletedOf b.submitter b.number b.op worker.new.session.number c × ((r : AnyReply) × (r ≡ c.reply) × ⟦<Box<dyn FnOnce(OpReply) -> u64 + Send> as FnOnce(OpReply) -> u64>⟧.post b.done.call r c.note)) }
{
    let waiting = Waiting { rt, gate: &NoGate };
    match worker.serve_one(&waiting, queue, sectors) {
        OneTurn::Served => Turned::Served,
        OneTurn::Empty => Turned::Empty,
        OneTurn::Off => Turned::Over(DeskEnd::Off),
    }
}

/// A worker's turn, if it may complete one operation more and there is memory.
///
/// It keeps no set of lanes if it takes no turn more, or if the queue was empty.
fn serve_next<R: Wait>(
    rt: &R,
    alloc: Global,
    queue: &BioQueue,
    sectors: &Sectors,
    limit: u32,
    worker: &mut Worker,
) -> Turned
    requires queue { IsPassOf queue.now.queue worker.old.ticket }
    requires within { length worker.old.completed.items ≤ limit }
    requires works { IsAtWork sectors.now worker.old.sectors worker.old.width limit worker.old.cut (stands_of worker.old.completed.items) worker.old.session }
    requires going { worker.old.cut ≡ None }
    requires done { IsFit (taken_in (view worker.old.ticket)) (λ b. fits_in worker.old.sectors worker.old.width b.op ≡ true)
        → IsDone (taken_in (view worker.old.ticket)) worker.old.completed.items worker.old.cut (λ b c. IsCompletedOf b.submitter b.number b.op worker.old.session.number c × ((r : AnyReply) × (r ≡ c.reply) × ⟦<Box<dyn FnOnce(OpReply) -> u64 + Send> as FnOnce(OpReply) -> u64>⟧.post b.done.call r c.note)) }
    ensures queue { IsSamePass worker.old.ticket worker.new.ticket }
    ensures same { (worker.new.party ≡ worker.old.party) × (worker.new.sectors ≡ worker.old.sectors) × (worker.new.width ≡ worker.old.width) × (worker.new.session.number ≡ worker.old.session.number) }
    ensures within { length worker.new.completed.items ≤ limit }
    ensures works { IsAtWork sectors.now worker.new.sectors worker.new.width limit worker.new.cut (stands_of worker.new.completed.items) worker.new.session }
    ensures done { IsFit (taken_in (view worker.new.ticket)) (λ b. fits_in worker.new.sectors worker.new.width b.op ≡ true)
        → IsDone (taken_in (view worker.new.ticket)) worker.new.completed.items worker.new.cut (λ b c. IsCompletedOf b.submitter b.number b.op worker.new.session.number c × ((r : AnyReply) × (r ≡ c.reply) × ⟦<Box<dyn FnOnce(OpReply) -> u64 + Send> as FnOnce(OpReply) -> u64>⟧.post b.done.call r c.note)) }
{
    if worker.completed() >= limit as usize {
        stop(rt, sectors, limit, worker);
        return Turned::Over(DeskEnd::Limit);
    }
    match worker.reserve_one(alloc) {
        Ok(()) => take_turn(rt, queue, sectors, limit, worker),
        Err(_) => {
            stop(rt, sectors, limit, worker);
            Turned::Over(DeskEnd::Memory)
        }
    }
}

impl Shift<BioQueue, Sectors> for Desk {
    ghost may = { λ q s d.
        IsPassOf q.queue d.submitter.pass × IsPassOf q.queue d.worker.ticket
        × (length (put_in (view d.submitter.pass)) + length d.jobs.items ≤ 65536)
        × (length d.worker.completed.items ≤ d.limit)
        × IsAtWork s d.worker.sectors d.worker.width d.limit d.worker.cut (stands_of d.worker.completed.items) d.worker.session
        × (IsFit (taken_in (view d.worker.ticket)) (λ b. fits_in d.worker.sectors d.worker.width b.op ≡ true)
        → IsDone (taken_in (view d.worker.ticket)) d.worker.completed.items d.worker.cut (λ b c. IsCompletedOf b.submitter b.number b.op d.worker.session.number c × ((r : AnyReply) × (r ≡ c.reply) × Callback.post b.done.call r c.note))) };

    ghost since = { λ d e.
        AreSubmitted (put_in (view d.submitter.pass)) (put_in (view e.submitter.pass)) d.jobs.items e.jobs.items (λ b j. (b.op ≡ j.op) × (b.done ≡ j.done))
        × (e.submitter.party ≡ d.submitter.party) × (e.submitter.sectors ≡ d.submitter.sectors) × (e.submitter.width ≡ d.submitter.width)
        × (e.worker.party ≡ d.worker.party) × (e.worker.sectors ≡ d.worker.sectors) × (e.worker.width ≡ d.worker.width)
        × (e.worker.session.number ≡ d.worker.session.number) × (e.limit ≡ d.limit) };

    fn step<R: Wait>(
        &mut self,
        rt: &R,
        alloc: Global,
        queue: &BioQueue,
        sectors: &Sectors,
    ) -> bool {
        if self.worker.is_cut() {
            self.end = DeskEnd::Off;
            return false;
        }
        let sent = self.submit_next(rt, queue);
        if sent == Sent::Accepted {
            return true;
        }
        match serve_next(rt, alloc, queue, sectors, self.limit, &mut self.worker) {
            Turned::Served => true,
            Turned::Empty => {
                if sent == Sent::Back {
                    return true;
                }
                self.end = DeskEnd::Done;
                false
            }
            Turned::Over(end) => {
                self.end = end;
                false
            }
        }
    }

    ghost begins = { λ d. (submitted_begins (put_in (view d.submitter.pass)) d.jobs.items, refl, refl, refl, refl, refl, refl, refl, refl) };

    ghost goes_on = { λ d e f x y. (
      submitted_goes_on (put_in (view d.submitter.pass)) (put_in (view e.submitter.pass)) (put_in (view f.submitter.pass)) d.jobs.items e.jobs.items f.jobs.items x.0 y.0,
      y.1 ∙ x.1,
      y.2 ∙ x.2,
      y.3 ∙ x.3,
      y.4 ∙ x.4,
      y.5 ∙ x.5,
      y.6 ∙ x.6,
      y.7 ∙ x.7,
      y.8 ∙ x.8,
    ) };
}
