//! How a queue is closed, and the account of its operations.
ghost use Rattle.std.specs.Prelude.{◌≡◌, ◌+◌, ◌≤◌, ◌<◌, ◌^◌, ℕ, [], ◌++◌, length, map, true, All, IfErr, IfOk, vec_capacity, vec_len};
ghost use mathlib.Core.Option.{some};
ghost use lib.ListN.{get_elem?};
ghost use Rattle.crossbeam_queue.specs.Passes.{view, IsPassOf};
ghost use Rattle.ticket_queue.specs.Law.{all_from};
ghost use Rattle.ticket_queue.specs.Parties.{IsOrder, put_in, taken_in};
ghost use Rattle.bio_queue.specs.declared.op.OpReply.{OpReply as AnyReply};
ghost use Rattle.bio_queue.specs.Ops.{fits_in};
ghost use Rattle.bio_queue.specs.Served.{IsAccountOf, IsCompletedOf, IsDone, IsFit};

use crate::bio::{Bio, Completed};
use crate::op::OpReply;
use crate::queue::{BioCloser, BioQueue};
use crate::submitter::Submitter;
use crate::worker::Worker;
use lane_calls::Session;
use std::alloc::{AllocError, Global};
use std::sync::Wait;
use ticket_queue::{Ticket, TicketPass, finish};

/// What a queue leaves.
#[derive(Drop)]
pub struct BioClosed {
    /// What each worker completed, in order.
    pub completed: Vec<Vec<Completed>>,
    /// The operation that each worker had taken when it was told that power is off.
    pub cut: Vec<Option<Bio>>,
    /// What nobody took, in order.
    pub left: Vec<Ticket<Bio>>,
    /// The workers' sessions.
    pub sessions: Vec<Session>,
}

/// Out of memory. All comes back as it was.
#[derive(Drop)]
pub struct BioOpen {
    pub queue: BioQueue,
    pub closer: BioCloser,
    pub submitters: Vec<Submitter>,
    pub workers: Vec<Worker>,
}

/// Empty lists with room for all that comes back.
#[derive(Drop)]
struct Rows {
    passes: Vec<TicketPass<Bio>>,
    completed: Vec<Vec<Completed>>,
    cut: Vec<Option<Bio>>,
    sessions: Vec<Session>,
}

fn rows_for(alloc: Global, submitters: usize, workers: usize) -> Result<Rows, AllocError>
    ensures passes { IfOk result (λ r. (r.passes.items ≡ []) × (submitters + workers ≤ vec_capacity r.passes)) }
    ensures completed { IfOk result (λ r. (r.completed.items ≡ []) × (workers ≤ vec_capacity r.completed)) }
    ensures cut { IfOk result (λ r. (r.cut.items ≡ []) × (workers ≤ vec_capacity r.cut)) }
    ensures sessions { IfOk result (λ r. (r.sessions.items ≡ []) × (workers ≤ vec_capacity r.sessions)) }
{
    let Some(parties) = submitters.checked_add(workers) else {
        return Err(AllocError);
    };
    Ok(Rows {
        passes: Vec::with_capacity(alloc, parties)?,
        completed: Vec::with_capacity(alloc, workers)?,
        cut: Vec::with_capacity(alloc, workers)?,
        sessions: Vec::with_capacity(alloc, workers)?,
    })
}

/// Takes the passes of all submitters.
fn take_submitters(
    mut passes: Vec<TicketPass<Bio>>,
    submitters: Vec<Submitter>,
) -> Vec<TicketPass<Bio>>
    requires room { vec_len passes + length submitters.items ≤ vec_capacity passes }
    ensures passes { result.items ≡ passes.items ++ map (λ s. s.pass) submitters.items }
    ensures room { vec_capacity result ≡ vec_capacity passes }
{
    for submitter in submitters {
        let Submitter { pass, .. } = submitter;
        passes.push_reserved(pass);
    }
    passes
}

/// Takes the workers apart.
fn take_workers(mut rows: Rows, workers: Vec<Worker>) -> Rows
    requires passes { vec_len rows.passes + length workers.items ≤ vec_capacity rows.passes }
    requires completed { (rows.completed.items ≡ []) × (length workers.items ≤ vec_capacity rows.completed) }
    requires cut { (rows.cut.items ≡ []) × (length workers.items ≤ vec_capacity rows.cut) }
    requires sessions { (rows.sessions.items ≡ []) × (length workers.items ≤ vec_capacity rows.sessions) }
    ensures passes { result.passes.items ≡ rows.passes.items ++ map (λ w. w.ticket) workers.items }
    ensures completed { result.completed.items ≡ map (λ w. w.completed) workers.items }
    ensures cut { result.cut.items ≡ map (λ w. w.cut) workers.items }
    ensures sessions { result.sessions.items ≡ map (λ w. w.session) workers.items }
{
    for worker in workers {
        let Worker {
            ticket,
            completed,
            cut,
            session,
            ..
        } = worker;
        rows.passes.push_reserved(ticket);
        rows.completed.push_reserved(completed);
        rows.cut.push_reserved(cut);
        rows.sessions.push_reserved(session);
    }
    rows
}

impl BioQueue {
    /// Closes the queue. It takes no memory.
    fn close_into<R: Wait>(
        self,
        rt: &R,
        closer: BioCloser,
        submitters: Vec<Submitter>,
        workers: Vec<Worker>,
        rows: Rows,
        left: Vec<Ticket<Bio>>,
    ) -> BioClosed
        requires passes { (rows.passes.items ≡ []) × (length submitters.items + length workers.items ≤ vec_capacity rows.passes) }
        requires rows { (rows.completed.items ≡ []) × (length workers.items ≤ vec_capacity rows.completed) × (rows.cut.items ≡ []) × (length workers.items ≤ vec_capacity rows.cut) × (rows.sessions.items ≡ []) × (length workers.items ≤ vec_capacity rows.sessions) }
        requires left { (left.items ≡ []) × (self.depth < vec_capacity left) }
        requires queue { All (λ s. IsPassOf self.queue s.pass) submitters.items × All (λ w. IsPassOf self.queue w.ticket) workers.items }
        requires submitters { (k : ℕ) (s : _) → get_elem? submitters.items k ≡ some s → (s.party ≡ k) × (s.sectors ≡ self.sectors) × (s.width ≡ self.width) }
        requires workers { (k : ℕ) (w : _) → get_elem? workers.items k ≡ some w → (w.party ≡ length submitters.items + k) × (w.sectors ≡ self.sectors) × (w.width ≡ self.width) }
        requires closer { IsPassOf self.queue closer.maker × (view closer.maker ≡ all_from (length submitters.items + length workers.items)) }
        ensures completed { result.completed.items ≡ map (λ w. w.completed) workers.items }
        ensures cut { result.cut.items ≡ map (λ w. w.cut) workers.items }
        ensures sessions { result.sessions.items ≡ map (λ w. w.session) workers.items }
        ensures order { IsOrder (map (λ s. view s.pass) submitters.items ++ map (λ w. view w.ticket) workers.items) result.left.items }
    {
        let BioQueue { queue, .. } = self;
        let BioCloser { maker } = closer;
        let Rows {
            passes,
            completed,
            cut,
            sessions,
        } = rows;
        let passes = take_submitters(passes, submitters);
        let rows = take_workers(
            Rows {
                passes,
                completed,
                cut,
                sessions,
            },
            workers,
        );
        let Rows {
            passes,
            completed,
            cut,
            sessions,
        } = rows;
        let left = finish(rt, &queue, maker, passes, left);
        BioClosed {
            completed,
            cut,
            left,
            sessions,
        }
    }

    /// Closes the queue, when all submitters and workers are handed in, in order. Takes out what
    /// nobody took.
    ///
    /// There is one order in which the operations were taken. Each operation that was accepted is
    /// completed, or was cut, or is left, and only one of these.
    ///
    /// The one refusal is out of memory. Then all comes back as it was.
    pub fn close<R: Wait>(
        self,
        rt: &R,
        alloc: Global,
        closer: BioCloser,
        submitters: Vec<Submitter>,
        workers: Vec<Worker>,
    ) -> Result<BioClosed, BioOpen>
        requires queue { All (λ s. IsPassOf self.queue s.pass) submitters.items × All (λ w. IsPassOf self.queue w.ticket) workers.items }
        requires submitters { (k : ℕ) (s : _) → get_elem? submitters.items k ≡ some s → (s.party ≡ k) × (s.sectors ≡ self.sectors) × (s.width ≡ self.width) }
        requires workers { (k : ℕ) (w : _) → get_elem? workers.items k ≡ some w → (w.party ≡ length submitters.items + k) × (w.sectors ≡ self.sectors) × (w.width ≡ self.width) }
        requires closer { IsPassOf self.queue closer.maker × (view closer.maker ≡ all_from (length submitters.items + length workers.items)) }
        requires done { (k : ℕ) (w : _) → get_elem? workers.items k ≡ some w → IsFit (taken_in (view w.ticket)) (λ b. fits_in w.sectors w.width b.op ≡ true)
            → IsDone (taken_in (view w.ticket)) w.completed.items w.cut (λ b c. IsCompletedOf b.submitter b.number b.op w.session.number c × ((r : AnyReply) × (r ≡ c.reply) × ⟦<Box<dyn FnOnce(OpReply) -> u64 + Send> as FnOnce(OpReply) -> u64>⟧.post b.done.call r c.note)) }
        ensures back { IfErr result (λ o. (o.queue ≡ self) × (o.closer ≡ closer) × (o.submitters ≡ submitters) × (o.workers ≡ workers)) }
        ensures completed { IfOk result (λ r. r.completed.items ≡ map (λ w. w.completed) workers.items) }
        ensures cut { IfOk result (λ r. r.cut.items ≡ map (λ w. w.cut) workers.items) }
        ensures sessions { IfOk result (λ r. r.sessions.items ≡ map (λ w. w.session) workers.items) }
        ensures order { IfOk result (λ r. IsOrder (map (λ s. view s.pass) submitters.items ++ map (λ w. view w.ticket) workers.items) r.left.items) }
        ensures account { IfOk result (λ r. IsAccountOf (map (λ s. view s.pass) submitters.items ++ map (λ w. view w.ticket) workers.items) r.left.items (λ b. b.number)) }
        ensures done { IfOk result (λ _. (k : ℕ) (w : _) → get_elem? workers.items k ≡ some w
            → IsDone (taken_in (view w.ticket)) w.completed.items w.cut (λ b c. IsCompletedOf b.submitter b.number b.op w.session.number c × ((r : AnyReply) × (r ≡ c.reply) × ⟦<Box<dyn FnOnce(OpReply) -> u64 + Send> as FnOnce(OpReply) -> u64>⟧.post b.done.call r c.note))) }
    {
        let Ok(rows) = rows_for(alloc, submitters.len(), workers.len()) else {
            return Err(BioOpen {
                queue: self,
                closer,
                submitters,
                workers,
            });
        };
        let Ok(left) = Vec::with_capacity(alloc, self.depth as usize + 1) else {
            return Err(BioOpen {
                queue: self,
                closer,
                submitters,
                workers,
            });
        };
        Ok(self.close_into(rt, closer, submitters, workers, rows, left))
    }
}
