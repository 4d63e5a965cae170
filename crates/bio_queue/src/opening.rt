//! How a queue is made, with its submitters and workers.
ghost use Rattle.std.specs.Prelude.{◌≡◌, ◌+◌, ◌<◌, ◌≤◌, ◌^◌, ℕ, [], ◌++◌, length, map, true, None, IfErr, IfOk, vec_capacity};
ghost use mathlib.Core.Option.{some};
ghost use lib.ListN.{get_elem?};
ghost use Rattle.crossbeam_queue.specs.Passes.{view, IsPassOf};
ghost use Rattle.ticket_queue.specs.Law.{all_from, none_yet};
ghost use Rattle.ticket_queue.specs.Parties.{taken_in};
ghost use Rattle.bio_queue.specs.declared.op.OpReply.{OpReply as AnyReply};
ghost use Rattle.bio_queue.specs.Ops.{fits_in};
ghost use Rattle.bio_queue.specs.Seats.{AreDealt, AreNewFrom};
ghost use Rattle.bio_queue.specs.Served.{IsCompletedOf, IsDone, IsFit};

use crate::bio::Bio;
use crate::op::OpReply;
use crate::queue::{BioCloser, BioQueue};
use crate::submitter::Submitter;
use crate::worker::Worker;
use lane_calls::Session;
use std::alloc::{AllocError, Global};
use ticket_queue::{TicketPass, deal, new_queue};

/// A new queue, its submitters, and its workers.
#[derive(Drop)]
pub struct BioOpened {
    pub queue: BioQueue,
    pub closer: BioCloser,
    pub submitters: Vec<Submitter>,
    pub workers: Vec<Worker>,
}

/// Out of memory. The sessions come back.
#[derive(Drop)]
pub struct BioRefused {
    pub sessions: Vec<Session>,
}

/// What a queue, its submitters and its workers are made of.
#[derive(Drop)]
struct Parts {
    queue: BioQueue,
    closer: BioCloser,
    /// The passes of the submitters.
    first: Vec<TicketPass<Bio>>,
    /// The passes of the workers.
    others: Vec<TicketPass<Bio>>,
    submitters: Vec<Submitter>,
    workers: Vec<Worker>,
}

/// An empty queue, with a pass for each submitter and each worker.
fn make_parts(
    alloc: Global,
    depth: u32,
    submitters: u32,
    sectors: u32,
    width: usize,
    workers: u32,
) -> Result<Parts, AllocError>
    requires depth { 0 < depth }
    requires few { submitters + workers < 2 ^ 32 }
    ensures queue { IfOk result (λ r. (r.queue.depth ≡ depth) × (r.queue.sectors ≡ sectors) × (r.queue.width ≡ width)) }
    ensures closer { IfOk result (λ r. IsPassOf r.queue.queue r.closer.maker × (view r.closer.maker ≡ all_from (submitters + workers))) }
    ensures counts { IfOk result (λ r. (length r.first.items ≡ submitters) × (length r.others.items ≡ workers)) }
    ensures first { IfOk result (λ r. AreDealt r.queue.queue 0 r.first.items) }
    ensures others { IfOk result (λ r. AreDealt r.queue.queue submitters r.others.items) }
    ensures room { IfOk result (λ r. (r.submitters.items ≡ []) × (submitters ≤ vec_capacity r.submitters) × (r.workers.items ≡ []) × (workers ≤ vec_capacity r.workers)) }
{
    let (queue, mut maker) = new_queue(alloc, depth as usize)?;
    let mut first = deal(alloc, &queue, &mut maker, submitters + workers)?;
    let others = first.split_off(submitters as usize)?;
    let submitters = Vec::with_capacity(alloc, submitters as usize)?;
    let workers = Vec::with_capacity(alloc, workers as usize)?;
    let queue = BioQueue {
        queue,
        depth,
        sectors,
        width,
    };
    Ok(Parts {
        queue,
        closer: BioCloser { maker },
        first,
        others,
        submitters,
        workers,
    })
}

/// A submitter that has submitted nothing.
fn submitter_of(party: u32, sectors: u32, width: usize, pass: TicketPass<Bio>) -> Submitter
    requires { view pass ≡ none_yet party }
    ensures { (result.pass ≡ pass) × (result.party ≡ party) × (result.sectors ≡ sectors) × (result.width ≡ width) }
{
    Submitter {
        party,
        next: 0,
        sectors,
        width,
        pass,
    }
}

/// A worker that has taken nothing.
fn worker_of(
    alloc: Global,
    party: u32,
    sectors: u32,
    width: usize,
    ticket: TicketPass<Bio>,
    session: Session,
) -> Worker
    requires { view ticket ≡ none_yet party }
    ensures same { (result.ticket ≡ ticket) × (result.session ≡ session) × (result.party ≡ party) × (result.sectors ≡ sectors) × (result.width ≡ width) }
    ensures none { (result.completed.items ≡ []) × (result.cut ≡ None) × (result.rooms.items ≡ []) }
{
    Worker {
        party,
        sectors,
        width,
        ticket,
        session,
        completed: Vec::new(alloc),
        rooms: Vec::new(alloc),
        cut: None,
    }
}

/// A submitter for each pass.
fn seat_submitters(
    first: Vec<TicketPass<Bio>>,
    mut submitters: Vec<Submitter>,
    sectors: u32,
    width: usize,
) -> Vec<Submitter>
    requires few { length first.items < 2 ^ 32 }
    requires new { AreNewFrom 0 first.items }
    requires room { (submitters.items ≡ []) × (length first.items ≤ vec_capacity submitters) }
    ensures passes { map (λ s. s.pass) result.items ≡ first.items }
    ensures each { (k : ℕ) (s : _) → get_elem? result.items k ≡ some s → (s.party ≡ k) × (s.sectors ≡ sectors) × (s.width ≡ width) }
{
    for pass in first {
        let party = submitters.len() as u32;
        submitters.push_reserved(submitter_of(party, sectors, width, pass));
    }
    submitters
}

/// A worker for each session, with the pass at its place.
fn seat_workers(
    alloc: Global,
    others: Vec<TicketPass<Bio>>,
    mut workers: Vec<Worker>,
    submitters: u32,
    sectors: u32,
    width: usize,
    sessions: Vec<Session>,
) -> Vec<Worker>
    requires few { submitters + length sessions.items < 2 ^ 32 }
    requires count { length others.items ≡ length sessions.items }
    requires new { AreNewFrom submitters others.items }
    requires room { (workers.items ≡ []) × (length sessions.items ≤ vec_capacity workers) }
    ensures passes { map (λ w. w.ticket) result.items ≡ others.items }
    ensures sessions { map (λ w. w.session) result.items ≡ sessions.items }
    ensures each { (k : ℕ) (w : _) → get_elem? result.items k ≡ some w → (w.party ≡ submitters + k) × (w.sectors ≡ sectors) × (w.width ≡ width) × (w.completed.items ≡ []) × (w.cut ≡ None) }
{
    let mut rest = sessions.into_iter();
    for ticket in others {
        let party = submitters + workers.len() as u32;
        let Some(session) = rest.next() else {
            unreachable!();
        };
        workers.push_reserved(worker_of(alloc, party, sectors, width, ticket, session));
    }
    workers
}

impl BioQueue {
    /// A queue with room for `depth` operations on an arena with `sectors` sectors of `width` words
    /// each, its submitters, and a worker for each session.
    ///
    /// The one refusal is out of memory. Then the sessions come back.
    pub fn of(
        alloc: Global,
        depth: u32,
        submitters: u32,
        sectors: u32,
        width: usize,
        sessions: Vec<Session>,
    ) -> Result<BioOpened, BioRefused>
        requires depth { 0 < depth }
        requires few { submitters + length sessions.items < 2 ^ 32 }
        ensures refused { IfErr result (λ r. r.sessions ≡ sessions) }
        ensures queue { IfOk result (λ o. (o.queue.depth ≡ depth) × (o.queue.sectors ≡ sectors) × (o.queue.width ≡ width)) }
        ensures closer { IfOk result (λ o. IsPassOf o.queue.queue o.closer.maker × (view o.closer.maker ≡ all_from (submitters + length sessions.items))) }
        ensures count { IfOk result (λ o. length o.submitters.items ≡ submitters) }
        ensures passes { IfOk result (λ o. AreDealt o.queue.queue 0 (map (λ s. s.pass) o.submitters.items)) }
        ensures tickets { IfOk result (λ o. AreDealt o.queue.queue submitters (map (λ w. w.ticket) o.workers.items)) }
        ensures sessions { IfOk result (λ o. map (λ w. w.session) o.workers.items ≡ sessions.items) }
        ensures submitters { IfOk result (λ o. (k : ℕ) (s : _) → get_elem? o.submitters.items k ≡ some s → (s.party ≡ k) × (s.sectors ≡ sectors) × (s.width ≡ width)) }
        ensures workers { IfOk result (λ o. (k : ℕ) (w : _) → get_elem? o.workers.items k ≡ some w → (w.party ≡ submitters + k) × (w.sectors ≡ sectors) × (w.width ≡ width) × (w.completed.items ≡ []) × (w.cut ≡ None)) }
        ensures done { IfOk result (λ o. (k : ℕ) (w : _) → get_elem? o.workers.items k ≡ some w → IsFit (taken_in (view w.ticket)) (λ b. fits_in w.sectors w.width b.op ≡ true)
            → IsDone (taken_in (view w.ticket)) w.completed.items w.cut (λ b c. IsCompletedOf b.submitter b.number b.op w.session.number c × ((r : AnyReply) × (r ≡ c.reply) × ⟦<Box<dyn FnOnce(OpReply) -> u64 + Send> as FnOnce(OpReply) -> u64>⟧.post b.done.call r c.note))) }
    {
        let workers = sessions.len() as u32;
        let Ok(parts) = make_parts(alloc, depth, submitters, sectors, width, workers) else {
            return Err(BioRefused { sessions });
        };
        let Parts {
            queue,
            closer,
            first,
            others,
            submitters: seats,
            workers,
        } = parts;
        Ok(BioOpened {
            queue,
            closer,
            submitters: seat_submitters(first, seats, sectors, width),
            workers: seat_workers(alloc, others, workers, submitters, sectors, width, sessions),
        })
    }
}
