//! Submitters and workers of a queue.
ghost use Rattle.std.specs.Prelude.{◌≡◌, ◌≢◌, ◌+◌, ◌≤◌, ◌<◌, ℕ, [], ◌∷◌, length, map, true, None, IfOk, OnOk};
ghost use mathlib.Core.Option.{some};
ghost use lib.ListN.{get_elem?};
ghost use Rattle.crossbeam_queue.specs.Passes.{view, IsPassOf, IsSamePass};
ghost use Rattle.ticket_queue.specs.Law.{all_from, none_yet};
ghost use Rattle.ticket_queue.specs.Parties.{put_in, taken_in};
ghost use Rattle.bio_queue.specs.declared.bio.OneTurn.TheVariants as turn;
ghost use Rattle.bio_queue.specs.declared.op.OpReply.{OpReply as AnyReply};
ghost use Rattle.bio_queue.specs.Ops.{fits, fits_in, kind_of};
ghost use Rattle.bio_queue.specs.Seats.{AreDealt};
ghost use Rattle.bio_queue.specs.Served.{IsCompletedOf, IsDone, IsFit};
ghost use Rattle.bio_queue.specs.Serving.{HasMade, MayMake};
ghost use Rattle.bio_queue.specs.Standing.{stands_of};

use crate::arena::two_of;
use arena_open::Cell;
use bio_queue::{
    BioClosed, BioCloser, BioOpened, BioQueue, Completion, Full, OneTurn, Op, OpReply, Submitter,
    Worker,
};
use lane_calls::{Sectors, Waiting};
use nvd_media::NoGate;
use nvd_words::Items;
use std::alloc::{AllocError, Global};
use std::sync::Wait;

/// What came of an operation that was submitted.
#[derive(Debug, Drop)]
pub(crate) enum Submitted {
    Accepted(u32),
    /// It came back. The note is what its completion answers to a fitting reply.
    Full { op: Op, depth: u32, note: u64 },
}

/// A write of a sector, each word with the same value; or a read, where the value is 0. The sector
/// is one of the first 100.
pub(crate) fn op_of(alloc: Global, sector: u32, value: u64) -> Result<Op, AllocError>
    ensures { IfOk result (λ op. fits_in 32478 64 op ≡ true) }
{
    let sector = sector % 100;
    if value == 0 {
        return Ok(Op::Read { sector });
    }
    let words = Items::from_vec(vec![in alloc; value; 64]?);
    Ok(Op::Write { sector, words })
}

/// A completion's note: its tag, and the last word that was read, or 1 for a write.
pub(crate) fn note_of(tag: u64, reply: &OpReply) -> u64 {
    let told = match reply {
        OpReply::Got(Cell::Bytes(words)) => *words.as_slice().last().unwrap_or(&0),
        OpReply::Got(Cell::Bad) => 2,
        OpReply::Wrote => 1,
    };
    tag.wrapping_add(told)
}

/// A reply that fits an operation.
fn reply_to(op: &Op) -> OpReply
    ensures { fits (kind_of op.now) result ≡ true }
{
    match op {
        Op::Read { .. } => OpReply::Got(Cell::Bad),
        Op::Write { .. } => OpReply::Wrote,
    }
}

/// An operation that fits the arena, with its completion.
#[derive(Drop)]
pub(crate) struct Job {
    pub(crate) op: Op,
    pub(crate) done: Completion,
    ghost made_for: { done.kind ≡ kind_of op },
    ghost fitting: { fits_in 32478 64 op ≡ true },
}

/// Submits an operation.
pub(crate) fn submit<R: Wait>(
    rt: &R,
    queue: &BioQueue,
    submitter: &mut Submitter,
    job: Job,
) -> Submitted
    requires queue { IsPassOf queue.now.queue submitter.old.pass }
    requires few { length (put_in (view submitter.old.pass)) < 65536 }
    requires arena { (submitter.old.sectors ≡ 32478) × (submitter.old.width ≡ 64) }
    ensures queue { IsSamePass submitter.old.pass submitter.new.pass }
    ensures same { (submitter.new.party ≡ submitter.old.party) × (submitter.new.sectors ≡ submitter.old.sectors) × (submitter.new.width ≡ submitter.old.width) }
    ensures count { length (put_in (view submitter.new.pass)) ≤ length (put_in (view submitter.old.pass)) + 1 }
{
    let Job { op, done, .. } = job;
    match submitter.submit(rt, queue, op, done) {
        Ok(number) => Submitted::Accepted(number),
        Err(full) => {
            let Full { op, done, depth } = full;
            let reply = reply_to(&op);
            let note = done.complete(reply);
            Submitted::Full { op, depth, note }
        }
    }
}

/// A worker's turn.
pub(crate) fn serve<R: Wait>(
    rt: &R,
    alloc: Global,
    queue: &BioQueue,
    sectors: &Sectors,
    worker: &mut Worker,
) -> Result<OneTurn, AllocError>
    requires queue { IsPassOf queue.now.queue worker.old.ticket }
    requires may { MayMake sectors.now worker.old.sectors worker.old.width 1 (stands_of worker.old.completed.items) worker.old.session }
    requires going { worker.old.cut ≡ None }
    requires done { IsFit (taken_in (view worker.old.ticket)) (λ b. fits_in worker.old.sectors worker.old.width b.op ≡ true)
        → IsDone (taken_in (view worker.old.ticket)) worker.old.completed.items worker.old.cut (λ b c. IsCompletedOf b.submitter b.number b.op worker.old.session.number c × ((r : AnyReply) × (r ≡ c.reply) × ⟦<Box<dyn FnOnce(OpReply) -> u64 + Send> as FnOnce(OpReply) -> u64>⟧.post b.done.call r c.note)) }
    ensures queue { IsSamePass worker.old.ticket worker.new.ticket }
    ensures same { (worker.new.party ≡ worker.old.party) × (worker.new.sectors ≡ worker.old.sectors) × (worker.new.width ≡ worker.old.width) × (worker.new.session.number ≡ worker.old.session.number) }
    ensures going { IfOk result (λ t. t ≢ turn.Off → worker.new.cut ≡ None) }
    ensures may { IfOk result (λ t. t ≢ turn.Off → (n : ℕ) → MayMake sectors.now worker.old.sectors worker.old.width (n + 1) (stands_of worker.old.completed.items) worker.old.session → MayMake sectors.now worker.old.sectors worker.old.width n (stands_of worker.new.completed.items) worker.new.session) }
    ensures made { IfOk result (λ _. HasMade sectors.now (stands_of worker.new.completed.items) worker.new.session) }
    ensures done { OnOk result (IsFit (taken_in (view worker.new.ticket)) (λ b. fits_in worker.new.sectors worker.new.width b.op ≡ true)
        → IsDone (taken_in (view worker.new.ticket)) worker.new.completed.items worker.new.cut (λ b c. IsCompletedOf b.submitter b.number b.op worker.new.session.number c × ((r : AnyReply) × (r ≡ c.reply) × ⟦<Box<dyn FnOnce(OpReply) -> u64 + Send> as FnOnce(OpReply) -> u64>⟧.post b.done.call r c.note))) }
{
    worker.reserve(alloc, 1)?;
    let waiting = Waiting { rt, gate: &NoGate };
    Ok(worker.serve_one(&waiting, queue, sectors))
}

/// What a party does.
#[derive(Drop)]
pub(crate) enum Step {
    Submit(Job),
    Serve,
}

/// What came of a step.
#[derive(Debug, Drop)]
pub(crate) enum Answer {
    Submit(Submitted),
    Serve(OneTurn),
}

/// A submitter and a worker, and what came of their steps.
#[derive(Drop)]
pub(crate) struct Party {
    pub(crate) submitter: Submitter,
    pub(crate) worker: Worker,
    pub(crate) answers: Vec<Answer>,
}

/// Makes the steps, the last one of the list first. It stops where power is off.
pub(crate) fn run_back<R: Wait>(
    rt: &R,
    alloc: Global,
    queue: &BioQueue,
    sectors: &Sectors,
    party: Party,
    mut steps: Vec<Step>,
) -> Result<Party, AllocError>
    requires submitter { IsPassOf queue.now.queue party.submitter.pass × (party.submitter.sectors ≡ 32478) × (party.submitter.width ≡ 64) }
    requires few { length (put_in (view party.submitter.pass)) + length steps.items ≤ 65536 }
    requires worker { IsPassOf queue.now.queue party.worker.ticket }
    requires may { MayMake sectors.now party.worker.sectors party.worker.width (length steps.items) (stands_of party.worker.completed.items) party.worker.session }
    requires going { party.worker.cut ≡ None }
    requires done { IsFit (taken_in (view party.worker.ticket)) (λ b. fits_in party.worker.sectors party.worker.width b.op ≡ true)
        → IsDone (taken_in (view party.worker.ticket)) party.worker.completed.items party.worker.cut (λ b c. IsCompletedOf b.submitter b.number b.op party.worker.session.number c × ((r : AnyReply) × (r ≡ c.reply) × ⟦<Box<dyn FnOnce(OpReply) -> u64 + Send> as FnOnce(OpReply) -> u64>⟧.post b.done.call r c.note)) }
    ensures submitter { IfOk result (λ p. IsPassOf queue.now.queue p.submitter.pass × (p.submitter.party ≡ party.submitter.party) × (p.submitter.sectors ≡ party.submitter.sectors) × (p.submitter.width ≡ party.submitter.width)) }
    ensures worker { IfOk result (λ p. IsPassOf queue.now.queue p.worker.ticket × (p.worker.party ≡ party.worker.party) × (p.worker.sectors ≡ party.worker.sectors) × (p.worker.width ≡ party.worker.width) × (p.worker.session.number ≡ party.worker.session.number)) }
    ensures made { IfOk result (λ p. HasMade sectors.now (stands_of p.worker.completed.items) p.worker.session) }
    ensures done { IfOk result (λ p. IsFit (taken_in (view p.worker.ticket)) (λ b. fits_in p.worker.sectors p.worker.width b.op ≡ true)
        → IsDone (taken_in (view p.worker.ticket)) p.worker.completed.items p.worker.cut (λ b c. IsCompletedOf b.submitter b.number b.op p.worker.session.number c × ((r : AnyReply) × (r ≡ c.reply) × ⟦<Box<dyn FnOnce(OpReply) -> u64 + Send> as FnOnce(OpReply) -> u64>⟧.post b.done.call r c.note))) }
{
    let Some(step) = steps.pop() else {
        return Ok(party);
    };
    let Party {
        mut submitter,
        mut worker,
        mut answers,
    } = party;
    match step {
        Step::Submit(job) => {
            let submitted = submit(rt, queue, &mut submitter, job);
            answers.push(Answer::Submit(submitted))?;
            let party = Party {
                submitter,
                worker,
                answers,
            };
            run_back(rt, alloc, queue, sectors, party, steps)
        }
        Step::Serve => {
            let turn = serve(rt, alloc, queue, sectors, &mut worker)?;
            answers.push(Answer::Serve(turn))?;
            let party = Party {
                submitter,
                worker,
                answers,
            };
            match turn {
                OneTurn::Off => Ok(party),
                _ => run_back(rt, alloc, queue, sectors, party, steps),
            }
        }
    }
}

/// A queue of two parties.
#[derive(Drop)]
pub(crate) struct Opened {
    pub(crate) queue: BioQueue,
    pub(crate) closer: BioCloser,
    pub(crate) first: Party,
    pub(crate) second: Party,
}

/// The two parties of a queue that was made.
pub(crate) fn seat(alloc: Global, opened: BioOpened) -> Result<Opened, AllocError>
    requires queue { (opened.queue.sectors ≡ 32478) × (opened.queue.width ≡ 64) }
    requires closer { IsPassOf opened.queue.queue opened.closer.maker × (view opened.closer.maker ≡ all_from 4) }
    requires passes { AreDealt opened.queue.queue 0 (map (λ s. s.pass) opened.submitters.items) }
    requires tickets { AreDealt opened.queue.queue 2 (map (λ w. w.ticket) opened.workers.items) }
    requires submitters { (k : ℕ) (s : _) → get_elem? opened.submitters.items k ≡ some s → (s.party ≡ k) × (s.sectors ≡ 32478) × (s.width ≡ 64) }
    requires workers { (k : ℕ) (w : _) → get_elem? opened.workers.items k ≡ some w → (w.party ≡ 2 + k) × (w.sectors ≡ 32478) × (w.width ≡ 64) × (w.completed.items ≡ []) × (w.cut ≡ None) }
    ensures queue { IfOk result (λ o. (o.queue.sectors ≡ 32478) × (o.queue.width ≡ 64)) }
    ensures closer { IfOk result (λ o. IsPassOf o.queue.queue o.closer.maker × (view o.closer.maker ≡ all_from 4)) }
    ensures sessions { IfOk result (λ o. map (λ w. w.session) opened.workers.items ≡ o.first.worker.session ∷ o.second.worker.session ∷ []) }
    ensures submitters { IfOk result (λ o. IsPassOf o.queue.queue o.first.submitter.pass × IsPassOf o.queue.queue o.second.submitter.pass
        × (view o.first.submitter.pass ≡ none_yet 0) × (view o.second.submitter.pass ≡ none_yet 1)
        × (o.first.submitter.party ≡ 0) × (o.first.submitter.sectors ≡ 32478) × (o.first.submitter.width ≡ 64)
        × (o.second.submitter.party ≡ 1) × (o.second.submitter.sectors ≡ 32478) × (o.second.submitter.width ≡ 64)) }
    ensures workers { IfOk result (λ o. IsPassOf o.queue.queue o.first.worker.ticket × IsPassOf o.queue.queue o.second.worker.ticket
        × (view o.first.worker.ticket ≡ none_yet 2) × (view o.second.worker.ticket ≡ none_yet 3)
        × (o.first.worker.party ≡ 2) × (o.first.worker.sectors ≡ 32478) × (o.first.worker.width ≡ 64) × (o.first.worker.completed.items ≡ []) × (o.first.worker.cut ≡ None)
        × (o.second.worker.party ≡ 3) × (o.second.worker.sectors ≡ 32478) × (o.second.worker.width ≡ 64) × (o.second.worker.completed.items ≡ []) × (o.second.worker.cut ≡ None)) }
{
    let BioOpened {
        queue,
        closer,
        submitters,
        workers,
    } = opened;
    let submitters = two_of(submitters)?;
    let workers = two_of(workers)?;
    let first = Party {
        submitter: submitters.0,
        worker: workers.0,
        answers: Vec::new(alloc),
    };
    let second = Party {
        submitter: submitters.1,
        worker: workers.1,
        answers: Vec::new(alloc),
    };
    Ok(Opened {
        queue,
        closer,
        first,
        second,
    })
}

/// Closes a queue of two parties.
pub(crate) fn close<R: Wait>(
    rt: &R,
    alloc: Global,
    queue: BioQueue,
    closer: BioCloser,
    first: Party,
    second: Party,
) -> Result<BioClosed, AllocError>
    requires queue { (queue.sectors ≡ 32478) × (queue.width ≡ 64) }
    requires closer { IsPassOf queue.queue closer.maker × (view closer.maker ≡ all_from 4) }
    requires submitters { IsPassOf queue.queue first.submitter.pass × IsPassOf queue.queue second.submitter.pass
        × (first.submitter.party ≡ 0) × (first.submitter.sectors ≡ 32478) × (first.submitter.width ≡ 64)
        × (second.submitter.party ≡ 1) × (second.submitter.sectors ≡ 32478) × (second.submitter.width ≡ 64) }
    requires workers { IsPassOf queue.queue first.worker.ticket × IsPassOf queue.queue second.worker.ticket
        × (first.worker.party ≡ 2) × (first.worker.sectors ≡ 32478) × (first.worker.width ≡ 64)
        × (second.worker.party ≡ 3) × (second.worker.sectors ≡ 32478) × (second.worker.width ≡ 64) }
    requires first { IsFit (taken_in (view first.worker.ticket)) (λ b. fits_in first.worker.sectors first.worker.width b.op ≡ true)
        → IsDone (taken_in (view first.worker.ticket)) first.worker.completed.items first.worker.cut (λ b c. IsCompletedOf b.submitter b.number b.op first.worker.session.number c × ((r : AnyReply) × (r ≡ c.reply) × ⟦<Box<dyn FnOnce(OpReply) -> u64 + Send> as FnOnce(OpReply) -> u64>⟧.post b.done.call r c.note)) }
    requires second { IsFit (taken_in (view second.worker.ticket)) (λ b. fits_in second.worker.sectors second.worker.width b.op ≡ true)
        → IsDone (taken_in (view second.worker.ticket)) second.worker.completed.items second.worker.cut (λ b c. IsCompletedOf b.submitter b.number b.op second.worker.session.number c × ((r : AnyReply) × (r ≡ c.reply) × ⟦<Box<dyn FnOnce(OpReply) -> u64 + Send> as FnOnce(OpReply) -> u64>⟧.post b.done.call r c.note)) }
    ensures sessions { IfOk result (λ c. c.sessions.items ≡ first.worker.session ∷ second.worker.session ∷ []) }
{
    let mut submitters = Vec::new(alloc);
    submitters.push(first.submitter)?;
    submitters.push(second.submitter)?;
    let mut workers = Vec::new(alloc);
    workers.push(first.worker)?;
    workers.push(second.worker)?;
    match queue.close(rt, alloc, closer, submitters, workers) {
        Ok(closed) => Ok(closed),
        Err(_) => Err(AllocError),
    }
}
