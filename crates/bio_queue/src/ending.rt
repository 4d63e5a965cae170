//! How the desks of a queue are closed.
ghost use Rattle.std.specs.Prelude.{◌≡◌, ◌+◌, ◌≤◌, ℕ, [], ◌++◌, length, map, true, All, IfOk, vec_capacity};
ghost use mathlib.Core.Option.{some};
ghost use lib.ListN.{get_elem?};
ghost use Rattle.crossbeam_queue.specs.Passes.{view, IsPassOf};
ghost use Rattle.ticket_queue.specs.Law.{all_from};
ghost use Rattle.ticket_queue.specs.Parties.{taken_in};
ghost use Rattle.bio_queue.specs.declared.op.OpReply.{OpReply as AnyReply};
ghost use Rattle.bio_queue.specs.Ops.{fits_in};
ghost use Rattle.bio_queue.specs.Served.{IsAccountOf, IsCompletedOf, IsDone, IsFit};

use crate::closing::BioClosed;
use crate::desk::Desk;
use crate::op::OpReply;
use crate::queue::{BioCloser, BioQueue};
use crate::submitter::Submitter;
use crate::worker::Worker;
use std::alloc::{AllocError, Global};
use std::sync::Wait;

/// The submitters and the workers of desks, in order.
#[derive(Drop)]
struct Sides {
    submitters: Vec<Submitter>,
    workers: Vec<Worker>,
}

/// Empty lists with room for as many desks.
fn sides_for(alloc: Global, desks: usize) -> Result<Sides, AllocError>
    ensures submitters { IfOk result (λ r. (r.submitters.items ≡ []) × (desks ≤ vec_capacity r.submitters)) }
    ensures workers { IfOk result (λ r. (r.workers.items ≡ []) × (desks ≤ vec_capacity r.workers)) }
{
    Ok(Sides {
        submitters: Vec::with_capacity(alloc, desks)?,
        workers: Vec::with_capacity(alloc, desks)?,
    })
}

/// Takes the desks apart.
fn take_desks(mut sides: Sides, desks: Vec<Desk>) -> Sides
    requires submitters { (sides.submitters.items ≡ []) × (length desks.items ≤ vec_capacity sides.submitters) }
    requires workers { (sides.workers.items ≡ []) × (length desks.items ≤ vec_capacity sides.workers) }
    ensures submitters { result.submitters.items ≡ map (λ d. d.submitter) desks.items }
    ensures workers { result.workers.items ≡ map (λ d. d.worker) desks.items }
{
    for desk in desks {
        let Desk {
            submitter,
            worker,
            ..
        } = desk;
        sides.submitters.push_reserved(submitter);
        sides.workers.push_reserved(worker);
    }
    sides
}

/// Closes the queue of these desks, and takes out what nobody took.
///
/// Each operation that was accepted stands exactly once in what was taken and what is left
/// (`account`). Each that a worker took is completed, with a note that its callback promises, or was
/// cut (`done`).
///
/// The one refusal is out of memory. Then all is lost.
pub fn close_desks<R: Wait>(
    rt: &R,
    alloc: Global,
    queue: BioQueue,
    closer: BioCloser,
    desks: Vec<Desk>,
) -> Result<BioClosed, AllocError>
    requires submitters { All (λ d. IsPassOf queue.queue d.submitter.pass) desks.items }
    requires workers { All (λ d. IsPassOf queue.queue d.worker.ticket) desks.items }
    requires seats { (k : ℕ) (d : _) → get_elem? desks.items k ≡ some d
        → (d.submitter.party ≡ k) × (d.submitter.sectors ≡ queue.sectors) × (d.submitter.width ≡ queue.width)
        × (d.worker.party ≡ length desks.items + k) × (d.worker.sectors ≡ queue.sectors) × (d.worker.width ≡ queue.width) }
    requires closer { IsPassOf queue.queue closer.maker × (view closer.maker ≡ all_from (length desks.items + length desks.items)) }
    requires done { (k : ℕ) (d : _) → get_elem? desks.items k ≡ some d → IsFit (taken_in (view d.worker.ticket)) (λ b. fits_in d.worker.sectors d.worker.width b.op ≡ true)
        → IsDone (taken_in (view d.worker.ticket)) d.worker.completed.items d.worker.cut (λ b c. IsCompletedOf b.submitter b.number b.op d.worker.session.number c × ((r : AnyReply) × (r ≡ c.reply) × ⟦<Box<dyn FnOnce(OpReply) -> u64 + Send> as FnOnce(OpReply) -> u64>⟧.post b.done.call r c.note)) }
    ensures completed { IfOk result (λ r. r.completed.items ≡ map (λ d. d.worker.completed) desks.items) }
    ensures cut { IfOk result (λ r. r.cut.items ≡ map (λ d. d.worker.cut) desks.items) }
    ensures sessions { IfOk result (λ r. r.sessions.items ≡ map (λ d. d.worker.session) desks.items) }
    ensures account { IfOk result (λ r. IsAccountOf (map (λ d. view d.submitter.pass) desks.items ++ map (λ d. view d.worker.ticket) desks.items) r.left.items (λ b. b.number)) }
    ensures done { IfOk result (λ _. (k : ℕ) (d : _) → get_elem? desks.items k ≡ some d
        → IsDone (taken_in (view d.worker.ticket)) d.worker.completed.items d.worker.cut (λ b c. IsCompletedOf b.submitter b.number b.op d.worker.session.number c × ((r : AnyReply) × (r ≡ c.reply) × ⟦<Box<dyn FnOnce(OpReply) -> u64 + Send> as FnOnce(OpReply) -> u64>⟧.post b.done.call r c.note))) }
{
    let sides = sides_for(alloc, desks.len())?;
    let Sides {
        submitters,
        workers,
    } = take_desks(sides, desks);
    match queue.close(rt, alloc, closer, submitters, workers) {
        Ok(closed) => Ok(closed),
        Err(_) => Err(AllocError),
    }
}
