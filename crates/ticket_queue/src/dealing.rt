//! How the passes of all parties are made, and how the queue is closed.
ghost use Rattle.std.specs.Prelude.{◌≡◌, ◌<◌, [], ◌++◌, length, map, All, IfOk, OnOk, OnErr, vec_capacity};
ghost use Rattle.crossbeam_queue.specs.Passes.{view, IsPassOf, IsSamePass, ruled_capacity};
ghost use Rattle.ticket_queue.specs.Law.{all_from};
ghost use Rattle.ticket_queue.specs.Parties.{AreNew, AreHands, hands_of, IsOrder};

use crate::draining::drain;
use crate::ends::{TicketPass, TicketQueue};
use crate::making::{gather, next_party};
use crate::ticket::Ticket;
use std::alloc::{AllocError, Global};
use std::sync::Wait;

/// Makes the passes of the first `count` parties, in order. The later parties stay with the maker.
///
/// The one refusal is out of memory. Then no pass was made, and the maker still has all parties.
pub fn deal<T>(
    alloc: Global,
    queue: &TicketQueue<T>,
    maker: &mut TicketPass<T>,
    count: u32,
) -> Result<Vec<TicketPass<T>>, AllocError>
    requires queue { IsPassOf queue.now maker.old }
    requires maker { view maker.old ≡ all_from 0 }
    ensures queue { IsSamePass maker.old maker.new }
    ensures maker { OnOk result (view maker.new ≡ all_from count) }
    ensures refused { OnErr result (view maker.new ≡ view maker.old) }
    ensures count { IfOk result (λ v. length v.items ≡ count) }
    ensures passes { IfOk result (λ v. All (λ p. IsPassOf queue.now p) v.items) }
    ensures new { IfOk result (λ v. AreNew (map view v.items)) }
{
    let mut passes = Vec::with_capacity(alloc, count as usize)?;
    for _ in 0..count {
        passes.push_reserved(next_party(queue, maker));
    }
    Ok(passes)
}

/// Hands in these passes, in order.
fn gather_all<T>(
    queue: &TicketQueue<T>,
    mut keeper: TicketPass<T>,
    passes: Vec<TicketPass<T>>,
) -> TicketPass<T>
    requires queue { IsPassOf queue.now keeper }
    requires passes { All (λ p. IsPassOf queue.now p) passes.items }
    ensures queue { IsPassOf queue.now result }
    ensures knows { (view result).hands ≡ (view keeper).hands ++ hands_of (map view passes.items) }
{
    for pass in passes {
        gather(queue, &mut keeper, pass);
    }
    keeper
}

/// Closes the queue: hands the passes of all parties in to the maker, and takes out what is left,
/// in order, into `left`. It takes no memory.
///
/// `left` has to be empty, with room for one ticket more than the queue has: the rule doesn't bound
/// what the queue holds. Only when the first ticket is out is the maker sure of the rest, whose
/// number the queue then tells.
pub fn finish<T: Drop, R: Wait>(
    rt: &R,
    queue: &TicketQueue<T>,
    maker: TicketPass<T>,
    passes: Vec<TicketPass<T>>,
    left: Vec<Ticket<T>>,
) -> Vec<Ticket<T>>
    requires queue { IsPassOf queue.now maker }
    requires passes { All (λ p. IsPassOf queue.now p) passes.items }
    requires maker { view maker ≡ all_from (length passes.items) }
    requires each { AreHands (map view passes.items) }
    requires room { (left.items ≡ []) × (ruled_capacity queue.now < vec_capacity left) }
    ensures { IsOrder (map view passes.items) result.items }
{
    let keeper = gather_all(queue, maker, passes);
    drain(rt, queue, keeper, left)
}
