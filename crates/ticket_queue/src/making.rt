//! How a queue and its passes are made, and how a pass is handed in.
ghost use Rattle.std.specs.Prelude.{◌≡◌, ℕ, ◌<◌, ◌+◌, IfOk};
ghost use Rattle.crossbeam_queue.specs.Passes.{view, IsPassOf, IsSamePass, ruled_capacity};
ghost use Rattle.ticket_queue.specs.Law.{all_from, both, none_yet};

use crate::ends::{TicketPass, TicketQueue};
use crate::law::{Deal, Gather};
use std::alloc::{AllocError, Global};

/// An empty queue with room for `depth` tickets, and its maker, which has all parties.
///
/// The one refusal is out of memory, also if `depth` is 2^60 or more.
pub fn new_queue<T>(
    alloc: Global,
    depth: usize,
) -> Result<(TicketQueue<T>, TicketPass<T>), AllocError>
    requires { 0 < depth }
    ensures depth { IfOk result (λ q. ruled_capacity q.0 ≡ depth) }
    ensures pass { IfOk result (λ q. IsPassOf q.0 q.1) }
    ensures all { IfOk result (λ q. view q.1 ≡ all_from 0) }
{
    TicketQueue::ruled(alloc, depth)
}

/// Makes the next party's pass.
pub(crate) fn next_party<T>(queue: &TicketQueue<T>, maker: &mut TicketPass<T>) -> TicketPass<T>
    requires queue { IsPassOf queue.now maker.old }
    requires maker { (k : ℕ) × (view maker.old ≡ all_from k) }
    ensures queue { IsSamePass maker.old maker.new × IsPassOf queue.now result }
    ensures next { (k : ℕ) → view maker.old ≡ all_from k → (view maker.new ≡ all_from (k + 1)) × (view result ≡ none_yet k) }
{
    queue.another::<Deal>(maker)
}

/// Hands a pass in: the keeper knows what both knew.
pub(crate) fn gather<T>(queue: &TicketQueue<T>, keeper: &mut TicketPass<T>, pass: TicketPass<T>)
    requires queue { IsPassOf queue.now keeper.old × IsPassOf queue.now pass }
    ensures queue { IsSamePass keeper.old keeper.new }
    ensures knows { view keeper.new ≡ both (view keeper.old) (view pass) }
{
    queue.absorb::<Gather>(keeper, pass);
}
