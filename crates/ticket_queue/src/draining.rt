//! How what is left is taken out, once all passes are handed in.
ghost use Rattle.std.specs.Prelude.{◌≡◌, ◌+◌, ◌<◌, ◌≤◌, true, [], ◌++◌, length, vec_len, vec_capacity};
ghost use Rattle.crossbeam_queue.specs.Passes.{view, IsPassOf, ruled_capacity};
ghost use Rattle.ticket_queue.specs.Law.{Learned, IsComplete};

use crate::ends::{TicketPass, TicketQueue};
use crate::law::{LeavesFirst, LeavesNext};
use crate::ticket::Ticket;
use std::sync::Wait;

/// Takes out all that the queue holds, in order. The keeper has the hands of all parties.
pub(crate) fn drain<T: Drop, R: Wait>(
    rt: &R,
    queue: &TicketQueue<T>,
    mut keeper: TicketPass<T>,
    mut left: Vec<Ticket<T>>,
) -> Vec<Ticket<T>>
    requires queue { IsPassOf queue.now keeper }
    requires all { IsComplete (view keeper) }
    requires room { (left.items ≡ []) × (ruled_capacity queue.now < vec_capacity left) }
    ensures { Learned (view keeper) result.items }
{
    let Some(first) = queue.pop_as::<LeavesFirst, R>(rt, &mut keeper) else {
        return left;
    };
    left.push_reserved(first);
    queue.len_as::<LeavesNext, R>(rt, &mut keeper);
    drain_rest(rt, queue, keeper, left)
}

/// Takes out the rest, of which the keeper is sure.
fn drain_rest<T: Drop, R: Wait>(
    rt: &R,
    queue: &TicketQueue<T>,
    mut keeper: TicketPass<T>,
    mut left: Vec<Ticket<T>>,
) -> Vec<Ticket<T>>
    requires queue { IsPassOf queue.now keeper }
    requires sure { (view keeper).sure ≡ true }
    requires room { vec_len left + length (view keeper).known ≤ vec_capacity left }
    ensures { result.items ≡ left.items ++ (view keeper).known }
{
    for _ in rt.forever() {
        let Some(next) = queue.pop_as::<LeavesNext, R>(rt, &mut keeper) else {
            return left;
        };
        left.push_reserved(next);
    }
    unreachable!()
}
