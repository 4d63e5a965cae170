//! What a session does: its orders, one after another.
ghost use Rattle.std.specs.Prelude.{◌≡◌, ◌<◌, length, map};
ghost use Rattle.turn_lock.specs.Passes.{lock_id};
ghost use Rattle.turn_callers.specs.Orders.{AreWithin};
ghost use Rattle.turn_callers.specs.Seats.{HasSeats, Ordered};
ghost use Rattle.turn_callers.specs.Sessions.{IsReady, IsDone};

use crate::order::ShelfOrder;
use crate::register::Register;
use crate::session::ShelfSession;
use crate::turns::make_in_turn;
use std::sync::Wait;
use turn_lock::{Turn, TurnPass};

// Makes an order at its register.
fn make_order<R: Wait>(
    rt: &R,
    turns: &[Turn<Register>],
    passes: &mut Vec<TurnPass<Register>>,
    order: ShelfOrder,
) -> u64
    requires place { order.place < length turns.now }
    requires seats { HasSeats (map lock_id turns.now) passes.old.items }
    ensures { Ordered (map lock_id turns.now) order result passes.old.items passes.new.items }
{
    let at = order.place as usize;
    let turn = &turns[at];
    let pass = &mut passes[at];
    make_in_turn(rt, turn, pass, order.call)
}

// Makes the orders of a script.
pub(crate) fn run_session<R: Wait>(
    rt: &R,
    turns: &[Turn<Register>],
    orders: &[ShelfOrder],
    session: &mut ShelfSession,
)
    requires places { AreWithin (length turns.now) orders.now }
    requires ready { IsReady (map lock_id turns.now) orders.now session.old }
    ensures number { session.new.number ≡ session.old.number }
    ensures done { IsDone (map lock_id turns.now) orders.now session.new }
{
    let ShelfSession {
        passes,
        replies,
        ..
    } = session;
    for order in orders {
        replies.push_reserved(make_order(rt, turns, passes, *order));
    }
}
