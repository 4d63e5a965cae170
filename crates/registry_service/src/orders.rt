//! A session's orders.
ghost use Rattle.std.specs.Prelude.{◌≡◌, false, Ok, None, OnErr};
ghost use Rattle.turn_lock.specs.Passes.{lock_id, number_of, out_of};
ghost use Rattle.turn_lock.specs.Passes.{IsSamePass, PartBecomes};
ghost use Rattle.session_account.specs.declared.reply.Reply.{Reply as Replied};
ghost use Rattle.session_account.specs.declared.reply.Reply.TheVariants as reply;
ghost use Rattle.session_account.specs.Made.{is_cut};
ghost use Rattle.registry_service.specs.Asking.{HasText};
ghost use Rattle.registry_service.specs.Parts.{IsOrdered, MayOrder, PartGoes, forgotten};
ghost use Rattle.lane_pool.specs.Parts.{CanAsk, IsTold, KeepsStopped};
ghost use Rattle.registry_service.specs.Switch.{IsCutShort};

use crate::served::ServedRegistry;
use crate::turns::{Ordered, order_in_turn};
use lane_pool::{LanePool, Pool, PowerOff, Who, go_off, is_off};
use session_account::Reply;
use session_script::Order;
use std::alloc::AllocError;
use std::sync::Wait;
use turn_lock::{Turn, TurnPass};

/// Whether a reply is that power was cut.
fn is_cut(reply: &Reply) -> bool
    ensures { result ≡ is_cut reply.now }
{
    matches!(reply, Reply::Cut)
}

/// Makes an order of a session, in one turn at the registry.
///
/// The order has the number `call` among the session's calls. First the session asks whether power
/// is off, and its reply is `Cut` if it is. Then come the checks: `IsOpen` for an `open` if the
/// session has a namespace open, `NotOpen` for a `close` if it has none. Then the registry carries
/// the command out, and an entry of the session stands with the answer. If the fuse ends in the
/// command, the session switches power off on the side of the labels, after the steps that the fuse
/// had at first, and the reply is `Cut`.
///
/// The one error is out of memory. Then no entry stands, what is open is as before, and one of the
/// session's room is gone. Conditions: the session has room for one entry more, and a name that the
/// order gives is UTF-8.
pub fn order<R: Wait>(
    rt: &R,
    turn: &Turn<ServedRegistry>,
    pass: &mut TurnPass<ServedRegistry>,
    pool: &LanePool,
    seat: &mut TurnPass<Pool>,
    call: u32,
    order: &Order,
) -> Result<Reply, AllocError>
    requires may { MayOrder (lock_id turn.now) pass.old }
    requires text { HasText order.now }
    requires can_ask { CanAsk (lock_id pool.now.turn) seat.old }
    ensures pass { IsSamePass pass.old pass.new × (out_of pass.new ≡ None) }
    ensures seat { IsSamePass seat.old seat.new × CanAsk (lock_id pool.now.turn) seat.new }
    ensures answered { (r : Replied) → result ≡ Ok r → is_cut r ≡ false → PartGoes (IsOrdered (number_of pass.old) call order.now r) pass.old pass.new × KeepsStopped seat.old seat.new }
    ensures cut { result ≡ Ok reply.Cut → IsCutShort (number_of pass.old) call order.now pass.old pass.new seat.old seat.new × IsTold seat.new }
    ensures memory { OnErr result (PartBecomes forgotten pass.old pass.new × KeepsStopped seat.old seat.new) }
{
    if is_off(rt, pool, seat) {
        return Ok(Reply::Cut);
    }
    let Ordered { reply, labelcut } = order_in_turn(rt, turn, pass, call, order)?;
    if is_cut(&reply) {
        let off = PowerOff {
            who: Who::Labels,
            steps: labelcut,
        };
        go_off(rt, pool, seat, off);
    }
    Ok(reply)
}
