//! One turn at the registry.
ghost use Rattle.std.specs.Prelude.{◌≡◌, None, IfOk, OnErr};
ghost use Rattle.turn_lock.specs.Passes.{lock_id, number_of, out_of};
ghost use Rattle.turn_lock.specs.Passes.{IsSamePass, PartBecomes};
ghost use Rattle.registry_service.specs.Asking.{HasText};
ghost use Rattle.registry_service.specs.Parts.{GivesBack, IsOrdered, MayOrder, PartGoes, forgotten};
ghost use Rattle.registry_service.specs.Switch.{LastsFor};

use crate::served::ServedRegistry;
use nvd_words::Tag;
use session_account::Reply;
use session_script::Order;
use std::alloc::AllocError;
use std::sync::Wait;
use turn_lock::{Turn, TurnPass};

/// What an order came to in its turn.
#[derive(Drop)]
pub(crate) struct Ordered {
    pub(crate) reply: Reply,
    /// After how many steps on labels power is cut; 0 if it never is.
    pub(crate) labelcut: u64,
}

/// Makes an order in the session's turn.
pub(crate) fn order_in_turn<R: Wait>(
    rt: &R,
    turn: &Turn<ServedRegistry>,
    pass: &mut TurnPass<ServedRegistry>,
    call: u32,
    order: &Order,
) -> Result<Ordered, AllocError>
    requires may { MayOrder (lock_id turn.now) pass.old }
    requires text { HasText order.now }
    ensures pass { IsSamePass pass.old pass.new }
    ensures outside { out_of pass.new ≡ None }
    ensures ordered { IfOk result (λ r. PartGoes (IsOrdered (number_of pass.old) call order.now r.reply) pass.old pass.new) }
    ensures labelcut { IfOk result (λ r. LastsFor r.labelcut pass.old) }
    ensures memory { OnErr result (PartBecomes forgotten pass.old pass.new) }
{
    let session = pass.number();
    let mut registry = turn.enter(rt, pass);
    let labelcut = registry.labelcut();
    let reply = registry.order(Tag { session, call }, order);
    turn.leave(pass, registry);
    Ok(Ordered {
        reply: reply?,
        labelcut,
    })
}

/// Gives back what a session has open at its end, in its turn.
///
/// The call has the number `call`, the count of the session's calls, and the session has room for
/// it. It is made also if power is off. If its answer is that power was cut, what is open stays
/// claimed.
pub fn give_back<R: Wait>(
    rt: &R,
    turn: &Turn<ServedRegistry>,
    pass: &mut TurnPass<ServedRegistry>,
    call: u32,
)
    requires may { MayOrder (lock_id turn.now) pass.old }
    ensures pass { IsSamePass pass.old pass.new }
    ensures outside { out_of pass.new ≡ None }
    ensures given { PartGoes (GivesBack (number_of pass.old) call) pass.old pass.new }
{
    let session = pass.number();
    let mut registry = turn.enter(rt, pass);
    registry.give_back(Tag { session, call });
    turn.leave(pass, registry);
}
