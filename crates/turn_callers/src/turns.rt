//! One turn at a register.
ghost use Rattle.std.specs.Prelude.{◌≡◌, ◌<◌, None, IsSomeAnd};
ghost use Rattle.turn_lock.specs.Passes.{lock_id, number_of, part_of, out_of};
ghost use Rattle.turn_lock.specs.Passes.{IsSamePass, IsOutside, PartBecomes};
ghost use Rattle.turn_callers.specs.Replay.{entry};
ghost use Rattle.turn_callers.specs.Shares.{with_entry};

use crate::register::{Register, RegisterCall};
use std::sync::Wait;
use turn_lock::{Turn, TurnPass};

/// Makes a call in the caller's turn. Whatever others did, the caller's part has one entry more,
/// this call with its reply, and room for one less.
pub fn make_in_turn<R: Wait>(
    rt: &R,
    turn: &Turn<Register>,
    pass: &mut TurnPass<Register>,
    call: RegisterCall,
) -> u64
    requires outside { IsOutside (lock_id turn.now) pass.old }
    requires room { IsSomeAnd (part_of pass.old) (λ p. 0 < p.room) }
    ensures pass { IsSamePass pass.old pass.new }
    ensures outside { out_of pass.new ≡ None }
    ensures part { PartBecomes (λ s. with_entry s (entry (number_of pass.old) call result)) pass.old pass.new }
{
    let by = pass.number();
    let mut register = turn.enter(rt, pass);
    let reply = register.make(by, call);
    turn.leave(pass, register);
    reply
}
