//! Asking for the power, and switching it off, by a caller who has a place at the switch.
ghost use Rattle.std.specs.Prelude.{IsTrue};
ghost use Rattle.turn_lock.specs.Passes.{lock_id, IsSamePass};
ghost use Rattle.turn_callers.specs.Switch.{CanAsk, HasStopped, IsTold, KeepsStopped};

use crate::desk::Desk;
use crate::switch::{ask_in_turn, stop_in_turn};
use std::sync::Wait;
use turn_lock::{Turn, TurnPass};

/// Returns whether power is off; then the pass knows that it was told. The switch must have a place
/// for the caller.
pub fn is_off<R: Wait>(rt: &R, power: &Turn<Desk>, switch: &mut TurnPass<Desk>) -> bool
    requires { CanAsk (lock_id power.now) switch.old }
    ensures same { IsSamePass switch.old switch.new }
    ensures can_ask { CanAsk (lock_id power.now) switch.new }
    ensures told { IsTrue result → IsTold switch.new }
    ensures stopped { KeepsStopped switch.old switch.new }
{
    match ask_in_turn(rt, power, switch) {
        Some(off) => off,
        None => unreachable!(),
    }
}

/// Switches power off, and is told so. The switch must have a place for the caller.
pub fn go_off<R: Wait>(rt: &R, power: &Turn<Desk>, switch: &mut TurnPass<Desk>)
    requires { CanAsk (lock_id power.now) switch.old }
    ensures same { IsSamePass switch.old switch.new }
    ensures can_ask { CanAsk (lock_id power.now) switch.new }
    ensures told { IsTold switch.new }
    ensures stopped { HasStopped switch.new }
{
    stop_in_turn(rt, power, switch);
    match ask_in_turn(rt, power, switch) {
        Some(true) => {}
        Some(false) | None => unreachable!(),
    }
}
