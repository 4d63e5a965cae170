//! The power switch behind a lock: turns at it, waiting for a condition, and a fact about several
//! callers.
ghost use Rattle.std.specs.Prelude.{◌≡◌, ◌≢◌, true, false, length, Some, None, IsTrue, IsSomeAnd, All};
ghost use Rattle.turn_lock.specs.Passes.{lock_id, callers_of, first_of, part_of, out_of};
ghost use Rattle.turn_lock.specs.Passes.{IsSamePass, IsOutside, PartBecomes, AreInOrder};
ghost use Rattle.turn_callers.specs.Power.{mine};
ghost use Rattle.turn_callers.specs.Stops.{OneTold, OneStopped, NoOtherStopped};

use crate::desk::Desk;
use std::sync::Wait;
use std::thread;
use turn_lock::{Turn, TurnPass};

/// Switches power off. It returns false if the desk has no place for the caller.
pub fn stop_in_turn<R: Wait>(rt: &R, turn: &Turn<Desk>, pass: &mut TurnPass<Desk>) -> bool
    requires outside { IsOutside (lock_id turn.now) pass.old }
    ensures pass { IsSamePass pass.old pass.new }
    ensures outside { out_of pass.new ≡ None }
    ensures stopped { IsTrue result → PartBecomes (λ m. mine m.placed true m.told) pass.old pass.new }
    ensures placed { IsSomeAnd (part_of pass.old) (λ m. m.placed ≡ true) → IsTrue result }
{
    let q = pass.number() as usize;
    let mut desk = turn.enter(rt, pass);
    let stopped = desk.stop(q);
    turn.leave(pass, desk);
    stopped
}

/// Returns whether power is off, or `None` if the desk has no place for the caller. A caller that
/// stopped the power itself is never told that it is on.
#[tactic(auto, using(crate::proofs::Any::any_at))]
pub fn ask_in_turn<R: Wait>(rt: &R, turn: &Turn<Desk>, pass: &mut TurnPass<Desk>) -> Option<bool>
    requires outside { IsOutside (lock_id turn.now) pass.old }
    ensures pass { IsSamePass pass.old pass.new }
    ensures outside { out_of pass.new ≡ None }
    ensures told { result ≡ Some true → PartBecomes (λ m. mine m.placed m.stopped true) pass.old pass.new }
    ensures placed { IsSomeAnd (part_of pass.old) (λ m. m.placed ≡ true) → result ≢ None }
    ensures own { IsSomeAnd (part_of pass.old) (λ m. m.stopped ≡ true) → result ≢ Some false }
    ensures not_told { result ≡ Some false → part_of pass.new ≡ part_of pass.old }
{
    let q = pass.number() as usize;
    let mut desk = turn.enter(rt, pass);
    let answer = desk.ask(q);
    turn.leave(pass, desk);
    answer
}

/// Asks until power is off. It returns false if the desk has no place for the caller.
///
/// A turn is no condition variable: a wait for a condition is one turn after another, and others
/// take theirs in between.
pub fn wait_for_off<R: Wait>(rt: &R, turn: &Turn<Desk>, pass: &mut TurnPass<Desk>) -> bool
    requires outside { IsOutside (lock_id turn.now) pass.old }
    ensures pass { IsSamePass pass.old pass.new }
    ensures outside { out_of pass.new ≡ None }
    ensures told { IsTrue result → PartBecomes (λ m. mine m.placed m.stopped true) pass.old pass.new }
    ensures placed { IsSomeAnd (part_of pass.old) (λ m. m.placed ≡ true) → IsTrue result }
{
    for _ in rt.forever() {
        match ask_in_turn(rt, turn, pass) {
            Some(true) => return true,
            Some(false) => thread::yield_now(),
            None => return false,
        }
    }
    unreachable!()
}

/// Closes the lock. If some pass says that its caller was told that power is off, some pass says
/// that its caller stopped it.
///
/// The passes must be in the order of their callers. When the lock was made, nobody but its callers
/// may have stopped the power.
pub fn finish(turn: Turn<Desk>, passes: Vec<TurnPass<Desk>>) -> Desk
    requires passes { All (λ p. IsOutside (lock_id turn) p) passes.items }
    requires count { length passes.items ≡ callers_of turn }
    requires order { AreInOrder passes.items }
    requires first { NoOtherStopped (callers_of turn) (first_of turn) }
    ensures { OneTold passes.items → OneStopped passes.items }
{
    turn.close(passes)
}
