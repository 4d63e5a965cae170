//! The lock, and a caller's turns at it.
ghost use Rattle.std.specs.Prelude.{◌≡◌, ◌<◌, ◌≤◌, ◌^◌, true, false, length, sum, vec_len, None, IfOk, IsTrue, All};
ghost use Rattle.turn_lock.specs.Passes.{AreFresh, HasEach, IsOutside, IsSamePass, PartBecomes, callers_of, first_of, lock_id, out_of, part_of};
ghost use Rattle.lane_pool.specs.declared.sets.LaneSet.{LaneSet as Lanes};
ghost use Rattle.lane_pool.specs.declared.sets.PowerOff.{PowerOff as Off};
ghost use Rattle.lane_pool.specs.declared.turns.Taken.TheVariants as taken;
ghost use Rattle.lane_pool.specs.declared.pool.Offer.TheVariants as offer;
ghost use Rattle.lane_pool.specs.Parts.{Asks, CanAsk, HasPart, HasStopped, IsClosed, IsOn, IsTold, KeepsStopped, MayGive, MayStop, MayTake, NoneOut, PartGoes, Stops, Takes, given, told_of};
ghost use Rattle.lane_pool.specs.Pools.{fresh};
ghost use Rattle.lane_pool.specs.Sets.{IsReady};

use crate::pool::{Offer, Pool};
use crate::sets::{LaneSet, PowerOff};
use std::alloc::{AllocError, Global};
use std::sync::Wait;
use std::thread;
use turn_lock::{Turn, TurnPass};

/// What a caller that wants a set gets.
#[derive(Drop)]
pub enum Taken {
    Got(LaneSet),
    Off(PowerOff),
}

/// The pool behind its lock.
#[derive(Drop)]
pub struct LanePool {
    pub(crate) turn: Turn<Pool>,
    ghost few: { length (first_of turn).holders ≤ callers_of turn },
}

// A set that is at home, in one turn.
fn take_in_turn<R: Wait>(rt: &R, turn: &Turn<Pool>, pass: &mut TurnPass<Pool>) -> Offer
    requires outside { IsOutside (lock_id turn.now) pass.old }
    requires may { HasPart MayTake pass.old }
    ensures pass { IsSamePass pass.old pass.new }
    ensures outside { out_of pass.new ≡ None }
    ensures got { (s : Lanes) → result ≡ offer.Got s → PartGoes (Takes s) pass.old pass.new }
    ensures off { (p : Off) → result ≡ offer.Off p → PartBecomes (told_of p) pass.old pass.new }
    ensures nothing { result ≡ offer.Nothing → part_of pass.new ≡ part_of pass.old }
{
    let q = pass.number() as usize;
    let mut pool = turn.enter(rt, pass);
    let offer = pool.take(q);
    turn.leave(pass, pool);
    offer
}

impl LanePool {
    /// A pool of these sets, and a pass for each caller; caller q may make `entries[q]` calls.
    ///
    /// The one refusal is out of memory. Conditions: every lane is idle, and has room for all
    /// calls together.
    pub fn of(
        alloc: Global,
        sets: Vec<LaneSet>,
        entries: &[u32],
    ) -> Result<(LanePool, Vec<TurnPass<Pool>>), AllocError>
        requires few { length entries.now < 2 ^ 32 }
        requires total { sum entries.now < 2 ^ 64 }
        requires ready { All (IsReady (sum entries.now)) sets.items }
        ensures lock { IfOk result (λ r. (callers_of r.0.turn ≡ length entries.now) × (first_of r.0.turn ≡ fresh sets.items entries.now)) }
        ensures count { IfOk result (λ r. vec_len r.1 ≡ length entries.now) }
        ensures passes { IfOk result (λ r. AreFresh (lock_id r.0.turn) (fresh sets.items entries.now) r.1.items) }
    {
        let callers = entries.len() as u32;
        let pool = Pool::of(alloc, sets, entries)?;
        let (turn, passes) = Turn::of(alloc, pool, callers)?;
        Ok((LanePool { turn }, passes))
    }

    /// Waits for a set, and takes it. Power is off if it gets none.
    ///
    /// Only other callers that have sets out keep a caller waiting. The lanes are idle, and have
    /// room for all calls that the caller may still make.
    pub fn take<R: Wait>(&self, rt: &R, pass: &mut TurnPass<Pool>) -> Taken
        requires outside { IsOutside (lock_id self.now.turn) pass.old }
        requires may { HasPart MayTake pass.old }
        ensures pass { IsSamePass pass.old pass.new }
        ensures outside { out_of pass.new ≡ None }
        ensures got { (s : Lanes) → result ≡ taken.Got s → PartGoes (Takes s) pass.old pass.new }
        ensures off { (p : Off) → result ≡ taken.Off p → PartBecomes (told_of p) pass.old pass.new }
    {
        for _ in rt.forever() {
            match take_in_turn(rt, &self.turn, pass) {
                Offer::Got(set) => return Taken::Got(set),
                Offer::Off(off) => return Taken::Off(off),
                Offer::Nothing => thread::yield_now(),
            }
        }
        unreachable!()
    }

    /// Takes back the set that the caller has out, after `made` calls with it, no more than the
    /// caller could make. The lanes are idle, and have room for all calls that they had room for,
    /// but for these.
    pub fn give_back<R: Wait>(&self, rt: &R, pass: &mut TurnPass<Pool>, set: LaneSet, made: u64)
        requires outside { IsOutside (lock_id self.now.turn) pass.old }
        requires may { HasPart (MayGive made set) pass.old }
        ensures pass { IsSamePass pass.old pass.new }
        ensures outside { out_of pass.new ≡ None }
        ensures own { PartBecomes (given made) pass.old pass.new }
    {
        let q = pass.number() as usize;
        let mut pool = self.turn.enter(rt, pass);
        pool.give_back(q, set, made);
        self.turn.leave(pass, pool);
    }

    /// Switches power off for all, and takes back the set that the caller has out, whatever its
    /// lanes are doing. Returns the `PowerOff` of the first caller that called this, which stays.
    pub fn stop<R: Wait>(
        &self,
        rt: &R,
        pass: &mut TurnPass<Pool>,
        set: Option<LaneSet>,
        off: PowerOff,
    ) -> PowerOff
        requires outside { IsOutside (lock_id self.now.turn) pass.old }
        requires may { HasPart (MayStop set) pass.old }
        ensures pass { IsSamePass pass.old pass.new }
        ensures outside { out_of pass.new ≡ None }
        ensures own { PartGoes (Stops set off result) pass.old pass.new }
    {
        let q = pass.number() as usize;
        let mut pool = self.turn.enter(rt, pass);
        let first = pool.stop(q, set, off);
        self.turn.leave(pass, pool);
        first
    }

    /// Returns whether power is off. A caller that called `stop` is never told that it is on.
    pub fn power<R: Wait>(&self, rt: &R, pass: &mut TurnPass<Pool>) -> Option<PowerOff>
        requires outside { IsOutside (lock_id self.now.turn) pass.old }
        requires placed { HasPart (λ m. m.placed ≡ true) pass.old }
        ensures pass { IsSamePass pass.old pass.new }
        ensures outside { out_of pass.new ≡ None }
        ensures own { PartGoes (Asks result) pass.old pass.new }
    {
        let q = pass.number() as usize;
        let mut pool = self.turn.enter(rt, pass);
        let off = pool.power(q);
        self.turn.leave(pass, pool);
        off
    }

    /// Closes the pool: every set comes back, once, in the order in which they were given, and what
    /// was said of the power. The one refusal is out of memory.
    ///
    /// Every pass must be handed in, in any order. No caller may have a set out.
    pub fn close(
        self,
        alloc: Global,
        passes: Vec<TurnPass<Pool>>,
    ) -> Result<(Vec<LaneSet>, Option<PowerOff>), AllocError>
        requires passes { All (IsOutside (lock_id self.turn)) passes.items }
        requires every { HasEach (callers_of self.turn) passes.items }
        requires none { NoneOut passes.items }
        ensures closed { IfOk result (λ r. IsClosed (first_of self.turn).first passes.items r.0.items r.1) }
    {
        let LanePool { turn } = self;
        turn.close(passes).into_sets(alloc)
    }
}

/// Whether power is off, as the caller is told. All else that its pass knows is as it was.
pub fn is_off<R: Wait>(rt: &R, pool: &LanePool, pass: &mut TurnPass<Pool>) -> bool
    requires { CanAsk (lock_id pool.now.turn) pass.old }
    ensures same { IsSamePass pass.old pass.new }
    ensures can_ask { CanAsk (lock_id pool.now.turn) pass.new }
    ensures told { IsTrue result → IsTold pass.new }
    ensures on { result ≡ false → IsOn pass.new }
    ensures stopped { KeepsStopped pass.old pass.new }
{
    match pool.power(rt, pass) {
        Some(_) => true,
        None => false,
    }
}

/// Switches power off for a caller that has no set out and wasn't told that it is off. Returns the
/// `PowerOff` of the first caller that switched it off.
pub fn go_off<R: Wait>(
    rt: &R,
    pool: &LanePool,
    pass: &mut TurnPass<Pool>,
    off: PowerOff,
) -> PowerOff
    requires can_ask { CanAsk (lock_id pool.now.turn) pass.old }
    requires on { IsOn pass.old }
    ensures same { IsSamePass pass.old pass.new }
    ensures can_ask { CanAsk (lock_id pool.now.turn) pass.new }
    ensures told { IsTold pass.new }
    ensures stopped { HasStopped pass.new }
    ensures own { PartGoes (Stops None off result) pass.old pass.new }
{
    pool.stop(rt, pass, None, off)
}
