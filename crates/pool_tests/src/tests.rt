ghost use Rattle.std.specs.Prelude.{◌≡◌, ◌<◌, ◌≤◌, ℕ, All, IfOk, length, None};
ghost use Rattle.turn_lock.specs.Passes.{lock_id, out_of, IsOutside, IsSamePass};
ghost use Rattle.lane_pool.specs.Parts.{HasPart};
ghost use Rattle.lane_pool.specs.Sets.{IsReady};
ghost use Rattle.pool_tests.specs.Callers.{AreOf, HasPlace, HasTurns, IsOf};

use lane_pool::{LanePool, LaneSet, Pool, PowerOff, Taken, Who};
use std::alloc::{AllocError, Global};
use std::sync::Wait;
use std::test::Fail;
use std::thread;
use std::thread::Threads;
use turn_lock::TurnPass;

/// How often each caller takes a set.
const TURNS: u32 = 20_000;

/// What caller 0 says of the power.
const OFF: PowerOff = PowerOff {
    who: Who::Labels,
    steps: 7,
};

/// Sets without lanes.
fn empty_sets(alloc: Global, count: u32) -> Result<Vec<LaneSet>, AllocError>
    ensures { IfOk result (λ v. (n : ℕ) → All (IsReady n) v.items) }
{
    let mut sets = Vec::new(alloc);
    for number in 0..count {
        sets.push(LaneSet {
            number,
            ends: Vec::new(alloc),
        })?;
    }
    Ok(sets)
}

/// Takes a set and gives it back after one call, so often.
fn take_turns<R: Wait>(rt: &R, pool: &LanePool, pass: &mut TurnPass<Pool>, turns: u32)
    requires outside { IsOutside (lock_id pool.now.turn) pass.old }
    requires may { HasPart (HasTurns turns) pass.old }
    ensures pass { IsSamePass pass.old pass.new }
    ensures outside { out_of pass.new ≡ None }
    ensures place { HasPart HasPlace pass.new }
{
    for _turn in 0..turns {
        match pool.take(rt, pass) {
            Taken::Got(set) => pool.give_back(rt, pass, set, 1),
            Taken::Off(_) => return,
        }
    }
}

/// Waits until the caller is told that power is off.
fn wait_until_off<R: Wait>(rt: &R, pool: &LanePool, pass: &mut TurnPass<Pool>)
    requires outside { IsOutside (lock_id pool.now.turn) pass.old }
    requires place { HasPart HasPlace pass.old }
    ensures pass { IsSamePass pass.old pass.new }
    ensures outside { out_of pass.new ≡ None }
    ensures place { HasPart HasPlace pass.new }
{
    for _ in rt.forever() {
        if pool.power(rt, pass).is_some() {
            return;
        }
        thread::yield_now();
    }
}

/// Caller q's turns. At their end caller 0 switches power off, and each waits until it is told so.
#[tactic(auto, using(crate::proofs::Turns::may_stop, crate::proofs::Turns::stopped_place))]
fn run_caller<R: Wait>(rt: &R, pool: &LanePool, q: usize, pass: &mut TurnPass<Pool>)
    requires { IsOf (lock_id pool.now.turn) (HasTurns 20000) q pass.old }
    ensures { IsOf (lock_id pool.now.turn) HasPlace q pass.new }
{
    take_turns(rt, pool, pass, TURNS);
    if q == 0 {
        pool.stop(rt, pass, None, OFF);
    }
    wait_until_off(rt, pool, pass);
}

/// All callers at once.
fn run_callers<R: Threads + Wait + Sync>(rt: &R, pool: &LanePool, passes: &mut [TurnPass<Pool>])
    requires may { AreOf (lock_id pool.now.turn) (HasTurns 20000) passes.old }
    ensures count { length passes.new ≡ length passes.old }
    ensures place { AreOf (lock_id pool.now.turn) HasPlace passes.new }
{
    thread::for_each_mut(
        rt,
        passes,
        2,
        &|q, pass|
            requires { IsOf (lock_id pool.now.turn) (HasTurns 20000) q pass.now }
            ensures { IsOf (lock_id pool.entry.now.turn) HasPlace q pass.exit.now }
        { run_caller(rt, pool, q, pass) },
    );
}

/// The same, for a `Vec` of passes.
fn run_all<R: Threads + Wait + Sync>(
    rt: &R,
    pool: &LanePool,
    mut passes: Vec<TurnPass<Pool>>,
) -> Vec<TurnPass<Pool>>
    requires may { AreOf (lock_id pool.now.turn) (HasTurns 20000) passes.items }
    ensures count { length result.items ≡ length passes.items }
    ensures place { AreOf (lock_id pool.now.turn) HasPlace result.items }
{
    run_callers(rt, pool, passes.as_mut_slice());
    passes
}

/// With one set, two threads wait for each other. Both are told of the power, or they wouldn't end.
#[test]
fn one_set_goes_from_thread_to_thread(rt: HostRuntime) -> Result<(), Fail> {
    let alloc = rt.alloc();
    let sets = empty_sets(alloc, 1)?;
    let (pool, passes) = LanePool::of(alloc, sets, &[TURNS, TURNS])?;
    let passes = run_all(&rt, &pool, passes);
    let (sets, off) = pool.close(alloc, passes)?;
    assert!(rt; sets.len() == 1 && off == Some(OFF));
    Ok(())
}

/// The second of two calls of `stop` is told the first one's `PowerOff`, and no set goes out then.
#[test]
fn the_first_power_off_stays(rt: HostRuntime) -> Result<(), Fail> {
    let alloc = rt.alloc();
    let sets = empty_sets(alloc, 2)?;
    let (pool, mut passes) = LanePool::of(alloc, sets, &[1, 1])?;
    let later = PowerOff {
        who: Who::Session(1),
        steps: 3,
    };
    assert!(rt; pool.stop(&rt, &mut passes[0], None, OFF) == OFF);
    assert!(rt; pool.stop(&rt, &mut passes[1], None, later) == OFF);
    assert!(rt; matches!(pool.take(&rt, &mut passes[0]), Taken::Off(OFF)));
    Ok(())
}
