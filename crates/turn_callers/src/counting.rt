//! Many callers at one tally.
ghost use Rattle.std.specs.Prelude.{◌≡◌, ℕ, ◌*◌, ◌^◌, ◌<◌, length, None, IfOk, IsSomeAnd};
ghost use Rattle.turn_lock.specs.Passes.{lock_id, part_of, out_of, IsSamePass, IsOutside};
ghost use Rattle.turn_callers.specs.Counters.{HaveLeft};

use crate::tally::Tally;
use std::alloc::{AllocError, Global};
use std::sync::Wait;
use std::thread;
use std::thread::Threads;
use turn_lock::{Turn, TurnPass};

// After this many turns, a caller lets others run.
const RUN: u64 = 1024;

/// Takes all turns that the caller has left.
pub fn take_turns<R: Wait>(rt: &R, turn: &Turn<Tally>, pass: &mut TurnPass<Tally>, turns: u64)
    requires outside { IsOutside (lock_id turn.now) pass.old }
    requires left { IsSomeAnd (part_of pass.old) (λ s. s.left ≡ turns) }
    ensures pass { IsSamePass pass.old pass.new }
    ensures outside { out_of pass.new ≡ None }
    ensures left { IsSomeAnd (part_of pass.new) (λ s. s.left ≡ 0) }
{
    let by = pass.number() as usize;
    for i in 0..turns {
        let mut tally = turn.enter(rt, pass);
        tally.count(by);
        turn.leave(pass, tally);
        if i % RUN == RUN - 1 {
            thread::yield_now();
        }
    }
}

// Each caller takes all its turns.
fn count_all<R: Threads + Wait + Sync>(
    rt: &R,
    turn: &Turn<Tally>,
    turns: u64,
    workers: usize,
    passes: &mut [TurnPass<Tally>],
)
    requires workers { 0 < workers }
    requires full { HaveLeft (lock_id turn.now) turns passes.old }
    ensures count { length passes.new ≡ length passes.old }
    ensures empty { HaveLeft (lock_id turn.now) 0 passes.new }
{
    thread::for_each_mut(
        rt,
        passes,
        workers,
        &|_, pass| take_turns(rt, turn, pass, turns),
    );
}

// The same, for a `Vec` of passes.
fn count_each<R: Threads + Wait + Sync>(
    rt: &R,
    turn: &Turn<Tally>,
    turns: u64,
    workers: usize,
    mut passes: Vec<TurnPass<Tally>>,
) -> Vec<TurnPass<Tally>>
    requires workers { 0 < workers }
    requires full { HaveLeft (lock_id turn.now) turns passes.items }
    ensures count { length result.items ≡ length passes.items }
    ensures empty { HaveLeft (lock_id turn.now) 0 result.items }
{
    count_all(rt, turn, turns, workers, passes.as_mut_slice());
    passes
}

/// Lets `callers` callers take `each` turns each, in at most `workers` threads. The tally has
/// counted every turn once.
pub fn count_turns<R: Threads + Wait + Sync>(
    rt: &R,
    alloc: Global,
    callers: u32,
    each: u64,
    workers: usize,
) -> Result<Tally, AllocError>
    requires workers { 0 < workers }
    requires few { callers * each < 2 ^ 64 }
    ensures { IfOk result (λ t. t.turns ≡ callers * each) }
{
    let tally = Tally::new(alloc, callers, each)?;
    let (turn, passes) = Turn::of(alloc, tally, callers)?;
    let passes = count_each(rt, &turn, each, workers, passes);
    Ok(turn.close(passes))
}
