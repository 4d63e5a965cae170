//! Work in threads: each thread has an item of its own, and makes its steps until there is none
//! more. What threads share is only read.
//!
//! What a step keeps is abstract here. So a closure that a thread runs needs no clause that names a
//! callback.
ghost use Rattle.std.specs.Prelude.{◌<◌, All};
ghost use Rattle.bio_queue.specs.Lists.{AreChanged};

use std::alloc::Global;
use std::sync::Wait;
use std::thread;
use std::thread::Threads;

/// Work at an item, step by step.
pub trait Shift<Q, S> {
    /// It may make a step.
    ghost may: { Q → S → Self → Type 0 };

    /// What stayed the same, and what was done since.
    ghost since: { Self → Self → Type 0 };

    /// Makes a step, and answers whether there is one more.
    fn step<R: Wait>(&mut self, rt: &R, alloc: Global, queue: &Q, sectors: &S) -> bool
        requires { may queue.now sectors.now self.old }
        ensures may { may queue.now sectors.now self.new }
        ensures since { since self.old self.new };

    ghost begins: { (x : Self) → since x x };

    ghost goes_on: { (x y z : Self) → since x y → since y z → since x z };
}

/// Makes all steps at an item.
fn make_steps<Q, S, W: Shift<Q, S>, R: Wait>(
    rt: &R,
    alloc: Global,
    queue: &Q,
    sectors: &S,
    item: &mut W,
)
    requires { W.may queue.now sectors.now item.old }
    ensures may { W.may queue.now sectors.now item.new }
    ensures since { W.since item.old item.new }
{
    for _ in rt.forever() {
        if !item.step(rt, alloc, queue, sectors) {
            break;
        }
    }
}

/// Makes all steps at all items, in at most `threads` threads.
pub(crate) fn run_all<Q: Sync, S: Sync, W: Shift<Q, S> + Send, R: Threads + Wait + Sync>(
    rt: &R,
    alloc: Global,
    queue: &Q,
    sectors: &S,
    threads: usize,
    items: &mut [W],
)
    requires threads { 0 < threads }
    requires may { All (λ x. W.may queue.now sectors.now x) items.old }
    ensures may { All (λ x. W.may queue.now sectors.now x) items.new }
    ensures since { AreChanged items.old items.new W.since }
{
    let each = |_: usize, item: &mut W|
        requires { W.may queue.now sectors.now item.now }
        ensures may { W.may queue.entry.now sectors.entry.now item.exit.now }
        ensures since { W.since item.entry.now item.exit.now }
    { make_steps(rt, alloc, queue, sectors, item) };
    thread::for_each_mut(rt, items, threads, &each);
}
