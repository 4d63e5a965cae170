//! Work on each item of a list, in threads that one thread starts.
//!
//! The list is cut into chunks, one for each thread. The calling thread starts a thread for the first
//! chunk, then one for the next, and works on the last chunk itself:
//!
//! ```text
//!   calling thread   start 1 ─ start 2 ─ start 3 ─ chunk 4 ──── join 3 ─ join 2 ─ join 1
//!                        └─ chunk 1  └─ chunk 2  └─ chunk 3
//! ```
ghost use Rattle.std.specs.Prelude.{◌≡◌, ◌+◌, ◌^◌, ◌<◌, length};
ghost use Rattle.std.specs.Fork.{AcceptsAt, AcceptsEach, ChangesAt, ChangesEach};
ghost use Rattle.session_service.specs.Chunks.{EachChangesFrom, EachFrom};
ghost use denote.Param.Send.{IsSend, IsSync};

use std::thread::{Threads, join_mut};

/// Calls f(i, &mut items[i]) at each place, in at most `threads` threads, this one among them.
///
/// It isn't `std::thread::for_each_mut`, which halves the list at each step: a thread that was itself
/// just started then starts a further one, which Linux puts on the same processor, so that two share
/// it while another has nothing to do.
///
/// The calls nest as deep as there are threads; `serve` and `load` have at most 64.
pub(crate) fn for_each<R: Threads + Sync, T: Send, F: Fn(usize, &mut T) + Sync>(
    rt: &R,
    items: &mut [T],
    threads: usize,
    f: &F,
)
    requires threads { 0 < threads }
    requires accepts { AcceptsEach F.Fn f.now items.old }
    ensures { ChangesEach F.Fn f.now items.old items.new }
{
    if items.is_empty() {
        return;
    }
    let size = items.len().div_ceil(threads);
    chunks_from(rt, f, size, 0, items);
}

/// Works on a list whose first item has number `base`, in chunks of `size` items.
#[cycle(chunks)]
fn chunks_from<R: Threads + Sync, T: Send, F: Fn(usize, &mut T) + Sync>(
    rt: &R,
    f: &F,
    size: usize,
    base: usize,
    items: &mut [T],
)
    requires size { 0 < size }
    requires room { base + length items.old < 2 ^ 64 }
    requires accepts { EachFrom (AcceptsAt F.Fn f.now) base items.old }
    ensures { EachChangesFrom (ChangesAt F.Fn f.now) base items.old items.new }
{
    if items.len() <= size {
        in_turn(f, base, items);
        return;
    }
    let (first, rest) = items.split_at_mut(size);
    first_and_rest(rt, f, size, base, first, base + size, rest);
}

/// Works on the first chunk in a new thread, and on the rest from this one. `next` is the number of
/// the first item of the rest.
#[cycle(chunks)]
fn first_and_rest<R: Threads + Sync, T: Send, F: Fn(usize, &mut T) + Sync>(
    rt: &R,
    f: &F,
    size: usize,
    base: usize,
    first: &mut [T],
    next: usize,
    rest: &mut [T],
)
    requires size { 0 < size }
    requires first_room { base + length first.old < 2 ^ 64 }
    requires rest_room { next + length rest.old < 2 ^ 64 }
    requires first { EachFrom (AcceptsAt F.Fn f.now) base first.old }
    requires rest { EachFrom (AcceptsAt F.Fn f.now) next rest.old }
    ensures first { EachChangesFrom (ChangesAt F.Fn f.now) base first.old first.new }
    ensures rest { EachChangesFrom (ChangesAt F.Fn f.now) next rest.old rest.new }
{
    let mut there = ||
        requires { (base + length first.now < 2 ^ 64) × EachFrom (AcceptsAt F.Fn f.now) base first.now }
        ensures { EachChangesFrom (ChangesAt F.Fn f.entry.now) base first.entry.now first.exit.now }
    { in_turn(f, base, first) };
    let mut here = ||
        requires { IsSync R.row × IsSync F.row × IsSend T.row × (0 < size) × (next + length rest.now < 2 ^ 64) × EachFrom (AcceptsAt F.Fn f.now) next rest.now }
        ensures { EachChangesFrom (ChangesAt F.Fn f.entry.now) next rest.entry.now rest.exit.now }
    { chunks_from(rt, f, size, next, rest) };
    join_mut(rt, &mut there, &mut here);
}

/// Calls f at one item.
fn at_one<T, F: Fn(usize, &mut T)>(f: &F, i: usize, item: &mut T)
    requires { AcceptsAt F.Fn f.now i item.old }
    ensures { ChangesAt F.Fn f.now i item.old item.new }
{
    f(i, item);
}

/// Calls f at each item, one after another.
fn in_turn<T, F: Fn(usize, &mut T)>(f: &F, base: usize, items: &mut [T])
    requires room { base + length items.old < 2 ^ 64 }
    requires accepts { EachFrom (AcceptsAt F.Fn f.now) base items.old }
    ensures { EachChangesFrom (ChangesAt F.Fn f.now) base items.old items.new }
{
    for k in 0..items.len() {
        at_one(f, base + k, &mut items[k]);
    }
}
