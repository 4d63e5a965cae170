ghost use Rattle.std.specs.Prelude.{◌≡◌, ◌<◌, IfOk, OnOk};
ghost use Rattle.crossbeam_queue.specs.Passes.{view, IsPassOf, IsSamePass, ruled_capacity};
ghost use Rattle.ticket_queue.specs.Law.{IsHandOf, all_from};
ghost use Rattle.std.specs.Thread.{IsSync};

use std::alloc::{AllocError, Global};
use std::sync::Wait;
use std::test::Fail;
use std::thread;
use std::thread::{Threads, join};
use ticket_queue::{Ticket, TicketPass, TicketQueue, deal, finish, new_queue, put, take};

/// How many tickets a thread puts.
const TICKETS: u32 = 10_000;

/// Puts a ticket, however long the queue is full.
fn put_until<R: Wait>(rt: &R, queue: &TicketQueue<u32>, pass: &mut TicketPass<u32>, item: u32)
    requires queue { IsPassOf queue.now pass.old }
    requires party { IsHandOf 0 (view pass.old) }
    ensures queue { IsSamePass pass.old pass.new }
    ensures party { IsHandOf 0 (view pass.new) }
{
    for _ in rt.forever() {
        let ticket = Ticket { party: 0, item };
        if put(rt, queue, pass, ticket).is_ok() {
            return;
        }
        thread::yield_now();
    }
    unreachable!()
}

/// Party 0 puts so many tickets.
fn put_all<R: Wait>(
    rt: &R,
    queue: &TicketQueue<u32>,
    mut pass: TicketPass<u32>,
    count: u32,
) -> TicketPass<u32>
    requires queue { IsPassOf queue.now pass }
    requires party { IsHandOf 0 (view pass) }
    ensures queue { IsPassOf queue.now result }
    ensures party { IsHandOf 0 (view result) }
{
    for item in 0..count {
        put_until(rt, queue, &mut pass, item);
    }
    pass
}

/// Party 1 takes a ticket, if there is one.
fn take_one<R: Wait>(
    rt: &R,
    queue: &TicketQueue<u32>,
    pass: &mut TicketPass<u32>,
) -> Option<Ticket<u32>>
    requires queue { IsPassOf queue.now pass.old }
    requires party { IsHandOf 1 (view pass.old) }
    ensures queue { IsSamePass pass.old pass.new }
    ensures party { IsHandOf 1 (view pass.new) }
{
    take(rt, queue, pass)
}

/// Party 1 takes a ticket, however long the queue is empty, and says whether it is this item.
fn take_until<R: Wait>(
    rt: &R,
    queue: &TicketQueue<u32>,
    pass: &mut TicketPass<u32>,
    item: u32,
) -> bool
    requires queue { IsPassOf queue.now pass.old }
    requires party { IsHandOf 1 (view pass.old) }
    ensures queue { IsSamePass pass.old pass.new }
    ensures party { IsHandOf 1 (view pass.new) }
{
    for _ in rt.forever() {
        if let Some(ticket) = take_one(rt, queue, pass) {
            return ticket.item == item;
        }
        thread::yield_now();
    }
    unreachable!()
}

/// Party 1 takes so many tickets, and says whether each came in order.
fn take_all<R: Wait>(
    rt: &R,
    queue: &TicketQueue<u32>,
    mut pass: TicketPass<u32>,
    count: u32,
) -> (TicketPass<u32>, bool)
    requires queue { IsPassOf queue.now pass }
    requires party { IsHandOf 1 (view pass) }
    ensures queue { IsPassOf queue.now result.0 }
    ensures party { IsHandOf 1 (view result.0) }
{
    let mut in_order = true;
    for item in 0..count {
        if !take_until(rt, queue, &mut pass, item) {
            in_order = false;
        }
    }
    (pass, in_order)
}

/// The passes of parties 0 and 1.
fn two_passes(
    alloc: Global,
    queue: &TicketQueue<u32>,
    maker: &mut TicketPass<u32>,
) -> Result<(TicketPass<u32>, TicketPass<u32>), AllocError>
    requires queue { IsPassOf queue.now maker.old }
    requires maker { view maker.old ≡ all_from 0 }
    ensures queue { IsSamePass maker.old maker.new }
    ensures maker { OnOk result (view maker.new ≡ all_from 2) }
    ensures first { IfOk result (λ p. IsPassOf queue.now p.0 × IsHandOf 0 (view p.0)) }
    ensures second { IfOk result (λ p. IsPassOf queue.now p.1 × IsHandOf 1 (view p.1)) }
{
    let mut passes = deal(alloc, queue, maker, 2)?;
    let Some(second) = passes.pop() else {
        unreachable!()
    };
    let Some(first) = passes.pop() else {
        unreachable!()
    };
    Ok((first, second))
}

/// Closes a queue of two parties that has room for `depth` tickets.
fn close_two<R: Wait>(
    rt: &R,
    alloc: Global,
    depth: usize,
    queue: &TicketQueue<u32>,
    maker: TicketPass<u32>,
    first: TicketPass<u32>,
    second: TicketPass<u32>,
) -> Result<Vec<Ticket<u32>>, AllocError>
    requires depth { (ruled_capacity queue.now ≡ depth) × (depth < 100) }
    requires queue { IsPassOf queue.now maker × (view maker ≡ all_from 2) }
    requires first { IsPassOf queue.now first × IsHandOf 0 (view first) }
    requires second { IsPassOf queue.now second × IsHandOf 1 (view second) }
{
    let left = Vec::with_capacity(alloc, depth + 1)?;
    let mut passes = Vec::with_capacity(alloc, 2)?;
    passes.push_reserved(first);
    passes.push_reserved(second);
    Ok(finish(rt, queue, maker, passes, left))
}

/// A queue with room for one ticket takes one and gives the second back; then it gives the first,
/// and no more.
#[test]
fn one_ticket_at_a_time(rt: HostRuntime) -> Result<(), Fail> {
    let alloc = rt.alloc();
    let (queue, mut maker) = new_queue(alloc, 1)?;
    let (mut first, mut second) = two_passes(alloc, &queue, &mut maker)?;
    let one = Ticket { party: 0, item: 7 };
    assert!(rt; put(&rt, &queue, &mut first, one).is_ok());
    let other = Ticket { party: 1, item: 8 };
    assert!(rt;
        matches!(
            put(&rt, &queue, &mut second, other),
            Err(Ticket { party: 1, item: 8 })
        )
    );
    assert!(rt;
        matches!(
            take(&rt, &queue, &mut second),
            Some(Ticket { party: 0, item: 7 })
        )
    );
    assert!(rt; take_one(&rt, &queue, &mut second).is_none());
    let left = close_two(&rt, alloc, 1, &queue, maker, first, second)?;
    assert!(rt; left.is_empty());
    Ok(())
}

/// Runs a thread that puts tickets and one that takes all but three.
fn put_and_take<R: Threads + Wait + Sync>(
    rt: &R,
    queue: &TicketQueue<u32>,
    first: TicketPass<u32>,
    second: TicketPass<u32>,
) -> (TicketPass<u32>, (TicketPass<u32>, bool))
    requires first { IsPassOf queue.now first × IsHandOf 0 (view first) }
    requires second { IsPassOf queue.now second × IsHandOf 1 (view second) }
    ensures first { IsPassOf queue.now result.0 × IsHandOf 0 (view result.0) }
    ensures second { IsPassOf queue.now result.1.0 × IsHandOf 1 (view result.1.0) }
{
    join(
        rt,
        || -> TicketPass<u32>
            requires { IsSync R.row × IsPassOf queue.now first × IsHandOf 0 (view first) }
            ensures { IsPassOf queue.entry.now result × IsHandOf 0 (view result) }
        { put_all(rt, queue, first, TICKETS) },
        || -> (TicketPass<u32>, bool)
            requires { IsSync R.row × IsPassOf queue.now second × IsHandOf 1 (view second) }
            ensures { IsPassOf queue.entry.now result.0 × IsHandOf 1 (view result.0) }
        { take_all(rt, queue, second, TICKETS - 3) },
    )
}

/// Two threads share a queue. What the second takes comes in order, and the last three are left.
#[test]
fn threads_share_a_queue(rt: HostRuntime) -> Result<(), Fail> {
    let alloc = rt.alloc();
    let (queue, mut maker) = new_queue(alloc, 8)?;
    let (first, second) = two_passes(alloc, &queue, &mut maker)?;
    let (first, (second, in_order)) = put_and_take(&rt, &queue, first, second);
    assert!(rt; in_order);
    let left = close_two(&rt, alloc, 8, &queue, maker, first, second)?;
    assert!(rt; left.len() == 3 && left[0].item == TICKETS - 3 && left[2].item == TICKETS - 1);
    Ok(())
}
