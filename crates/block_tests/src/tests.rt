//! Three desks at one queue.
use crate::jobs::{
    Fitting, left_in, no_desks, no_jobs, note_of, op_of, opened, with_desk, with_job,
};
use crate::words::new_words;
use bio_queue::{Completed, Completion, OpReply};
use block_service::{BlocksServed, serve_operations};
use std::test::Fail;

/// How many operations a desk has.
const OPS: u32 = 40;

/// The tag of a submitter's operation with this number.
fn tag_of(submitter: u32, number: u32) -> u64 {
    u64::from(submitter) * 1_000 + u64::from(number) * 10
}

/// Whether it was completed with the note of its own completion: an even number is a write, and an
/// odd one reads a sector of zeros.
fn is_as_wanted(done: &Completed) -> bool {
    let told = if done.number % 2 == 0 { 1 } else { 0 };
    done.note == tag_of(done.submitter, done.number).wrapping_add(told)
}

/// How many operations were completed; none if one of them isn't as wanted.
fn count_of(served: &BlocksServed) -> usize {
    let mut count: usize = 0;
    for row in &served.completed {
        for done in row {
            if !is_as_wanted(done) {
                return 0;
            }
            count = count.wrapping_add(1);
        }
    }
    count
}

/// Three desks submit 40 operations each to a queue with room for two, in two threads. Each is
/// completed with the note of its own completion, and what was written is left in the arena.
#[test]
fn three_desks_in_two_threads(rt: HostRuntime) -> Result<(), Fail> {
    let alloc = rt.alloc();
    let mut all = no_desks(alloc);
    for desk in 0..3 {
        let mut jobs = no_jobs(alloc);
        for back in 0..OPS {
            let number = OPS - 1 - back;
            let op = if number % 2 == 0 {
                op_of(alloc, desk * 20 + number / 2, u64::from(number) + 1)?
            } else {
                op_of(alloc, 90 + desk, 0)?
            };
            let tag = tag_of(desk, number);
            let call: Box<dyn FnOnce(OpReply) -> u64 + Send> = Box::new(
                alloc,
                move |reply: OpReply| note_of(tag, &reply),
            )?;
            let done = Completion::of(&op, call);
            jobs = with_job(jobs, Fitting { op, done })?;
        }
        all = with_desk(all, jobs)?;
    }
    let state = opened(alloc, new_words(alloc)?)?;
    let served = serve_operations(&rt, alloc, state, 2, 2, all.rows)?;
    assert_eq!(rt; count_of(&served), 120);
    assert_eq!(rt; left_in(alloc, &served.words, 0)?, Some(1));
    assert_eq!(rt; left_in(alloc, &served.words, 59)?, Some(39));
    assert_eq!(rt; left_in(alloc, &served.words, 90)?, Some(0));
    Ok(())
}
