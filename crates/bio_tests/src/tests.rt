//! One submitter and one worker in one thread.
ghost use Rattle.std.specs.Prelude.{◌≤◌, length, IfOk};

use crate::arena::{Begun, SECTORS, WIDTH, begin, end, left_in, two_of};
use crate::parties::{Answer, Job, Opened, Step, Submitted, close, note_of, op_of, run_back, seat};
use bio_queue::{BioQueue, Completed, Completion, OneTurn, Op, OpReply};
use std::alloc::{AllocError, Global};
use std::test::Fail;

/// The operations of one submitter: a sector, what is written to it (or 0 for a read), and a tag.
const OPS: [(u32, u64, u64); 5] = [
    (7, 11, 100),
    (7, 0, 200),
    (8, 0, 300),
    (9, 12, 400),
    (9, 13, 500),
];

/// Whether four operations were accepted, the fifth one came back unharmed, four were served, and
/// the queue was empty then.
fn are_as_wanted(answers: &[Answer]) -> bool {
    matches!(
        answers,
        [
            Answer::Submit(Submitted::Accepted(0)),
            Answer::Submit(Submitted::Accepted(1)),
            Answer::Submit(Submitted::Accepted(2)),
            Answer::Submit(Submitted::Accepted(3)),
            Answer::Submit(Submitted::Full {
                op: Op::Write { sector: 9, .. },
                depth: 4,
                note: 501,
            }),
            Answer::Serve(OneTurn::Served),
            Answer::Serve(OneTurn::Served),
            Answer::Serve(OneTurn::Served),
            Answer::Serve(OneTurn::Served),
            Answer::Serve(OneTurn::Empty),
        ]
    )
}

/// The notes of completed operations.
fn notes_of(alloc: Global, completed: &[Completed]) -> Result<Vec<u64>, AllocError> {
    let mut notes = Vec::new(alloc);
    for done in completed {
        notes.push(done.note)?;
    }
    Ok(notes)
}

/// The steps with the last one first, if there are not too many.
fn last_first(mut steps: Vec<Step>) -> Result<Vec<Step>, AllocError>
    ensures { IfOk result (λ r. length r.items ≤ 200) }
{
    steps.as_mut_slice().reverse();
    if steps.len() > 200 {
        return Err(AllocError);
    }
    Ok(steps)
}

/// One submitter fills a queue of four operations; the fifth one comes back. A worker makes all
/// four, and then the queue is empty. Each note shows that the operation's own completion was called
/// with its reply: a read after a write gets the written words, and a sector that was never written
/// reads as zeros.
#[test]
fn one_thread_fills_and_empties_a_queue(rt: HostRuntime) -> Result<(), Fail> {
    let alloc = rt.alloc();
    let Begun {
        sectors,
        aside,
        sessions,
    } = begin(alloc)?;
    let Ok(opened) = BioQueue::of(alloc, 4, 2, SECTORS, WIDTH, sessions) else {
        return Err(AllocError)?;
    };
    let Opened {
        queue,
        closer,
        first,
        second,
    } = seat(alloc, opened)?;
    let mut steps = Vec::new(alloc);
    for (sector, value, tag) in OPS {
        let op = op_of(alloc, sector, value)?;
        let call: Box<dyn FnOnce(OpReply) -> u64 + Send> = Box::new(
            alloc,
            move |reply: OpReply| note_of(tag, &reply),
        )?;
        let done = Completion::of(&op, call);
        steps.push(Step::Submit(Job { op, done }))?;
    }
    for _ in 0..5 {
        steps.push(Step::Serve)?;
    }
    let steps = last_first(steps)?;
    let first = run_back(&rt, alloc, &queue, &sectors, first, steps)?;
    assert!(rt; are_as_wanted(&first.answers));
    let closed = close(&rt, alloc, queue, closer, first, second)?;
    assert!(rt; closed.left.is_empty());
    let (own, none) = two_of(closed.completed)?;
    assert!(rt; none.is_empty());
    let notes = notes_of(alloc, &own)?;
    assert!(rt; matches!(notes.as_slice(), [101, 211, 300, 401]));
    let (one, two) = two_of(closed.sessions)?;
    let ended = end(&rt, alloc, sectors, aside, one, two)?;
    assert_eq!(rt; left_in(alloc, &ended, 7)?, Some(11));
    assert_eq!(rt; left_in(alloc, &ended, 8)?, Some(0));
    assert_eq!(rt; left_in(alloc, &ended, 9)?, Some(12));
    Ok(())
}
