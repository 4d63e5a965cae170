//! Two sessions by two workers, held by gates.
use crate::gates::{Event, SecondFirst, WriteInWrite};
use crate::world::{AfterRun, blank, ran};
use nvd_media::{Gate, NoGate, Stored};
use shell_reports::Status;
use std::alloc::{AllocError, Global};
use std::sync::Wait;
use std::test::Fail;
use std::thread::Threads;

/// Each of two sessions opens the namespace and writes a sector.
const SCRIPT: &str = "session 0
open 11111111-1111-4111-8111-111111111111
write 0 fill:01
session 1
open 11111111-1111-4111-8111-111111111111
write 100 fill:02
";

/// What they print.
const REPLIES: &str = "session 0\nok\nok\nsession 1\nok\nok\n";

/// The words of a sector namespace over the whole set.
const CREATE: &[&str] = &[
    "create",
    "--uuid",
    "11111111-1111-4111-8111-111111111111",
    "--name",
    "a",
    "--region",
    "0",
    "--size",
    "16777216",
    "--mode",
    "sector",
    "--lanes",
    "4",
];

/// A set with a sector namespace.
fn ready<R: Threads + Wait + Sync>(rt: &R, alloc: Global) -> Result<Vec<Stored>, AllocError> {
    let with_index = ran(rt, alloc, &["init", "0"], "", blank(alloc)?, &NoGate)?;
    let made = ran(rt, alloc, CREATE, "", with_index.objects, &NoGate)?;
    Ok(made.objects)
}

/// The script, served by two workers behind a gate.
fn served<R: Threads + Wait + Sync, G: Gate>(
    rt: &R,
    alloc: Global,
    gate: &G,
) -> Result<AfterRun, AllocError> {
    let objects = ready(rt, alloc)?;
    ran(
        rt,
        alloc,
        &["serve", "--workers", "2"],
        SCRIPT,
        objects,
        gate,
    )
}

// If sessions ran one after another, session 1 would wait for session 0, and session 0 for session 1.
#[test]
fn sessions_run_at_once(rt: HostRuntime) -> Result<(), Fail> {
    let gate = SecondFirst {
        answered: Event::new(),
    };
    let after = served(&rt, rt.alloc(), &gate)?;
    assert!(rt;
        after.status == Status::Ok && after.text.as_str() == REPLIES && gate.answered.was_awaited()
    );
    Ok(())
}

// If a lock were held over a whole write, the second write would wait for the first, and the first for the second.
#[test]
fn a_write_is_made_in_the_middle_of_another(rt: HostRuntime) -> Result<(), Fail> {
    let gate = WriteInWrite {
        staged: Event::new(),
        answered: Event::new(),
    };
    let after = served(&rt, rt.alloc(), &gate)?;
    assert!(rt;
        after.status == Status::Ok
            && after.text.as_str() == REPLIES
            && gate.staged.was_awaited()
            && gate.answered.was_awaited()
    );
    Ok(())
}
