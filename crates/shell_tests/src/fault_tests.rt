//! Each call on the outside fails in turn.
use crate::world::{
    Fails, Made, NEVER, SECTORS, SMALL_TEXT, initialised, pair, run_on, with_sectors,
};
use nvd_media::{ListChooser, Object, Stored};
use shell_reports::Status;
use std::alloc::{AllocError, Global};
use std::sync::Wait;
use std::thread::Threads;

/// A session that makes a namespace, and can't open it.
const SESSION: &str = "session 0
create 11111111-1111-4111-8111-111111111111 0 8192 a
open 11111111-1111-4111-8111-111111111111
";

/// What `serve` prints of it.
const REPLIES: &str = "session 0\nok\nrefused NotSector\n";

/// Makes two sessions of three calls each, and runs them by two workers.
const LOAD: &[&str] = &[
    "load",
    "7",
    "--uuid",
    SECTORS,
    "--sessions",
    "2",
    "--calls",
    "3",
    "--workers",
    "2",
];

/// What it prints. The checksum was computed by a script, from the rules of the command.
const LOADED: &str = "sessions 2 calls 6 reads 2 writes 4\nreplies dd55d8a45b12fa0e\n";

/// A run in which these calls fail.
fn failing<R: Threads + Wait + Sync>(
    rt: &R,
    alloc: Global,
    words: &[&str],
    script: &str,
    objects: &[Stored],
    fails: Fails<'_>,
) -> Result<Made, AllocError> {
    let mut choose = ListChooser::new(Vec::new(alloc));
    run_on(rt, alloc, words, script, objects, &mut choose, fails)
}

/// Calls on the source: the text is `read fault`, and no set gets its mark. `init` and `serve` write before they have read all: their
/// last two calls copy contents.
#[test]
fn each_call_on_the_source_fails_in_turn(rt: HostRuntime) -> Result<(), AllocError> {
    let alloc = rt.alloc();
    let blank = pair(alloc)?;
    let ready = initialised(&rt, alloc, pair(alloc)?)?;
    let labels = "index 0 seq 3 slots 2 free 2\n";
    let commands: [(&[&str], &[Stored], bool, Status, &str); 6] = [
        (&["nfit"], &ready, false, Status::Ok, SMALL_TEXT),
        (&["labels", "0"], &ready, false, Status::Ok, labels),
        (&["list"], &ready, false, Status::Ok, ""),
        (&["init", "0"], &blank, true, Status::Ok, "ok\n"),
        (&["serve"], &ready, true, Status::Ok, REPLIES),
        (LOAD, &ready, false, Status::Refused, "refused NoSuch\n"),
    ];
    for (words, objects, copies, ended, want) in commands {
        let mut failed = 0;
        for call in 0..20 {
            let fails = Fails {
                source: &[call],
                ..NEVER
            };
            let Made { status, text, set } = failing(&rt, alloc, words, SESSION, objects, fails)?;
            if status == Status::ReadFault {
                assert_eq!(rt; text.as_str(), "read fault\n");
                assert!(rt; set.bytes(Object::Mark).is_none());
                assert!(rt; copies || set.bytes(Object::Nfit).is_none());
                assert_eq!(rt; failed, call);
                failed += 1;
            } else {
                assert_eq!(rt; text.as_str(), want);
                assert_eq!(rt; status, ended);
            }
        }
        // the mark, the table, two areas, two contents and two lists are asked for, the table and two areas are read
        assert!(rt; failed >= 11);
    }
    Ok(())
}

/// Calls on the script: the text is `read fault`, and nothing is saved.
#[test]
fn each_call_on_the_script_fails_in_turn(rt: HostRuntime) -> Result<(), AllocError> {
    let alloc = rt.alloc();
    let ready = initialised(&rt, alloc, pair(alloc)?)?;
    for (call, ended, want) in [
        (0, Status::ReadFault, "read fault\n"),
        (1, Status::ReadFault, "read fault\n"),
        (2, Status::Ok, REPLIES),
    ] {
        let fails = Fails {
            script: &[call],
            ..NEVER
        };
        let Made { status, text, set } = failing(&rt, alloc, &["serve"], SESSION, &ready, fails)?;
        assert_eq!(rt; text.as_str(), want);
        assert_eq!(rt; status, ended);
        assert_eq!(rt; set.bytes(Object::Nfit).is_some(), status == Status::Ok);
    }
    Ok(())
}

/// Calls on the sink: no set gets its mark, and nothing is printed.
#[test]
fn each_call_on_the_sink_fails_in_turn(rt: HostRuntime) -> Result<(), AllocError> {
    let alloc = rt.alloc();
    let blank = pair(alloc)?;
    let ready = initialised(&rt, alloc, pair(alloc)?)?;
    let commands: [(&[&str], &[Stored]); 2] = [(&["init", "0"], &blank), (&["serve"], &ready)];
    for (words, objects) in commands {
        let mut failed = 0;
        for call in 0..10 {
            let fails = Fails {
                sink: &[call],
                ..NEVER
            };
            let Made { status, text, set } = failing(&rt, alloc, words, SESSION, objects, fails)?;
            if status == Status::WriteFault {
                assert_eq!(rt; text.as_str(), "");
                assert!(rt; set.bytes(Object::Mark).is_none());
                assert_eq!(rt; failed, call);
                failed += 1;
            } else {
                assert_eq!(rt; status, Status::Ok);
                assert!(rt; set.bytes(Object::Mark).is_some());
            }
        }
        // the table, two areas, two contents, and the mark
        assert_eq!(rt; failed, 6);
    }
    Ok(())
}

/// Calls on the text: nothing is printed. A set that is saved was saved before.
#[test]
fn each_call_on_the_text_fails_in_turn(rt: HostRuntime) -> Result<(), AllocError> {
    let alloc = rt.alloc();
    let ready = initialised(&rt, alloc, pair(alloc)?)?;
    for (words, all, saves) in [("nfit", SMALL_TEXT, false), ("serve", REPLIES, true)] {
        for (source, text_fails, ended, want, saved) in [
            ([].as_slice(), [0].as_slice(), Status::WriteFault, "", saves),
            ([].as_slice(), [1].as_slice(), Status::Ok, all, saves),
            (
                [0].as_slice(),
                [0].as_slice(),
                Status::WriteFault,
                "",
                false,
            ),
        ] {
            let fails = Fails {
                source,
                text: text_fails,
                ..NEVER
            };
            let Made { status, text, set } = failing(&rt, alloc, &[words], SESSION, &ready, fails)?;
            assert_eq!(rt; text.as_str(), want);
            assert_eq!(rt; status, ended);
            assert_eq!(rt; set.bytes(Object::Mark).is_some(), saved);
        }
    }
    Ok(())
}

/// `load` on the smallest arena, which is read and written in many pieces: of the source and of the sink a call of each kind fails.
#[test]
fn calls_of_a_load_fail(rt: HostRuntime) -> Result<(), AllocError> {
    let alloc = rt.alloc();
    let sectors = with_sectors(&rt, alloc)?;
    let rows: [(&[u64], &[u64], &[u64], &[u64], Status, &str, bool); 10] = [
        // no such call: it reads no script
        (&[u64::MAX], &[0], &[68], &[1], Status::Ok, LOADED, true),
        // the mark, a part of the arena
        (
            &[0],
            &[],
            &[],
            &[],
            Status::ReadFault,
            "read fault\n",
            false,
        ),
        (
            &[299],
            &[],
            &[],
            &[],
            Status::ReadFault,
            "read fault\n",
            false,
        ),
        // the table, an area, the first and the last part of contents, the mark
        (&[], &[], &[0], &[], Status::WriteFault, "", false),
        (&[], &[], &[1], &[], Status::WriteFault, "", false),
        (&[], &[], &[2], &[], Status::WriteFault, "", false),
        (&[], &[], &[66], &[], Status::WriteFault, "", false),
        (&[], &[], &[67], &[], Status::WriteFault, "", false),
        // the text, behind a set that was saved, and in place of `read fault`
        (&[], &[], &[], &[0], Status::WriteFault, "", true),
        (&[0], &[], &[], &[0], Status::WriteFault, "", false),
    ];
    for (source, script, sink, text, ended, want, saved) in rows {
        let fails = Fails {
            source,
            script,
            sink,
            text,
        };
        let Made { status, text, set } = failing(&rt, alloc, LOAD, "", &sectors, fails)?;
        assert_eq!(rt; text.as_str(), want);
        assert_eq!(rt; status, ended);
        assert_eq!(rt; set.bytes(Object::Mark).is_some(), saved);
    }
    Ok(())
}
