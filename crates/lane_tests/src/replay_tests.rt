//! Schedules on a new arena of two lanes, read and played.
use crate::core_tests::new_core;
use lane_replay::play;
use session_script::read_replay;
use std::alloc::{AllocError, Global};
use std::test::Fail;

/// More steps than could be made one by one.
const FOREVER: u64 = u64::MAX;

/// A text of these lines.
fn text_of(alloc: Global, lines: &[&str]) -> Result<Vec<u8>, AllocError> {
    let mut text = Vec::new(alloc);
    for line in lines {
        text.extend_from_slice(line.as_bytes())?;
        text.push(b'\n')?;
    }
    Ok(text)
}

/// What a schedule prints.
fn printed(alloc: Global, lines: &[&str]) -> Result<Vec<u8>, Fail> {
    let mut core = new_core(alloc)?;
    let text = text_of(alloc, lines)?;
    if text.len() > 1000 {
        return Err(AllocError)?;
    }
    let Ok(replay) = read_replay(alloc, text) else {
        return Err(AllocError)?;
    };
    Ok(play(alloc, &mut core, &replay.lines)?)
}

#[test]
fn refusals_and_cuts_are_printed(rt: HostRuntime) -> Result<(), Fail> {
    let alloc = rt.alloc();
    let text = printed(
        alloc,
        &[
            "call 1 write 9 fill:11",
            "step 1 2",
            "call 1 read 9",
            "call 5 read 9",
            "call 0 read 32480",
            "call 0 write 9 hex:1122",
            "step 0 1",
            "step 2 0",
        ],
    )?;
    let due = text_of(
        alloc,
        &[
            "lane 1 refused LaneBusy Staging 1",
            "lane 5 refused Lane 2",
            "lane 0 refused Range 32480",
            "lane 0 refused Length 2 512",
            "lane 0 idle",
            "lane 2 refused Lane 2",
            "lane 1 cut",
        ],
    )?;
    assert_eq!(rt; text.as_slice(), due.as_slice());
    Ok(())
}

/// Lane 0 looks at the map. Before it looks again lane 1 writes twice, and the block is the sector's again.
#[test]
fn a_block_comes_back(rt: HostRuntime) -> Result<(), Fail> {
    let alloc = rt.alloc();
    let text = printed(
        alloc,
        &[
            "call 1 write 9 fill:11",
            "step 1 138",
            "call 0 read 9",
            "step 0 1",
            "call 1 write 9 fill:22",
            "step 1 138",
            "call 1 write 9 fill:33",
            "step 1 138",
            "step 0 67",
        ],
    )?;
    let due = text_of(
        alloc,
        &["lane 1 ok", "lane 1 ok", "lane 1 ok", "lane 0 ok fill:33"],
    )?;
    assert_eq!(rt; text.as_slice(), due.as_slice());
    Ok(())
}

/// An idle lane, a write whose lock the other lane has, and a write that scans before a reader of its block: none of them
/// takes the time of its steps.
#[test]
fn steps_without_end_end(rt: HostRuntime) -> Result<(), Fail> {
    let alloc = rt.alloc();
    let forever = format!(in alloc; "step 1 {}", FOREVER)?;
    let text = printed(
        alloc,
        &[
            "call 0 write 8 fill:01",
            "step 0 130",
            "call 1 write 9 fill:11",
            forever.as_str(),
            "call 1 read 9",
            "step 0 8",
            forever.as_str(),
            "call 0 read 9",
            "step 0 3",
            "call 1 write 9 fill:22",
            forever.as_str(),
            "call 1 write 9 fill:33",
            forever.as_str(),
            "call 1 read 9",
            "step 0 65",
            forever.as_str(),
        ],
    )?;
    let due = text_of(
        alloc,
        &[
            "lane 1 refused LaneBusy Staged",
            "lane 0 ok",
            "lane 1 ok",
            "lane 1 idle",
            "lane 1 ok",
            "lane 1 idle",
            "lane 1 refused LaneBusy Scanning 0",
            "lane 0 ok fill:11",
            "lane 1 ok",
            "lane 1 idle",
        ],
    )?;
    assert_eq!(rt; text.as_slice(), due.as_slice());
    Ok(())
}
