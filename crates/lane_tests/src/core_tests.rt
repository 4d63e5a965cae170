//! An arena of 16 MiB with two lanes, 32,480 sectors of 512 bytes and a free block of each lane behind theirs.
ghost use Rattle.std.specs.Prelude.{IfOk};
ghost use Rattle.lane_core.specs.Machines.{IsSomeCore};

use arena_layout::plan;
use arena_open::{Cell, CellKind, cell_of, format_arena, open_arena};
use cut_words::{CutWords, Fuse, WordSpace};
use lane_core::{Answer, Begun, Call, Core, Phase, Step, Stepped};
use nvd_media::ListChooser;
use nvd_words::Tag;
use std::alloc::{AllocError, Global};
use std::test::Fail;
use uuid::Uuid;

/// The arena's words.
const WORDS: usize = 2_097_152;

/// The steps of a write on an arena of two lanes: one look at another reader, 64 words stored and kept, and nine more.
const WRITE: u32 = 138;

/// The steps from a write's beginning until it stands in the log, but not in the map.
const LOGGED: u32 = 135;

/// The steps from a write's beginning until it tries its lock.
const STAGED: u32 = 129;

/// The steps of a read of a sector that has a block.
const READ: u32 = 68;

fn parent() -> Uuid {
    Uuid::from_u128(2)
}

/// The words of a new arena.
fn new_words(alloc: Global) -> Result<Vec<u64>, Fail> {
    let layout = plan(16 << 20, 512, 2)?;
    let mut space = CutWords::new(alloc, vec![in alloc; 0; WORDS]?)?;
    if layout.size / 8 > space.count() {
        return Err(AllocError)?;
    }
    let mut fuse = Fuse::none();
    format_arena(
        &mut space,
        &mut fuse,
        0,
        &layout,
        &Uuid::from_u128(1),
        &parent(),
    )?;
    Ok(space.leave(&mut ListChooser::new(Vec::new(alloc))))
}

/// The core of a new arena.
pub(crate) fn new_core(alloc: Global) -> Result<Core, Fail>
    ensures { IfOk result IsSomeCore }
{
    let mut space = CutWords::new(alloc, new_words(alloc)?)?;
    if space.count() < 512 || space.count() >= 1 << 60 {
        return Err(AllocError)?;
    }
    let state = open_arena(alloc, &mut space, &mut Fuse::none(), 0, &parent())?;
    Ok(Core::of(alloc, state)?)
}

/// A lane begins to write a sector, each word with the same value.
fn write(alloc: Global, core: &mut Core, lane: u32, sector: u32, word: u64) -> Result<(), Fail>
    requires { IsSomeCore core.old }
    ensures { IsSomeCore core.new }
{
    if lane >= core.shape.lanes || sector >= core.shape.sectors || core.shape.width != 64 {
        return Err(AllocError)?;
    }
    let words = vec![in alloc; word; 64]?;
    let tag = Tag {
        session: lane,
        call: 0,
    };
    match core.begin(alloc, lane, tag, Call::Write { sector, words }) {
        Ok(()) => Ok(()),
        Err(_) => Err(AllocError)?,
    }
}

/// A lane begins to read a sector.
fn read(alloc: Global, core: &mut Core, lane: u32, sector: u32) -> Result<(), Fail>
    requires { IsSomeCore core.old }
    ensures { IsSomeCore core.new }
{
    if lane >= core.shape.lanes || sector >= core.shape.sectors {
        return Err(AllocError)?;
    }
    let tag = Tag {
        session: lane,
        call: 0,
    };
    match core.begin(alloc, lane, tag, Call::Read { sector }) {
        Ok(()) => Ok(()),
        Err(_) => Err(AllocError)?,
    }
}

/// A lane makes so many steps. It answers what the last one did.
fn walk(core: &mut Core, lane: u32, count: u32) -> Stepped
    requires { IsSomeCore core.old }
    ensures { IsSomeCore core.new }
{
    let mut last = Stepped::Nothing;
    for _ in 0..count {
        if lane < core.shape.lanes {
            last = core.step(lane);
        }
    }
    last
}

/// Where a lane stands.
fn phase(core: &Core, lane: u32) -> Option<Phase>
    requires { IsSomeCore core.now }
{
    if lane < core.shape.lanes {
        Some(core.phase(lane))
    } else {
        None
    }
}

/// The value of all words of a sector, if they are the same.
fn value_of(words: &[u64]) -> Option<u64> {
    let first = *words.first()?;
    words.iter().all(|word| *word == first).then_some(first)
}

/// The value that a read was answered.
fn answer_of(stepped: &Stepped) -> Option<u64> {
    match stepped {
        Stepped::Done(_, Answer::Got(Cell::Bytes(words))) => value_of(words.as_slice()),
        _ => None,
    }
}

fn is_written(stepped: &Stepped) -> bool {
    matches!(stepped, Stepped::Done(_, Answer::Wrote))
}

#[test]
fn one_lock_guards_both_sectors_of_a_map_word(rt: HostRuntime) -> Result<(), Fail> {
    let alloc = rt.alloc();
    for (sector, end) in [(8, Phase::Staged), (10, Phase::Locked)] {
        let mut core = new_core(alloc)?;
        write(alloc, &mut core, 1, 9, 11)?;
        walk(&mut core, 1, LOGGED);
        assert_eq!(rt; phase(&core, 1), Some(Phase::Logged));
        write(alloc, &mut core, 0, sector, 22)?;
        walk(&mut core, 0, STAGED);
        assert_eq!(rt; phase(&core, 0), Some(Phase::Staged), "sector {sector}");
        walk(&mut core, 0, 1);
        assert_eq!(rt; phase(&core, 0), Some(end), "sector {sector}");
    }
    Ok(())
}

/// Lane 1 begins a write of a block that lane 0 still reads: its scan goes on once that read is done.
#[test]
fn a_write_waits_for_readers_of_its_block(rt: HostRuntime) -> Result<(), Fail> {
    let alloc = rt.alloc();
    let mut core = new_core(alloc)?;
    write(alloc, &mut core, 1, 9, 11)?;
    walk(&mut core, 1, WRITE);
    read(alloc, &mut core, 0, 9)?;
    walk(&mut core, 0, 6);
    assert_eq!(rt; phase(&core, 0), Some(Phase::Reading(3)));
    write(alloc, &mut core, 1, 9, 22)?;
    walk(&mut core, 1, WRITE);
    write(alloc, &mut core, 1, 9, 33)?;
    walk(&mut core, 1, 5);
    assert_eq!(rt; phase(&core, 1), Some(Phase::Scanning(0)));
    assert_eq!(rt; answer_of(&walk(&mut core, 0, 62)), Some(11));
    walk(&mut core, 1, 1);
    assert_eq!(rt; phase(&core, 1), Some(Phase::Staging(0)));
    Ok(())
}

/// Lane 0 looks at the map. Before it looks again lane 1 writes twice, and the block is the sector's again.
#[test]
fn a_read_finds_the_block_that_came_back(rt: HostRuntime) -> Result<(), Fail> {
    let alloc = rt.alloc();
    let mut core = new_core(alloc)?;
    write(alloc, &mut core, 1, 9, 11)?;
    walk(&mut core, 1, WRITE);
    read(alloc, &mut core, 0, 9)?;
    walk(&mut core, 0, 1);
    write(alloc, &mut core, 1, 9, 22)?;
    assert!(rt; is_written(&walk(&mut core, 1, WRITE)));
    write(alloc, &mut core, 1, 9, 33)?;
    assert!(rt; is_written(&walk(&mut core, 1, WRITE)));
    assert_eq!(rt; answer_of(&walk(&mut core, 0, READ - 1)), Some(33));
    assert_eq!(rt; phase(&core, 0), Some(Phase::Idle));
    Ok(())
}

/// The same with one write between the two looks: the entry has changed, so the read begins again.
#[test]
fn a_read_begins_again_if_the_entry_moved(rt: HostRuntime) -> Result<(), Fail> {
    let alloc = rt.alloc();
    let mut core = new_core(alloc)?;
    write(alloc, &mut core, 1, 9, 11)?;
    walk(&mut core, 1, WRITE);
    read(alloc, &mut core, 0, 9)?;
    walk(&mut core, 0, 1);
    write(alloc, &mut core, 1, 9, 22)?;
    walk(&mut core, 1, WRITE);
    walk(&mut core, 0, 2);
    assert_eq!(rt; phase(&core, 0), Some(Phase::Moved));
    assert_eq!(rt; answer_of(&walk(&mut core, 0, READ + 1)), Some(22));
    assert_eq!(rt; core.history().len(), 3);
    Ok(())
}

/// Power is cut after so many steps of a write, each pending word as the chooser says.
fn cut_after(alloc: Global, steps: u32, stays: bool) -> Result<Vec<u64>, Fail> {
    let mut core = new_core(alloc)?;
    write(alloc, &mut core, 1, 9, 11)?;
    walk(&mut core, 1, steps);
    let answers = vec![in alloc; stays; 64]?;
    Ok(core.cut(&mut ListChooser::new(answers)))
}

/// What sector 9 has once such words were opened, and how many moves opening made.
fn opened_sector(alloc: Global, words: Vec<u64>) -> Result<(Option<u64>, u32), Fail> {
    let mut space = CutWords::new(alloc, words)?;
    if space.count() < 512 || space.count() >= 1 << 60 {
        return Err(AllocError)?;
    }
    let state = open_arena(alloc, &mut space, &mut Fuse::none(), 0, &parent())?;
    let mut found = [7; 64];
    if state.info.layout.external <= 9 || state.info.layout.sector != 512 {
        return Err(AllocError)?;
    }
    match cell_of(&state, 9, &mut found) {
        CellKind::Bytes => Ok((value_of(&found), state.moves())),
        CellKind::Bad => Ok((None, state.moves())),
    }
}

/// A write is lost if power is cut before its second log word is kept, unless that word stays.
#[test]
fn a_write_is_lost_without_its_second_log_word(rt: HostRuntime) -> Result<(), Fail> {
    let alloc = rt.alloc();
    for (steps, stays) in [(64, true), (133, true), (134, false)] {
        let opened = opened_sector(alloc, cut_after(alloc, steps, stays)?)?;
        assert_eq!(rt; opened, (Some(0), 0), "after {steps} steps");
    }
    Ok(())
}

/// From then on the write is there. Opening makes its move if the map word is the old one.
#[test]
fn a_write_is_there_with_its_second_log_word(rt: HostRuntime) -> Result<(), Fail> {
    let alloc = rt.alloc();
    for (steps, stays, moves) in [
        (134, true, 1),
        (135, false, 1),
        (136, true, 0),
        (138, false, 0),
    ] {
        let opened = opened_sector(alloc, cut_after(alloc, steps, stays)?)?;
        assert_eq!(rt; opened, (Some(11), moves), "after {steps} steps");
    }
    Ok(())
}

/// A lane that is in a call begins no other, and an idle one does nothing.
#[test]
fn one_call_at_a_time(rt: HostRuntime) -> Result<(), Fail> {
    let alloc = rt.alloc();
    let mut core = new_core(alloc)?;
    assert!(rt; matches!(walk(&mut core, 0, 1), Stepped::Nothing));
    write(alloc, &mut core, 1, 9, 11)?;
    assert!(rt; matches!(walk(&mut core, 1, 2), Stepped::Went(Step::DataStore)));
    if core.shape.lanes != 2 || core.shape.sectors < 10 {
        return Err(AllocError)?;
    }
    let tag = Tag {
        session: 0,
        call: 1,
    };
    let refused = core.begin(alloc, 1, tag, Call::Read { sector: 9 });
    let phase = Phase::Staging(1);
    assert_eq!(rt; refused, Err(Begun::LaneBusy { phase }));
    Ok(())
}
