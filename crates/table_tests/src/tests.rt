//! An arena of 16 MiB whose words two lanes share, with 32,480 sectors of 512 bytes. At first 32,480 is lane 0's free block, and 32,481
//! is lane 1's. The entry 0x8000_0009 says that sector 9 has zeros, and 0xC000_7EE1 that it has block 32,481. Lane 0 holds the pass of
//! session 0, and lane 1 that of session 1.
ghost use Rattle.std.specs.Prelude.{◌≡◌, ◌<◌, [], ◌∷◌, All, IfOk, IfSome, Some};
ghost use Rattle.arena_open.specs.Moves.{IsOpenState};
ghost use Rattle.lane_table.specs.Kits.{arena_id, held_in, kit_in, IsOf};
ghost use Rattle.table_tests.specs.declared.client.Client.{Client as Client_at};

use crate::client::{
    Client, begin, commit, cut, cut_read, go_on, moved, read, read_again, refused, stage,
};
use crate::words::{new_words, parent, value_of};
use arena_layout::plan;
use arena_open::{ArenaState, CellKind, open_arena};
use cut_words::{CutWords, Fuse, WordSpace};
use lane_table::{Arena, Closed, Lane, LaneEnd, Pause, StageOutcome};
use map_table::entry_in;
use std::alloc::{AllocError, Global};
use std::test::Fail;
use std::thread;
use std::thread::Threads;

/// How often a lane reads beside another's writes.
const READS: u32 = 10_000;

/// A read that goes on at once.
#[derive(Drop)]
struct Straight;

impl Pause for Straight {
    fn pause(&mut self) {}
}

/// The arena of these words.
fn opened(alloc: Global, words: Vec<u64>) -> Result<ArenaState, Fail>
    ensures { IfOk result IsOpenState }
{
    let mut space = CutWords::new(alloc, words)?;
    if space.count() < 512 || space.count() >= 1 << 60 {
        return Err(AllocError)?;
    }
    let state = open_arena(alloc, &mut space, &mut Fuse::none(), 0, &parent())?;
    Ok(state)
}

/// Takes the last one of an arena's lanes.
fn last_of(arena: &Arena, lanes: &mut Vec<Lane>) -> Result<Lane, AllocError>
    requires own { All (λ l. IsOf arena.now l.kit) lanes.old.items }
    requires free { All (λ l. (held_in l.kit ≡ []) × (l.kit.made ≡ 0)) lanes.old.items }
    ensures lane { IfOk result (λ l. IsOf arena.now l.kit × (held_in l.kit ≡ []) × (l.kit.made ≡ 0)) }
    ensures own { All (λ l. IsOf arena.now l.kit) lanes.new.items }
    ensures free { All (λ l. (held_in l.kit ≡ []) × (l.kit.made ≡ 0)) lanes.new.items }
{
    match lanes.pop() {
        Some(lane) => Ok(lane),
        None => Err(AllocError),
    }
}

/// A new arena and its two lanes, each with the pass of a session.
fn new_pair(alloc: Global) -> Result<(Arena, Client, Client), Fail>
    ensures arena { IfOk result (λ r. (r.0.shape.width ≡ 64) × (r.0.shape.lanes ≡ 2) × (11 < r.0.shape.sectors)) }
    ensures first { IfOk result (λ r. IsOf r.0 r.1.lane.kit × (r.1.lane.kit.number ≡ 0)) }
    ensures second { IfOk result (λ r. IsOf r.0 r.2.lane.kit × (r.2.lane.kit.number ≡ 1)) }
{
    let state = opened(alloc, new_words(alloc)?)?;
    let layout = &state.info.layout;
    if layout.sector != 512 || layout.lanes != 2 || layout.external <= 11 {
        return Err(AllocError)?;
    }
    let (arena, mut lanes) = Arena::of(alloc, state)?;
    let second = last_of(&arena, &mut lanes)?;
    let mut first = last_of(&arena, &mut lanes)?;
    if first.number() != 0 || second.number() != 1 {
        return Err(AllocError)?;
    }
    let own = first.pass(&arena);
    let other = first.pass(&arena);
    let first = begin(&arena, first, own);
    let second = begin(&arena, second, other);
    Ok((arena, first, second))
}

/// A session writes to sector 9.
fn write(arena: &Arena, client: Client, value: u64) -> Option<Client>
    requires width { arena.now.shape.width ≡ 64 }
    requires sectors { 11 < arena.now.shape.sectors }
    requires lane { IsOf arena.now client.lane.kit }
    ensures { IfSome result (λ c. IsOf arena.now c.lane.kit × (c.lane.kit.number ≡ client.lane.kit.number)) }
{
    commit(arena, stage(arena, client, value)?, 9)
}

/// A session writes these values to sector 9, one after another.
fn write_all(arena: &Arena, mut client: Client, values: &[u64]) -> Option<Client>
    requires width { arena.now.shape.width ≡ 64 }
    requires sectors { 11 < arena.now.shape.sectors }
    requires lane { IsOf arena.now client.lane.kit }
    ensures { IfSome result (λ c. IsOf arena.now c.lane.kit × (c.lane.kit.number ≡ client.lane.kit.number)) }
{
    for value in values {
        client = write(arena, client, *value)?;
    }
    Some(client)
}

/// A session reads sector 9 many times, until it finds the last value. `None` if two words of a read differ, or if a value is older than
/// one that was read before.
fn read_rising(arena: &Arena, mut client: Client, last: u64) -> Option<Client>
    requires width { arena.now.shape.width ≡ 64 }
    requires sectors { 11 < arena.now.shape.sectors }
    requires lane { IsOf arena.now client.lane.kit }
    ensures { IfSome result (λ c. IsOf arena.now c.lane.kit × (c.lane.kit.number ≡ client.lane.kit.number)) }
{
    let mut newest = 0;
    let mut into = [0; 64];
    for _ in 0..READS {
        if newest == last {
            return Some(client);
        }
        client = read_again(arena, client, 9, &mut into)?;
        let value = value_of(&into)?;
        if value < newest {
            return None;
        }
        newest = value;
    }
    Some(client)
}

/// Closes an arena of two lanes.
fn close(alloc: Global, arena: Arena, first: LaneEnd, second: LaneEnd) -> Result<Closed, Fail>
    requires lanes { arena.shape.lanes ≡ 2 }
    requires first { ((kit_in first).seat.table_id ≡ arena_id arena) × ((kit_in first).number ≡ 0) }
    requires second { ((kit_in second).seat.table_id ≡ arena_id arena) × ((kit_in second).number ≡ 1) }
{
    let mut ends = Vec::new(alloc);
    ends.push(first)?;
    ends.push(second)?;
    match arena.close(alloc, ends) {
        Ok(closed) => Ok(closed),
        Err(_) => Err(AllocError)?,
    }
}

/// How many calls a lane's log has.
fn calls_of(closed: &Closed, lane: usize) -> Option<usize> {
    Some(closed.logs.get(lane)?.len())
}

/// The number that the first call of a lane has in its session.
fn first_call(closed: &Closed, lane: usize) -> Option<u32> {
    Some(closed.logs.get(lane)?.first()?.tag.call)
}

/// The map entry of a sector in the words of such an arena.
fn entry_of(words: &[u64], sector: u32) -> Result<u32, Fail> {
    let at = plan(16 << 20, 512, 2)?.map_off / 8 + u64::from(sector / 2);
    if at >= words.len() as u64 {
        return Err(AllocError)?;
    }
    Ok(entry_in(words[at as usize], sector))
}

/// A session that writes these values to sector 9 between a reader's first look at the map and the store of its reader word.
#[derive(Drop)]
struct Meanwhile<'a> {
    arena: &'a Arena,
    client: Option<Client>,
    values: &'a [u64],
    ghost sized: { (arena.now.shape.width ≡ 64) × (11 < arena.now.shape.sectors) },
    ghost its_lane: { (c : Client_at) → client ≡ Some c → IsOf arena.now c.lane.kit },
}

impl<'a> Pause for Meanwhile<'a> {
    fn pause(&mut self) {
        if let Some(client) = self.client.take() {
            self.client = write_all(self.arena, client, self.values);
        }
    }
}

/// Lane 1 stops with the lock of sectors 8 and 9, which share a map word. Sector 10 has another lock. After its write of sector 10,
/// block 10 is lane 0's free block.
#[test]
fn a_lane_that_stops_keeps_its_lock(rt: HostRuntime) -> Result<(), Fail> {
    let alloc = rt.alloc();
    let (arena, first, second) = new_pair(alloc)?;
    let ready = stage(&arena, second, 11).ok_or(AllocError)?;
    let stopped = cut(&arena, ready, 9, 1).ok_or(AllocError)?;
    let ready = stage(&arena, first, 22).ok_or(AllocError)?;
    let (ready, holder) = refused(&arena, ready, 8).ok_or(AllocError)?;
    assert_eq!(rt; holder, 1);
    let first = commit(&arena, ready, 10).ok_or(AllocError)?;
    let ready = stage(&arena, first, 33).ok_or(AllocError)?;
    let first = commit(&arena, ready, 11).ok_or(AllocError)?;
    let first = LaneEnd::Idle(first.lane);
    let closed = close(alloc, arena, first, LaneEnd::Stopped(stopped))?;
    assert_eq!(rt; calls_of(&closed, 0), Some(2));
    for (sector, entry) in [
        (8, 0x8000_0008),
        (9, 0x8000_0009),
        (10, 0xC000_7EE0),
        (11, 0xC000_000A),
    ] {
        assert_eq!(rt; entry_of(&closed.seen, sector)?, entry, "sector {sector}");
    }
    Ok(())
}

#[test]
fn nine_steps_make_a_commit(rt: HostRuntime) -> Result<(), Fail> {
    let alloc = rt.alloc();
    let (arena, first, second) = new_pair(alloc)?;
    let mut ready = stage(&arena, second, 11).ok_or(AllocError)?;
    ready.staged.set_fuse(Some(9));
    let second = commit(&arena, ready, 9).ok_or(AllocError)?;
    assert_eq!(rt; second.lane.left(), Some(0));
    let second = LaneEnd::Idle(second.lane);
    let closed = close(alloc, arena, LaneEnd::Idle(first.lane), second)?;
    assert!(rt; closed.seen.as_slice() == closed.kept.as_slice());
    assert_eq!(rt; entry_of(&closed.kept, 9)?, 0xC000_7EE1);
    Ok(())
}

/// The sixth step keeps word B. Opening makes the move that the map doesn't show.
#[test]
fn a_commit_that_is_cut_is_completed_by_opening(rt: HostRuntime) -> Result<(), Fail> {
    let alloc = rt.alloc();
    let (arena, first, second) = new_pair(alloc)?;
    let ready = stage(&arena, second, 11).ok_or(AllocError)?;
    let stopped = cut(&arena, ready, 9, 6).ok_or(AllocError)?;
    let first = LaneEnd::Idle(first.lane);
    let closed = close(alloc, arena, first, LaneEnd::Stopped(stopped))?;
    assert_eq!(rt; entry_of(&closed.seen, 9)?, 0x8000_0009);
    let Closed { kept, .. } = closed;
    let state = opened(alloc, kept)?;
    assert_eq!(rt; state.moves(), 1);
    assert_eq!(rt; entry_of(state.words.as_slice(), 9)?, 0xC000_7EE1);
    Ok(())
}

/// Lane 0 stops as it says that it reads block 32,481. Lane 1 gets that block back by its next write, and can't fill it.
#[test]
fn a_write_finds_the_reader_of_its_block(rt: HostRuntime) -> Result<(), Fail> {
    let alloc = rt.alloc();
    let (arena, first, second) = new_pair(alloc)?;
    let second = write(&arena, second, 11).ok_or(AllocError)?;
    let _reader = cut_read(&arena, first, 9, 2).ok_or(AllocError)?;
    let second = write(&arena, second, 22).ok_or(AllocError)?;
    let mut writer = second.lane;
    writer.reserve(1)?;
    writer.set_fuse(Some(9));
    let StageOutcome::Tracked {
        lane,
        reader,
        block,
    } = writer.try_stage(&arena, &[33; 64])
    else {
        return Err(AllocError)?;
    };
    assert_eq!(rt; (reader, block, lane.left()), (0, 32_481, Some(8)));
    Ok(())
}

/// Lane 1 writes twice between the reader's two looks, and the block is the sector's again.
#[test]
fn a_read_finds_the_block_that_came_back(rt: HostRuntime) -> Result<(), Fail> {
    let alloc = rt.alloc();
    let (arena, first, second) = new_pair(alloc)?;
    let mut meanwhile = Meanwhile {
        arena: &arena,
        client: write(&arena, second, 11),
        values: &[22, 33],
    };
    let mut into = [7; 64];
    let (_, kind) = read(&arena, first, 9, &mut into, &mut meanwhile).ok_or(AllocError)?;
    assert!(rt; matches!(kind, CellKind::Bytes));
    assert_eq!(rt; value_of(&into), Some(33));
    Ok(())
}

/// The same with one write: the two looks differ. The next read finds the new block.
#[test]
fn a_read_says_that_its_sector_moved(rt: HostRuntime) -> Result<(), Fail> {
    let alloc = rt.alloc();
    let (arena, reader, second) = new_pair(alloc)?;
    let mut meanwhile = Meanwhile {
        arena: &arena,
        client: write(&arena, second, 11),
        values: &[22],
    };
    let mut into = [7; 64];
    let (reader, first, then) = moved(&arena, reader, 9, &mut into, &mut meanwhile).ok_or(
        AllocError,
    )?;
    assert_eq!(rt;
        (first, then, value_of(&into)),
        (0xC000_7EE1, 0xC000_0009, Some(7))
    );
    let (_, kind) = read(&arena, reader, 9, &mut into, &mut Straight).ok_or(AllocError)?;
    assert!(rt; matches!(kind, CellKind::Bytes));
    assert_eq!(rt; value_of(&into), Some(22));
    Ok(())
}

/// A session writes by lane 0 and then by lane 1. Each lane has its own call, and the session goes on counting.
#[test]
fn a_session_goes_from_lane_to_lane(rt: HostRuntime) -> Result<(), Fail> {
    let alloc = rt.alloc();
    let (arena, first, second) = new_pair(alloc)?;
    let first = write(&arena, first, 11).ok_or(AllocError)?;
    let (first, second) = go_on(&arena, first, second).ok_or(AllocError)?;
    let second = write(&arena, second, 22).ok_or(AllocError)?;
    assert_eq!(rt; (second.session, second.next), (0, 2));
    let second = LaneEnd::Idle(second.lane);
    let closed = close(alloc, arena, LaneEnd::Idle(first), second)?;
    assert_eq!(rt;
        (calls_of(&closed, 0), calls_of(&closed, 1)),
        (Some(1), Some(1))
    );
    assert_eq!(rt;
        (first_call(&closed, 0), first_call(&closed, 1)),
        (Some(0), Some(1))
    );
    Ok(())
}

/// One session reads while another one writes, each in a thread of its own.
fn at_once<R: Threads + Sync>(
    rt: &R,
    arena: &Arena,
    first: Client,
    second: Client,
    values: &[u64],
) -> (Option<Client>, Option<Client>)
    requires width { arena.now.shape.width ≡ 64 }
    requires sectors { 11 < arena.now.shape.sectors }
    requires first { IsOf arena.now first.lane.kit }
    requires second { IsOf arena.now second.lane.kit }
    ensures first { IfSome result.0 (λ c. IsOf arena.now c.lane.kit × (c.lane.kit.number ≡ first.lane.kit.number)) }
    ensures second { IfSome result.1 (λ c. IsOf arena.now c.lane.kit × (c.lane.kit.number ≡ second.lane.kit.number)) }
{
    let last = values.len() as u64;
    thread::join(
        rt,
        move || read_rising(arena, first, last),
        move || write_all(arena, second, values),
    )
}

/// The words of each read are alike, and no value is older than one that was read before. At the end all is kept.
#[test]
fn a_read_beside_writes_is_whole(rt: HostRuntime) -> Result<(), Fail> {
    let alloc = rt.alloc();
    let (arena, first, second) = new_pair(alloc)?;
    let mut values = Vec::new(alloc);
    for value in 0..2_000u64 {
        values.push(value + 1)?;
    }
    let (first, second) = at_once(&rt, &arena, first, second, &values);
    let first = LaneEnd::Idle(first.ok_or(AllocError)?.lane);
    let second = LaneEnd::Idle(second.ok_or(AllocError)?.lane);
    let closed = close(alloc, arena, first, second)?;
    assert_eq!(rt; calls_of(&closed, 1), Some(2_000));
    assert!(rt; closed.seen.as_slice() == closed.kept.as_slice());
    Ok(())
}
