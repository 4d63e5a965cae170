//! An arena of 16 MiB with 32,480 sectors of 512 bytes, and three sessions.
ghost use Rattle.std.specs.Prelude.{◌≡◌, ◌+◌, ◌<◌, ◌≤◌, ℕ, [], ◌∷◌, IfOk, true};
ghost use Rattle.turn_lock.specs.Passes.{callers_of, first_of};
ghost use Rattle.arena_open.specs.Moves.{IsOpenState};
ghost use Rattle.lane_sessions.specs.Ending.{lists_of};
ghost use Rattle.lane_sessions.specs.Sets.{AreSets};
ghost use Rattle.lane_session_tests.specs.More.{IsBetween, MayCallMore};

use crate::calls::{get, pause, put};
use crate::words::{new_words, parent};
use arena_open::{ArenaState, CellKind, cell_of, open_arena};
use cut_words::{CutWords, Fuse, WordSpace};
use lane_calls::{Sectors, Session};
use lane_sessions::{Ended, Made, SessionLimits, close_sectors, make_sectors};
use lane_table::LaneEnd;
use std::alloc::{AllocError, Global};
use std::sync::Wait;
use std::test::Fail;

/// The arena of these words.
fn opened(alloc: Global, words: Vec<u64>) -> Result<ArenaState, Fail>
    ensures open { IfOk result IsOpenState }
    ensures width { IfOk result (λ s. s.info.layout.sector ≡ 512) }
    ensures sectors { IfOk result (λ s. 60 < s.info.layout.external) }
{
    let mut space = CutWords::new(alloc, words)?;
    if space.count() < 512 || space.count() >= 1 << 60 {
        return Err(AllocError)?;
    }
    let state = open_arena(alloc, &mut space, &mut Fuse::none(), 0, &parent())?;
    if state.info.layout.sector != 512 || state.info.layout.external <= 60 {
        return Err(AllocError)?;
    }
    Ok(state)
}

/// The three sessions of a list.
fn three_of(mut sessions: Vec<Session>) -> Result<(Session, Session, Session), AllocError>
    ensures { IfOk result (λ r. sessions.items ≡ r.0 ∷ r.1 ∷ r.2 ∷ []) }
{
    let Some(third) = sessions.pop() else {
        return Err(AllocError);
    };
    let Some(second) = sessions.pop() else {
        return Err(AllocError);
    };
    let Some(first) = sessions.pop() else {
        return Err(AllocError);
    };
    if !sessions.is_empty() {
        return Err(AllocError);
    }
    Ok((first, second, third))
}

/// The sectors of an arena, and three sessions that use them.
#[derive(Drop)]
struct Run {
    sectors: Sectors,
    aside: Vec<Vec<LaneEnd>>,
    first: Session,
    second: Session,
    third: Session,
}

/// A new arena and its sessions. The second one cuts power after 1,000 steps.
fn begin(alloc: Global) -> Result<Run, Fail>
    ensures callers { IfOk result (λ r. callers_of r.sectors.pool.turn ≡ 3) }
    ensures sets { IfOk result (λ r. AreSets 3 r.sectors.arenas.items (first_of r.sectors.pool.turn).first (lists_of r.aside.items)) }
    ensures first { IfOk result (λ r. (r.first.number ≡ 0) × MayCallMore r.sectors 601 r.first) }
    ensures second { IfOk result (λ r. (r.second.number ≡ 1) × MayCallMore r.sectors 20 r.second) }
    ensures third { IfOk result (λ r. (r.third.number ≡ 2) × MayCallMore r.sectors 3 r.third) }
{
    let state = opened(alloc, new_words(alloc)?)?;
    let mut states = Vec::new(alloc);
    states.push(state)?;
    let limits = [
        SessionLimits {
            cut: None,
            calls: 601,
        },
        SessionLimits {
            cut: Some(1_000),
            calls: 20,
        },
        SessionLimits {
            cut: None,
            calls: 3,
        },
    ];
    let made = make_sectors(alloc, states, 4, &limits)?;
    let Made {
        sectors,
        aside,
        sessions,
    } = made;
    let (first, second, third) = three_of(sessions)?;
    Ok(Run {
        sectors,
        aside,
        first,
        second,
        third,
    })
}

/// Closes the sectors.
fn finish<R: Wait>(
    rt: &R,
    alloc: Global,
    sectors: Sectors,
    aside: Vec<Vec<LaneEnd>>,
    mut first: Session,
    mut second: Session,
    mut third: Session,
) -> Result<Ended, AllocError>
    requires callers { callers_of sectors.pool.turn ≡ 3 }
    requires sets { AreSets 3 sectors.arenas.items (first_of sectors.pool.turn).first (lists_of aside.items) }
    requires first { (first.number ≡ 0) × IsBetween sectors first }
    requires second { (second.number ≡ 1) × IsBetween sectors second }
    requires third { (third.number ≡ 2) × IsBetween sectors third }
{
    pause(rt, &sectors, &mut first);
    pause(rt, &sectors, &mut second);
    pause(rt, &sectors, &mut third);
    let mut sessions = Vec::new(alloc);
    sessions.push(first)?;
    sessions.push(second)?;
    sessions.push(third)?;
    close_sectors(alloc, sectors, aside, sessions)
}

/// The last word of a sector of the arena that opens from what is left.
fn left_in(alloc: Global, ended: &Ended, sector: u32) -> Result<Option<u64>, Fail>
    requires { sector ≤ 60 }
{
    let words = ended.words.first().ok_or(AllocError)?;
    let state = opened(alloc, words.kept.clone()?)?;
    let mut into = [0; 64];
    match cell_of(&state, sector, &mut into) {
        CellKind::Bytes => Ok(Some(into[63])),
        _ => Ok(None),
    }
}

/// A write that the same session reads back.
fn write_one<R: Wait>(
    rt: &R,
    sectors: &Sectors,
    session: &mut Session,
    sector: u32,
    value: u64,
) -> bool
    requires may { MayCallMore sectors.now 2 session.old }
    requires sector { sector ≤ 60 }
    ensures number { session.new.number ≡ session.old.number }
    ensures done { result ≡ true → (n : ℕ) → MayCallMore sectors.now (n + 2) session.old → MayCallMore sectors.now n session.new }
    ensures between { IsBetween sectors.now session.new }
{
    if !put(rt, sectors, session, sector, value) {
        return false;
    }
    match get(rt, sectors, session, sector) {
        Some(found) => found == value,
        None => false,
    }
}

/// Writes the numbers from 1 to 300 to 50 sectors, and reads each back.
fn write_all<R: Wait>(rt: &R, sectors: &Sectors, session: &mut Session) -> bool
    requires may { MayCallMore sectors.now 601 session.old }
    ensures number { session.new.number ≡ session.old.number }
    ensures done { result ≡ true → MayCallMore sectors.now 1 session.new }
    ensures between { IsBetween sectors.now session.new }
{
    for n in 0..300u32 {
        if !write_one(rt, sectors, session, n % 50, u64::from(n) + 1) {
            return false;
        }
    }
    true
}

/// Writes the numbers from 1,000 on to sector 60 until power is cut. Returns how many writes are
/// done.
fn write_until_cut<R: Wait>(rt: &R, sectors: &Sectors, session: &mut Session) -> u32
    requires may { MayCallMore sectors.now 20 session.old }
    ensures number { session.new.number ≡ session.old.number }
    ensures between { IsBetween sectors.now session.new }
{
    for n in 0..20u32 {
        if !put(rt, sectors, session, 60, u64::from(n) + 1_000) {
            return n;
        }
    }
    20
}

/// The first session writes and reads, and the third one reads what it wrote. The first one gives
/// its set back; the arena has two lanes, so the second one would wait for ever. Then the second
/// one cuts power in its eighth write. The first one is told so, and the third one once it has no
/// set.
#[test]
fn sessions_go_on_until_one_cuts_power(rt: HostRuntime) -> Result<(), Fail> {
    let alloc = rt.alloc();
    let Run {
        sectors,
        aside,
        mut first,
        mut second,
        mut third,
    } = begin(alloc)?;
    assert!(rt; write_all(&rt, &sectors, &mut first));
    let Some(found) = get(&rt, &sectors, &mut third, 49) else {
        return Err(AllocError)?;
    };
    assert_eq!(rt; found, 300);
    pause(&rt, &sectors, &mut first);
    assert_eq!(rt; write_until_cut(&rt, &sectors, &mut second), 7);
    assert!(rt; !put(&rt, &sectors, &mut first, 1, 5));
    let Some(found) = get(&rt, &sectors, &mut third, 1) else {
        return Err(AllocError)?;
    };
    assert_eq!(rt; found, 252);
    pause(&rt, &sectors, &mut third);
    assert_eq!(rt; get(&rt, &sectors, &mut third, 1), None);
    let ended = finish(&rt, alloc, sectors, aside, first, second, third)?;
    assert!(rt; ended.off.is_some());
    assert_eq!(rt; ended.words.len(), 1);
    assert_eq!(rt; left_in(alloc, &ended, 1)?, Some(252));
    assert_eq!(rt; left_in(alloc, &ended, 49)?, Some(300));
    assert_eq!(rt; left_in(alloc, &ended, 60)?, Some(1_006));
    Ok(())
}
