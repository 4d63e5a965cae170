//! An arena with two sessions, its end, and what is left in it.
ghost use Rattle.std.specs.Prelude.{◌≡◌, ◌<◌, [], ◌∷◌, IfOk, None};
ghost use Rattle.turn_lock.specs.Passes.{callers_of, first_of};
ghost use Rattle.arena_open.specs.Moves.{IsOpenState};
ghost use Rattle.lane_calls.specs.Sessions.{Know, Parts};
ghost use Rattle.lane_sessions.specs.Ending.{lists_of};
ghost use Rattle.lane_sessions.specs.Sets.{AreSets};
ghost use Rattle.bio_queue.specs.Serving.{MayMake};

use crate::words::{new_words, parent};
use arena_open::{ArenaState, CellKind, cell_of, open_arena};
use bio_queue::new_session_may_make;
use cut_words::{CutWords, Fuse, WordSpace};
use lane_calls::{Sectors, Session, rest};
use lane_sessions::{Ended, Made, SessionLimits, close_sectors, make_sectors};
use lane_table::LaneEnd;
use std::alloc::{AllocError, Global};
use std::sync::Wait;
use std::test::Fail;

/// How many sectors the arena has.
pub(crate) const SECTORS: u32 = 32_478;

/// How many words a sector has.
pub(crate) const WIDTH: usize = 64;

/// How many calls each session may make.
pub(crate) const CALLS: u32 = 200;

/// The sectors of an arena, and two sessions that use them.
#[derive(Drop)]
pub(crate) struct Begun {
    pub(crate) sectors: Sectors,
    pub(crate) aside: Vec<Vec<LaneEnd>>,
    pub(crate) sessions: Vec<Session>,
}

/// The arena of these words.
fn opened(alloc: Global, words: Vec<u64>) -> Result<ArenaState, Fail>
    ensures open { IfOk result IsOpenState }
    ensures width { IfOk result (λ s. s.info.layout.sector ≡ 512) }
    ensures sectors { IfOk result (λ s. s.info.layout.external ≡ 32478) }
{
    let mut space = CutWords::new(alloc, words)?;
    if space.count() < 512 || space.count() >= 1 << 60 {
        return Err(AllocError)?;
    }
    let state = open_arena(alloc, &mut space, &mut Fuse::none(), 0, &parent())?;
    if state.info.layout.sector != 512 || state.info.layout.external != SECTORS {
        return Err(AllocError)?;
    }
    Ok(state)
}

/// The two items of a list.
pub(crate) fn two_of<T: Drop>(mut items: Vec<T>) -> Result<(T, T), AllocError>
    ensures { IfOk result (λ r. items.items ≡ r.0 ∷ r.1 ∷ []) }
{
    let Some(second) = items.pop() else {
        return Err(AllocError);
    };
    let Some(first) = items.pop() else {
        return Err(AllocError);
    };
    if !items.is_empty() {
        return Err(AllocError);
    }
    Ok((first, second))
}

/// A new arena and its sessions.
pub(crate) fn begin(alloc: Global) -> Result<Begun, Fail>
    ensures callers { IfOk result (λ r. callers_of r.sectors.pool.turn ≡ 2) }
    ensures sets { IfOk result (λ r. AreSets 2 r.sectors.arenas.items (first_of r.sectors.pool.turn).first (lists_of r.aside.items)) }
    ensures sessions { IfOk result (λ r. (a b : _) × (r.sessions.items ≡ a ∷ b ∷ []) × (a.number ≡ 0) × (b.number ≡ 1)
        × MayMake r.sectors 32478 64 200 [] a × MayMake r.sectors 32478 64 200 [] b) }
{
    let state = opened(alloc, new_words(alloc)?)?;
    let mut states = Vec::new(alloc);
    states.push(state)?;
    let limit = SessionLimits {
        cut: None,
        calls: CALLS,
    };
    let made = make_sectors(alloc, states, 4, &[limit, limit])?;
    new_session_may_make();
    let Made {
        sectors,
        aside,
        sessions,
    } = made;
    Ok(Begun {
        sectors,
        aside,
        sessions,
    })
}

/// A session gives back the set of lanes that it keeps.
fn pause<R: Wait>(rt: &R, sectors: &Sectors, session: &mut Session)
    requires between { (parts : Parts) × Know sectors.now session.old.number parts session.old }
    ensures number { session.new.number ≡ session.old.number }
    ensures between { (parts : Parts) × Know sectors.now session.new.number parts session.new }
    ensures rests { session.new.kept ≡ None }
{
    rest(rt, sectors, session);
}

/// Closes the sectors.
pub(crate) fn end<R: Wait>(
    rt: &R,
    alloc: Global,
    sectors: Sectors,
    aside: Vec<Vec<LaneEnd>>,
    mut first: Session,
    mut second: Session,
) -> Result<Ended, AllocError>
    requires callers { callers_of sectors.pool.turn ≡ 2 }
    requires sets { AreSets 2 sectors.arenas.items (first_of sectors.pool.turn).first (lists_of aside.items) }
    requires numbers { (first.number ≡ 0) × (second.number ≡ 1) }
    requires first { (parts : Parts) × Know sectors first.number parts first }
    requires second { (parts : Parts) × Know sectors second.number parts second }
{
    pause(rt, &sectors, &mut first);
    pause(rt, &sectors, &mut second);
    let mut sessions = Vec::new(alloc);
    sessions.push(first)?;
    sessions.push(second)?;
    close_sectors(alloc, sectors, aside, sessions)
}

/// The last word of a sector of the arena that opens from what is left. `None` if it has no bytes.
pub(crate) fn left_in(alloc: Global, ended: &Ended, sector: u32) -> Result<Option<u64>, Fail>
    requires { sector < 32478 }
{
    let words = ended.words.first().ok_or(AllocError)?;
    let state = opened(alloc, words.kept.clone()?)?;
    let mut into = [0; 64];
    match cell_of(&state, sector, &mut into) {
        CellKind::Bytes => Ok(Some(into[63])),
        CellKind::Bad => Ok(None),
    }
}
