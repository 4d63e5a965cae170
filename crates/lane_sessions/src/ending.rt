//! Closes the arenas of sessions, with the pool of their lanes.
ghost use Rattle.std.specs.Prelude.{◌≡◌, ℕ, ◌<◌, List, [], ◌∷◌, ◌++◌, length, map, All, IfOk, None};
ghost use Rattle.turn_lock.specs.Passes.{callers_of, first_of};
ghost use Rattle.arena_open.specs.declared.state.ArenaState.{ArenaState};
ghost use Rattle.arena_open.specs.Moves.{IsOpenState};
ghost use Rattle.lane_calls.specs.Sessions.{Parts};
ghost use Rattle.lane_sessions.specs.Ending.{AreAllIn, AreArenasLeft, AreOpened, IsOffBy, KnowAll, lists_of};
ghost use Rattle.lane_sessions.specs.Sets.{AreMadeOf, AreSets};

use crate::closing::close_arena;
use crate::places::{all_lanes, take_last};
use lane_calls::{Caller, Sectors, Session};
use lane_core::ArenaWords;
use lane_pool::{LaneSet, Pool, PowerOff};
use lane_table::{Arena, LaneEnd, Pass};
use std::alloc::{AllocError, Global};
use turn_lock::TurnPass;

/// What sessions leave.
#[derive(Drop)]
pub struct Ended {
    /// The words of each arena, in their order.
    pub words: Vec<ArenaWords>,
    /// Who switched power off, if somebody did.
    pub off: Option<PowerOff>,
}

// What sessions hand in.
#[derive(Drop)]
struct HandedIn {
    passes: Vec<Vec<Option<Pass>>>,
    turns: Vec<TurnPass<Pool>>,
}

// The passes of all sessions.
fn hand_in(alloc: Global, sessions: Vec<Session>) -> Result<HandedIn, AllocError>
    ensures passes { IfOk result (λ h. h.passes.items ≡ map (λ s. s.passes) sessions.items) }
    ensures turns { IfOk result (λ h. h.turns.items ≡ map (λ s. s.caller.pool) sessions.items) }
{
    let mut passes = Vec::new(alloc);
    let mut turns = Vec::new(alloc);
    for session in sessions {
        let Session {
            passes: own,
            caller,
            ..
        } = session;
        let Caller { pool, .. } = caller;
        passes.push(own)?;
        turns.push(pool)?;
    }
    Ok(HandedIn { passes, turns })
}

// The lanes of each set.
fn lanes_of(alloc: Global, sets: Vec<LaneSet>) -> Result<Vec<Vec<Option<LaneEnd>>>, AllocError>
    ensures { IfOk result (λ v. v.items ≡ map (λ s. s.ends) sets.items) }
{
    let mut rows = Vec::new(alloc);
    for set in sets {
        let LaneSet { ends, .. } = set;
        rows.push(ends)?;
    }
    Ok(rows)
}

// The lanes of the last arena that stand aside.
fn pop_aside(aside: &mut Vec<Vec<LaneEnd>>) -> Vec<LaneEnd>
    requires { 0 < length aside.old.items }
    ensures { aside.old.items ≡ aside.new.items ++ result ∷ [] }
{
    match aside.pop() {
        Some(lanes) => lanes,
        None => unreachable!(),
    }
}

// Closes the arenas, the last one first.
fn close_row(
    alloc: Global,
    mut arenas: Vec<Arena>,
    sets: &mut [Vec<Option<LaneEnd>>],
    mut aside: Vec<Vec<LaneEnd>>,
    passes: &mut [Vec<Option<Pass>>],
) -> Result<Vec<ArenaWords>, AllocError>
    requires { (parts : ℕ → Parts) × AreAllIn arenas.items sets.old aside.items passes.old parts }
    ensures { (states : List ArenaState) (parts : ℕ → Parts) → AreOpened states arenas.items → AreAllIn arenas.items sets.old aside.items passes.old parts → IfOk result (λ v. AreArenasLeft (length passes.old) states parts (length arenas.items) v.items) }
{
    let Some(arena) = arenas.pop() else {
        return Ok(Vec::new(alloc));
    };
    let more = pop_aside(&mut aside);
    let ends = take_last(alloc, sets)?;
    let pass = take_last(alloc, passes)?;
    let lanes = all_lanes(alloc, ends, more)?;
    let last = close_arena(alloc, arena, lanes, pass)?;
    let mut words = close_row(alloc, arenas, sets, aside, passes)?;
    words.push(last)?;
    Ok(words)
}

/// Closes the arenas of sessions, which are all between two calls and rest, and the pool of their
/// lanes.
///
/// The one refusal is out of memory. Then the arenas, their lanes and all passes are dropped.
pub fn close_sectors(
    alloc: Global,
    sectors: Sectors,
    aside: Vec<Vec<LaneEnd>>,
    sessions: Vec<Session>,
) -> Result<Ended, AllocError>
    requires every { length sessions.items ≡ callers_of sectors.pool.turn }
    requires sets { AreSets (length sessions.items) sectors.arenas.items (first_of sectors.pool.turn).first (lists_of aside.items) }
    requires known { (parts : ℕ → Parts) × KnowAll sectors parts sessions.items }
    requires rest { All (λ s. s.kept ≡ None) sessions.items }
    ensures left { (states : List ArenaState) (parts : ℕ → Parts) → AreMadeOf states sectors.arenas.items → All IsOpenState states → KnowAll sectors parts sessions.items → IfOk result (λ e. AreArenasLeft (length sessions.items) states parts (length sectors.arenas.items) e.words.items) }
    ensures off { IfOk result (λ e. IsOffBy sessions.items e.off) }
{
    let Sectors { arenas, pool } = sectors;
    let handed = hand_in(alloc, sessions)?;
    let HandedIn { mut passes, turns } = handed;
    let closed = pool.close(alloc, turns)?;
    let (sets, off) = closed;
    let mut lanes = lanes_of(alloc, sets)?;
    let rows = lanes.as_mut_slice();
    let own = passes.as_mut_slice();
    let words = close_row(alloc, arenas, rows, aside, own)?;
    Ok(Ended { words, off })
}
