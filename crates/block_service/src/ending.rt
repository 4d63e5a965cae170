//! The sessions rest, and the arena is closed.
ghost use Rattle.std.specs.Prelude.{◌≡◌, ◌<◌, [], ◌∷◌, ◌++◌, length, map, All, IfOk};
ghost use Rattle.turn_lock.specs.Passes.{callers_of, first_of};
ghost use Rattle.arena_open.specs.declared.state.ArenaState.{ArenaState};
ghost use Rattle.arena_open.specs.Moves.{IsOpenState};
ghost use Rattle.lane_calls.specs.Sessions.{Know, Parts};
ghost use Rattle.lane_sessions.specs.Ending.{lists_of};
ghost use Rattle.lane_sessions.specs.Left.{IsArenaLeft};
ghost use Rattle.lane_sessions.specs.Sets.{AreMadeOf, AreSets};
ghost use Rattle.block_service.specs.Served.{known_by};
ghost use Rattle.block_service.specs.Sessions.{AreOver, AreRested, IsRested};

use crate::running::Over;
use bio_queue::Completed;
use lane_calls::{Sectors, Session, rest};
use lane_core::ArenaWords;
use lane_sessions::{Ended, close_sectors};
use lane_table::LaneEnd;
use std::alloc::{AllocError, Global};
use std::sync::Wait;

/// What operations came to.
#[derive(Drop)]
pub struct BlocksServed {
    /// What each desk's worker completed, in order.
    pub completed: Vec<Vec<Completed>>,
    /// The words of the arena.
    pub words: ArenaWords,
}

// A session gives its set of lanes back.
fn rested<R: Wait>(rt: &R, sectors: &Sectors, mut session: Session) -> Session
    requires { (parts : Parts) × Know sectors.now session.number parts session }
    ensures { IsRested sectors.now session result }
{
    rest(rt, sectors, &mut session);
    session
}

// All sessions give their sets of lanes back.
fn rest_all<R: Wait>(
    rt: &R,
    alloc: Global,
    sectors: &Sectors,
    sessions: Vec<Session>,
) -> Result<Vec<Session>, AllocError>
    requires { All (λ s. (parts : Parts) × Know sectors.now s.number parts s) sessions.items }
    ensures { IfOk result (λ v. AreRested sectors.now sessions.items v.items) }
{
    let mut resting = Vec::new(alloc);
    for session in sessions {
        resting.push(rested(rt, sectors, session))?;
    }
    Ok(resting)
}

// The words of the last arena.
fn last_words(words: &mut Vec<ArenaWords>) -> ArenaWords
    requires { 0 < length words.old.items }
    ensures { words.old.items ≡ words.new.items ++ result ∷ [] }
{
    match words.pop() {
        Some(last) => last,
        None => unreachable!(),
    }
}

/// Closes the arena, when its sessions are between two calls.
///
/// The one refusal is out of memory. Then all is dropped.
pub(crate) fn end<R: Wait>(
    rt: &R,
    alloc: Global,
    sectors: Sectors,
    aside: Vec<Vec<LaneEnd>>,
    over: Over,
) -> Result<BlocksServed, AllocError>
    requires callers { callers_of sectors.pool.turn ≡ length over.completed.items }
    requires sets { AreSets (length over.completed.items) sectors.arenas.items (first_of sectors.pool.turn).first (lists_of aside.items) }
    requires made { (state : ArenaState) × AreMadeOf (state ∷ []) sectors.arenas.items × IsOpenState state }
    requires sessions { AreOver sectors (map (λ v. v.items) over.completed.items) over.sessions.items }
    ensures completed { IfOk result (λ r. r.completed ≡ over.completed) }
    ensures arena { (state : ArenaState) → AreMadeOf (state ∷ []) sectors.arenas.items → IsOpenState state
        → IfOk result (λ r. IsArenaLeft (length over.completed.items) state (known_by (map (λ v. v.items) over.completed.items)) r.words) }
{
    let Over {
        completed,
        sessions,
    } = over;
    let sessions = rest_all(rt, alloc, &sectors, sessions)?;
    let ended = close_sectors(alloc, sectors, aside, sessions)?;
    let Ended { mut words, .. } = ended;
    let words = last_words(&mut words);
    Ok(BlocksServed { completed, words })
}
