//! The arena's sectors, with a session for each desk.
ghost use Rattle.std.specs.Prelude.{◌≡◌, ◌<◌, [], ◌∷◌, All, None, length, IfOk};
ghost use Rattle.turn_lock.specs.Passes.{callers_of, first_of};
ghost use Rattle.arena_open.specs.Moves.{IsOpenState};
ghost use Rattle.lane_sessions.specs.Ending.{lists_of};
ghost use Rattle.lane_sessions.specs.Sets.{AreMadeOf, AreSets};
ghost use Rattle.block_service.specs.Sessions.{AreBegun};

use arena_open::ArenaState;
use bio_queue::new_session_may_make;
use lane_calls::{Sectors, Session};
use lane_sessions::{Made, SessionLimits, make_sectors};
use lane_table::LaneEnd;
use std::alloc::{AllocError, Global};

/// The sectors of an arena, and the sessions that use them.
#[derive(Drop)]
pub(crate) struct Begun {
    pub(crate) sectors: Sectors,
    pub(crate) aside: Vec<Vec<LaneEnd>>,
    pub(crate) sessions: Vec<Session>,
}

// The limits of so many sessions, none of which cuts power.
fn limits_for(alloc: Global, desks: usize, calls: u32) -> Result<Vec<SessionLimits>, AllocError>
    ensures count { IfOk result (λ v. length v.items ≡ desks) }
    ensures each { IfOk result (λ v. All (λ l. (l.cut ≡ None) × (l.calls ≡ calls)) v.items) }
{
    let limit = SessionLimits { cut: None, calls };
    vec![in alloc; limit; desks]
}

/// Makes the sectors of an arena, and a session for each desk, which may make so many calls.
///
/// The one refusal is out of memory. Then the arena is dropped.
pub(crate) fn begin(
    alloc: Global,
    state: ArenaState,
    threads: usize,
    desks: usize,
    calls: u32,
) -> Result<Begun, AllocError>
    requires opened { IsOpenState state }
    requires threads { 0 < threads }
    ensures callers { IfOk result (λ b. callers_of b.sectors.pool.turn ≡ desks) }
    ensures sets { IfOk result (λ b. AreSets desks b.sectors.arenas.items (first_of b.sectors.pool.turn).first (lists_of b.aside.items)) }
    ensures arena { IfOk result (λ b. AreMadeOf (state ∷ []) b.sectors.arenas.items) }
    ensures count { IfOk result (λ b. length b.sessions.items ≡ desks) }
    ensures sessions { IfOk result (λ b. AreBegun b.sectors state calls b.sessions.items) }
{
    let limits = limits_for(alloc, desks, calls)?;
    let mut states = Vec::new(alloc);
    states.push(state)?;
    let made = make_sectors(alloc, states, threads, limits.as_slice())?;
    new_session_may_make();
    let Made {
        sectors,
        aside,
        sessions,
    } = made;
    Ok(Begun {
        sectors,
        aside,
        sessions,
    })
}
