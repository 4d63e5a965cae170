//! Sectors are made of arenas, and sessions that use them.
ghost use Rattle.std.specs.Prelude.{◌≡◌, ◌<◌, All, length, map, sum, IfOk};
ghost use Rattle.arena_open.specs.Moves.{IsOpenState};
ghost use Rattle.lane_pool.specs.Sets.{IsReady};
ghost use Rattle.lane_sessions.specs.Making.{AreNewSessions, AreNumbered, IsNewPool, calls_in, first_sets, set_count};
ghost use Rattle.lane_sessions.specs.Sets.{AreMadeOf, AreSets};

use crate::arenas::{Laid, Plan, count_sets, lay};
use crate::seating::{calls_of, seat, sets_of, sum_of};
use arena_open::ArenaState;
use lane_calls::{Sectors, Session};
use lane_pool::LanePool;
use lane_table::LaneEnd;
use std::alloc::{AllocError, Global};

/// What a session may do.
#[derive(Clone, Copy, Debug, PartialEq, Eq)]
pub struct SessionLimits {
    /// How many steps it makes before it cuts power; `None`: it never does.
    pub cut: Option<u64>,
    /// How many calls on sectors it may make.
    pub calls: u32,
}

/// The sectors of arenas, and the sessions that use them.
#[derive(Drop)]
pub struct Made {
    pub sectors: Sectors,
    /// Of each arena, the lanes that no set has.
    pub aside: Vec<Vec<LaneEnd>>,
    /// In the order of their limits.
    pub sessions: Vec<Session>,
}

/// Makes the arenas of opened states, sets of their lanes, and a session for each of the limits.
///
/// There is a set for each worker, or as many as the arena with the fewest lanes has, if these are
/// fewer. Each lane of a set has room for all calls of all sessions, so no call takes memory. The
/// one refusal is out of memory, also if there are 2^32 - 1 sessions or 2^32 sets.
pub fn make_sectors(
    alloc: Global,
    states: Vec<ArenaState>,
    workers: usize,
    limits: &[SessionLimits],
) -> Result<Made, AllocError>
    requires opened { All IsOpenState states.items }
    requires workers { 0 < workers }
    ensures arenas { IfOk result (λ m. AreMadeOf states.items m.sectors.arenas.items) }
    ensures pool { IfOk result (λ m. IsNewPool limits.now m.sectors.pool) }
    ensures sets { IfOk result (λ m. AreSets (length limits.now) m.sectors.arenas.items (first_sets m.sectors) (map (λ v. v.items) m.aside.items)) }
    ensures numbers { IfOk result (λ m. AreNumbered (first_sets m.sectors)) }
    ensures count { IfOk result (λ m. length (first_sets m.sectors) ≡ set_count workers states.items) }
    ensures some { IfOk result (λ m. 0 < length (first_sets m.sectors)) }
    ensures room { IfOk result (λ m. All (IsReady (sum (calls_in limits.now))) (first_sets m.sectors)) }
    ensures sessions { IfOk result (λ m. AreNewSessions m.sectors states.items limits.now m.sessions.items) }
{
    if limits.len() >= u32::MAX as usize {
        return Err(AllocError);
    }
    let calls = calls_of(alloc, limits)?;
    let entries = calls.as_slice();
    let room = sum_of(entries)?;
    let count = count_sets(states.as_slice(), workers);
    let plan = Plan {
        sets: count,
        sessions: limits.len() as u32,
        calls: room,
    };
    let laid = lay(alloc, states, plan)?;
    let Laid {
        arenas,
        ends,
        aside,
        passes,
    } = laid;
    let sets = sets_of(alloc, ends)?;
    let (pool, callers) = LanePool::of(alloc, sets, entries)?;
    let sessions = seat(alloc, limits, callers, passes)?;
    Ok(Made {
        sectors: Sectors { arenas, pool },
        aside,
        sessions,
    })
}
