//! A session, and what all sessions share.
use lane_pool::{LanePool, LaneSet, Pool};
use lane_table::{Arena, Pass};
use turn_lock::TurnPass;

/// The arenas of all namespaces, in a row, and the pool of their lanes. Place j of a set of lanes is
/// a lane of arena j.
#[derive(Drop)]
pub struct Sectors {
    pub arenas: Vec<Arena>,
    pub pool: LanePool,
}

/// How many calls a session makes with a set of lanes before it gives the set back, at most.
pub const KEPT_CALLS: u64 = 64;

/// A set of lanes that a session has out, and how many calls it made with it.
#[derive(Drop)]
pub struct Kept {
    pub set: LaneSet,
    pub made: u64,
}

/// What a session has beside its passes of arenas.
#[derive(Drop)]
pub struct Caller {
    /// Its pass of the pool.
    pub pool: TurnPass<Pool>,
    /// How many steps it may still make before it cuts power; `None`: it never does.
    pub left: Option<u64>,
    /// How many it may make in all.
    pub steps: u64,
    /// The number of its next call.
    pub call: u32,
}

/// A session.
#[derive(Drop)]
pub struct Session {
    pub number: u32,
    /// A pass of each arena, in the order of the arenas. A lane whose call was cut keeps it.
    pub passes: Vec<Option<Pass>>,
    pub caller: Caller,
    /// The set that it has out between two calls.
    pub kept: Option<Kept>,
}
