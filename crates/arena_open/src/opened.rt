use arena_layout::Info;
use flog::{Group, Half};
use nvd_words::Items;

/// The decoded contents of an arena.
#[derive(Debug, Drop)]
pub struct Opened {
    pub info: Info,
    /// Each lane's current half.
    pub groups: Items<Group>,
    /// The map's entries with the pending moves applied.
    pub entries: Items<u32>,
    /// The moves that are pending in the map as read, in the order of lanes.
    pub moves: Items<Half>,
}

/// A lane between two writes.
#[derive(Clone, Copy, Debug, PartialEq, Eq)]
pub struct LaneState {
    /// The lane's free block.
    pub free: u32,
    /// Its current half, and the side it is on.
    pub group: Group,
}
