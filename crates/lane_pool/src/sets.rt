//! Sets of lanes, and who switched power off.
use lane_table::LaneEnd;

/// One lane of each arena that is open, at the arena's place. An end is `None` only while the caller
/// that has the set out uses that lane.
#[derive(Drop)]
pub struct LaneSet {
    /// The number of its lanes in their arenas.
    pub number: u32,
    pub ends: Vec<Option<LaneEnd>>,
}

/// Who switched power off: a session, whose own steps ended, or the side of the labels.
#[derive(Clone, Copy, Debug, PartialEq, Eq)]
pub enum Who {
    Session(u32),
    Labels,
}

/// That power is off.
#[derive(Clone, Copy, Debug, PartialEq, Eq)]
pub struct PowerOff {
    pub who: Who,
    /// The steps that it was switched off after.
    pub steps: u64,
}
