use crate::payload::Payload;
use crate::schedule_lines::ReplayLines;

/// A line of a schedule.
#[derive(Debug, Drop)]
pub enum ReplayLine {
    /// `call LANE read SECTOR`: a lane begins to read a sector.
    Read {
        lane: u32,
        sector: u64,
    },
    /// `call LANE write SECTOR VALUE`: a lane begins to write a sector.
    Write {
        lane: u32,
        sector: u64,
        value: Payload,
    },
    /// `step LANE COUNT`: a lane makes so many steps.
    Step {
        lane: u32,
        count: u64,
    },
}

/// A schedule of lanes.
#[derive(Debug, Drop)]
pub struct Replay {
    /// Its lines, in order.
    pub lines: ReplayLines,
}
