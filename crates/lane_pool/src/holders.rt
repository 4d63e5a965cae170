//! What the pool keeps of each caller.
use crate::sets::PowerOff;

/// The set of lanes that a caller has to do with.
#[derive(Clone, Copy, Debug, PartialEq, Eq)]
pub enum Hand {
    Empty,
    /// It has the set at `at` out. Each lane had room for `room` calls when it went out.
    Out { at: usize, room: u64 },
    /// It handed the set at this place to `stop`.
    Stopped(usize),
}

/// That a caller called `stop`.
#[derive(Clone, Copy, Debug, PartialEq, Eq)]
pub struct Stop {
    /// What it said, at its first such call.
    pub off: PowerOff,
    /// Whether it had been told before that power is off.
    pub told: bool,
}

/// A caller.
#[derive(Clone, Copy, Debug, PartialEq, Eq)]
pub struct Holder {
    /// The calls that it may still make: those with a set that it has out count once the set is back.
    pub left: u64,
    pub hand: Hand,
    pub stop: Option<Stop>,
    /// The `PowerOff` that it was told.
    pub told: Option<PowerOff>,
}
