//! Steps of a write that may lead nowhere: looks at the other lanes' readers, and the try of a
//! lock.
ghost use Rattle.std.specs.Prelude.{◌≡◌, ◌<◌, true, false};
ghost use Rattle.lane_core.specs.Machines.{IsSomeCore};
ghost use Rattle.lane_core.specs.Held.{held_by};
ghost use Rattle.lane_replay.specs.Lanes.{phase_at};
ghost use Rattle.lane_core.specs.Keeping.{Keeps};
ghost use Rattle.lane_replay.specs.Scanning.{is_first_look, is_scanning, is_staged};
ghost use Rattle.lane_replay.specs.Steps.{steps};

use crate::lanes::{phase_of, step_lane};
use lane_core::{Core, Phase};

fn is_scanning(phase: Phase) -> bool
    ensures { result ≡ is_scanning phase }
{
    matches!(phase, Phase::Scanning(_))
}

/// Whether a scan is at its first look.
pub(crate) fn is_first_look(phase: Phase) -> bool
    ensures { result ≡ is_first_look phase }
{
    match phase {
        Phase::Scanning(j) => j == 0,
        _ => false,
    }
}

pub(crate) fn is_staged(phase: Phase) -> bool
    ensures { result ≡ is_staged phase }
{
    matches!(phase, Phase::Staged)
}

/// Runs rounds of a scan from its first look, and returns how many of this many steps are left.
///
/// No other lane steps. So a round that ends at the first look again ends there each time, and of
/// all further steps only the rest after whole rounds makes a difference.
pub(crate) fn scan_round(core: &mut Core, lane: u32, left: u64) -> u64
    requires core { IsSomeCore core.old }
    requires lane { lane < core.old.shape.lanes }
    requires some { 0 < left }
    requires first { is_first_look (phase_at (held_by core.old) lane) ≡ true }
    ensures keeps { Keeps core.old core.new }
    ensures less { result < left }
    ensures same { steps result lane false (held_by core.new) ≡ steps left lane false (held_by core.old) }
{
    for made in 0..left {
        step_lane(core, lane);
        let rest = left - made - 1;
        let phase = phase_of(core, lane);
        if is_first_look(phase) {
            return rest % (made + 1);
        }
        if !is_scanning(phase) {
            return rest;
        }
    }
    0
}

/// A staged write tries its lock. Returns how many of this many steps are left: none if another
/// lane has the lock, since no other lane steps.
pub(crate) fn take_lock(core: &mut Core, lane: u32, left: u64) -> u64
    requires core { IsSomeCore core.old }
    requires lane { lane < core.old.shape.lanes }
    requires some { 0 < left }
    requires staged { is_staged (phase_at (held_by core.old) lane) ≡ true }
    ensures keeps { Keeps core.old core.new }
    ensures less { result < left }
    ensures same { steps result lane false (held_by core.new) ≡ steps left lane false (held_by core.old) }
{
    step_lane(core, lane);
    if is_staged(phase_of(core, lane)) {
        0
    } else {
        left - 1
    }
}
