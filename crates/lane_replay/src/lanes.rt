//! A lane of a core: its phase, and its next step.
ghost use Rattle.std.specs.Prelude.{◌≡◌, ◌<◌};
ghost use Rattle.lane_core.specs.Machines.{IsSomeCore};
ghost use Rattle.lane_core.specs.Held.{held_by};
ghost use Rattle.lane_replay.specs.Lanes.{answered, phase_at, stepped};
ghost use Rattle.lane_core.specs.Keeping.{Keeps};

use lane_core::{Core, Phase, Stepped};

/// The phase of a lane.
pub(crate) fn phase_of(core: &Core, lane: u32) -> Phase
    requires core { IsSomeCore core.now }
    requires lane { lane < core.now.shape.lanes }
    ensures { result ≡ phase_at (held_by core.now) lane }
{
    core.phase(lane)
}

/// One step of a lane.
pub(crate) fn step_lane(core: &mut Core, lane: u32) -> Stepped
    requires core { IsSomeCore core.old }
    requires lane { lane < core.old.shape.lanes }
    ensures keeps { Keeps core.old core.new }
    ensures held { held_by core.new ≡ stepped (held_by core.old) lane }
    ensures answer { result ≡ answered (held_by core.old) lane }
{
    core.step(lane)
}
