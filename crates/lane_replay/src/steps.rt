//! Any number of steps of a lane.
ghost use Rattle.std.specs.Prelude.{◌≡◌, ◌<◌, ◌++◌, false, IfOk, OnOk};
ghost use Rattle.lane_core.specs.Machines.{IsSomeCore};
ghost use Rattle.lane_core.specs.Held.{held_by};
ghost use Rattle.lane_core.specs.Keeping.{Keeps};
ghost use Rattle.lane_replay.specs.Steps.{Plays, and_text, steps};

use crate::lanes::{phase_of, step_lane};
use crate::lines::{say, say_answer};
use crate::scanning::{is_first_look, is_staged, scan_round, take_lock};
use lane_core::{Core, Stepped};
use std::alloc::{AllocError, Global};

/// Makes one of this many steps, and returns how many are left. No other lane steps, so an idle
/// lane has none left.
fn step_on(
    alloc: Global,
    core: &mut Core,
    lane: u32,
    left: u64,
    text: &mut Vec<u8>,
) -> Result<u64, AllocError>
    requires core { IsSomeCore core.old }
    requires lane { lane < core.old.shape.lanes }
    requires some { 0 < left }
    ensures keeps { Keeps core.old core.new }
    ensures less { IfOk result (λ rest. rest < left) }
    ensures same { IfOk result (λ rest. and_text text.new.items (steps rest lane false (held_by core.new)) ≡ and_text text.old.items (steps left lane false (held_by core.old))) }
{
    match step_lane(core, lane) {
        Stepped::Nothing => {
            say(alloc, text, lane, "idle\n")?;
            Ok(0)
        }
        Stepped::Went(_) => Ok(left - 1),
        Stepped::Done(_, answer) => {
            say_answer(alloc, text, lane, &answer)?;
            Ok(left - 1)
        }
    }
}

/// Makes at least one of this many steps, and returns how many are left.
fn go_on(
    alloc: Global,
    core: &mut Core,
    lane: u32,
    left: u64,
    text: &mut Vec<u8>,
) -> Result<u64, AllocError>
    requires core { IsSomeCore core.old }
    requires lane { lane < core.old.shape.lanes }
    requires some { 0 < left }
    ensures keeps { Keeps core.old core.new }
    ensures less { IfOk result (λ rest. rest < left) }
    ensures same { IfOk result (λ rest. and_text text.new.items (steps rest lane false (held_by core.new)) ≡ and_text text.old.items (steps left lane false (held_by core.old))) }
{
    let phase = phase_of(core, lane);
    if is_first_look(phase) {
        Ok(scan_round(core, lane, left))
    } else if is_staged(phase) {
        Ok(take_lock(core, lane, left))
    } else {
        step_on(alloc, core, lane, left, text)
    }
}

/// A lane makes this many steps.
pub(crate) fn make_steps(
    alloc: Global,
    core: &mut Core,
    lane: u32,
    count: u64,
    text: &mut Vec<u8>,
) -> Result<(), AllocError>
    requires core { IsSomeCore core.old }
    requires lane { lane < core.old.shape.lanes }
    ensures keeps { Keeps core.old core.new }
    ensures plays { OnOk result (Plays (steps count lane false (held_by core.old)) (held_by core.new) text.old.items text.new.items) }
{
    let mut left = count;
    while left > 0 {
        left = go_on(alloc, core, lane, left, text)?;
    }
    Ok(())
}
