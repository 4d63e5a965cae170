//! A schedule, line by line.
ghost use Rattle.std.specs.Prelude.{◌≡◌, ◌<◌, ◌^◌, ◌++◌, length, IfOk, OnOk};
ghost use Rattle.lane_core.specs.Begins.{is_idle};
ghost use Rattle.lane_core.specs.Machines.{IsSomeCore, KeepsCore};
ghost use Rattle.lane_core.specs.Reopening.{KeepsArena};
ghost use Rattle.lane_core.specs.Held.{held_by};
ghost use Rattle.lane_core.specs.Keeping.{Keeps};
ghost use Rattle.lane_replay.specs.Steps.{Plays};
ghost use Rattle.lane_replay.specs.Playing.{all_cuts, cut_line, played, played_all, read_played, replay_text, replayed, steps_played, write_played};

use crate::calls::{begin_read, begin_write};
use crate::lanes::phase_of;
use crate::lines::{say, say_if_refused, say_refused};
use crate::refused::Refused;
use crate::steps::make_steps;
use lane_core::{Core, Phase};
use session_script::{Payload, ReplayLine, ReplayLines};
use std::alloc::{AllocError, Global};

fn read_line(
    alloc: Global,
    core: &mut Core,
    number: u32,
    lane: u32,
    sector: u64,
    text: &mut Vec<u8>,
) -> Result<(), AllocError>
    requires core { IsSomeCore core.old }
    ensures keeps { Keeps core.old core.new }
    ensures plays { OnOk result (Plays (read_played (held_by core.old) number lane sector) (held_by core.new) text.old.items text.new.items) }
{
    let why = begin_read(alloc, core, number, lane, sector)?;
    say_if_refused(alloc, text, lane, why)?;
    Ok(())
}

fn write_line(
    alloc: Global,
    core: &mut Core,
    number: u32,
    lane: u32,
    sector: u64,
    value: &Payload,
    text: &mut Vec<u8>,
) -> Result<(), AllocError>
    requires core { IsSomeCore core.old }
    ensures keeps { Keeps core.old core.new }
    ensures plays { OnOk result (Plays (write_played (held_by core.old) number lane sector value.now) (held_by core.new) text.old.items text.new.items) }
{
    let why = begin_write(alloc, core, number, lane, sector, value)?;
    say_if_refused(alloc, text, lane, why)?;
    Ok(())
}

fn step_line(
    alloc: Global,
    core: &mut Core,
    lane: u32,
    count: u64,
    text: &mut Vec<u8>,
) -> Result<(), AllocError>
    requires core { IsSomeCore core.old }
    ensures keeps { Keeps core.old core.new }
    ensures plays { OnOk result (Plays (steps_played (held_by core.old) lane count) (held_by core.new) text.old.items text.new.items) }
{
    let lanes = core.shape.lanes;
    if lane < lanes {
        make_steps(alloc, core, lane, count, text)?;
        return Ok(());
    }
    say_refused(alloc, text, lane, Refused::Lane { count: lanes })?;
    Ok(())
}

/// Plays the line with this number.
fn play_line(
    alloc: Global,
    core: &mut Core,
    number: u32,
    line: &ReplayLine,
    text: &mut Vec<u8>,
) -> Result<(), AllocError>
    requires core { IsSomeCore core.old }
    ensures keeps { Keeps core.old core.new }
    ensures plays { OnOk result (Plays (played (held_by core.old) number line.now) (held_by core.new) text.old.items text.new.items) }
{
    match line {
        ReplayLine::Read { lane, sector } => read_line(alloc, core, number, *lane, *sector, text),
        ReplayLine::Write {
            lane,
            sector,
            value,
        } => write_line(alloc, core, number, *lane, *sector, value, text),
        ReplayLine::Step { lane, count } => step_line(alloc, core, *lane, *count, text),
    }
}

/// Plays all lines.
fn play_lines(
    alloc: Global,
    core: &mut Core,
    lines: &ReplayLines,
    text: &mut Vec<u8>,
) -> Result<(), AllocError>
    requires core { IsSomeCore core.old }
    requires few { length lines.now < 2 ^ 32 }
    ensures keeps { Keeps core.old core.new }
    ensures plays { OnOk result (Plays (replayed (held_by core.old) lines.now) (held_by core.new) text.old.items text.new.items) }
{
    let mut left = lines.from_first();
    let mut number = 0;
    while let Some(line) = left.next(alloc)? {
        number += 1;
        play_line(alloc, core, number, &line, text)?;
    }
    Ok(())
}

/// Whether a lane is idle.
fn is_idle(phase: Phase) -> bool
    ensures { result ≡ is_idle phase }
{
    matches!(phase, Phase::Idle)
}

/// Adds the line of a lane, if it is in a call.
fn add_cut(alloc: Global, core: &Core, lane: u32, text: &mut Vec<u8>) -> Result<(), AllocError>
    requires core { IsSomeCore core.now }
    requires lane { lane < core.now.shape.lanes }
    ensures { OnOk result (text.new.items ≡ text.old.items ++ cut_line (held_by core.now) lane) }
{
    if is_idle(phase_of(core, lane)) {
        Ok(())
    } else {
        say(alloc, text, lane, "cut\n")
    }
}

/// Adds the lines of all lanes that are in calls.
fn add_cuts(alloc: Global, core: &Core, text: &mut Vec<u8>) -> Result<(), AllocError>
    requires core { IsSomeCore core.now }
    ensures { OnOk result (text.new.items ≡ text.old.items ++ all_cuts (held_by core.now)) }
{
    for lane in 0..core.shape.lanes {
        add_cut(alloc, core, lane, text)?;
    }
    Ok(())
}

/// Runs the lanes of a core by the lines of a schedule, and returns what the lines print.
///
/// Each line's calls and steps are those of `lane_core`, and the text has the answer of each call,
/// each refusal, each lane that is asked to step while idle, and at the end each lane that is in a
/// call (`specs/Playing.antt`). There are fewer than 2^32 lines, so that the number of each fits a
/// tag.
///
/// The only refusal is out of memory. Then the core is still a core of the same arena, and some of
/// the lines were carried out.
pub fn play(alloc: Global, core: &mut Core, lines: &ReplayLines) -> Result<Vec<u8>, AllocError>
    requires core { IsSomeCore core.old }
    requires few { length lines.now < 2 ^ 32 }
    ensures sound { IsSomeCore core.new }
    ensures core { KeepsCore core.old core.new }
    ensures arena { KeepsArena core.old core.new }
    ensures shape { core.new.shape ≡ core.old.shape }
    ensures text { IfOk result (λ text. text.items ≡ replay_text (held_by core.old) lines.now) }
    ensures held { OnOk result (held_by core.new ≡ (replayed (held_by core.old) lines.now).held) }
{
    let mut text = Vec::new(alloc);
    play_lines(alloc, core, lines, &mut text)?;
    add_cuts(alloc, core, &mut text)?;
    Ok(text)
}
