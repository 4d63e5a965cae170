//! Calls of lanes.
ghost use Rattle.std.specs.Prelude.{◌≡◌, ◌<◌, ◌*◌, ◌^◌, None, IfOk, length};
ghost use Rattle.lane_core.specs.Begins.{FitsCall};
ghost use Rattle.lane_core.specs.Machines.{IsSomeCore};
ghost use Rattle.lane_core.specs.Held.{held_by};
ghost use Rattle.lane_replay.specs.Lanes.{phase_at};
ghost use Rattle.lane_core.specs.Keeping.{Keeps};
ghost use Rattle.lane_replay.specs.Calls.{Begins, busy, bytes_said, called, line_tag, misfit, read_called, read_refusal, sector_bytes, unplaced, write_called, write_refusal};

use crate::refused::Refused;
use crate::values::{length_of, value_words};
use lane_core::{Begun, Call, Core, Shape};
use nvd_words::Tag;
use session_script::Payload;
use std::alloc::{AllocError, Global};

/// Why there is no such lane or sector, if there isn't.
fn unplaced(shape: &Shape, lane: u32, sector: u64) -> Option<Refused>
    ensures why { result ≡ unplaced shape.now lane sector }
    ensures lane { result ≡ None → lane < shape.now.lanes }
    ensures sector { result ≡ None → sector < shape.now.sectors }
{
    if lane >= shape.lanes {
        return Some(Refused::Lane { count: shape.lanes });
    }
    if sector >= u64::from(shape.sectors) {
        return Some(Refused::Range {
            count: shape.sectors,
        });
    }
    None
}

/// Why a value isn't one sector, if it isn't.
fn misfit(said: u64, had: u64) -> Option<Refused>
    ensures why { result ≡ misfit said had }
    ensures fits { result ≡ None → said ≡ had }
{
    if said == had {
        None
    } else {
        Some(Refused::Length { said, had })
    }
}

/// The bytes of a sector.
fn sector_bytes(shape: &Shape) -> u64
    ensures bytes { result ≡ sector_bytes shape.now }
    ensures few { result < 2 ^ 35 }
{
    8 * u64::from(shape.width)
}

/// Begins a call, or returns why it doesn't begin: the lane is in a call.
fn begin_call(
    alloc: Global,
    core: &mut Core,
    lane: u32,
    tag: Tag,
    call: Call,
) -> Result<Option<Refused>, AllocError>
    requires core { IsSomeCore core.old }
    requires lane { lane < core.old.shape.lanes }
    requires call { FitsCall core.old.shape call }
    ensures keeps { Keeps core.old core.new }
    ensures begins { IfOk result (λ why. Begins (held_by core.old) lane (called core.old.shape tag call) (busy (phase_at (held_by core.old) lane)) why (held_by core.new)) }
{
    match core.begin(alloc, lane, tag, call) {
        Ok(()) => Ok(None),
        Err(Begun::LaneBusy { phase }) => Ok(Some(Refused::LaneBusy { phase })),
        Err(Begun::OutOfMemory) => Err(AllocError),
    }
}

/// Begins a read, or returns why it doesn't begin.
pub(crate) fn begin_read(
    alloc: Global,
    core: &mut Core,
    number: u32,
    lane: u32,
    sector: u64,
) -> Result<Option<Refused>, AllocError>
    requires core { IsSomeCore core.old }
    ensures keeps { Keeps core.old core.new }
    ensures begins { IfOk result (λ why. Begins (held_by core.old) lane (read_called core.old.shape (line_tag lane number) sector) (read_refusal (held_by core.old) lane sector) why (held_by core.new)) }
{
    if let Some(why) = unplaced(&core.shape, lane, sector) {
        return Ok(Some(why));
    }
    let tag = Tag {
        session: lane,
        call: number,
    };
    let sector = sector as u32;
    begin_call(alloc, core, lane, tag, Call::Read { sector })
}

/// Begins a write, or returns why it doesn't begin.
pub(crate) fn begin_write(
    alloc: Global,
    core: &mut Core,
    number: u32,
    lane: u32,
    sector: u64,
    value: &Payload,
) -> Result<Option<Refused>, AllocError>
    requires core { IsSomeCore core.old }
    ensures keeps { Keeps core.old core.new }
    ensures begins { IfOk result (λ why. Begins (held_by core.old) lane (write_called core.old.shape (line_tag lane number) sector value.now) (write_refusal (held_by core.old) lane sector (length (bytes_said (sector_bytes core.old.shape) value.now))) why (held_by core.new)) }
{
    if let Some(why) = unplaced(&core.shape, lane, sector) {
        return Ok(Some(why));
    }
    let had = sector_bytes(&core.shape);
    if let Some(why) = misfit(length_of(value, had), had) {
        return Ok(Some(why));
    }
    let words = value_words(alloc, value, had as usize)?;
    let tag = Tag {
        session: lane,
        call: number,
    };
    let sector = sector as u32;
    begin_call(alloc, core, lane, tag, Call::Write { sector, words })
}
