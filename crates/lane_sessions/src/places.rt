//! The last of each row is taken.
ghost use Rattle.std.specs.Prelude.{◌≡◌, ◌<◌, [], ◌∷◌, ◌++◌, length, IfOk, OnOk};
ghost use Rattle.lane_sessions.specs.Ending.{HaveMore, LoseLast, there};

use lane_table::LaneEnd;
use std::alloc::{AllocError, Global};

// Takes the last of a row.
fn pop_last<T: Drop>(row: &mut Vec<Option<T>>) -> Option<T>
    requires { 0 < length row.old.items }
    ensures { row.old.items ≡ row.new.items ++ result ∷ [] }
{
    match row.pop() {
        Some(last) => last,
        None => unreachable!(),
    }
}

// Takes the last of each row.
pub(crate) fn take_last<T: Drop>(
    alloc: Global,
    rows: &mut [Vec<Option<T>>],
) -> Result<Vec<Option<T>>, AllocError>
    requires { HaveMore rows.old }
    ensures count { IfOk result (λ v. length v.items ≡ length rows.old) }
    ensures last { IfOk result (λ v. LoseLast rows.old v.items rows.new) }
{
    let mut last = Vec::with_capacity(alloc, rows.len())?;
    for row in rows {
        last.push(pop_last(row))?;
    }
    Ok(last)
}

// Adds a lane, if it is there.
fn push_lane(lanes: &mut Vec<LaneEnd>, end: Option<LaneEnd>) -> Result<(), AllocError>
    ensures { OnOk result (lanes.new.items ≡ lanes.old.items ++ there (end ∷ [])) }
{
    if let Some(end) = end {
        lanes.push(end)?;
    }
    Ok(())
}

// The lanes that are there.
fn lanes_there(alloc: Global, ends: Vec<Option<LaneEnd>>) -> Result<Vec<LaneEnd>, AllocError>
    ensures { IfOk result (λ v. v.items ≡ there ends.items) }
{
    let mut lanes = Vec::with_capacity(alloc, ends.len())?;
    for end in ends {
        push_lane(&mut lanes, end)?;
    }
    Ok(lanes)
}

// The lanes that are there, then these.
pub(crate) fn all_lanes(
    alloc: Global,
    ends: Vec<Option<LaneEnd>>,
    mut more: Vec<LaneEnd>,
) -> Result<Vec<LaneEnd>, AllocError>
    ensures { IfOk result (λ v. v.items ≡ there ends.items ++ more.items) }
{
    let mut lanes = lanes_there(alloc, ends)?;
    lanes.append(&mut more)?;
    Ok(lanes)
}
