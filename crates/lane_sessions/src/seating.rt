//! Sets of lanes and sessions are made, when all arenas are.
ghost use Rattle.std.specs.Prelude.{◌≡◌, ◌<◌, length, map, slice_index_or, sum, None, IfOk};
ghost use Rattle.turn_lock.specs.Passes.{AreInOrder, number_of};
ghost use Rattle.lane_sessions.specs.declared.making.SessionLimits.{SessionLimits as Limits};
ghost use Rattle.lane_sessions.specs.Making.{AreNumbered, AreSeated, calls_in, or_zero};

use crate::making::SessionLimits;
use lane_calls::{Caller, Session};
use lane_pool::{LaneSet, Pool};
use lane_table::{LaneEnd, Pass};
use std::alloc::{AllocError, Global};
use turn_lock::TurnPass;

/// A set of each row of ends, in order.
pub(crate) fn sets_of(
    alloc: Global,
    rows: Vec<Vec<Option<LaneEnd>>>,
) -> Result<Vec<LaneSet>, AllocError>
    ensures ends { IfOk result (λ v. map (λ s. s.ends) v.items ≡ rows.items) }
    ensures numbers { IfOk result (λ v. AreNumbered v.items) }
{
    if rows.len() > u32::MAX as usize {
        return Err(AllocError);
    }
    let mut sets = Vec::new(alloc);
    for ends in rows {
        let number = sets.len() as u32;
        sets.push(LaneSet { number, ends })?;
    }
    Ok(sets)
}

/// How many calls each session may make.
pub(crate) fn calls_of(alloc: Global, limits: &[SessionLimits]) -> Result<Vec<u32>, AllocError>
    ensures { IfOk result (λ v. v.items ≡ calls_in limits.now) }
{
    let mut calls = Vec::new(alloc);
    for session in limits {
        calls.push(session.calls)?;
    }
    Ok(calls)
}

/// How many calls all sessions may make.
pub(crate) fn sum_of(calls: &[u32]) -> Result<usize, AllocError>
    ensures { IfOk result (λ n. n ≡ sum calls.now) }
{
    let mut sum: usize = 0;
    for session in calls {
        let Some(more) = sum.checked_add(*session as usize) else {
            return Err(AllocError);
        };
        sum = more;
    }
    Ok(sum)
}

/// What the session at this place may do.
fn limits_at(limits: &[SessionLimits], at: usize) -> SessionLimits
    requires { at < length limits.now }
    ensures { (d : Limits) → result ≡ slice_index_or limits.now at d }
{
    limits[at]
}

/// A session before its first call.
fn session_of(limits: SessionLimits, pool: TurnPass<Pool>, passes: Vec<Option<Pass>>) -> Session
    ensures number { result.number ≡ number_of pool }
    ensures passes { result.passes ≡ passes }
    ensures pool { result.caller.pool ≡ pool }
    ensures left { (result.caller.left ≡ limits.cut) × (result.caller.steps ≡ or_zero limits.cut) }
    ensures call { result.caller.call ≡ 0 }
    ensures kept { result.kept ≡ None }
{
    let number = pool.number();
    let caller = Caller {
        pool,
        left: limits.cut,
        steps: limits.cut.unwrap_or(0),
        call: 0,
    };
    Session {
        number,
        passes,
        caller,
        kept: None,
    }
}

/// A session for each pass of the pool, with its row of passes.
pub(crate) fn seat(
    alloc: Global,
    limits: &[SessionLimits],
    pool: Vec<TurnPass<Pool>>,
    rows: Vec<Vec<Option<Pass>>>,
) -> Result<Vec<Session>, AllocError>
    requires count { length pool.items ≡ length limits.now }
    requires rows { length rows.items ≡ length limits.now }
    requires numbers { AreInOrder pool.items }
    ensures count { IfOk result (λ v. length v.items ≡ length limits.now) }
    ensures each { IfOk result (λ v. AreSeated limits.now pool.items rows.items v.items) }
{
    let mut sessions = Vec::new(alloc);
    let mut rest = rows.into_iter();
    for pass in pool {
        let session = limits_at(limits, pass.number() as usize);
        let Some(passes) = rest.next() else {
            unreachable!();
        };
        sessions.push(session_of(session, pass, passes))?;
    }
    Ok(sessions)
}
