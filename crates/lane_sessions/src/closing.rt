//! Closes an arena, with its sessions' passes.
ghost use Rattle.std.specs.Prelude.{◌≡◌, ℕ, ◌<◌, length, Some, IfOk, All};
ghost use Rattle.arena_open.specs.declared.state.ArenaState.{ArenaState};
ghost use Rattle.arena_open.specs.Moves.{IsOpenState};
ghost use Rattle.lane_table.specs.declared.session_pass.Pass.{Pass as AnyPass};
ghost use Rattle.lane_table.specs.Begun.{IsMadeOf};
ghost use Rattle.lane_table.specs.Kits.{arena_id, kit_in};
ghost use Rattle.lane_calls.specs.declared.parts.ArenaPart.{ArenaPart};
ghost use Rattle.lane_sessions.specs.Closing.{AreHandedIn, ArePassesOf, Carries, Joins, carried, carried_by};
ghost use Rattle.lane_sessions.specs.Left.{IsArenaLeft};

use lane_core::ArenaWords;
use lane_table::{Arena, Closed, LaneEnd, Pass};
use std::alloc::{AllocError, Global};

// A lane's end takes a pass, if there is one.
fn carry(arena: &Arena, end: &mut LaneEnd, pass: Option<Pass>)
    requires arena { (kit_in end.old).seat.table_id ≡ arena_id arena.now }
    requires pass { (p : AnyPass) → pass ≡ Some p → p.seat.table_id ≡ arena_id arena.now }
    ensures { Carries (carried_by pass) end.old end.new }
{
    if let Some(pass) = pass {
        end.take_pass(arena, pass);
    }
}

// A lane's end takes these passes.
fn carry_all(arena: &Arena, end: &mut LaneEnd, passes: Vec<Option<Pass>>)
    requires arena { (kit_in end.old).seat.table_id ≡ arena_id arena.now }
    requires passes { ArePassesOf (arena_id arena.now) passes.items }
    ensures { Carries (carried passes.items) end.old end.new }
{
    for pass in passes {
        carry(arena, end, pass);
    }
}

// The lanes, of which the first has these passes.
fn join(arena: &Arena, mut ends: Vec<LaneEnd>, passes: Vec<Option<Pass>>) -> Vec<LaneEnd>
    requires some { 0 < length ends.items }
    requires ends { All (λ e. (kit_in e).seat.table_id ≡ arena_id arena.now) ends.items }
    requires passes { ArePassesOf (arena_id arena.now) passes.items }
    ensures { Joins (carried passes.items) ends.items result.items }
{
    carry_all(arena, &mut ends[0], passes);
    ends
}

/// Closes an arena: all its lanes are handed in, in the order of their numbers, and the passes of
/// all its sessions that no lane holds.
///
/// The one refusal is out of memory. Then the arena, its lanes and the passes are dropped.
pub fn close_arena(
    alloc: Global,
    arena: Arena,
    ends: Vec<LaneEnd>,
    passes: Vec<Option<Pass>>,
) -> Result<ArenaWords, AllocError>
    requires { (known : ℕ → ArenaPart) × AreHandedIn arena ends.items passes.items known }
    ensures { (state : ArenaState) (known : ℕ → ArenaPart) → IsOpenState state → IsMadeOf state arena → AreHandedIn arena ends.items passes.items known → IfOk result (IsArenaLeft (length passes.items) state (λ q. (known q).mine)) }
{
    let ends = join(&arena, ends, passes);
    match arena.close(alloc, ends) {
        Ok(closed) => {
            let Closed { seen, kept, .. } = closed;
            Ok(ArenaWords { seen, kept })
        }
        Err(_) => Err(AllocError),
    }
}
