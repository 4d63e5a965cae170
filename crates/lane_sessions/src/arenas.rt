//! Arenas are made: their lanes, and the sessions' passes.
ghost use Rattle.std.specs.Prelude.{◌≡◌, ◌<◌, ◌≤◌, ◌++◌, [], ◌∷◌, ℕ, List, Option, All, length, map, slice_index_or, IfOk, OnOk};
ghost use Rattle.arena_open.specs.Moves.{IsOpenState};
ghost use Rattle.lane_core.specs.Arenas.{shape_in};
ghost use Rattle.arena_open.specs.declared.state.ArenaState.{ArenaState as State};
ghost use Rattle.lane_table.specs.declared.lanes.Lane.{Lane as AnyLane};
ghost use Rattle.lane_table.specs.declared.session_pass.Pass.{Pass as AnyPass};
ghost use Rattle.lane_table.specs.declared.lanes.LaneEnd.TheVariants.{Idle as IdleEnd};
ghost use Rattle.lane_table.specs.Kits.{IsOf, held_in};
ghost use Rattle.lane_pool.specs.Sets.{lane_of};
ghost use Rattle.lane_sessions.specs.Making.{AreLaid, IsColumn, IsEndOf, IsPassOf, set_count};
ghost use Rattle.lane_sessions.specs.Rows.{Along};

use crate::rows::push_each;
use arena_open::ArenaState;
use lane_core::Shape;
use lane_table::{Arena, Lane, LaneEnd, Pass};
use std::alloc::{AllocError, Global};

/// What all arenas are made for.
#[derive(Clone, Copy, Debug, PartialEq, Eq)]
pub(crate) struct Plan {
    /// How many sets of lanes there are to be.
    pub(crate) sets: usize,
    /// How many sessions there are. Each gets a pass of each arena.
    pub(crate) sessions: u32,
    /// How many calls each lane of a set has room for.
    pub(crate) calls: usize,
}

/// An arena, with its lanes and passes.
#[derive(Drop)]
pub(crate) struct Column {
    pub(crate) arena: Arena,
    /// The end for each set.
    pub(crate) ends: Vec<Option<LaneEnd>>,
    /// The other lanes.
    pub(crate) aside: Vec<LaneEnd>,
    /// The pass of each session.
    pub(crate) passes: Vec<Option<Pass>>,
}

/// Arenas in a row, with their lanes and passes.
#[derive(Drop)]
pub(crate) struct Laid {
    pub(crate) arenas: Vec<Arena>,
    /// The ends of each set.
    pub(crate) ends: Vec<Vec<Option<LaneEnd>>>,
    /// The other lanes of each arena.
    pub(crate) aside: Vec<Vec<LaneEnd>>,
    /// The passes of each session.
    pub(crate) passes: Vec<Vec<Option<Pass>>>,
}

/// A pass of an arena for each session, by the arena's lane 0.
fn passes_of(
    alloc: Global,
    arena: &Arena,
    first: &mut Lane,
    sessions: u32,
) -> Result<Vec<Option<Pass>>, AllocError>
    requires arena { IsOf arena.now first.old.kit }
    requires first { first.old.kit.number ≡ 0 }
    requires none { first.old.kit.made ≡ 0 }
    ensures count { IfOk result (λ v. length v.items ≡ sessions) }
    ensures passes { IfOk result (λ v. (q : ℕ) (o : Option AnyPass) → q < sessions → IsPassOf q arena.now (slice_index_or v.items q o)) }
    ensures lane { OnOk result (lane_of first.new.kit ≡ record (lane_of first.old.kit) { made = sessions }) }
    ensures free { held_in first.new.kit ≡ held_in first.old.kit }
{
    let mut passes = Vec::new(alloc);
    for _ in 0..sessions {
        passes.push(Some(first.pass(arena)))?;
    }
    Ok(passes)
}

/// The same by these lanes, all of the arena.
fn passes_by(
    alloc: Global,
    arena: &Arena,
    lanes: &mut Vec<Lane>,
    sessions: u32,
) -> Result<Vec<Option<Pass>>, AllocError>
    requires some { 0 < length lanes.old.items }
    requires first { (d : AnyLane) → IsOf arena.now (slice_index_or lanes.old.items 0 d).kit × ((slice_index_or lanes.old.items 0 d).kit.number ≡ 0) × ((slice_index_or lanes.old.items 0 d).kit.made ≡ 0) }
    ensures count { IfOk result (λ v. length v.items ≡ sessions) }
    ensures passes { IfOk result (λ v. (q : ℕ) (o : Option AnyPass) → q < sessions → IsPassOf q arena.now (slice_index_or v.items q o)) }
    ensures same { length lanes.new.items ≡ length lanes.old.items }
    ensures first { OnOk result ((d : AnyLane) → (lane_of (slice_index_or lanes.new.items 0 d).kit ≡ record (lane_of (slice_index_or lanes.old.items 0 d).kit) { made = sessions }) × (held_in (slice_index_or lanes.new.items 0 d).kit ≡ held_in (slice_index_or lanes.old.items 0 d).kit)) }
    ensures others { (i : ℕ) (d : AnyLane) → 0 < i → i < length lanes.old.items → slice_index_or lanes.new.items i d ≡ slice_index_or lanes.old.items i d }
{
    let passes = passes_of(alloc, arena, &mut lanes[0], sessions)?;
    Ok(passes)
}

/// An idle lane that has room for this many calls.
fn ready_end(lane: Lane, calls: usize) -> Result<Option<LaneEnd>, AllocError>
    requires free { held_in lane.kit ≡ [] }
    ensures { IfOk result (IsEndOf calls lane) }
{
    let mut lane = lane;
    lane.reserve(calls)?;
    Ok(Some(LaneEnd::Idle(lane)))
}

/// The same of all these lanes.
fn ready_ends(
    alloc: Global,
    lanes: Vec<Lane>,
    calls: usize,
) -> Result<Vec<Option<LaneEnd>>, AllocError>
    requires free { All (λ l. held_in l.kit ≡ []) lanes.items }
    ensures { IfOk result (λ v. Along (IsEndOf calls) lanes.items v.items) }
{
    let mut ends = Vec::new(alloc);
    for lane in lanes {
        ends.push(ready_end(lane, calls)?)?;
    }
    Ok(ends)
}

/// Idle lanes.
fn idle_ends(alloc: Global, lanes: Vec<Lane>) -> Result<Vec<LaneEnd>, AllocError>
    ensures { IfOk result (λ v. v.items ≡ map (λ l. IdleEnd l) lanes.items) }
{
    let mut ends = Vec::new(alloc);
    for lane in lanes {
        ends.push(LaneEnd::Idle(lane))?;
    }
    Ok(ends)
}

/// Makes an arena, and a pass of it for each session.
fn make_column(alloc: Global, state: ArenaState, plan: Plan) -> Result<Column, AllocError>
    requires open { IsOpenState state }
    requires sets { plan.sets ≤ (shape_in state).lanes }
    ensures { IfOk result (IsColumn plan state) }
{
    let (arena, mut lanes) = Arena::of(alloc, state)?;
    let passes = passes_by(alloc, &arena, &mut lanes, plan.sessions)?;
    let others = lanes.split_off(plan.sets)?;
    let ends = ready_ends(alloc, lanes, plan.calls)?;
    let aside = idle_ends(alloc, others)?;
    Ok(Column {
        arena,
        ends,
        aside,
        passes,
    })
}

/// Adds an arena to the row.
fn add_column(plan: Plan, laid: &mut Laid, column: Column) -> Result<(), AllocError>
    requires ends { length column.ends.items ≡ length laid.old.ends.items }
    requires passes { length column.passes.items ≡ length laid.old.passes.items }
    ensures laid { OnOk result ((states : List State) (state : State) → AreLaid plan states laid.old → IsColumn plan state column → AreLaid plan (states ++ state ∷ []) laid.new) }
{
    let _plan = plan;
    let Column {
        arena,
        ends,
        aside,
        passes,
    } = column;
    laid.arenas.push(arena)?;
    push_each(&mut laid.ends, ends)?;
    laid.aside.push(aside)?;
    push_each(&mut laid.passes, passes)?;
    Ok(())
}

/// As many empty rows.
fn empty_rows<T: Drop>(alloc: Global, count: usize) -> Result<Vec<Vec<T>>, AllocError>
    ensures count { IfOk result (λ v. length v.items ≡ count) }
    ensures empty { IfOk result (λ v. All (λ row. row.items ≡ []) v.items) }
{
    let mut rows = Vec::new(alloc);
    for _ in 0..count {
        rows.push(Vec::new(alloc))?;
    }
    Ok(rows)
}

/// Makes all arenas, in a row.
pub(crate) fn lay(alloc: Global, states: Vec<ArenaState>, plan: Plan) -> Result<Laid, AllocError>
    requires open { All IsOpenState states.items }
    requires sets { All (λ state. plan.sets ≤ (shape_in state).lanes) states.items }
    ensures { IfOk result (AreLaid plan states.items) }
{
    let mut laid = Laid {
        arenas: Vec::new(alloc),
        ends: empty_rows(alloc, plan.sets)?,
        aside: Vec::new(alloc),
        passes: empty_rows(alloc, plan.sessions as usize)?,
    };
    for state in states {
        let column = make_column(alloc, state, plan)?;
        add_column(plan, &mut laid, column)?;
    }
    Ok(laid)
}

/// How many sets of lanes there are: one for each worker, or as many as the arena with the fewest
/// lanes has, if these are fewer.
pub(crate) fn count_sets(states: &[ArenaState], workers: usize) -> usize
    requires open { All IsOpenState states.now }
    ensures count { result ≡ set_count workers states.now }
{
    let mut sets = workers;
    for state in states {
        sets = sets.min(state.info.layout.lanes as usize);
    }
    sets
}
