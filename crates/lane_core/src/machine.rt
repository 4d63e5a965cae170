ghost use Rattle.std.specs.Prelude.{◌≡◌, ◌<◌, map, slice_get, Some, IfOk};
ghost use Rattle.arena_layout.specs.Layout.{IsLayout};
ghost use Rattle.arena_open.specs.Moves.{IsOpenState};
ghost use Rattle.lane_core.specs.Arenas.{cells_in};
ghost use Rattle.lane_core.specs.Held.{held_by};
ghost use Rattle.lane_core.specs.Idle.{idle_of};
ghost use Rattle.lane_core.specs.Machines.{IsCore, IsFresh, IsSomeCore, StepsOnce};
ghost use Rattle.lane_core.specs.Keeping.{Keeps};
ghost use Rattle.lane_core.specs.Reopening.{IsCoreOf};
ghost use Rattle.lane_core.specs.Schedules.{answer_in, held_after, Step};
ghost use Rattle.lane_core.specs.Sessions.{ServesSessions};

use crate::buffer::Buffer;
use crate::calls::History;
use crate::history::Entry;
use crate::now::LaneNow;
use crate::phase::Phase;
use crate::row::Row;
use crate::shape::Shape;
use crate::stepped::Stepped;
use crate::steps::step_lane;
use arena_layout::Info;
use arena_open::{ArenaState, LaneState};
use nvd_words::Tag;
use std::alloc::{AllocError, Global};

/// An arena whose lanes step one word at a time, and the calls that stand.
#[derive(Drop)]
pub struct Core {
    pub(crate) alloc: Global,
    /// What the arena's info block says.
    pub info: Info,
    /// The places of its words.
    pub shape: Shape,
    pub(crate) row: Row,
    pub(crate) lanes: Vec<LaneNow>,
    pub(crate) history: History,
}

/// A lane without a call.
fn idle_lane(alloc: Global, lane: &LaneState) -> LaneNow
    ensures { result ≡ idle_of lane.now }
{
    LaneNow {
        block: lane.free,
        side: lane.group.side,
        half: lane.group.half,
        phase: Phase::Idle,
        tag: Tag {
            session: 0,
            call: 0,
        },
        sector: 0,
        loaded: 0,
        words: Buffer::none(alloc),
        cell: Buffer::none(alloc),
        next: Tag {
            session: 0,
            call: 0,
        },
        next_sector: 0,
    }
}

fn idle_lanes(alloc: Global, lanes: &[LaneState]) -> Result<Vec<LaneNow>, AllocError>
    ensures { IfOk result (λ made. made.items ≡ map idle_of lanes.now) }
{
    lanes
        .iter()
        .map(|lane| idle_lane(alloc, lane))
        .collect(alloc)
}

/// The core of an arena before its first call.
fn fresh(alloc: Global, state: ArenaState) -> Result<Core, AllocError>
    requires layout { IsLayout state.info.layout }
    ensures { IfOk result (IsFresh state) }
{
    let shape = Shape::of(&state.info.layout);
    let row = Row::new(alloc, state.words.as_slice(), shape.lanes)?;
    let lanes = idle_lanes(alloc, state.lanes.as_slice())?;
    Ok(Core {
        alloc,
        info: state.info,
        shape,
        row,
        lanes,
        history: History::none(alloc),
    })
}

impl Core {
    /// The core of an arena: all lanes are idle, and no call stands. Its history begins with the
    /// cells that a reader of the arena gets (`cell_at`).
    ///
    /// Condition: `open_arena` returned this state. The only refusal is out of memory.
    pub fn of(alloc: Global, state: ArenaState) -> Result<Core, AllocError>
        requires state { IsOpenState state }
        ensures core { IfOk result (IsCore (cells_in state)) }
        ensures sound { IfOk result IsSomeCore }
        ensures arena { IfOk result (IsCoreOf state) }
        ensures serves { IfOk result ServesSessions }
        ensures fresh { IfOk result (IsFresh state) }
    {
        fresh(alloc, state)
    }

    /// One step of a lane: the line of its phase. Takes no memory.
    ///
    /// Returns `Nothing` if and only if the lane is idle. Condition: the lane exists.
    pub fn step(&mut self, lane: u32) -> Stepped
        requires core { IsSomeCore self.old }
        requires lane { lane < self.old.shape.lanes }
        ensures keeps { Keeps self.old self.new }
        ensures serves { ServesSessions self.old → ServesSessions self.new }
        ensures line { (p : LaneNow) → slice_get self.old.lanes.items lane ≡ Some p → StepsOnce self.old self.new lane p result }
        ensures held { held_by self.new ≡ held_after (held_by self.old) (Step lane) }
        ensures answer { result ≡ answer_in (held_by self.old) lane }
    {
        let mine = &mut self.lanes[lane as usize];
        step_lane(
            &mut self.row,
            mine,
            &mut self.history,
            &self.shape,
            lane,
            self.alloc,
        )
    }

    /// The phase of a lane. Condition: the lane exists.
    pub fn phase(&self, lane: u32) -> Phase
        requires core { IsSomeCore self.now }
        requires lane { lane < self.now.shape.lanes }
        ensures { (p : LaneNow) → slice_get self.now.lanes.items lane ≡ Some p → result ≡ p.phase }
    {
        self.lanes[lane as usize].phase
    }

    /// The calls that stand, oldest first.
    pub fn history(&self) -> &[Entry]
        ensures { result.now ≡ self.now.history.entries }
    {
        self.history.as_slice()
    }
}
