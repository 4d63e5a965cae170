//! A lane with its seat, in each of its states. A call takes the lane in one state and returns it
//! in another, so a state has no method for a call that it doesn't allow.
ghost use Rattle.std.specs.Prelude.{◌≡◌, ◌+◌, ◌<◌, true, [], ◌∷◌, vec_len, vec_capacity};
ghost use Rattle.lane_core.specs.declared.phase.Phase.TheVariants.{Idle as IsIdle, Staged as IsStaged};
ghost use Rattle.lane_table.specs.Conditions.{IsMine};
ghost use Rattle.lane_table.specs.Logs.{IsLogOf};
ghost use Rattle.lane_table.specs.Law.{unmade_from, others};
ghost use Rattle.lane_table.specs.Told.{blocks};

use crate::fuse::Fuse;
use crate::log::LaneLog;
use crate::pieces::Mine;
use crate::table::LaneSeat;

/// What a lane has in every state.
#[derive(Drop)]
pub struct Kit {
    pub(crate) seat: LaneSeat,
    pub(crate) number: u32,
    /// How many passes its seat has made. Only lane 0 makes passes.
    pub(crate) made: u32,
    pub(crate) fuse: Fuse,
    pub(crate) log: LaneLog,
    ghost live: { seat.me.0.live ≡ true },
    ghost numbered: { (seat.me.0.number ≡ number) × (number < seat.me.0.shape.lanes) },
    ghost alone: { (seat.me.0.rest ≡ []) × (seat.me.1 ≡ []) },
    ghost makes: { number ≡ 0 → seat.me.0.loose ≡ unmade_from made ∷ others seat.me.0.loose },
    ghost logged: { IsLogOf log.calls seat.me.0.lane.log },
}

/// Puts together again what a lane has.
pub(crate) fn kit_of(seat: LaneSeat, number: u32, made: u32, fuse: Fuse, log: LaneLog) -> Kit
    requires live { seat.me.0.live ≡ true }
    requires numbered { (seat.me.0.number ≡ number) × (number < seat.me.0.shape.lanes) }
    requires alone { (seat.me.0.rest ≡ []) × (seat.me.1 ≡ []) }
    requires makes { number ≡ 0 → seat.me.0.loose ≡ unmade_from made ∷ others seat.me.0.loose }
    requires logged { IsLogOf log.calls seat.me.0.lane.log }
    ensures me { result.seat.me ≡ seat.me }
    ensures parts { (result.seat ≡ seat) × (result.number ≡ number) × (result.made ≡ made) × (result.fuse ≡ fuse) }
    ensures log { result.log ≡ log }
{
    Kit {
        seat,
        number,
        made,
        fuse,
        log,
    }
}

/// An idle lane.
#[derive(Drop)]
pub struct Lane {
    pub(crate) kit: Kit,
    pub(crate) mine: Mine,
    ghost idle: { kit.seat.me.0.lane.phase ≡ IsIdle },
    ghost mine_is: { IsMine mine kit.seat.me.0 },
    ghost in_range: { mine.block < blocks kit.seat.me.0.shape },
}

/// A lane whose free block has the words of a write, seen and kept. Its seat knows the words.
#[derive(Drop)]
pub struct Staged {
    pub(crate) kit: Kit,
    pub(crate) mine: Mine,
    ghost staged: { kit.seat.me.0.lane.phase ≡ IsStaged },
    ghost mine_is: { IsMine mine kit.seat.me.0 },
    ghost in_range: { mine.block < blocks kit.seat.me.0.shape },
    ghost taken: { vec_len kit.log.calls + kit.log.spare < vec_capacity kit.log.calls },
}

/// A lane whose fuse was spent when a step was due. It stays in that step.
#[derive(Drop)]
pub struct Stopped {
    pub(crate) kit: Kit,
}

/// A lane at the end of a run.
#[derive(Drop)]
pub enum LaneEnd {
    Idle(Lane),
    Staged(Staged),
    Stopped(Stopped),
}

impl LaneEnd {
    ghost use Rattle.lane_table.specs.Fuse.{of_left};
    ghost use Rattle.lane_table.specs.Kits.{kit_in};

    /// The steps that are left, if a fuse is set.
    pub fn left(&self) -> Option<u64>
        ensures { result ≡ of_left (kit_in self.now).fuse }
    {
        match self {
            LaneEnd::Idle(lane) => lane.kit.fuse.left(),
            LaneEnd::Staged(staged) => staged.kit.fuse.left(),
            LaneEnd::Stopped(stopped) => stopped.kit.fuse.left(),
        }
    }

    /// What the lane has.
    pub(crate) fn into_kit(self) -> Kit
        ensures { result ≡ kit_in self }
    {
        match self {
            LaneEnd::Idle(lane) => {
                let Lane { kit, mine: _ } = lane;
                kit
            }
            LaneEnd::Staged(staged) => {
                let Staged { kit, mine: _ } = staged;
                kit
            }
            LaneEnd::Stopped(stopped) => {
                let Stopped { kit } = stopped;
                kit
            }
        }
    }
}
