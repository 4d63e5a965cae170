//! Passes: tokens of sessions. A session's calls use one lane after another, so that its calls can't
//! be told from any one lane's log. Its pass goes along with them: a lane that holds the pass adds
//! to it each call that it adds to its own log, and counts its steps for it.
ghost use Rattle.std.specs.Prelude.{◌≡◌, ◌+◌, ◌-◌, ◌<◌, ◌^◌, [], ◌∷◌};
ghost use Rattle.lane_table.specs.Kits.{arena_id};
ghost use Rattle.lane_table.specs.Law.{entries_of, left_to_make, made_pass, others, pass_now, pass_seat, steps_of, unmade_from};

use crate::arena::Arena;
use crate::kinds::{GivePass, JoinSeat, MakePass, TakePass};
use crate::lanes::{Kit, Lane, LaneEnd};
use crate::table::LaneSeat;

/// A session's pass, which no lane holds.
#[derive(Drop)]
pub struct Pass {
    pub(crate) seat: LaneSeat,
    pub(crate) session: u32,
    ghost alone: { seat.me ≡ (pass_seat seat.me.0.loose, []) },
    ghost one: { seat.me.0.loose ≡ pass_now session (steps_of seat.me.0.loose) (entries_of seat.me.0.loose) },
}

/// The seat of a session's pass.
fn pass_in(seat: LaneSeat, session: u32) -> Pass
    requires alone { seat.me ≡ (pass_seat seat.me.0.loose, []) }
    requires one { seat.me.0.loose ≡ pass_now session (steps_of seat.me.0.loose) (entries_of seat.me.0.loose) }
    ensures seat { result.seat ≡ seat }
    ensures session { result.session ≡ session }
{
    Pass { seat, session }
}

/// Makes the next pass, by the seat that makes them all, which has made so many.
fn make_pass(arena: &Arena, seat: &mut LaneSeat, made: &mut u32) -> Pass
    requires arena { seat.old.table_id ≡ arena_id arena.now }
    requires makes { seat.old.me.0.loose ≡ unmade_from made.old ∷ others seat.old.me.0.loose }
    requires few { made.old < 2 ^ 32 - 1 }
    ensures of { (result.seat.table_id ≡ arena_id arena.now) × (seat.new.table_id ≡ seat.old.table_id) }
    ensures session { result.session ≡ made.old }
    ensures new { result.seat.me.0 ≡ made_pass seat.old.me.0 }
    ensures left { seat.new.me ≡ (left_to_make seat.old.me.0, seat.old.me.1) }
    ensures made { made.new ≡ made.old + 1 }
    ensures makes { seat.new.me.0.loose ≡ unmade_from made.new ∷ others seat.new.me.0.loose }
{
    let session = *made;
    let right = arena.table.shared.split_seat::<MakePass>(seat);
    *made = session + 1;
    pass_in(right, session)
}

impl Pass {
    /// The session's number.
    pub fn session(&self) -> u32
        ensures { result ≡ self.now.session }
    {
        self.session
    }
}

impl Lane {
    ghost use Rattle.std.specs.Prelude.{◌≡◌, ◌+◌, ◌-◌, ◌<◌, ◌^◌, [], true};
    ghost use Rattle.lane_table.specs.Kits.{arena_id, held_in, IsOf};
    ghost use Rattle.lane_table.specs.Law.{given_pass, holds_pass, left_to_make, made_pass, with_pass, without_pass};

    /// Makes the pass of the next session, counted from 0. Lane 0 makes all passes.
    pub fn pass(&mut self, arena: &Arena) -> Pass
        requires arena { IsOf arena.now self.old.kit }
        requires first { self.old.kit.number ≡ 0 }
        requires few { self.old.kit.made < 2 ^ 32 - 1 }
        ensures of { result.seat.table_id ≡ arena_id arena.now }
        ensures session { result.session ≡ self.old.kit.made }
        ensures new { result.seat.me.0 ≡ made_pass self.old.kit.seat.me.0 }
        ensures made { self.new.kit.made ≡ self.old.kit.made + 1 }
        ensures left { self.new.kit.seat.me.0 ≡ left_to_make self.old.kit.seat.me.0 }
        ensures lane { (self.new.kit.seat.table_id ≡ self.old.kit.seat.table_id) × (self.new.kit.number ≡ self.old.kit.number) }
        ensures fuse { self.new.kit.fuse ≡ self.old.kit.fuse }
        ensures log { self.new.kit.log ≡ self.old.kit.log }
        ensures mine { self.new.mine ≡ self.old.mine }
    {
        make_pass(arena, &mut self.kit.seat, &mut self.kit.made)
    }

    /// Takes a pass. From then on the lane's calls are the session's.
    pub fn take_pass(&mut self, arena: &Arena, pass: Pass)
        requires arena { IsOf arena.now self.old.kit }
        requires pass { pass.seat.table_id ≡ arena_id arena.now }
        requires none { held_in self.old.kit ≡ [] }
        ensures takes { self.new.kit.seat.me.0 ≡ with_pass self.old.kit.seat.me.0 pass.seat.me.0 }
        ensures made { self.new.kit.made ≡ self.old.kit.made }
        ensures lane { (self.new.kit.seat.table_id ≡ self.old.kit.seat.table_id) × (self.new.kit.number ≡ self.old.kit.number) }
        ensures fuse { self.new.kit.fuse ≡ self.old.kit.fuse }
        ensures log { self.new.kit.log ≡ self.old.kit.log }
        ensures mine { self.new.mine ≡ self.old.mine }
    {
        let Pass { seat, session: _ } = pass;
        arena
            .table
            .shared
            .join_seat::<TakePass>(&mut self.kit.seat, seat);
    }

    /// Gives the session's pass away.
    pub fn give_pass(&mut self, arena: &Arena, session: u32) -> Pass
        requires arena { IsOf arena.now self.old.kit }
        requires holds { holds_pass (held_in self.old.kit) session ≡ true }
        ensures of { result.seat.table_id ≡ arena_id arena.now }
        ensures session { result.session ≡ session }
        ensures gives { result.seat.me.0 ≡ given_pass self.old.kit.seat.me.0 }
        ensures left { self.new.kit.seat.me.0 ≡ without_pass self.old.kit.seat.me.0 }
        ensures made { self.new.kit.made ≡ self.old.kit.made }
        ensures lane { (self.new.kit.seat.table_id ≡ self.old.kit.seat.table_id) × (self.new.kit.number ≡ self.old.kit.number) }
        ensures fuse { self.new.kit.fuse ≡ self.old.kit.fuse }
        ensures log { self.new.kit.log ≡ self.old.kit.log }
        ensures mine { self.new.mine ≡ self.old.mine }
    {
        let seat = arena
            .table
            .shared
            .split_seat::<GivePass>(&mut self.kit.seat);
        pass_in(seat, session)
    }
}

impl Kit {
    ghost use Rattle.std.specs.Prelude.{◌≡◌};
    ghost use Rattle.lane_table.specs.Kits.{arena_id};
    ghost use Rattle.lane_table.specs.Law.{gathered};

    /// Carries a pass along.
    fn carry(&mut self, arena: &Arena, pass: Pass)
        requires arena { self.old.seat.table_id ≡ arena_id arena.now }
        requires pass { pass.seat.table_id ≡ arena_id arena.now }
        ensures carries { self.new.seat.me ≡ (gathered self.old.seat.me.0 pass.seat.me.0, self.old.seat.me.1) }
        ensures lane { (self.new.seat.table_id ≡ self.old.seat.table_id) × (self.new.number ≡ self.old.number) × (self.new.made ≡ self.old.made) }
        ensures fuse { self.new.fuse ≡ self.old.fuse }
        ensures log { self.new.log ≡ self.old.log }
    {
        let Pass { seat, session: _ } = pass;
        arena
            .table
            .shared
            .join_seat::<JoinSeat>(&mut self.seat, seat);
    }
}

impl LaneEnd {
    ghost use Rattle.std.specs.Prelude.{◌≡◌};
    ghost use Rattle.lane_table.specs.Kits.{arena_id, kit_in};
    ghost use Rattle.lane_table.specs.Law.{gathered};

    /// Takes a pass, before the arena is closed. The lane at this end doesn't hold it: it is carried
    /// along.
    pub fn take_pass(&mut self, arena: &Arena, pass: Pass)
        requires arena { (kit_in self.old).seat.table_id ≡ arena_id arena.now }
        requires pass { pass.seat.table_id ≡ arena_id arena.now }
        ensures carries { (kit_in self.new).seat.me.0 ≡ gathered (kit_in self.old).seat.me.0 pass.seat.me.0 }
        ensures lane { ((kit_in self.new).seat.table_id ≡ (kit_in self.old).seat.table_id) × ((kit_in self.new).number ≡ (kit_in self.old).number) }
        ensures log { (kit_in self.new).log ≡ (kit_in self.old).log }
    {
        match self {
            LaneEnd::Idle(lane) => lane.kit.carry(arena, pass),
            LaneEnd::Staged(staged) => staged.kit.carry(arena, pass),
            LaneEnd::Stopped(stopped) => stopped.kit.carry(arena, pass),
        }
    }
}
