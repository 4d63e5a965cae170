//! How a call gets its lane: it uses the set that the session kept, or takes one from the pool, and
//! lends the lane at its place the session's pass.
ghost use Rattle.std.specs.Prelude.{◌≡◌, ◌≢◌, ◌≤◌, ◌<◌, [], length, None, Some, IfSome, slice_set};
ghost use Rattle.turn_lock.specs.Passes.{IsSamePass};
ghost use Rattle.lane_table.specs.declared.lanes.LaneEnd.TheVariants as end;
ghost use Rattle.lane_table.specs.Fuse.{of_left};
ghost use Rattle.lane_table.specs.Kits.{IsOf, IsSame, arena_id, held_in, spare_in};
ghost use Rattle.lane_table.specs.Law.{steps_of};
ghost use Rattle.lane_pool.specs.Parts.{PartGoes};
ghost use Rattle.lane_pool.specs.Sets.{IsIdleEnd};
ghost use Rattle.lane_calls.specs.Calls.{Began, IsRefused, IsSameSession, MayBeginAt, MayStart, MayTakeSet, Spends, Starts};
ghost use Rattle.lane_calls.specs.Lanes.{steps_in};
ghost use Rattle.lane_calls.specs.Sessions.{Know, KnowWith, Parts, end_at, made_with};

use crate::session::{Kept, Sectors, Session};
use lane_pool::{LaneSet, Taken};
use lane_table::{Arena, Lane, LaneEnd, Pass};
use std::sync::Wait;

/// A set that is out, and the lane that was at the call's place.
#[derive(Drop)]
pub(crate) struct OnLane {
    /// The set. This call is counted in it.
    pub(crate) kept: Kept,
    pub(crate) lane: Lane,
}

/// Takes the idle lane at a place out of a set.
fn take_lane(set: &mut LaneSet, place: usize) -> Lane
    requires place { place < length set.old.ends.items }
    requires idle { IsIdleEnd 0 (end_at set.old place) }
    ensures lane { end_at set.old place ≡ Some (end.Idle result) }
    ensures number { set.new.number ≡ set.old.number }
    ensures ends { set.new.ends.items ≡ slice_set set.old.ends.items place None }
{
    match set.ends[place].take() {
        Some(LaneEnd::Idle(lane)) => lane,
        Some(LaneEnd::Staged(_)) => unreachable!(),
        Some(LaneEnd::Stopped(_)) => unreachable!(),
        None => unreachable!(),
    }
}

/// Lends an idle lane the session's pass and its fuse.
fn lend(arena: &Arena, lane: Lane, pass: Pass, left: Option<u64>) -> Lane
    requires of { IsOf arena.now lane.kit }
    requires free { held_in lane.kit ≡ [] }
    requires pass { pass.seat.table_id ≡ arena_id arena.now }
    ensures same { IsSame lane.kit result.kit }
    ensures fuse { of_left result.kit.fuse ≡ left }
    ensures spare { spare_in result.kit ≡ spare_in lane.kit }
    ensures held { held_in result.kit ≡ pass.seat.me.0.loose }
    ensures steps { steps_in result.kit ≡ steps_of pass.seat.me.0.loose }
{
    let mut lane = lane;
    lane.set_fuse(left);
    lane.take_pass(arena, pass);
    lane
}

/// A set from the pool. `None` if power is off, as the session is told then.
fn new_set<R: Wait>(rt: &R, sectors: &Sectors, session: &mut Session) -> Option<Kept>
    requires may { MayTakeSet sectors.now None session.old }
    requires none { session.old.kept ≡ None }
    ensures same { IsSameSession session.old session.new }
    ensures knows { IfSome result (λ r. (parts : Parts) → KnowWith sectors.now session.old.number parts 63 None session.old → KnowWith sectors.now session.old.number parts 63 (Some r) session.new) }
    ensures spends { IfSome result (λ r. PartGoes (Spends 0 0 r.made) session.old.caller.pool session.new.caller.pool) }
    ensures refused { result ≡ None → IsRefused session.old session.new }
{
    match sectors.pool.take(rt, &mut session.caller.pool) {
        Taken::Got(set) => Some(Kept { set, made: 0 }),
        Taken::Off(_) => None,
    }
}

/// The set that the session kept, or one from the pool.
fn set_for_call<R: Wait>(rt: &R, sectors: &Sectors, session: &mut Session) -> Option<Kept>
    requires may { MayTakeSet sectors.now session.old.kept session.old }
    ensures same { IsSameSession session.old session.new }
    ensures knows { IfSome result (λ r. (parts : Parts) → Know sectors.now session.old.number parts session.old → KnowWith sectors.now session.old.number parts 63 (Some r) session.new) }
    ensures spends { IfSome result (λ r. PartGoes (Spends 0 (made_with session.old.kept) r.made) session.old.caller.pool session.new.caller.pool) }
    ensures refused { result ≡ None → IsRefused session.old session.new }
{
    match session.kept.take() {
        Some(kept) => Some(kept),
        None => new_set(rt, sectors, session),
    }
}

/// Lends the lane at a place of a set that the session has out.
fn start(sectors: &Sectors, session: &mut Session, place: usize, kept: Kept) -> OnLane
    requires may { MayStart sectors.now place kept session.old }
    ensures on { (parts : Parts) → KnowWith sectors.now session.old.number parts 63 (Some kept) session.old → Starts sectors.now place parts kept result.kept result.lane.kit session.old session.new }
    ensures caller { (session.new.number ≡ session.old.number) × (session.new.caller.pool ≡ session.old.caller.pool) × (session.new.caller.left ≡ session.old.caller.left) × (session.new.caller.steps ≡ session.old.caller.steps) × (session.new.caller.call ≡ session.old.caller.call) }
{
    let Kept { set, made } = kept;
    let mut set = set;
    let lane = take_lane(&mut set, place);
    let pass = match session.passes[place].take() {
        Some(pass) => pass,
        None => unreachable!(),
    };
    let lane = lend(&sectors.arenas[place], lane, pass, session.caller.left);
    let made = made + 1;
    let kept = Kept { set, made };
    OnLane { kept, lane }
}

/// Begins a call on the arena at a place. `None` if power is off, as the session is told then.
///
/// A session that kept a set isn't told here. It is told before a further try, or when it takes the next set.
pub(crate) fn begin<R: Wait>(
    rt: &R,
    sectors: &Sectors,
    session: &mut Session,
    place: usize,
) -> Option<OnLane>
    requires may { MayBeginAt sectors.now place session.old }
    ensures began { IfSome result (λ r. (parts : Parts) → Know sectors.now session.old.number parts session.old → Began sectors.now place parts r.kept r.lane.kit session.old session.new) }
    ensures refused { result ≡ None → IsRefused session.old session.new }
    ensures caller { (session.new.number ≡ session.old.number) × IsSamePass session.old.caller.pool session.new.caller.pool × (session.new.caller.left ≡ session.old.caller.left) × (session.new.caller.steps ≡ session.old.caller.steps) × (session.new.caller.call ≡ session.old.caller.call) }
{
    match set_for_call(rt, sectors, session) {
        Some(kept) => Some(start(sectors, session, place, kept)),
        None => None,
    }
}
