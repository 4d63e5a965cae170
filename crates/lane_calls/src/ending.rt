//! How a call gives its lane back, and how a session rests.
ghost use Rattle.std.specs.Prelude.{◌≡◌, ℕ, [], true, None, Some};
ghost use Rattle.turn_lock.specs.Passes.{IsSamePass, lock_id};
ghost use Rattle.lane_table.specs.Fuse.{of_left};
ghost use Rattle.lane_table.specs.Kits.{IsOf, IsSame, arena_id, held_in, kit_in, spare_in};
ghost use Rattle.lane_table.specs.Law.{given_pass, holds_pass};
ghost use Rattle.lane_pool.specs.declared.sets.LaneSet.{LaneSet as Lanes};
ghost use Rattle.lane_pool.specs.declared.sets.PowerOff.{PowerOff as Off};
ghost use Rattle.lane_pool.specs.Parts.{CanAsk, PartGoes, Stops};
ghost use Rattle.lane_calls.specs.Calls.{IsSameSession, MayGiveBack, MayHandIn, MayPutAway, Rests, Spends};
ghost use Rattle.lane_calls.specs.Sessions.{IsOnLane, Know, KnowWith, Parts, made_with};

use crate::session::{KEPT_CALLS, Kept, Sectors, Session};
use lane_pool::PowerOff;
use lane_table::{Arena, Lane, LaneEnd, Pass};
use std::sync::Wait;

/// Takes the session's pass back from an idle lane.
fn take_back(arena: &Arena, lane: Lane, session: u32) -> (Lane, Pass)
    requires of { IsOf arena.now lane.kit }
    requires holds { holds_pass (held_in lane.kit) session ≡ true }
    ensures same { IsSame lane.kit result.0.kit }
    ensures free { held_in result.0.kit ≡ [] }
    ensures spare { spare_in result.0.kit ≡ spare_in lane.kit }
    ensures table { result.1.seat.table_id ≡ arena_id arena.now }
    ensures session { result.1.session ≡ session }
    ensures pass { result.1.seat.me.0 ≡ given_pass lane.kit.seat.me.0 }
{
    let mut lane = lane;
    let pass = lane.give_pass(arena, session);
    (lane, pass)
}

/// Gives a set back to the pool.
fn give_up<R: Wait>(rt: &R, sectors: &Sectors, session: &mut Session, kept: Kept)
    requires may { MayPutAway sectors.now kept session.old }
    ensures same { IsSameSession session.old session.new }
    ensures knows { (q : ℕ) (parts : Parts) → KnowWith sectors.now q parts 64 (Some kept) session.old → KnowWith sectors.now q parts 63 None session.new }
    ensures spends { PartGoes (Spends 0 kept.made 0) session.old.caller.pool session.new.caller.pool }
{
    let Kept { set, made } = kept;
    let pass = &mut session.caller.pool;
    sectors.pool.give_back(rt, pass, set, made);
}

/// The session keeps a set with which it made less than 64 calls. Another set goes back to the pool.
fn put_away<R: Wait>(rt: &R, sectors: &Sectors, session: &mut Session, kept: Kept)
    requires may { MayPutAway sectors.now kept session.old }
    ensures knows { (q : ℕ) (parts : Parts) → KnowWith sectors.now q parts 64 (Some kept) session.old → Know sectors.now q parts session.new }
    ensures spends { PartGoes (Spends 0 kept.made (made_with session.new.kept)) session.old.caller.pool session.new.caller.pool }
    ensures caller { (session.new.number ≡ session.old.number) × IsSamePass session.old.caller.pool session.new.caller.pool × (session.new.caller.left ≡ session.old.caller.left) × (session.new.caller.steps ≡ session.old.caller.steps) × (session.new.caller.call ≡ session.old.caller.call) }
{
    if kept.made < KEPT_CALLS {
        session.kept = Some(kept);
    } else {
        give_up(rt, sectors, session, kept);
    }
}

/// Ends a call that was answered: the session has its pass and its fuse back, and keeps the set, or
/// gives it back after 64 calls.
pub(crate) fn give_back<R: Wait>(
    rt: &R,
    sectors: &Sectors,
    session: &mut Session,
    place: usize,
    kept: Kept,
    lane: Lane,
)
    requires may { MayGiveBack sectors.now place kept lane.kit session.old }
    ensures knows { (q : ℕ) (parts : Parts) → IsOnLane sectors.now q parts place kept lane.kit session.old → Know sectors.now q parts session.new }
    ensures left { session.new.caller.left ≡ of_left lane.kit.fuse }
    ensures spends { PartGoes (Spends 0 kept.made (made_with session.new.kept)) session.old.caller.pool session.new.caller.pool }
    ensures caller { (session.new.number ≡ session.old.number) × IsSamePass session.old.caller.pool session.new.caller.pool × (session.new.caller.steps ≡ session.old.caller.steps) × (session.new.caller.call ≡ session.old.caller.call) }
{
    session.caller.left = lane.left();
    let (lane, pass) = take_back(&sectors.arenas[place], lane, session.number);
    session.passes[place] = Some(pass);
    let mut kept = kept;
    kept.set.ends[place] = Some(LaneEnd::Idle(lane));
    put_away(rt, sectors, session, kept);
}

/// Ends a call that was cut: the lane stays as it is, with the session's pass, and its set goes to
/// the pool, for which power is off from then on.
pub(crate) fn hand_in<R: Wait>(
    rt: &R,
    sectors: &Sectors,
    session: &mut Session,
    place: usize,
    kept: Kept,
    end: LaneEnd,
    off: PowerOff,
)
    requires may { MayHandIn sectors.now place kept (kit_in end) session.old }
    ensures knows { (q : ℕ) (parts : Parts) → IsOnLane sectors.now q parts place kept (kit_in end) session.old → Know sectors.now q parts session.new }
    ensures left { session.new.caller.left ≡ of_left (kit_in end).fuse }
    ensures pool { PartGoes (λ m m'. (s : Lanes) × (first : Off) × Stops (Some s) off first m m') session.old.caller.pool session.new.caller.pool }
    ensures caller { (session.new.number ≡ session.old.number) × IsSamePass session.old.caller.pool session.new.caller.pool × (session.new.caller.steps ≡ session.old.caller.steps) × (session.new.caller.call ≡ session.old.caller.call) }
{
    session.caller.left = end.left();
    let mut set = kept.set;
    set.ends[place] = Some(end);
    sectors
        .pool
        .stop(rt, &mut session.caller.pool, Some(set), off);
}

/// Gives the set that a session keeps back to the pool, if it keeps one. A session has to rest
/// before it asks for the power outside a call, before it is closed, and before others need the set
/// that it keeps: a session that takes a set waits while all are out.
pub fn rest<R: Wait>(rt: &R, sectors: &Sectors, session: &mut Session)
    requires know { (parts : Parts) × Know sectors.now session.old.number parts session.old }
    ensures knows { (parts : Parts) → Know sectors.now session.old.number parts session.old → Know sectors.now session.old.number parts session.new }
    ensures rests { Rests session.old session.new }
    ensures can_ask { CanAsk (lock_id sectors.now.pool.turn) session.new.caller.pool }
{
    if let Some(kept) = session.kept.take() {
        give_up(rt, sectors, session, kept);
    }
}
