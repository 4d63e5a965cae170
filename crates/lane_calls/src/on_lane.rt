//! A write by one lane, from its first try to its end.
ghost use Rattle.std.specs.Prelude.{◌≡◌, ◌+◌, ◌<◌, length, suc, true};
ghost use Rattle.turn_lock.specs.Passes.{lock_id, part_of, IsSamePass, PartBecomes};
ghost use Rattle.lane_table.specs.declared.lanes.Lane.{Lane as AnyLane};
ghost use Rattle.lane_table.specs.declared.lanes.LaneEnd.{LaneEnd as AnyEnd};
ghost use Rattle.lane_table.specs.Kits.{IsOf, held_in, kit_in, spare_in};
ghost use Rattle.lane_table.specs.Law.{may_enter};
ghost use Rattle.lane_table.specs.Stages.{stage_steps};
ghost use Rattle.lane_pool.specs.declared.sets.PowerOff.{PowerOff as Off};
ghost use Rattle.lane_pool.specs.Parts.{told_of};
ghost use Rattle.lane_calls.specs.declared.on_lane.WriteEnd.TheVariants as ended;
ghost use Rattle.lane_calls.specs.Lanes.{Adds, IsBurnt, IsCutIn, MayAsk, Pays, Stays, words_in, write_entry};

use crate::staging::{StagedOrNot, stage_until};
use crate::waiting::Waiting;
use crate::writing::{Committed, commit_until};
use lane_pool::{LanePool, Pool, PowerOff};
use lane_table::{Arena, Call, Lane, LaneEnd, Staged};
use nvd_media::Gate;
use std::sync::Wait;
use turn_lock::TurnPass;

/// How a write ends.
#[derive(Drop)]
pub enum WriteEnd {
    /// It stands.
    Done(Lane),
    /// Power is off. No write of the lane is in flight.
    Off(LaneEnd, PowerOff),
    /// The fuse was spent.
    Cut(LaneEnd),
}

/// Commits a staged write.
fn finish<R: Wait>(
    rt: &R,
    pool: &LanePool,
    pass: &mut TurnPass<Pool>,
    arena: &Arena,
    staged: Staged,
    call: Call,
) -> WriteEnd
    requires arena { IsOf arena.now staged.kit }
    requires sector { call.sector < arena.now.shape.sectors }
    requires may { may_enter (held_in staged.kit) call.tag ≡ true }
    requires may_ask { MayAsk (lock_id pool.now.turn) pass.old }
    ensures pass { IsSamePass pass.old pass.new }
    ensures may_ask { MayAsk (lock_id pool.now.turn) pass.new }
    ensures done { (l : AnyLane) → result ≡ ended.Done l → Adds (write_entry staged.kit.number call (words_in staged.kit)) staged.kit l.kit × (spare_in l.kit ≡ spare_in staged.kit) × Pays 9 staged.kit l.kit × (part_of pass.new ≡ part_of pass.old) }
    ensures off { (e : AnyEnd) (p : Off) → result ≡ ended.Off e p → Stays staged.kit (kit_in e) × Pays 0 staged.kit (kit_in e) × PartBecomes (told_of p) pass.old pass.new }
    ensures cut { (e : AnyEnd) → result ≡ ended.Cut e → IsCutIn 0 call (words_in staged.kit) staged.kit (kit_in e) × Pays 0 staged.kit (kit_in e) × IsBurnt staged.kit (kit_in e) × (part_of pass.new ≡ part_of pass.old) }
{
    match commit_until(rt, pool, pass, arena, staged, call) {
        Committed::Done(lane) => WriteEnd::Done(lane),
        Committed::Off(staged, off) => WriteEnd::Off(LaneEnd::Staged(staged), off),
        Committed::Cut(stopped) => WriteEnd::Cut(LaneEnd::Stopped(stopped)),
    }
}

/// Writes these words by a lane that holds the session's pass: stages them, tells the gate, and
/// commits.
pub fn write_on_lane<R: Wait, G: Gate>(
    waiting: &Waiting<R, G>,
    pool: &LanePool,
    pass: &mut TurnPass<Pool>,
    arena: &Arena,
    lane: Lane,
    call: Call,
    words: &[u64],
) -> WriteEnd
    requires arena { IsOf arena.now lane.kit }
    requires sector { call.sector < arena.now.shape.sectors }
    requires words { length words.now ≡ arena.now.shape.width }
    requires spare { 0 < spare_in lane.kit }
    requires may { may_enter (held_in lane.kit) call.tag ≡ true }
    requires may_ask { MayAsk (lock_id pool.now.turn) pass.old }
    ensures pass { IsSamePass pass.old pass.new }
    ensures may_ask { MayAsk (lock_id pool.now.turn) pass.new }
    ensures done { (l : AnyLane) → result ≡ ended.Done l
        → Adds (write_entry lane.kit.number call words.now) lane.kit l.kit × (spare_in lane.kit ≡ suc (spare_in l.kit)) × Pays (stage_steps arena.now.shape + 9) lane.kit l.kit × (part_of pass.new ≡ part_of pass.old) }
    ensures off { (e : AnyEnd) (p : Off) → result ≡ ended.Off e p → Stays lane.kit (kit_in e) × Pays 0 lane.kit (kit_in e) × PartBecomes (told_of p) pass.old pass.new }
    ensures cut { (e : AnyEnd) → result ≡ ended.Cut e → IsCutIn (stage_steps arena.now.shape) call words.now lane.kit (kit_in e) × Pays 0 lane.kit (kit_in e) × IsBurnt lane.kit (kit_in e) × (part_of pass.new ≡ part_of pass.old) }
{
    match stage_until(waiting.rt, pool, pass, arena, lane, words) {
        StagedOrNot::Staged(staged) => {
            waiting.gate.staged(call.tag.session, call.tag.call);
            finish(waiting.rt, pool, pass, arena, staged, call)
        }
        StagedOrNot::Off(lane, off) => WriteEnd::Off(LaneEnd::Idle(lane), off),
        StagedOrNot::Cut(stopped) => WriteEnd::Cut(LaneEnd::Stopped(stopped)),
    }
}
