//! A write is staged.
ghost use Rattle.std.specs.Prelude.{◌≡◌, ◌<◌, length, suc, Some};
ghost use Rattle.turn_lock.specs.Passes.{lock_id, part_of, IsSamePass, PartBecomes};
ghost use Rattle.lane_table.specs.declared.lanes.Lane.{Lane as AnyLane};
ghost use Rattle.lane_table.specs.declared.lanes.Staged.{Staged as AnyStaged};
ghost use Rattle.lane_table.specs.declared.lanes.Stopped.{Stopped as AnyStopped};
ghost use Rattle.lane_table.specs.Kits.{IsOf, spare_in};
ghost use Rattle.lane_table.specs.Stages.{stage_steps};
ghost use Rattle.lane_pool.specs.declared.sets.PowerOff.{PowerOff as Off};
ghost use Rattle.lane_pool.specs.Parts.{told_of};
ghost use Rattle.lane_calls.specs.declared.staging.StagedOrNot.TheVariants as ended;
ghost use Rattle.lane_calls.specs.Lanes.{IsBurnt, MayAsk, Pays, Stays, words_in};

use lane_pool::{LanePool, Pool, PowerOff};
use lane_table::{Arena, Lane, StageOutcome, Staged, Stopped};
use std::sync::Wait;
use std::thread;
use turn_lock::TurnPass;

/// How staging ends.
#[derive(Drop)]
pub enum StagedOrNot {
    Staged(Staged),
    /// Power is off. The lane is idle.
    Off(Lane, PowerOff),
    /// The fuse was spent.
    Cut(Stopped),
}

/// Tries to stage these words until they are staged, or power is off.
pub fn stage_until<R: Wait>(
    rt: &R,
    pool: &LanePool,
    pass: &mut TurnPass<Pool>,
    arena: &Arena,
    lane: Lane,
    words: &[u64],
) -> StagedOrNot
    requires arena { IsOf arena.now lane.kit }
    requires words { length words.now ≡ arena.now.shape.width }
    requires spare { 0 < spare_in lane.kit }
    requires may_ask { MayAsk (lock_id pool.now.turn) pass.old }
    ensures pass { IsSamePass pass.old pass.new }
    ensures may_ask { MayAsk (lock_id pool.now.turn) pass.new }
    ensures staged { (s : AnyStaged) → result ≡ ended.Staged s
        → Stays lane.kit s.kit × (words_in s.kit ≡ words.now) × (spare_in lane.kit ≡ suc (spare_in s.kit)) × Pays (stage_steps arena.now.shape) lane.kit s.kit × (part_of pass.new ≡ part_of pass.old) }
    ensures off { (l : AnyLane) (p : Off) → result ≡ ended.Off l p → Stays lane.kit l.kit × Pays 0 lane.kit l.kit × PartBecomes (told_of p) pass.old pass.new }
    ensures cut { (k : AnyStopped) → result ≡ ended.Cut k → Stays lane.kit k.kit × Pays 0 lane.kit k.kit × IsBurnt lane.kit k.kit × (part_of pass.new ≡ part_of pass.old) }
{
    let mut lane = lane;
    for _ in rt.forever() {
        match lane.try_stage(arena, words) {
            StageOutcome::Staged(staged) => return StagedOrNot::Staged(staged),
            StageOutcome::Tracked {
                lane: back,
                reader: _,
                block: _,
            } => {
                if let Some(off) = pool.power(rt, pass) {
                    return StagedOrNot::Off(back, off);
                }
                lane = back;
                thread::yield_now();
            }
            StageOutcome::Cut(stopped) => return StagedOrNot::Cut(stopped),
        }
    }
    unreachable!()
}
