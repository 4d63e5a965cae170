//! A staged write is committed.
ghost use Rattle.std.specs.Prelude.{◌≡◌, ◌<◌, Some, true};
ghost use Rattle.turn_lock.specs.Passes.{lock_id, part_of, IsSamePass, PartBecomes};
ghost use Rattle.lane_table.specs.declared.lanes.Lane.{Lane as AnyLane};
ghost use Rattle.lane_table.specs.declared.lanes.Staged.{Staged as AnyStaged};
ghost use Rattle.lane_table.specs.declared.lanes.Stopped.{Stopped as AnyStopped};
ghost use Rattle.lane_table.specs.Kits.{IsOf, held_in, spare_in};
ghost use Rattle.lane_table.specs.Law.{may_enter};
ghost use Rattle.lane_pool.specs.declared.sets.PowerOff.{PowerOff as Off};
ghost use Rattle.lane_pool.specs.Parts.{told_of};
ghost use Rattle.lane_calls.specs.declared.writing.Committed.TheVariants as ended;
ghost use Rattle.lane_calls.specs.Lanes.{Adds, IsBurnt, IsCutIn, MayAsk, Pays, Stays, words_in, write_entry};

use lane_pool::{LanePool, Pool, PowerOff};
use lane_table::{Arena, Call, CommitOutcome, Lane, Staged, Stopped};
use std::sync::Wait;
use std::thread;
use turn_lock::TurnPass;

/// How a commit ends.
#[derive(Drop)]
pub enum Committed {
    Done(Lane),
    /// Power is off. The lane is staged as it was.
    Off(Staged, PowerOff),
    /// The fuse was spent.
    Cut(Stopped),
}

/// Tries to commit a staged write to a sector until it stands, or power is off.
pub fn commit_until<R: Wait>(
    rt: &R,
    pool: &LanePool,
    pass: &mut TurnPass<Pool>,
    arena: &Arena,
    staged: Staged,
    call: Call,
) -> Committed
    requires arena { IsOf arena.now staged.kit }
    requires sector { call.sector < arena.now.shape.sectors }
    requires may { may_enter (held_in staged.kit) call.tag ≡ true }
    requires may_ask { MayAsk (lock_id pool.now.turn) pass.old }
    ensures pass { IsSamePass pass.old pass.new }
    ensures may_ask { MayAsk (lock_id pool.now.turn) pass.new }
    ensures done { (l : AnyLane) → result ≡ ended.Done l → Adds (write_entry staged.kit.number call (words_in staged.kit)) staged.kit l.kit × (spare_in l.kit ≡ spare_in staged.kit) × Pays 9 staged.kit l.kit × (part_of pass.new ≡ part_of pass.old) }
    ensures off { (s : AnyStaged) (p : Off) → result ≡ ended.Off s p → Stays staged.kit s.kit × Pays 0 staged.kit s.kit × PartBecomes (told_of p) pass.old pass.new }
    ensures cut { (k : AnyStopped) → result ≡ ended.Cut k → IsCutIn 0 call (words_in staged.kit) staged.kit k.kit × Pays 0 staged.kit k.kit × IsBurnt staged.kit k.kit × (part_of pass.new ≡ part_of pass.old) }
{
    let mut staged = staged;
    for _ in rt.forever() {
        match staged.try_commit(arena, call.tag, call.sector) {
            CommitOutcome::Done(lane) => return Committed::Done(lane),
            CommitOutcome::MapBusy {
                staged: back,
                holder: _,
            } => {
                if let Some(off) = pool.power(rt, pass) {
                    return Committed::Off(back, off);
                }
                staged = back;
                thread::yield_now();
            }
            CommitOutcome::Cut(stopped) => return Committed::Cut(stopped),
        }
    }
    unreachable!()
}
