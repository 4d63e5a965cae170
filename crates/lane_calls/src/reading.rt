//! A sector is read.
ghost use Rattle.std.specs.Prelude.{◌≡◌, ◌<◌, length, suc, Some, true};
ghost use Rattle.turn_lock.specs.Passes.{lock_id, part_of, IsSamePass, PartBecomes};
ghost use Rattle.arena_open.specs.declared.cell.CellKind.{CellKind as Kind};
ghost use Rattle.lane_table.specs.declared.lanes.Lane.{Lane as AnyLane};
ghost use Rattle.lane_table.specs.declared.lanes.Stopped.{Stopped as AnyStopped};
ghost use Rattle.lane_table.specs.Kits.{IsOf, held_in, spare_in};
ghost use Rattle.lane_table.specs.Law.{may_enter};
ghost use Rattle.lane_table.specs.Reads.{cell_of_kind};
ghost use Rattle.lane_pool.specs.declared.sets.PowerOff.{PowerOff as Off};
ghost use Rattle.lane_pool.specs.Parts.{told_of};
ghost use Rattle.lane_calls.specs.declared.reading.Looked.TheVariants as ended;
ghost use Rattle.lane_calls.specs.Lanes.{Adds, IsBurnt, MayAsk, Pays, Stays, read_entry};

use arena_open::CellKind;
use lane_pool::{LanePool, Pool, PowerOff};
use lane_table::{Arena, Call, Lane, ReadOutcome, Stopped};
use std::sync::Wait;
use std::thread;
use turn_lock::TurnPass;

/// How a read ends.
#[derive(Drop)]
pub enum Looked {
    Got { lane: Lane, kind: CellKind },
    /// Power is off. The lane is idle.
    Off(Lane, PowerOff),
    /// The fuse was spent.
    Cut(Stopped),
}

/// Tries to read a sector until it is read, or power is off.
pub fn read_until<R: Wait>(
    rt: &R,
    pool: &LanePool,
    pass: &mut TurnPass<Pool>,
    arena: &Arena,
    lane: Lane,
    call: Call,
    into: &mut [u64],
) -> Looked
    requires arena { IsOf arena.now lane.kit }
    requires sector { call.sector < arena.now.shape.sectors }
    requires into { length into.old ≡ arena.now.shape.width }
    requires spare { 0 < spare_in lane.kit }
    requires may { may_enter (held_in lane.kit) call.tag ≡ true }
    requires may_ask { MayAsk (lock_id pool.now.turn) pass.old }
    ensures pass { IsSamePass pass.old pass.new }
    ensures may_ask { MayAsk (lock_id pool.now.turn) pass.new }
    ensures got { (l : AnyLane) (kind : Kind) → result ≡ ended.Got l kind
        → Adds (read_entry lane.kit.number call (cell_of_kind kind into.new)) lane.kit l.kit × (spare_in lane.kit ≡ suc (spare_in l.kit)) × Pays 1 lane.kit l.kit × (part_of pass.new ≡ part_of pass.old) }
    ensures off { (l : AnyLane) (p : Off) → result ≡ ended.Off l p → Stays lane.kit l.kit × Pays 0 lane.kit l.kit × PartBecomes (told_of p) pass.old pass.new }
    ensures cut { (k : AnyStopped) → result ≡ ended.Cut k → Stays lane.kit k.kit × Pays 0 lane.kit k.kit × IsBurnt lane.kit k.kit × (part_of pass.new ≡ part_of pass.old) }
{
    let mut lane = lane;
    for _ in rt.forever() {
        match lane.try_read(arena, call.tag, call.sector, into) {
            ReadOutcome::Got { lane: back, kind } => return Looked::Got { lane: back, kind },
            ReadOutcome::Moved {
                lane: back,
                first: _,
                then: _,
            } => {
                if let Some(off) = pool.power(rt, pass) {
                    return Looked::Off(back, off);
                }
                lane = back;
                thread::yield_now();
            }
            ReadOutcome::Cut(stopped) => return Looked::Cut(stopped),
        }
    }
    unreachable!()
}
