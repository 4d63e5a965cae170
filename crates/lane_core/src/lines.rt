//! The lines of the algorithm: each is one step of a lane. Contracts state exactly what a line
//! does; its caller (`steps.rt`) shows that this is a step of `specs/Machine.antt`.
ghost use Rattle.std.specs.Prelude.{◌≡◌, ◌≢◌, ◌==◌, ◌+◌, ◌-◌, ◌*◌, ◌/◌, ◌<◌, ◌≤◌, ◌^◌, ◌++◌, ◌∷◌, [], suc, length, replicate, take, drop, slice_index, slice_set, if◌then◌else◌};
ghost use Rattle.map_table.specs.Entry.{entry_in, with_entry};
ghost use Rattle.lane_core.specs.Areas.{block_in, kind_in, next_seq, normal, word_a, word_b};
ghost use Rattle.lane_core.specs.Machine.{lock_of, other, other_lane};
ghost use Rattle.lane_core.specs.Places.{geometry, word_of, SeenData, SeenMap, SeenA, SeenB, Reader, Lock};
ghost use Rattle.lane_core.specs.Rows.{grown, kept_in, put_in, stored_in};
ghost use Rattle.lane_core.specs.Lines.{kept_phase, looked_now, read_now, scanned, word_at, wrote_now, HasArenaWord, HasWord};

use crate::calls::History;
use crate::history::{Act, Entry};
use crate::now::LaneNow;
use crate::phase::Phase;
use crate::pieces::{looked, next_of, switched, word_a, word_b};
use crate::row::Row;
use crate::shape::Shape;
use crate::words::{data_word, lock_word, log_word, map_word, reader_word};
use arena_open::Cell;
use flog::Half;
use map_table::entry_in;
use std::alloc::Global;

/// RttScan: looks at the reader word of the `j`-th other lane.
#[inline]
pub fn rtt_scan(row: &Row, mine: &mut LaneNow, shape: &Shape, lane: u32, j: u32)
    requires word { HasWord shape.now row.now (Reader (other_lane lane j)) }
    requires j { j + 2 ≤ shape.now.lanes }
    requires lanes { shape.now.lanes ≤ 2 ^ 30 }
    requires block { mine.old.block < 2 ^ 30 }
    ensures { mine.new ≡ record mine.old { phase = scanned shape.now (word_at shape.now row.now (Reader (other_lane lane j))) mine.old.block j } }
{
    let other = if j < lane { j } else { j + 1 };
    let word = row.load(reader_word(shape, other));
    mine.phase = if word == u64::from(mine.block) + 1 {
        Phase::Scanning(0)
    } else if j + 2 == shape.lanes {
        Phase::Staging(0)
    } else {
        Phase::Scanning(j + 1)
    };
}

/// DataStore: stores word `k` of the call in the free block.
#[inline]
pub fn data_store(row: &mut Row, mine: &mut LaneNow, shape: &Shape, k: u32)
    requires word { HasArenaWord shape.now row.old (SeenData mine.old.block k) }
    requires k { k < length mine.old.words }
    requires few { k < 2 ^ 30 }
    ensures row { row.new ≡ stored_in row.old (word_of shape.now (SeenData mine.old.block k)) (slice_index mine.old.words k) }
    ensures lane { mine.new ≡ record mine.old { phase = Phase.Staging (k + 1) } }
{
    row.store(data_word(shape, mine.block, k), mine.words.get(k));
    mine.phase = Phase::Staging(k + 1);
}

/// DataKeep: keeps word `k - E` of the free block.
#[inline]
pub fn data_keep(row: &mut Row, mine: &mut LaneNow, shape: &Shape, k: u32)
    requires word { HasArenaWord shape.now row.old (SeenData mine.old.block (k - shape.now.width)) }
    requires k { shape.now.width ≤ k }
    requires few { k < 2 ^ 30 }
    requires short { shape.now.width < 2 ^ 20 }
    ensures row { row.new ≡ kept_in row.old (word_of shape.now (SeenData mine.old.block (k - shape.now.width))) }
    ensures lane { mine.new ≡ record mine.old { phase = kept_phase shape.now k } }
{
    row.keep(data_word(shape, mine.block, k - shape.width));
    mine.phase = if k + 1 == 2 * shape.width {
        Phase::Staged
    } else {
        Phase::Staging(k + 1)
    };
}

/// LockTake: takes the lock of the map word, if it is free.
#[inline]
pub fn lock_take(row: &mut Row, mine: &mut LaneNow, shape: &Shape, lane: u32)
    requires word { HasWord shape.now row.old (Lock (lock_of (geometry shape.now) mine.old.next_sector)) }
    requires lanes { 0 < shape.now.lanes }
    ensures row { row.new ≡ (if word_at shape.now row.old (Lock (lock_of (geometry shape.now) mine.old.next_sector)) == 0 then put_in row.old (word_of shape.now (Lock (lock_of (geometry shape.now) mine.old.next_sector))) (suc lane) else row.old) }
    ensures lane { mine.new ≡ (if word_at shape.now row.old (Lock (lock_of (geometry shape.now) mine.old.next_sector)) == 0 then record mine.old { phase = Phase.Locked; tag = mine.old.next; sector = mine.old.next_sector } else mine.old) }
{
    let at = lock_word(shape, mine.next_sector);
    if row.load(at) == 0 {
        row.put(at, u64::from(lane) + 1);
        mine.tag = mine.next;
        mine.sector = mine.next_sector;
        mine.phase = Phase::Locked;
    }
}

/// MapLoad of a write: loads the map word of the sector.
#[inline]
pub fn map_load(row: &Row, mine: &mut LaneNow, shape: &Shape)
    requires word { HasWord shape.now row.now (SeenMap (mine.old.sector / 2)) }
    ensures { mine.new ≡ record mine.old { phase = Phase.Known; loaded = word_at shape.now row.now (SeenMap (mine.old.sector / 2)) } }
{
    mine.loaded = row.load(map_word(shape, mine.sector));
    mine.phase = Phase::Known;
}

/// FlogAStore: stores word A of the half that isn't current.
#[inline]
pub fn flog_a_store(row: &mut Row, mine: &mut LaneNow, shape: &Shape, lane: u32)
    requires word { HasArenaWord shape.now row.old (SeenA lane (other mine.old.side)) }
    requires side { mine.old.side < 2 }
    ensures row { row.new ≡ stored_in row.old (word_of shape.now (SeenA lane (other mine.old.side))) (word_a mine.old.sector (looked_now mine.old)) }
    ensures lane { mine.new ≡ record mine.old { phase = Phase.LogAStored } }
{
    row.store(
        log_word(shape, lane, 1 - mine.side),
        word_a(mine.sector, looked(mine)),
    );
    mine.phase = Phase::LogAStored;
}

/// FlogAKeep: keeps word A.
#[inline]
pub fn flog_a_keep(row: &mut Row, mine: &mut LaneNow, shape: &Shape, lane: u32)
    requires word { HasArenaWord shape.now row.old (SeenA lane (other mine.old.side)) }
    requires side { mine.old.side < 2 }
    ensures row { row.new ≡ kept_in row.old (word_of shape.now (SeenA lane (other mine.old.side))) }
    ensures lane { mine.new ≡ record mine.old { phase = Phase.LogA } }
{
    row.keep(log_word(shape, lane, 1 - mine.side));
    mine.phase = Phase::LogA;
}

/// FlogBStore: stores word B of that half, with the next sequence number.
#[inline]
pub fn flog_b_store(row: &mut Row, mine: &mut LaneNow, shape: &Shape, lane: u32)
    requires word { HasArenaWord shape.now row.old (SeenB lane (other mine.old.side)) }
    requires side { mine.old.side < 2 }
    requires low { 1 ≤ mine.old.half.seq }
    requires high { mine.old.half.seq ≤ 3 }
    ensures row { row.new ≡ stored_in row.old (word_of shape.now (SeenB lane (other mine.old.side))) (word_b mine.old.block (next_seq mine.old.half.seq)) }
    ensures lane { mine.new ≡ record mine.old { phase = Phase.LogBStored } }
{
    let word = word_b(mine.block, next_of(mine.half.seq));
    row.store(log_word(shape, lane, 1 - mine.side) + 1, word);
    mine.phase = Phase::LogBStored;
}

/// FlogBKeep: keeps word B. From then on that half is current.
#[inline]
pub fn flog_b_keep(row: &mut Row, mine: &mut LaneNow, shape: &Shape, lane: u32)
    requires word { HasArenaWord shape.now row.old (SeenB lane (other mine.old.side)) }
    requires side { mine.old.side < 2 }
    requires low { 1 ≤ mine.old.half.seq }
    requires high { mine.old.half.seq ≤ 3 }
    ensures row { row.new ≡ kept_in row.old (word_of shape.now (SeenB lane (other mine.old.side))) }
    ensures lane { mine.new ≡ record mine.old { phase = Phase.Logged; side = other mine.old.side; half = record { lba = mine.old.sector; old = looked_now mine.old; new = mine.old.block; seq = next_seq mine.old.half.seq } } }
{
    row.keep(log_word(shape, lane, 1 - mine.side) + 1);
    mine.half = Half {
        lba: mine.sector,
        old: looked(mine),
        new: mine.block,
        seq: next_of(mine.half.seq),
    };
    mine.side = 1 - mine.side;
    mine.phase = Phase::Logged;
}

/// MapStore: stores the map word. With that the write stands, and the old block is the lane's.
#[inline]
pub fn map_store(
    row: &mut Row,
    mine: &mut LaneNow,
    shape: &Shape,
    lane: u32,
    history: &mut History,
    alloc: Global,
)
    requires word { HasArenaWord shape.now row.old (SeenMap (mine.old.sector / 2)) }
    requires block { mine.old.block < 2 ^ 30 }
    requires room { 0 < history.old.room }
    ensures row { row.new ≡ stored_in row.old (word_of shape.now (SeenMap (mine.old.sector / 2))) (with_entry mine.old.loaded mine.old.sector (normal mine.old.block)) }
    ensures lane { mine.new ≡ record mine.old { phase = Phase.Switched; block = looked_now mine.old; words = [] } }
    ensures history { history.new ≡ grown history.old (wrote_now lane mine.old) }
{
    row.store(map_word(shape, mine.sector), switched(mine));
    history.push(Entry {
        lane,
        tag: mine.tag,
        sector: mine.sector,
        act: Act::Write(mine.words.take(alloc)),
    });
    mine.block = looked(mine);
    mine.phase = Phase::Switched;
}

/// MapKeep: keeps the map word.
#[inline]
pub fn map_keep(row: &mut Row, mine: &mut LaneNow, shape: &Shape)
    requires word { HasArenaWord shape.now row.old (SeenMap (mine.old.sector / 2)) }
    ensures row { row.new ≡ kept_in row.old (word_of shape.now (SeenMap (mine.old.sector / 2))) }
    ensures lane { mine.new ≡ record mine.old { phase = Phase.Kept } }
{
    row.keep(map_word(shape, mine.sector));
    mine.phase = Phase::Kept;
}

/// LockFree: gives the lock back. The write is answered.
#[inline]
pub fn lock_free(row: &mut Row, mine: &mut LaneNow, shape: &Shape)
    requires word { HasWord shape.now row.old (Lock (lock_of (geometry shape.now) mine.old.sector)) }
    requires lanes { 0 < shape.now.lanes }
    ensures row { row.new ≡ put_in row.old (word_of shape.now (Lock (lock_of (geometry shape.now) mine.old.sector))) 0 }
    ensures lane { mine.new ≡ record mine.old { phase = Phase.Idle } }
{
    row.put(lock_word(shape, mine.sector), 0);
    mine.phase = Phase::Idle;
}

/// RttSet: publishes the block that the read will load.
#[inline]
pub fn rtt_set(row: &mut Row, mine: &mut LaneNow, shape: &Shape, lane: u32)
    requires word { HasWord shape.now row.old (Reader lane) }
    ensures row { row.new ≡ put_in row.old (word_of shape.now (Reader lane)) (suc (looked_now mine.old)) }
    ensures lane { mine.new ≡ record mine.old { phase = Phase.Published } }
{
    row.put(reader_word(shape, lane), u64::from(looked(mine)) + 1);
    mine.phase = Phase::Published;
}

/// RttClear, to look again.
#[inline]
pub fn clear_moved(row: &mut Row, mine: &mut LaneNow, shape: &Shape, lane: u32)
    requires word { HasWord shape.now row.old (Reader lane) }
    ensures row { row.new ≡ put_in row.old (word_of shape.now (Reader lane)) 0 }
    ensures lane { mine.new ≡ record mine.old { phase = Phase.Called } }
{
    row.put(reader_word(shape, lane), 0);
    mine.phase = Phase::Called;
}

/// DataLoad: loads word `k` of the block.
#[inline]
pub fn data_load(row: &Row, mine: &mut LaneNow, shape: &Shape, k: u32)
    requires word { HasWord shape.now row.now (SeenData (looked_now mine.old) k) }
    requires k { k < length mine.old.words }
    requires few { k < 2 ^ 30 }
    ensures { mine.new ≡ record mine.old { phase = Phase.Reading (k + 1); words = slice_set mine.old.words k (word_at shape.now row.now (SeenData (looked_now mine.old) k)) } }
{
    let word = row.load(data_word(shape, looked(mine), k));
    mine.words.set(k, word);
    mine.phase = Phase::Reading(k + 1);
}

/// RttClear, after the last word. The read is answered with the words that it loaded.
#[inline]
pub fn clear_done(
    row: &mut Row,
    mine: &mut LaneNow,
    shape: &Shape,
    lane: u32,
    alloc: Global,
) -> Cell
    requires word { HasWord shape.now row.old (Reader lane) }
    ensures row { row.new ≡ put_in row.old (word_of shape.now (Reader lane)) 0 }
    ensures lane { mine.new ≡ record mine.old { phase = Phase.Idle; words = [] } }
    ensures cell { result ≡ Cell.Bytes mine.old.words }
{
    row.put(reader_word(shape, lane), 0);
    mine.phase = Phase::Idle;
    Cell::Bytes(mine.words.take(alloc))
}
