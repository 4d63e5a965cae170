//! The steps of a lane, one function each. A step takes one from the fuse. If none is left, the
//! step isn't made.
//!
//! Each store has its condition in two clauses: `at` says which word it stores, and `value` what. A
//! keep stores the lane's own value in the kept word.
ghost use Rattle.std.specs.Prelude.{◌≡◌, ◌≢◌, ◌+◌, ◌-◌, ◌*◌, ◌/◌, ◌^◌, ◌<◌, ◌≤◌, true, false, suc, slice_index, IfSome, IfNone, Some, None};
ghost use Rattle.lane_core.specs.declared.phase.Phase.TheVariants.{Idle, Scanning, Staging, Staged, Locked, Known, LogAStored, LogA, LogBStored, Logged, Switched, Kept, Called, Looking, Published, Moved, Reading};
ghost use Rattle.map_table.specs.Entry.{entry_in, with_entry};
ghost use Rattle.lane_core.specs.Areas.{kind_in, word_a, word_b, next_seq, normal};
ghost use Rattle.lane_core.specs.Machine.{other, other_lane, looked, lock_of};
ghost use Rattle.lane_core.specs.Places.{geometry, SeenData, KeptData, SeenA, KeptA, SeenB, KeptB, SeenMap, KeptMap, Reader, Lock};
ghost use Rattle.lane_table.specs.Conditions.{IsSeated, IsWord, IsLockOf};
ghost use Rattle.lane_table.specs.Fuse.{Fell, Burnt};
ghost use Rattle.lane_table.specs.Law.{may_enter};
ghost use Rattle.lane_table.specs.Told.{begun, tracked, scanned, with_word, with_keep, locked, missed, known, a_stored, a_kept, b_stored, b_kept, switched, map_kept, freed, blocks};
ghost use Rattle.lane_table.specs.Told.{called, looked_at, published, reading, moved, with_load, given_up, answered_with_words};

use crate::fuse::Fuse;
use crate::kinds::{
    DataKeep, DataLoad, DataStore, FlogAKeep, FlogAStore, FlogBKeep, FlogBStore, LockFree,
    LockTake, MapCheck, MapKeep, MapLoad, MapLook, MapStore, ReadBegin, RttClear, RttScan, RttSet,
    WriteBegin,
};
use crate::table::{Call, LaneSeat, Words};

/// A write begins. This is no line of the algorithm, changes no word and takes nothing from the
/// fuse. It loads the lane's own reader word, so that the view learns of the write.
#[inline]
pub fn write_begin(table: &Words, seat: &mut LaneSeat, at: usize)
    requires seat { IsSeated Idle table.now.table_id seat.old.table_id seat.old.me }
    requires at { IsWord table.now.table_id table.now.key.shape at (Reader seat.old.me.0.number) }
    ensures table { seat.new.table_id ≡ seat.old.table_id }
    ensures begun { seat.new.me ≡ begun seat.old.me }
{
    table.load::<WriteBegin>(seat, at);
}

/// RttScan: loads the reader word of the `j`-th other lane. If that lane reads the free block, the
/// write is given up.
#[inline]
pub fn rtt_scan(
    table: &Words,
    seat: &mut LaneSeat,
    fuse: &mut Fuse,
    at: usize,
    j: u32,
) -> Option<u64>
    requires seat { IsSeated (Scanning j) table.now.table_id seat.old.table_id seat.old.me }
    requires at { IsWord table.now.table_id table.now.key.shape at (Reader (other_lane seat.old.me.0.number j)) }
    ensures table { seat.new.table_id ≡ seat.old.table_id }
    ensures tracked { IfSome result (λ n. n ≡ suc seat.old.me.0.lane.block → seat.new.me ≡ tracked n seat.old.me) }
    ensures scanned { IfSome result (λ n. n ≢ suc seat.old.me.0.lane.block → seat.new.me ≡ scanned j n seat.old.me) }
    ensures made { IfSome result (λ n. Fell 1 fuse.old fuse.new) }
    ensures cut { result ≡ None → (seat.new.me ≡ seat.old.me) × Burnt 0 fuse.old fuse.new }
{
    let _ = j;
    if !fuse.spend() {
        return None;
    }
    Some(table.load::<RttScan>(seat, at))
}

/// DataStore: stores word `k` of the call in the free block.
#[inline]
pub fn data_store(
    table: &Words,
    seat: &mut LaneSeat,
    fuse: &mut Fuse,
    at: usize,
    k: usize,
    word: u64,
) -> bool
    requires seat { IsSeated (Staging k) table.now.table_id seat.old.table_id seat.old.me }
    requires k { k < table.now.key.shape.width }
    requires at { IsWord table.now.table_id table.now.key.shape at (SeenData seat.old.me.0.lane.block k) }
    ensures table { seat.new.table_id ≡ seat.old.table_id }
    ensures made { result ≡ true → (seat.new.me ≡ with_word seat.old.me k word) × Fell 1 fuse.old fuse.new }
    ensures cut { result ≡ false → (seat.new.me ≡ seat.old.me) × Burnt 0 fuse.old fuse.new }
{
    let _ = k;
    if !fuse.spend() {
        return false;
    }
    table.store::<DataStore>(seat, at, word);
    true
}

/// DataKeep: keeps word `k` of the free block, which the lane stored itself.
#[inline]
pub fn data_keep(
    table: &Words,
    seat: &mut LaneSeat,
    fuse: &mut Fuse,
    at: usize,
    k: usize,
    word: u64,
) -> bool
    requires seat { IsSeated (Staging (table.now.key.shape.width + k)) table.now.table_id seat.old.table_id seat.old.me }
    requires k { k < table.now.key.shape.width }
    requires at { IsWord table.now.table_id table.now.key.shape at (KeptData seat.old.me.0.lane.block k) }
    requires word { word ≡ slice_index seat.old.me.0.lane.words k }
    ensures table { seat.new.table_id ≡ seat.old.table_id }
    ensures made { result ≡ true → (seat.new.me ≡ with_keep seat.old.me (table.now.key.shape.width + k)) × Fell 1 fuse.old fuse.new }
    ensures cut { result ≡ false → (seat.new.me ≡ seat.old.me) × Burnt 0 fuse.old fuse.new }
{
    let _ = k;
    if !fuse.spend() {
        return false;
    }
    table.store::<DataKeep>(seat, at, word);
    true
}

/// LockTake: one compare-and-exchange of the lock of the map word, which tells the write's call.
/// Returns what it found: 0 if the lane has the lock now, else one more than the lane that has it.
/// `None` if the fuse was spent.
#[inline]
pub fn lock_take(
    table: &Words,
    seat: &mut LaneSeat,
    fuse: &mut Fuse,
    at: usize,
    number: u32,
    call: Call,
) -> Option<u64>
    requires seat { IsSeated Staged table.now.table_id seat.old.table_id seat.old.me }
    requires number { seat.old.me.0.number ≡ number }
    requires lock { IsLockOf table.now.table_id table.now.key.shape call.sector at }
    ensures table { seat.new.table_id ≡ seat.old.table_id }
    ensures taken { IfSome result (λ n. n ≡ 0 → seat.new.me ≡ locked call seat.old.me) }
    ensures busy { IfSome result (λ n. n ≢ 0 → (seat.new.me ≡ missed n seat.old.me) × (n ≤ seat.old.me.0.shape.lanes) × (n ≤ 2 ^ 30)) }
    ensures made { IfSome result (λ n. Fell 1 fuse.old fuse.new) }
    ensures cut { result ≡ None → (seat.new.me ≡ seat.old.me) × Burnt 0 fuse.old fuse.new }
{
    if !fuse.spend() {
        return None;
    }
    Some(table.compare_exchange_with::<LockTake>(seat, at, 0, u64::from(number) + 1, &call))
}

/// MapLoad: loads the map word of the sector, under its lock.
#[inline]
pub fn map_load(table: &Words, seat: &mut LaneSeat, fuse: &mut Fuse, at: usize) -> Option<u64>
    requires seat { IsSeated Locked table.now.table_id seat.old.table_id seat.old.me }
    requires at { IsWord table.now.table_id table.now.key.shape at (SeenMap (seat.old.me.0.lane.sector / 2)) }
    ensures table { seat.new.table_id ≡ seat.old.table_id }
    ensures known { IfSome result (λ n. seat.new.me ≡ known n seat.old.me) }
    ensures in_range { IfSome result (λ n. looked (record (seat.old.me.0.lane) { loaded = n }) < blocks seat.old.me.0.shape) }
    ensures made { IfSome result (λ n. Fell 1 fuse.old fuse.new) }
    ensures cut { result ≡ None → (seat.new.me ≡ seat.old.me) × Burnt 0 fuse.old fuse.new }
{
    if !fuse.spend() {
        return None;
    }
    Some(table.load::<MapLoad>(seat, at))
}

/// FlogAStore: stores word A (Lba, OldMap) of the half that isn't current.
#[inline]
pub fn flog_a_store(
    table: &Words,
    seat: &mut LaneSeat,
    fuse: &mut Fuse,
    at: usize,
    value: u64,
) -> bool
    requires seat { IsSeated Known table.now.table_id seat.old.table_id seat.old.me }
    requires side { seat.old.me.0.lane.side < 2 }
    requires at { IsWord table.now.table_id table.now.key.shape at (SeenA seat.old.me.0.number (other seat.old.me.0.lane.side)) }
    requires value { value ≡ word_a seat.old.me.0.lane.sector (looked seat.old.me.0.lane) }
    ensures table { seat.new.table_id ≡ seat.old.table_id }
    ensures made { result ≡ true → (seat.new.me ≡ a_stored seat.old.me) × Fell 1 fuse.old fuse.new }
    ensures cut { result ≡ false → (seat.new.me ≡ seat.old.me) × Burnt 0 fuse.old fuse.new }
{
    if !fuse.spend() {
        return false;
    }
    table.store::<FlogAStore>(seat, at, value);
    true
}

/// FlogAKeep: keeps word A.
#[inline]
pub fn flog_a_keep(
    table: &Words,
    seat: &mut LaneSeat,
    fuse: &mut Fuse,
    at: usize,
    value: u64,
) -> bool
    requires seat { IsSeated LogAStored table.now.table_id seat.old.table_id seat.old.me }
    requires side { seat.old.me.0.lane.side < 2 }
    requires at { IsWord table.now.table_id table.now.key.shape at (KeptA seat.old.me.0.number (other seat.old.me.0.lane.side)) }
    requires value { value ≡ word_a seat.old.me.0.lane.sector (looked seat.old.me.0.lane) }
    ensures table { seat.new.table_id ≡ seat.old.table_id }
    ensures made { result ≡ true → (seat.new.me ≡ a_kept seat.old.me) × Fell 1 fuse.old fuse.new }
    ensures cut { result ≡ false → (seat.new.me ≡ seat.old.me) × Burnt 0 fuse.old fuse.new }
{
    if !fuse.spend() {
        return false;
    }
    table.store::<FlogAKeep>(seat, at, value);
    true
}

/// FlogBStore: stores word B (NewMap and the next Seq) of that half.
#[inline]
pub fn flog_b_store(
    table: &Words,
    seat: &mut LaneSeat,
    fuse: &mut Fuse,
    at: usize,
    value: u64,
) -> bool
    requires seat { IsSeated LogA table.now.table_id seat.old.table_id seat.old.me }
    requires side { seat.old.me.0.lane.side < 2 }
    requires at { IsWord table.now.table_id table.now.key.shape at (SeenB seat.old.me.0.number (other seat.old.me.0.lane.side)) }
    requires value { value ≡ word_b seat.old.me.0.lane.block (next_seq seat.old.me.0.lane.half.seq) }
    ensures table { seat.new.table_id ≡ seat.old.table_id }
    ensures made { result ≡ true → (seat.new.me ≡ b_stored seat.old.me) × Fell 1 fuse.old fuse.new }
    ensures cut { result ≡ false → (seat.new.me ≡ seat.old.me) × Burnt 0 fuse.old fuse.new }
{
    if !fuse.spend() {
        return false;
    }
    table.store::<FlogBStore>(seat, at, value);
    true
}

/// FlogBKeep: keeps word B. From then on that half is current.
#[inline]
pub fn flog_b_keep(
    table: &Words,
    seat: &mut LaneSeat,
    fuse: &mut Fuse,
    at: usize,
    value: u64,
) -> bool
    requires seat { IsSeated LogBStored table.now.table_id seat.old.table_id seat.old.me }
    requires side { seat.old.me.0.lane.side < 2 }
    requires at { IsWord table.now.table_id table.now.key.shape at (KeptB seat.old.me.0.number (other seat.old.me.0.lane.side)) }
    requires value { value ≡ word_b seat.old.me.0.lane.block (next_seq seat.old.me.0.lane.half.seq) }
    ensures table { seat.new.table_id ≡ seat.old.table_id }
    ensures made { result ≡ true → (seat.new.me ≡ b_kept seat.old.me) × Fell 1 fuse.old fuse.new }
    ensures cut { result ≡ false → (seat.new.me ≡ seat.old.me) × Burnt 0 fuse.old fuse.new }
{
    if !fuse.spend() {
        return false;
    }
    table.store::<FlogBKeep>(seat, at, value);
    true
}

/// MapStore: stores the map word with the new entry. With that the write stands in the history.
#[inline]
pub fn map_store(table: &Words, seat: &mut LaneSeat, fuse: &mut Fuse, at: usize, value: u64) -> bool
    requires seat { IsSeated Logged table.now.table_id seat.old.table_id seat.old.me }
    requires pass { may_enter seat.old.me.0.held seat.old.me.0.lane.tag ≡ true }
    requires at { IsWord table.now.table_id table.now.key.shape at (SeenMap (seat.old.me.0.lane.sector / 2)) }
    requires value { value ≡ with_entry seat.old.me.0.lane.loaded seat.old.me.0.lane.sector (normal seat.old.me.0.lane.block) }
    ensures table { seat.new.table_id ≡ seat.old.table_id }
    ensures made { result ≡ true → (seat.new.me ≡ switched seat.old.me) × Fell 1 fuse.old fuse.new }
    ensures cut { result ≡ false → (seat.new.me ≡ seat.old.me) × Burnt 0 fuse.old fuse.new }
{
    if !fuse.spend() {
        return false;
    }
    table.store::<MapStore>(seat, at, value);
    true
}

/// MapKeep: keeps the map word.
#[inline]
pub fn map_keep(table: &Words, seat: &mut LaneSeat, fuse: &mut Fuse, at: usize, value: u64) -> bool
    requires seat { IsSeated Switched table.now.table_id seat.old.table_id seat.old.me }
    requires at { IsWord table.now.table_id table.now.key.shape at (KeptMap (seat.old.me.0.lane.sector / 2)) }
    requires value { value ≡ with_entry seat.old.me.0.lane.loaded seat.old.me.0.lane.sector (normal seat.old.me.0.lane.half.new) }
    ensures table { seat.new.table_id ≡ seat.old.table_id }
    ensures made { result ≡ true → (seat.new.me ≡ map_kept seat.old.me) × Fell 1 fuse.old fuse.new }
    ensures cut { result ≡ false → (seat.new.me ≡ seat.old.me) × Burnt 0 fuse.old fuse.new }
{
    if !fuse.spend() {
        return false;
    }
    table.store::<MapKeep>(seat, at, value);
    true
}

/// LockFree: gives the lock back.
#[inline]
pub fn lock_free(table: &Words, seat: &mut LaneSeat, fuse: &mut Fuse, at: usize, value: u64) -> bool
    requires seat { IsSeated Kept table.now.table_id seat.old.table_id seat.old.me }
    requires at { IsWord table.now.table_id table.now.key.shape at (Lock (lock_of (geometry table.now.key.shape) seat.old.me.0.lane.sector)) }
    requires value { value ≡ 0 }
    ensures table { seat.new.table_id ≡ seat.old.table_id }
    ensures made { result ≡ true → (seat.new.me ≡ freed seat.old.me) × Fell 1 fuse.old fuse.new }
    ensures cut { result ≡ false → (seat.new.me ≡ seat.old.me) × Burnt 0 fuse.old fuse.new }
{
    if !fuse.spend() {
        return false;
    }
    table.store::<LockFree>(seat, at, value);
    true
}

// ---- a read

/// A read begins. This is no line of the algorithm, changes no word and takes nothing from the
/// fuse. It exchanges a word of the lane's own log group for 0 if it is 0, so that the view learns
/// the read's call. No other lane looks at that word's line of cache, as scans do at reader words.
#[inline]
pub fn read_begin(table: &Words, seat: &mut LaneSeat, at: usize, call: Call)
    requires seat { IsSeated Idle table.now.table_id seat.old.table_id seat.old.me }
    requires sector { call.sector < table.now.key.shape.sectors }
    requires at { IsWord table.now.table_id table.now.key.shape at (SeenA seat.old.me.0.number 0) }
    ensures table { seat.new.table_id ≡ seat.old.table_id }
    ensures called { seat.new.me ≡ called call seat.old.me }
{
    table.compare_exchange_with::<ReadBegin>(seat, at, 0, 0, &call);
}

/// MapLook: loads the map word of the sector. If the entry says zeros or bad, the read then stands
/// in the history and is answered.
#[inline]
pub fn map_look(table: &Words, seat: &mut LaneSeat, fuse: &mut Fuse, at: usize) -> Option<u64>
    requires seat { IsSeated Called table.now.table_id seat.old.table_id seat.old.me }
    requires pass { may_enter seat.old.me.0.held seat.old.me.0.lane.tag ≡ true }
    requires at { IsWord table.now.table_id table.now.key.shape at (SeenMap (seat.old.me.0.lane.sector / 2)) }
    ensures table { seat.new.table_id ≡ seat.old.table_id }
    ensures looked { IfSome result (λ n. seat.new.me ≡ looked_at (kind_in (entry_in n seat.old.me.0.lane.sector)) n seat.old.me) }
    ensures in_range { IfSome result (λ n. looked (record (seat.old.me.0.lane) { loaded = n }) < blocks seat.old.me.0.shape) }
    ensures made { IfSome result (λ n. Fell 1 fuse.old fuse.new) }
    ensures cut { result ≡ None → (seat.new.me ≡ seat.old.me) × Burnt 0 fuse.old fuse.new }
{
    if !fuse.spend() {
        return None;
    }
    Some(table.load::<MapLook>(seat, at))
}

/// RttSet: stores one more than the block in the lane's own reader word.
#[inline]
pub fn rtt_set(table: &Words, seat: &mut LaneSeat, fuse: &mut Fuse, at: usize, block: u32) -> bool
    requires seat { IsSeated Looking table.now.table_id seat.old.table_id seat.old.me }
    requires at { IsWord table.now.table_id table.now.key.shape at (Reader seat.old.me.0.number) }
    requires block { block ≡ looked seat.old.me.0.lane }
    ensures table { seat.new.table_id ≡ seat.old.table_id }
    ensures made { result ≡ true → (seat.new.me ≡ published seat.old.me) × Fell 1 fuse.old fuse.new }
    ensures cut { result ≡ false → (seat.new.me ≡ seat.old.me) × Burnt 0 fuse.old fuse.new }
{
    if !fuse.spend() {
        return false;
    }
    table.store::<RttSet>(seat, at, u64::from(block) + 1);
    true
}

/// MapCheck: loads the map word again. If the sector's entry is the one that was looked at, the
/// read stands in the history.
#[inline]
pub fn map_check(table: &Words, seat: &mut LaneSeat, fuse: &mut Fuse, at: usize) -> Option<u64>
    requires seat { IsSeated Published table.now.table_id seat.old.table_id seat.old.me }
    requires pass { may_enter seat.old.me.0.held seat.old.me.0.lane.tag ≡ true }
    requires at { IsWord table.now.table_id table.now.key.shape at (SeenMap (seat.old.me.0.lane.sector / 2)) }
    ensures table { seat.new.table_id ≡ seat.old.table_id }
    ensures same { IfSome result (λ n. entry_in n seat.old.me.0.lane.sector ≡ entry_in seat.old.me.0.lane.loaded seat.old.me.0.lane.sector → seat.new.me ≡ reading n seat.old.me) }
    ensures moved { IfSome result (λ n. entry_in n seat.old.me.0.lane.sector ≢ entry_in seat.old.me.0.lane.loaded seat.old.me.0.lane.sector → seat.new.me ≡ moved n seat.old.me) }
    ensures made { IfSome result (λ n. Fell 1 fuse.old fuse.new) }
    ensures cut { result ≡ None → (seat.new.me ≡ seat.old.me) × Burnt 0 fuse.old fuse.new }
{
    if !fuse.spend() {
        return None;
    }
    Some(table.load::<MapCheck>(seat, at))
}

/// DataLoad: loads word `k` of the block.
#[inline]
pub fn data_load(
    table: &Words,
    seat: &mut LaneSeat,
    fuse: &mut Fuse,
    at: usize,
    k: usize,
) -> Option<u64>
    requires seat { IsSeated (Reading k) table.now.table_id seat.old.table_id seat.old.me }
    requires k { k < table.now.key.shape.width }
    requires block { looked seat.old.me.0.lane < blocks table.now.key.shape }
    requires at { IsWord table.now.table_id table.now.key.shape at (SeenData (looked seat.old.me.0.lane) k) }
    ensures table { seat.new.table_id ≡ seat.old.table_id }
    ensures loaded { IfSome result (λ n. seat.new.me ≡ with_load seat.old.me k n) }
    ensures made { IfSome result (λ n. Fell 1 fuse.old fuse.new) }
    ensures cut { result ≡ None → (seat.new.me ≡ seat.old.me) × Burnt 0 fuse.old fuse.new }
{
    let _ = k;
    if !fuse.spend() {
        return None;
    }
    Some(table.load::<DataLoad>(seat, at))
}

/// RttClear after the last word: stores 0 in the lane's own reader word, and the read is answered.
#[inline]
pub fn rtt_clear(table: &Words, seat: &mut LaneSeat, fuse: &mut Fuse, at: usize) -> bool
    requires seat { IsSeated (Reading table.now.key.shape.width) table.now.table_id seat.old.table_id seat.old.me }
    requires pass { may_enter seat.old.me.0.held seat.old.me.0.lane.tag ≡ true }
    requires at { IsWord table.now.table_id table.now.key.shape at (Reader seat.old.me.0.number) }
    ensures table { seat.new.table_id ≡ seat.old.table_id }
    ensures made { result ≡ true → (seat.new.me ≡ answered_with_words seat.old.me) × Fell 1 fuse.old fuse.new }
    ensures cut { result ≡ false → (seat.new.me ≡ seat.old.me) × Burnt 0 fuse.old fuse.new }
{
    if !fuse.spend() {
        return false;
    }
    table.store::<RttClear>(seat, at, 0);
    true
}

/// RttClear of a read whose entry moved: stores 0 in the lane's own reader word, and the read is
/// given up.
#[inline]
pub fn rtt_clear_moved(table: &Words, seat: &mut LaneSeat, fuse: &mut Fuse, at: usize) -> bool
    requires seat { IsSeated Moved table.now.table_id seat.old.table_id seat.old.me }
    requires at { IsWord table.now.table_id table.now.key.shape at (Reader seat.old.me.0.number) }
    ensures table { seat.new.table_id ≡ seat.old.table_id }
    ensures made { result ≡ true → (seat.new.me ≡ given_up seat.old.me) × Fell 1 fuse.old fuse.new }
    ensures cut { result ≡ false → (seat.new.me ≡ seat.old.me) × Burnt 0 fuse.old fuse.new }
{
    if !fuse.spend() {
        return false;
    }
    table.store::<RttClear>(seat, at, 0);
    true
}
