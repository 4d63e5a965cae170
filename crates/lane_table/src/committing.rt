//! The nine steps of a commit, in order.
ghost use Rattle.std.specs.Prelude.{◌≡◌, ◌<◌, ◌≤◌, ◌+◌, ◌^◌, true};
ghost use Rattle.lane_core.specs.declared.phase.Phase.TheVariants.{Staged, Known};
ghost use Rattle.lane_table.specs.Conditions.{IsMine, IsSeated};
ghost use Rattle.lane_table.specs.Committed.{AreCommitWords, AreCommitValues, Ended};
ghost use Rattle.lane_table.specs.Fuse.{Fell, Burnt};
ghost use Rattle.lane_table.specs.Law.{may_enter};
ghost use Rattle.lane_table.specs.Told.{path, blocks};

use crate::fuse::Fuse;
use crate::pieces::{Mine, log_word_a, log_word_b, looked_in, seq_after, switched_word};
use crate::steps::{
    flog_a_keep, flog_a_store, flog_b_keep, flog_b_store, lock_free, lock_take, map_keep, map_load,
    map_store,
};
use crate::table::{Call, LaneSeat, Words};

/// The places of a commit's words in the table.
#[derive(Clone, Copy, Debug, PartialEq, Eq)]
pub struct CommitWords {
    pub lock: usize,
    pub map: usize,
    pub kept_map: usize,
    /// Words A and B of the half that isn't current.
    pub log_a: usize,
    pub kept_log_a: usize,
    pub log_b: usize,
    pub kept_log_b: usize,
}

/// How a commit ends.
#[derive(Clone, Copy, Debug, PartialEq, Eq)]
pub enum Fate {
    /// The lane is idle, and this is its free block now.
    Done(u32),
    /// The lane that has the lock: the exchange found one more.
    Busy(u32),
    /// The fuse was spent after this many of the nine steps.
    Cut(u32),
}

/// The seven stores of a commit. Returns how many of them were made: all, or as many as the fuse
/// had steps.
pub fn finish(
    table: &Words,
    seat: &mut LaneSeat,
    fuse: &mut Fuse,
    words: CommitWords,
    a: u64,
    b: u64,
    map: u64,
) -> u32
    requires seat { IsSeated Known table.now.table_id seat.old.table_id seat.old.me }
    requires side { seat.old.me.0.lane.side < 2 }
    requires words { AreCommitWords table.now.table_id table.now.key.shape seat.old.me.0.number seat.old.me.0.lane.side seat.old.me.0.lane.sector words }
    requires pass { may_enter seat.old.me.0.held seat.old.me.0.lane.tag ≡ true }
    requires values { AreCommitValues seat.old.me.0.lane a b map }
    ensures table { seat.new.table_id ≡ seat.old.table_id }
    ensures went { (seat.new.me ≡ path result seat.old.me) × (result ≤ 7) }
    ensures done { result ≡ 7 → Fell 7 fuse.old fuse.new }
    ensures cut { result < 7 → Burnt result fuse.old fuse.new }
{
    if !flog_a_store(table, seat, fuse, words.log_a, a) {
        return 0;
    }
    if !flog_a_keep(table, seat, fuse, words.kept_log_a, a) {
        return 1;
    }
    if !flog_b_store(table, seat, fuse, words.log_b, b) {
        return 2;
    }
    if !flog_b_keep(table, seat, fuse, words.kept_log_b, b) {
        return 3;
    }
    if !map_store(table, seat, fuse, words.map, map) {
        return 4;
    }
    if !map_keep(table, seat, fuse, words.kept_map, map) {
        return 5;
    }
    if !lock_free(table, seat, fuse, words.lock, 0) {
        return 6;
    }
    7
}

/// Takes the lock of the sector's map word, switches the sector's entry to the staged block, and
/// gives the lock back.
pub fn commit(
    table: &Words,
    seat: &mut LaneSeat,
    fuse: &mut Fuse,
    words: CommitWords,
    mine: Mine,
    call: Call,
) -> Fate
    requires seat { IsSeated Staged table.now.table_id seat.old.table_id seat.old.me }
    requires mine { IsMine mine seat.old.me.0 }
    requires block { mine.block < 2 ^ 30 }
    requires words { AreCommitWords table.now.table_id table.now.key.shape mine.number mine.side call.sector words }
    requires sector { call.sector < table.now.key.shape.sectors }
    requires pass { may_enter seat.old.me.0.held call.tag ≡ true }
    ensures table { seat.new.table_id ≡ seat.old.table_id }
    ensures ended { Ended call seat.old.me seat.new.me fuse.old fuse.new result }
{
    let Some(found) = lock_take(table, seat, fuse, words.lock, mine.number, call) else {
        return Fate::Cut(0);
    };
    if found != 0 {
        return Fate::Busy((found - 1) as u32);
    }
    let Some(word) = map_load(table, seat, fuse, words.map) else {
        return Fate::Cut(1);
    };
    let old = looked_in(word, call.sector);
    let a = log_word_a(call.sector, old);
    let b = log_word_b(mine.block, seq_after(mine.seq));
    let map = switched_word(word, call.sector, mine.block);
    let made = finish(table, seat, fuse, words, a, b, map);
    if made == 7 {
        Fate::Done(old)
    } else {
        Fate::Cut(made + 2)
    }
}
