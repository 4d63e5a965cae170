//! Stores and keeps a write's words in a free block: loops over steps.
ghost use Rattle.std.specs.Prelude.{◌≡◌, ◌<◌, ◌≤◌, ◌+◌, ◌*◌, ◌-◌, ◌^◌, [], length, suc};
ghost use Rattle.lane_core.specs.declared.phase.Phase.TheVariants.{Idle, Scanning, Staging, Staged};
ghost use Rattle.lane_core.specs.Places.{word_of, row_size, IsShape, SeenData, KeptData};
ghost use Rattle.lane_table.specs.Conditions.{IsMine, IsSeated};
ghost use Rattle.lane_table.specs.Fuse.{Fell, Burnt};
ghost use Rattle.lane_table.specs.Stages.{others_below, scans_before, Scanned, ScannedRow, Stored, Kept, StageEnds};
ghost use Rattle.lane_table.specs.Told.{scan_phase, blocks};

use crate::fetching::fetch;
use crate::fuse::Fuse;
use crate::pieces::Mine;
use crate::steps::{data_keep, data_store, rtt_scan, write_begin};
use crate::table::{LaneSeat, Words};
use crate::words::{block_word, kept, reader_word};
use lane_core::Shape;

/// How a scan of the other lanes ends.
#[derive(Clone, Copy, Debug, PartialEq, Eq)]
pub enum Looked {
    /// Nobody reads the free block.
    Clear,
    /// This lane reads it. This many scans were made.
    Reader(u32, u32),
    /// The fuse was spent after this many scans.
    Cut(u32),
}

/// How many lanes have numbers below this one, without the lane `number`.
#[inline]
fn others_below(number: u32, lane: u32) -> u32
    ensures { result ≡ others_below number lane }
{
    if number < lane { lane - 1 } else { lane }
}

/// Looks at the reader words of the lanes of a row, but not at its own. A row is 32 lanes from
/// `32 * row` on, or as many as there are: each has its reader word in a line of cache of its own.
///
/// In a whole row of others, if the fuse has no limit, the loop becomes 32 loads in a row, each an
/// instruction of its own that finds one line in every row. That takes fewer instructions than one
/// load that goes from line to line.
#[inline]
fn scan_row(
    table: &Words,
    seat: &mut LaneSeat,
    fuse: &mut Fuse,
    shape: &Shape,
    mine: Mine,
    row: u32,
) -> Looked
    requires shape { (table.now.key.shape ≡ shape.now) × (seat.old.me.0.shape ≡ shape.now) }
    requires table { IsShape shape.now × (table.now.table_id.words ≡ row_size shape.now) }
    requires seat { IsSeated (scan_phase shape.now (scans_before mine.number shape.now row)) table.now.table_id seat.old.table_id seat.old.me }
    requires none { seat.old.me.0.lane.words ≡ [] }
    requires mine { IsMine mine seat.old.me.0 × (mine.number < shape.now.lanes) }
    requires row { 32 * row ≤ shape.now.lanes }
    ensures table { seat.new.table_id ≡ seat.old.table_id }
    ensures scanned { ScannedRow seat.old.me seat.new.me fuse.old fuse.new row result }
{
    let first = 32 * row;
    let is_whole = shape.lanes - first >= 32;
    if is_whole && !fuse.set && mine.number / 32 != row {
        let at = reader_word(shape, first);
        let before = others_below(mine.number, first);
        let mut own = *fuse;
        for i in 0..32 {
            let Some(found) = rtt_scan(table, seat, &mut own, at + 8 * i as usize, before + i)
            else {
                return Looked::Cut(before + i);
            };
            if found == u64::from(mine.block) + 1 {
                return Looked::Reader(first + i, before + i + 1);
            }
        }
        return Looked::Clear;
    }
    let end = if is_whole { first + 32 } else { shape.lanes };
    for other in first..end {
        if other != mine.number {
            let j = others_below(mine.number, other);
            let Some(found) = rtt_scan(table, seat, fuse, reader_word(shape, other), j) else {
                return Looked::Cut(j);
            };
            if found == u64::from(mine.block) + 1 {
                return Looked::Reader(other, j + 1);
            }
        }
    }
    Looked::Clear
}

/// Looks at the reader words of all other lanes, by rising numbers, until one has the free block.
pub fn scan(
    table: &Words,
    seat: &mut LaneSeat,
    fuse: &mut Fuse,
    shape: &Shape,
    mine: Mine,
) -> Looked
    requires shape { (table.now.key.shape ≡ shape.now) × (seat.old.me.0.shape ≡ shape.now) }
    requires table { IsShape shape.now × (table.now.table_id.words ≡ row_size shape.now) }
    requires seat { IsSeated (scan_phase shape.now 0) table.now.table_id seat.old.table_id seat.old.me }
    requires none { seat.old.me.0.lane.words ≡ [] }
    requires mine { IsMine mine seat.old.me.0 × (mine.number < shape.now.lanes) }
    ensures table { seat.new.table_id ≡ seat.old.table_id }
    ensures scanned { Scanned seat.old.me seat.new.me fuse.old fuse.new result }
{
    for row in 0..shape.lanes / 32 + 1 {
        match scan_row(table, seat, fuse, shape, mine, row) {
            Looked::Clear => {}
            found => return found,
        }
    }
    Looked::Clear
}

/// Stores the call's words in the free block, of which `at` is the first word. Returns how many
/// were stored: all, or as many as the fuse had steps.
pub fn store_words(
    table: &Words,
    seat: &mut LaneSeat,
    fuse: &mut Fuse,
    at: usize,
    words: &[u64],
) -> usize
    requires seat { IsSeated (Staging 0) table.now.table_id seat.old.table_id seat.old.me }
    requires none { seat.old.me.0.lane.words ≡ [] }
    requires words { length words.now ≡ table.now.key.shape.width }
    requires at { (at ≡ word_of table.now.key.shape (SeenData seat.old.me.0.lane.block 0)) × (at + length words.now ≤ table.now.table_id.words) × (table.now.table_id.words < 2 ^ 60) }
    ensures table { seat.new.table_id ≡ seat.old.table_id }
    ensures stored { Stored seat.old.me seat.new.me fuse.old fuse.new words.now result }
{
    for (k, word) in words.iter().enumerate() {
        if !data_store(table, seat, fuse, at + k, k, *word) {
            return k;
        }
    }
    words.len()
}

/// Keeps the words of the free block, of which `at` is the first kept word. Returns how many were
/// kept.
pub fn keep_words(
    table: &Words,
    seat: &mut LaneSeat,
    fuse: &mut Fuse,
    at: usize,
    words: &[u64],
) -> usize
    requires seat { IsSeated (Staging table.now.key.shape.width) table.now.table_id seat.old.table_id seat.old.me }
    requires words { (seat.old.me.0.lane.words ≡ words.now) × (length words.now ≡ table.now.key.shape.width) }
    requires shape { seat.old.me.0.shape ≡ table.now.key.shape }
    requires at { (at ≡ word_of table.now.key.shape (KeptData seat.old.me.0.lane.block 0)) × (at + length words.now ≤ table.now.table_id.words) × (table.now.table_id.words < 2 ^ 60) }
    requires some { 0 < table.now.key.shape.width }
    ensures table { seat.new.table_id ≡ seat.old.table_id }
    ensures kept { Kept seat.old.me seat.new.me fuse.old fuse.new table.now.key.shape result }
{
    for (k, word) in words.iter().enumerate() {
        if !data_keep(table, seat, fuse, at + k, k, *word) {
            return k;
        }
    }
    words.len()
}

/// How staging ends.
#[derive(Clone, Copy, Debug, PartialEq, Eq)]
pub enum StageFate {
    /// The free block has the words, seen and kept.
    Staged,
    /// This lane reads the free block.
    Tracked(u32),
    /// The fuse was spent.
    Cut,
}

/// Stages a write: scans the other lanes, stores the words in the free block, and keeps them.
pub fn stage(
    table: &Words,
    seat: &mut LaneSeat,
    fuse: &mut Fuse,
    shape: &Shape,
    mine: Mine,
    words: &[u64],
) -> StageFate
    requires shape { (table.now.key.shape ≡ shape.now) × (seat.old.me.0.shape ≡ shape.now) }
    requires table { IsShape shape.now × (table.now.table_id.words ≡ row_size shape.now) }
    requires seat { IsSeated Idle table.now.table_id seat.old.table_id seat.old.me }
    requires mine { IsMine mine seat.old.me.0 × (mine.number < shape.now.lanes) × (mine.block < blocks shape.now) }
    requires words { (length words.now ≡ shape.now.width) × (0 < shape.now.width) }
    ensures table { seat.new.table_id ≡ seat.old.table_id }
    ensures ends { StageEnds seat.old.me seat.new.me fuse.old fuse.new words.now result }
{
    let at = block_word(shape, mine.block);
    let kept_at = kept(shape, at);
    fetch(table, at, words.len());
    fetch(table, kept_at, words.len());
    write_begin(table, seat, reader_word(shape, mine.number));
    match scan(table, seat, fuse, shape, mine) {
        Looked::Reader(reader, _) => StageFate::Tracked(reader),
        Looked::Cut(_) => StageFate::Cut,
        Looked::Clear => {
            if store_words(table, seat, fuse, at, words) < words.len() {
                return StageFate::Cut;
            }
            if keep_words(table, seat, fuse, kept_at, words) < words.len() {
                return StageFate::Cut;
            }
            StageFate::Staged
        }
    }
}
