//! Reads a sector's words: looks at the map and at the block, and the loop over the block's words.
ghost use Rattle.std.specs.Prelude.{◌≡◌, ◌<◌, ◌≤◌, ◌+◌, ◌/◌, ◌^◌, [], true, length};
ghost use Rattle.map_table.specs.Entry.{entry_in};
ghost use Rattle.lane_core.specs.declared.phase.Phase.TheVariants.{Idle, Looking, Reading};
ghost use Rattle.lane_core.specs.Areas.{block_in, kind_in};
ghost use Rattle.lane_core.specs.Machine.{looked};
ghost use Rattle.lane_core.specs.Places.{word_of, SeenData, SeenMap, Reader};
ghost use Rattle.lane_table.specs.Conditions.{IsSeated, IsWord};
ghost use Rattle.lane_table.specs.Fuse.{Fell};
ghost use Rattle.lane_table.specs.Law.{may_enter};
ghost use Rattle.lane_table.specs.Reads.{found_by, read_logged, Loaded, LoadedFirst, BlockEnds, ReadEnds, LogEnds, Answers, AreReadWords};
ghost use Rattle.lane_table.specs.Told.{blocks};

use crate::arena::Arena;
use crate::fetching::fetch;
use crate::fuse::Fuse;
use crate::log::{LaneLog, LoggedAct, LoggedCall};
use crate::pieces::looked_in;
use crate::steps::{
    data_load, map_check, map_look, read_begin, rtt_clear, rtt_clear_moved, rtt_set,
};
use crate::table::{Call, LaneSeat, Words};
use crate::words::{block_word, log_word, map_word, reader_word};
use arena_open::CellKind;
use map_table::{Kind, entry, entry_in};

/// What runs between a read's first look at the map and the store of its reader word. A test says
/// with it what others do meanwhile. It has no condition: the promises of a read hold for every
/// pause.
pub trait Pause {
    fn pause(&mut self);
}

/// The places of a read's words in the table.
#[derive(Clone, Copy, Debug, PartialEq, Eq)]
pub struct ReadWords {
    /// The lane's own reader word.
    pub reader: usize,
    pub map: usize,
    /// The first word of the block.
    pub block: usize,
}

/// What the sector's entry says.
#[derive(Clone, Copy, Debug, PartialEq, Eq)]
pub enum Found {
    Zeros,
    Bad,
    /// This block has the bytes.
    Block(u32),
}

/// What a read uses up: the steps of its lane's fuse, and the room of its log.
#[derive(Drop)]
pub struct Supplies {
    pub fuse: Fuse,
    pub log: LaneLog,
}

/// How a read ends.
#[derive(Clone, Copy, Debug, PartialEq, Eq)]
pub enum ReadFate {
    /// The read stands in the history, with a cell of this kind.
    Got(CellKind),
    /// The entry at the first look, and another one at the check.
    Moved(u32, u32),
    /// The fuse was spent.
    Cut,
}

/// What a sector's entry in its map word says.
#[inline]
#[tactic(auto, unfolding(lane_core::specs::Areas::block_in, lane_core::specs::Areas::kind_in))]
fn found_in(word: u64, sector: u32) -> Found
    ensures { result ≡ found_by (kind_in (entry_in word sector)) (block_in (entry_in word sector) sector) }
{
    let entry = entry(entry_in(word, sector), sector);
    match entry.kind {
        Kind::Zero => Found::Zeros,
        Kind::Bad => Found::Bad,
        Kind::Initial => Found::Block(entry.block),
        Kind::Normal => Found::Block(entry.block),
    }
}

/// A read that found a cell of this kind, as it stands in its lane's log.
fn read_entry(call: Call, kind: CellKind) -> LoggedCall
    ensures { result ≡ read_logged call kind }
{
    LoggedCall {
        tag: call.tag,
        sector: call.sector,
        act: LoggedAct::Read(kind),
    }
}

/// Loads words of the block, of which `at` is the first word, by eights if the fuse has no limit.
/// Returns how many were loaded: all but the last ones, fewer than eight, or none. The inner loop
/// becomes eight steps in a row, without a test between them.
#[inline]
fn load_eights(table: &Words, seat: &mut LaneSeat, fuse: Fuse, at: usize, into: &mut [u64]) -> usize
    requires seat { IsSeated (Reading 0) table.now.table_id seat.old.table_id seat.old.me }
    requires none { seat.old.me.0.lane.got ≡ [] }
    requires into { length into.old ≡ table.now.key.shape.width }
    requires block { looked seat.old.me.0.lane < blocks table.now.key.shape }
    requires at { (at ≡ word_of table.now.key.shape (SeenData (looked seat.old.me.0.lane) 0)) × (at + length into.old ≤ table.now.table_id.words) × (table.now.table_id.words < 2 ^ 60) }
    ensures table { seat.new.table_id ≡ seat.old.table_id }
    ensures loaded { LoadedFirst seat.old.me seat.new.me into.old into.new result }
    ensures fell { Fell result fuse fuse }
{
    if fuse.set {
        return 0;
    }
    let mut own = fuse;
    let eights = into.len() / 8;
    for eight in 0..eights {
        for i in 0..8 {
            let n = 8 * eight + i;
            let Some(word) = data_load(table, seat, &mut own, at + n, n) else {
                return n;
            };
            into[n] = word;
        }
    }
    8 * eights
}

/// Loads the words of the block, of which `at` is the first word. Returns how many were loaded:
/// all, or as many as the fuse had steps.
fn load_words(
    table: &Words,
    seat: &mut LaneSeat,
    fuse: &mut Fuse,
    at: usize,
    into: &mut [u64],
) -> usize
    requires seat { IsSeated (Reading 0) table.now.table_id seat.old.table_id seat.old.me }
    requires none { seat.old.me.0.lane.got ≡ [] }
    requires into { length into.old ≡ table.now.key.shape.width }
    requires block { looked seat.old.me.0.lane < blocks table.now.key.shape }
    requires at { (at ≡ word_of table.now.key.shape (SeenData (looked seat.old.me.0.lane) 0)) × (at + length into.old ≤ table.now.table_id.words) × (table.now.table_id.words < 2 ^ 60) }
    ensures table { seat.new.table_id ≡ seat.old.table_id }
    ensures loaded { Loaded seat.old.me seat.new.me fuse.old fuse.new into.old into.new result }
{
    // All lines of cache come at once. The steps alone ask for a few at a time: each loads the
    // table's address too, and the processor has room for only so many loads.
    fetch(table, at, into.len());
    // A fuse of its own stays in registers between the loads.
    let mut own = *fuse;
    let first = load_eights(table, seat, own, at, into);
    for k in first..into.len() {
        let Some(word) = data_load(table, seat, &mut own, at + k, k) else {
            *fuse = own;
            return k;
        };
        into[k] = word;
    }
    *fuse = own;
    into.len()
}

/// Reads the block that the first look found. It publishes the block in the reader word, looks at
/// the map word again, and loads the words if the entry is the same. The read stands from then on,
/// so its log has it before the words are loaded: its line of cache comes meanwhile.
fn read_block(
    table: &Words,
    seat: &mut LaneSeat,
    supplies: &mut Supplies,
    at: ReadWords,
    word: u64,
    call: Call,
    into: &mut [u64],
) -> ReadFate
    requires seat { IsSeated Looking table.now.table_id seat.old.table_id seat.old.me }
    requires shape { seat.old.me.0.shape ≡ table.now.key.shape }
    requires looked { (word ≡ seat.old.me.0.lane.loaded) × (call.sector ≡ seat.old.me.0.lane.sector) }
    requires block { looked seat.old.me.0.lane < blocks table.now.key.shape }
    requires into { length into.old ≡ table.now.key.shape.width }
    requires at { AreReadWords table.now.table_id table.now.key.shape seat.old.me.0.number seat.old.me.0.lane.sector (looked seat.old.me.0.lane) at }
    requires spare { 0 < supplies.old.log.spare }
    requires pass { may_enter seat.old.me.0.held seat.old.me.0.lane.tag ≡ true }
    ensures table { seat.new.table_id ≡ seat.old.table_id }
    ensures ends { BlockEnds seat.old.me seat.new.me supplies.old.fuse supplies.new.fuse into.old into.new result }
    ensures log { LogEnds call supplies.old.log supplies.new.log result }
{
    let block = looked_in(word, call.sector);
    if !rtt_set(table, seat, &mut supplies.fuse, at.reader, block) {
        return ReadFate::Cut;
    }
    let Some(again) = map_check(table, seat, &mut supplies.fuse, at.map) else {
        return ReadFate::Cut;
    };
    let (first, then) = (entry_in(word, call.sector), entry_in(again, call.sector));
    if first != then {
        if !rtt_clear_moved(table, seat, &mut supplies.fuse, at.reader) {
            return ReadFate::Cut;
        }
        return ReadFate::Moved(first, then);
    }
    supplies.log.add_read(read_entry(call, CellKind::Bytes));
    if load_words(table, seat, &mut supplies.fuse, at.block, into) < into.len() {
        return ReadFate::Cut;
    }
    if !rtt_clear(table, seat, &mut supplies.fuse, at.reader) {
        return ReadFate::Cut;
    }
    ReadFate::Got(CellKind::Bytes)
}

/// Reads a sector's cell. Its words go into `into`, if it isn't bad. A read that is cut may leave its
/// entry in the log.
pub fn read<P: Pause>(
    arena: &Arena,
    seat: &mut LaneSeat,
    supplies: &mut Supplies,
    number: u32,
    call: Call,
    into: &mut [u64],
    between: &mut P,
) -> ReadFate
    requires seat { IsSeated Idle arena.now.table.shared.table_id seat.old.table_id seat.old.me }
    requires shape { seat.old.me.0.shape ≡ arena.now.shape }
    requires number { (seat.old.me.0.number ≡ number) × (number < arena.now.shape.lanes) }
    requires sector { call.sector < arena.now.shape.sectors }
    requires into { length into.old ≡ arena.now.shape.width }
    requires spare { 0 < supplies.old.log.spare }
    requires pass { may_enter seat.old.me.0.held call.tag ≡ true }
    ensures table { seat.new.table_id ≡ seat.old.table_id }
    ensures ends { ReadEnds seat.old.me seat.new.me supplies.old.fuse supplies.new.fuse into.old into.new call result }
    ensures answers { Answers seat.old.me seat.new.me into.new call result }
    ensures log { LogEnds call supplies.old.log supplies.new.log result }
{
    let table = &arena.table.shared;
    let reader = reader_word(&arena.shape, number);
    let map = map_word(&arena.shape, call.sector);
    read_begin(table, seat, log_word(&arena.shape, number, 0), call);
    let Some(word) = map_look(table, seat, &mut supplies.fuse, map) else {
        return ReadFate::Cut;
    };
    match found_in(word, call.sector) {
        Found::Zeros => {
            into.fill(0);
            supplies.log.add_read(read_entry(call, CellKind::Bytes));
            ReadFate::Got(CellKind::Bytes)
        }
        Found::Bad => {
            supplies.log.add_read(read_entry(call, CellKind::Bad));
            ReadFate::Got(CellKind::Bad)
        }
        Found::Block(block) => {
            between.pause();
            let block = block_word(&arena.shape, block);
            let at = ReadWords { reader, map, block };
            read_block(table, seat, supplies, at, word, call, into)
        }
    }
}
