//! The two looks of a read at its map word, by what it finds. As in `lines.rt`, contracts state
//! exactly what they do.
ghost use Rattle.std.specs.Prelude.{◌≡◌, ◌==◌, ◌+◌, ◌/◌, ◌<◌, ◌^◌, ◌++◌, ◌∷◌, [], length, replicate, take, drop};
ghost use Rattle.map_table.specs.Entry.{entry_in, entry_of};
ghost use Rattle.lane_core.specs.Areas.{kind_in};
ghost use Rattle.lane_core.specs.Places.{word_of, SeenData, SeenMap};
ghost use Rattle.lane_core.specs.Rows.{grown};
ghost use Rattle.lane_core.specs.Lines.{looked_now, read_now, word_at, HasWord};

use crate::calls::History;
use crate::history::{Act, Entry};
use crate::now::LaneNow;
use crate::phase::Phase;
use crate::pieces::looked;
use crate::row::Row;
use crate::shape::Shape;
use crate::words::{data_word, map_word};
use arena_open::Cell;
use map_table::{Kind, entry, entry_in};
use std::alloc::Global;

/// What the sector's entry says.
#[inline]
#[tactic(auto, unfolding(crate::specs::Areas::kind_in, map_table::specs::Entry::entry_of))]
pub fn found_kind(row: &Row, mine: &LaneNow, shape: &Shape) -> Kind
    requires word { HasWord shape.now row.now (SeenMap (mine.now.sector / 2)) }
    ensures { result ≡ kind_in (entry_in (word_at shape.now row.now (SeenMap (mine.now.sector / 2))) mine.now.sector) }
{
    let word = row.load(map_word(shape, mine.sector));
    entry(entry_in(word, mine.sector), 0).kind
}

/// MapLoad of a read: the block has the bytes.
#[inline]
pub fn look(row: &Row, mine: &mut LaneNow, shape: &Shape)
    requires word { HasWord shape.now row.now (SeenMap (mine.old.sector / 2)) }
    ensures { mine.new ≡ record mine.old { phase = Phase.Looking; loaded = word_at shape.now row.now (SeenMap (mine.old.sector / 2)) } }
{
    mine.loaded = row.load(map_word(shape, mine.sector));
    mine.phase = Phase::Looking;
}

/// Enters a read that found a cell in the history.
#[inline]
fn read_stands(history: &mut History, mine: &LaneNow, lane: u32, cell: Cell)
    requires room { 0 < history.old.room }
    ensures { history.new ≡ grown history.old (read_now lane mine.now cell) }
{
    history.push(Entry {
        lane,
        tag: mine.tag,
        sector: mine.sector,
        act: Act::Read(cell),
    });
}

/// MapLoad of a read: the entry says zeros. The read stands and is answered.
#[inline]
pub fn look_zeros(mine: &mut LaneNow, lane: u32, history: &mut History, alloc: Global) -> Cell
    requires room { 0 < history.old.room }
    ensures lane { mine.new ≡ record mine.old { phase = Phase.Idle; words = []; cell = [] } }
    ensures history { history.new ≡ grown history.old (read_now lane mine.old (Cell.Bytes (replicate (length mine.old.cell) 0))) }
    ensures cell { result ≡ Cell.Bytes (replicate (length mine.old.words) 0) }
{
    mine.words.clear();
    mine.cell.clear();
    let found = Cell::Bytes(mine.cell.take(alloc));
    read_stands(history, mine, lane, found);
    mine.phase = Phase::Idle;
    Cell::Bytes(mine.words.take(alloc))
}

/// MapLoad of a read: the entry says that the sector is bad. The read stands and is answered.
#[inline]
pub fn look_bad(mine: &mut LaneNow, lane: u32, history: &mut History) -> Cell
    requires room { 0 < history.old.room }
    ensures lane { mine.new ≡ record mine.old { phase = Phase.Idle } }
    ensures history { history.new ≡ grown history.old (read_now lane mine.old Cell.Bad) }
    ensures cell { result ≡ Cell.Bad }
{
    read_stands(history, mine, lane, Cell::Bad);
    mine.phase = Phase::Idle;
    Cell::Bad
}

/// Whether the sector's entry is the one that the read loaded.
#[inline]
pub fn is_same(row: &Row, mine: &LaneNow, shape: &Shape) -> bool
    requires word { HasWord shape.now row.now (SeenMap (mine.now.sector / 2)) }
    ensures { result ≡ (entry_in (word_at shape.now row.now (SeenMap (mine.now.sector / 2))) mine.now.sector == entry_in mine.now.loaded mine.now.sector) }
{
    let word = row.load(map_word(shape, mine.sector));
    entry_in(word, mine.sector) == entry_in(mine.loaded, mine.sector)
}

/// MapCheck: the entry is the same, and the read stands with the words that its block has.
#[inline]
pub fn check_same(
    row: &Row,
    mine: &mut LaneNow,
    shape: &Shape,
    lane: u32,
    history: &mut History,
    alloc: Global,
)
    requires word { HasWord shape.now row.now (SeenData (looked_now mine.old) 0) }
    requires words { word_of shape.now (SeenData (looked_now mine.old) 0) + shape.now.width < length row.now.words }
    requires cell { length mine.old.cell ≡ shape.now.width }
    requires room { 0 < history.old.room }
    ensures lane { mine.new ≡ record mine.old { phase = Phase.Reading 0; cell = [] } }
    ensures history { history.new ≡ grown history.old (read_now lane mine.old (Cell.Bytes (take shape.now.width (drop (word_of shape.now (SeenData (looked_now mine.old) 0)) row.now.words)))) }
{
    let at = data_word(shape, looked(mine), 0);
    mine.cell.copy_from(row.slice(at, shape.width));
    let found = Cell::Bytes(mine.cell.take(alloc));
    read_stands(history, mine, lane, found);
    mine.phase = Phase::Reading(0);
}

/// MapCheck: the entry has changed.
#[inline]
pub fn check_moved(mine: &mut LaneNow)
    ensures { mine.new ≡ record mine.old { phase = Phase.Moved } }
{
    mine.phase = Phase::Moved;
}
