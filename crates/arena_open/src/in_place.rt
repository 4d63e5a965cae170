//! Reads a sector of an arena without copying the arena's words.
ghost use Rattle.std.specs.Prelude.{◌≡◌, ℕ, ◌+◌, ◌*◌, ◌/◌, ◌^◌, ◌<◌, ◌≤◌, length, drop, slice_index};
ghost use Rattle.arena_layout.specs.Layout.{IsLayout};
ghost use Rattle.arena_open.specs.Places.{block_words};
ghost use Rattle.arena_open.specs.Reading.{cell_at, cell_with};
ghost use Rattle.arena_open.specs.Cells.{GivesCell};
ghost use Rattle.arena_open.specs.Moves.{state_of, IsOpened};
ghost use Rattle.arena_open.specs.Writes.{IsSettled};

use crate::cell::{CellKind, put_zeros};
use crate::opened::Opened;
use arena_layout::Layout;
use cut_words::WordSpace;
use map_table::{Kind, MapEntry, entry};

/// Loads the first words of a block.
fn load_block<W: WordSpace>(space: &W, at: u64, layout: &Layout, block: u32, into: &mut [u64])
    requires layout { IsLayout layout.now }
    requires block { block < layout.now.internal }
    requires inside { at + layout.now.size / 8 ≤ length (W.words space.now).kept }
    requires small { length (W.words space.now).kept < 2 ^ 60 }
    requires settled { IsSettled (W.words space.now) }
    requires room { length into.old ≡ layout.now.sector / 8 }
    ensures { into.new ≡ block_words layout.now (drop at (W.words space.now).kept) block (layout.now.sector / 8) }
{
    let first = layout.data_off / 8 + u64::from(block) * (u64::from(layout.inner) / 8);
    space.load_from(at + first, into);
}

/// Loads the cell of an entry.
fn load_cell<W: WordSpace>(
    space: &W,
    at: u64,
    layout: &Layout,
    entry: MapEntry,
    into: &mut [u64],
) -> CellKind
    requires layout { IsLayout layout.now }
    requires block { entry.block < layout.now.internal }
    requires inside { at + layout.now.size / 8 ≤ length (W.words space.now).kept }
    requires small { length (W.words space.now).kept < 2 ^ 60 }
    requires settled { IsSettled (W.words space.now) }
    requires room { length into.old ≡ layout.now.sector / 8 }
    ensures { GivesCell (cell_with layout.now (drop at (W.words space.now).kept) entry) result into.old into.new }
{
    match entry.kind {
        Kind::Zero => {
            put_zeros(into);
            CellKind::Bytes
        }
        Kind::Bad => CellKind::Bad,
        Kind::Initial => {
            load_block(space, at, layout, entry.block, into);
            CellKind::Bytes
        }
        Kind::Normal => {
            load_block(space, at, layout, entry.block, into);
            CellKind::Bytes
        }
    }
}

/// Reads a sector's cell from the words of a space, in which [`read_arena`](crate::read_arena) read
/// the arena. The words go into `into`, which is unchanged if the cell is bad.
///
/// It is the cell of the arena's state with all pending moves completed (`state_of`): the entries
/// in memory have these moves, and a move changes no block. So no word is stored, and only the
/// sector's words are copied.
///
/// `opened` must be what `read_arena` returned for the arena at word `at` of this space, whose
/// words must not have changed since. The space must have fewer than 2^60 words, none of them
/// pending. The sector must exist, and `into` must have as many words as a sector.
pub fn cell_in_place<W: WordSpace>(
    space: &W,
    at: u64,
    opened: &Opened,
    sector: u32,
    into: &mut [u64],
) -> CellKind
    requires opened { IsOpened (drop at (W.words space.now).kept) opened.now }
    requires inside { at ≤ length (W.words space.now).kept }
    requires small { length (W.words space.now).kept < 2 ^ 60 }
    requires settled { IsSettled (W.words space.now) }
    requires sector { sector < opened.now.info.layout.external }
    requires room { length into.old ≡ opened.now.info.layout.sector / 8 }
    ensures { GivesCell (cell_at opened.now.info.layout (state_of (drop at (W.words space.now).kept) opened.now).words sector) result into.old into.new }
{
    let entries = opened.entries.as_slice();
    let found = entry(entries[sector as usize], sector);
    load_cell(space, at, &opened.info.layout, found, into)
}
