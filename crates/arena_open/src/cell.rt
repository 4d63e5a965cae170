ghost use Rattle.std.specs.Prelude.{◌≡◌, ◌+◌, ◌*◌, ◌/◌, ◌^◌, ◌<◌, ◌≤◌, length, replicate, take, drop};
ghost use Rattle.map_table.specs.Entry.{entry_of};
ghost use Rattle.arena_layout.specs.Layout.{IsLayout};
ghost use Rattle.arena_open.specs.Places.{block_words};
ghost use Rattle.arena_open.specs.Reading.{cell_at, cell_with, entry_at};
ghost use Rattle.arena_open.specs.Cells.{GivesCell};
ghost use Rattle.arena_open.specs.Moves.{IsOpenState};

use crate::state::ArenaState;
use arena_layout::Layout;
use map_table::{Kind, MapEntry, entry, entry_in};
use nvd_words::Items;

/// The contents of a sector.
#[derive(Debug, Drop)]
pub enum Cell {
    /// The sector's bytes as 64-bit words, also if they are all zero.
    Bytes(Items<u64>),
    /// The sector can't be read.
    Bad,
}

/// Whether a sector can be read.
#[derive(Clone, Copy, Debug, PartialEq, Eq)]
pub enum CellKind {
    /// It has bytes.
    Bytes,
    /// It can't be read.
    Bad,
}

/// Returns the entry of a sector in the words of an arena.
fn sector_entry(words: &[u64], layout: &Layout, sector: u32) -> MapEntry
    requires layout { IsLayout layout.now }
    requires sector { sector < layout.now.external }
    requires count { length words.now ≡ layout.now.size / 8 }
    ensures { result ≡ entry_of (entry_at layout.now words.now sector) sector }
{
    let word = words[(layout.map_off / 8) as usize + sector as usize / 2];
    entry(entry_in(word, sector), sector)
}

pub(crate) fn put_zeros(into: &mut [u64])
    ensures { into.new ≡ replicate (length into.old) 0 }
{
    into.fill(0);
}

/// Returns `count` words from `first` on.
fn words_at(words: &[u64], first: u64, count: usize) -> &[u64]
    requires { first + count ≤ length words.now }
    ensures value { result.now ≡ take count (drop first words.now) }
    ensures count { length result.now ≡ count }
{
    let first = first as usize;
    &words[first..first + count]
}

/// Copies the first words of a block.
fn copy_block(words: &[u64], layout: &Layout, block: u32, into: &mut [u64])
    requires layout { IsLayout layout.now }
    requires block { block < layout.now.internal }
    requires count { length words.now ≡ layout.now.size / 8 }
    requires room { length into.old ≡ layout.now.sector / 8 }
    ensures { into.new ≡ block_words layout.now words.now block (layout.now.sector / 8) }
{
    let first = layout.data_off / 8 + u64::from(block) * (u64::from(layout.inner) / 8);
    into.copy_from_slice(words_at(words, first, into.len()));
}

/// Copies the cell of an entry.
fn read_cell(words: &[u64], layout: &Layout, entry: MapEntry, into: &mut [u64]) -> CellKind
    requires layout { IsLayout layout.now }
    requires block { entry.block < layout.now.internal }
    requires count { length words.now ≡ layout.now.size / 8 }
    requires room { length into.old ≡ layout.now.sector / 8 }
    ensures { GivesCell (cell_with layout.now words.now entry) result into.old into.new }
{
    match entry.kind {
        Kind::Zero => {
            put_zeros(into);
            CellKind::Bytes
        }
        Kind::Bad => CellKind::Bad,
        Kind::Initial => {
            copy_block(words, layout, entry.block, into);
            CellKind::Bytes
        }
        Kind::Normal => {
            copy_block(words, layout, entry.block, into);
            CellKind::Bytes
        }
    }
}

/// Reads a sector's cell into `into`, which is unchanged if the cell is bad.
///
/// A sector reads as zeros if its entry says so. An initial entry's block has the sector's own
/// number, and the sector has its bytes (this project's rule).
///
/// The state must be as [`open_arena`](crate::open_arena) returns it, the sector must exist, and
/// `into` must have as many words as a sector.
pub fn cell_of(state: &ArenaState, sector: u32, into: &mut [u64]) -> CellKind
    requires state { IsOpenState state.now }
    requires sector { sector < state.now.info.layout.external }
    requires room { length into.old ≡ state.now.info.layout.sector / 8 }
    ensures { GivesCell (cell_at state.now.info.layout state.now.words sector) result into.old into.new }
{
    let layout = &state.info.layout;
    let words = state.words.as_slice();
    read_cell(words, layout, sector_entry(words, layout, sector), into)
}
