//! A sector of a namespace is read from a source.
ghost use Rattle.std.specs.Prelude.{◌≡◌, ℕ, ◌+◌, ◌*◌, ◌/◌, ◌^◌, ◌<◌, ◌≤◌, IfOk, List, MatchOption, length, map, drop, replicate, slice_index, slice_index_or, sum_by};
ghost use Rattle.nvd_media.specs.Causes.{HasCause};
ghost use Rattle.cut_words.specs.WordBytes.{words_in};
ghost use Rattle.arena_layout.specs.Layout.{IsLayout};
ghost use Rattle.map_table.specs.Entry.{entry_of};
ghost use Rattle.arena_open.specs.declared.cell.Cell.TheVariants as cell;
ghost use Rattle.arena_open.specs.Chain.{Link, state_at};
ghost use Rattle.arena_open.specs.ChainCells.{contents_of, sectors_of};
ghost use Rattle.arena_open.specs.InPlace.{LiesInLink, external_in};
ghost use Rattle.arena_open.specs.Places.{block_words};
ghost use Rattle.arena_open.specs.Reading.{cell_with};
ghost use Rattle.power_cut.specs.Namespace.{raw_bytes};
ghost use Rattle.namespace_bytes.specs.Putting.{AreAll};
ghost use Rattle.namespace_bytes.specs.SectorPut.{AreSized, HasBlocks};
ghost use Rattle.namespace_words.specs.Source.{AreWithin, HasEnds, IsWithin, Reveals, words_by};

use crate::arena_read::ArenaRead;
use crate::extent::read_extent;
use arena_layout::Layout;
use arena_open::{Cell, Opened};
use map_table::{Kind, MapEntry, entry};
use nvd_media::{Failed, ImageSource};
use nvd_words::{Items, word_at};
use power_cut::SetExtent;
use std::alloc::{AllocError, Global};

/// Returns the number of sectors of these arenas together.
pub fn sectors_of_all(arenas: &[ArenaRead]) -> u64
    requires { AreSized arenas.now }
    ensures count { result ≡ sum_by external_in arenas.now }
    ensures states { (words : List ℕ) → result ≡ sectors_of (map (state_at words) arenas.now) }
{
    let mut count = 0;
    for arena in arenas {
        count += u64::from(arena.opened.info.layout.external);
    }
    count
}

/// Returns the arena of a sector, and the sector's number in this arena. It returns `None` exactly if there is no such sector.
pub fn locate(arenas: &[ArenaRead], sector: u64) -> Option<(usize, u32)>
    ensures { MatchOption result (sum_by external_in arenas.now ≤ sector) (λ place. LiesInLink arenas.now sector place.0 place.1) }
{
    let mut own = sector;
    for (k, arena) in arenas.iter().enumerate() {
        let external = u64::from(arena.opened.info.layout.external);
        if own < external {
            return Some((k, own as u32));
        }
        own -= external;
    }
    None
}

/// Returns arena `k` of some, which must exist.
pub fn arena_at(arenas: &[ArenaRead], k: usize) -> &ArenaRead
    requires { k < length arenas.now }
    ensures { (d : Link) → result.now ≡ slice_index_or arenas.now k d }
{
    &arenas[k]
}

/// Returns the words of bytes.
fn words_of(alloc: Global, bytes: &[u8]) -> Result<Items<u64>, AllocError>
    ensures { IfOk result (λ words. words ≡ words_in bytes.now) }
{
    let mut words = Vec::with_capacity(alloc, bytes.len() / 8)?;
    for k in 0..bytes.len() / 8 {
        words.push(word_at(bytes, 8 * k))?;
    }
    Ok(Items::from_vec(words))
}

/// Returns the cell with these bytes.
fn cell_of(alloc: Global, bytes: &[u8]) -> Result<Cell, AllocError>
    ensures { IfOk result (λ made. made ≡ cell.Bytes (words_in bytes.now)) }
{
    Ok(Cell::Bytes(words_of(alloc, bytes)?))
}

/// Returns a cell of so many words, all zero.
fn zero_cell(alloc: Global, count: usize) -> Result<Cell, AllocError>
    ensures { IfOk result (λ made. made ≡ cell.Bytes (replicate count 0)) }
{
    let words = vec![in alloc; 0; count]?;
    Ok(Cell::Bytes(Items::from_vec(words)))
}

/// Reads the bytes of a sector from a block of the arena whose first word is `at`.
fn read_block<S: ImageSource>(
    alloc: Global,
    images: &mut S,
    extent: &SetExtent<'_>,
    at: u64,
    layout: &Layout,
    block: u32,
) -> Result<Result<Cell, AllocError>, Failed>
    requires layout { IsLayout layout.now }
    requires few { 8 * at ≤ 2 ^ 55 }
    requires within { 8 * at + layout.now.size ≤ raw_bytes extent.now }
    requires block { block < layout.now.internal }
    requires there { HasEnds (S.held images.old) extent.now.set }
    ensures told { (contents : List (List ℕ)) → Reveals (S.held images.old) extent.now.set contents → IfOk result (λ answer. IfOk answer (λ found. found ≡ cell.Bytes (block_words layout.now (drop at (words_by extent.now contents)) block (layout.now.sector / 8)))) }
    ensures same { S.held images.new ≡ S.held images.old }
    ensures cause { HasCause (S.faults images.old) (S.faults images.new) result }
{
    let Ok(mut room) = vec![in alloc; 0; layout.sector as usize] else {
        return Ok(Err(AllocError));
    };
    let bytes = room.as_mut_slice();
    let place = u64::from(block) * u64::from(layout.inner);
    read_extent(images, extent, 8 * at + layout.data_off + place, bytes)?;
    Ok(cell_of(alloc, bytes))
}

/// Reads the cell of an entry of the map of the arena whose first word is `at`. A zero or bad entry needs no block.
fn read_entry<S: ImageSource>(
    alloc: Global,
    images: &mut S,
    extent: &SetExtent<'_>,
    at: u64,
    layout: &Layout,
    entry: MapEntry,
) -> Result<Result<Cell, AllocError>, Failed>
    requires layout { IsLayout layout.now }
    requires few { 8 * at ≤ 2 ^ 55 }
    requires within { 8 * at + layout.now.size ≤ raw_bytes extent.now }
    requires block { entry.block < layout.now.internal }
    requires there { HasEnds (S.held images.old) extent.now.set }
    ensures told { (contents : List (List ℕ)) → Reveals (S.held images.old) extent.now.set contents → IfOk result (λ answer. IfOk answer (λ found. found ≡ cell_with layout.now (drop at (words_by extent.now contents)) entry)) }
    ensures same { S.held images.new ≡ S.held images.old }
    ensures cause { HasCause (S.faults images.old) (S.faults images.new) result }
{
    match entry.kind {
        Kind::Zero => Ok(zero_cell(alloc, layout.sector as usize / 8)),
        Kind::Bad => Ok(Ok(Cell::Bad)),
        Kind::Initial => read_block(alloc, images, extent, at, layout, entry.block),
        Kind::Normal => read_block(alloc, images, extent, at, layout, entry.block),
    }
}

/// Reads the cell of a sector of the arena whose first word is `at`. The arena's map has its pending moves.
fn read_own<S: ImageSource>(
    alloc: Global,
    images: &mut S,
    extent: &SetExtent<'_>,
    at: u64,
    opened: &Opened,
    own: u32,
) -> Result<Result<Cell, AllocError>, Failed>
    requires blocks { HasBlocks (record { at = at; opened = opened.now }) }
    requires within { IsWithin (raw_bytes extent.now) (record { at = at; opened = opened.now }) }
    requires own { own < opened.now.info.layout.external }
    requires there { HasEnds (S.held images.old) extent.now.set }
    ensures told { (contents : List (List ℕ)) → Reveals (S.held images.old) extent.now.set contents → IfOk result (λ answer. IfOk answer (λ found. found ≡ cell_with opened.now.info.layout (drop at (words_by extent.now contents)) (entry_of (slice_index opened.now.entries own) own))) }
    ensures same { S.held images.new ≡ S.held images.old }
    ensures cause { HasCause (S.faults images.old) (S.faults images.new) result }
{
    let entries = opened.entries.as_slice();
    let found = entry(entries[own as usize], own);
    read_entry(alloc, images, extent, at, &opened.info.layout, found)
}

/// Reads a sector of a namespace from a source: only its own bytes are read, and none if its map entry says that it is zero or
/// bad.
///
/// The arenas are all of the namespace, as `read_arenas_from` returned them for its extent, and one of them has the sector. If the
/// source reveals its contents, these must reach the end of each mapping of the set.
///
/// `told`: the cell is that of the sector with all pending moves made, in the words that the source reveals. The inner call fails
/// only if memory runs out. `Failed` means that the source's count of failures rose.
pub fn read_cell<S: ImageSource>(
    alloc: Global,
    images: &mut S,
    extent: &SetExtent<'_>,
    arenas: &[ArenaRead],
    sector: u64,
) -> Result<Result<Cell, AllocError>, Failed>
    requires sized { AreSized arenas.now }
    requires within { AreWithin (raw_bytes extent.now) arenas.now }
    requires sector { sector < sum_by external_in arenas.now }
    requires there { HasEnds (S.held images.old) extent.now.set }
    ensures told { (contents : List (List ℕ)) → Reveals (S.held images.old) extent.now.set contents → (uuid : List ℕ) → AreAll (words_by extent.now contents) uuid arenas.now → IfOk result (λ answer. IfOk answer (λ found. found ≡ slice_index_or (contents_of (map (state_at (words_by extent.now contents)) arenas.now)) sector cell.Bad)) }
    ensures same { S.held images.new ≡ S.held images.old }
    ensures cause { HasCause (S.faults images.old) (S.faults images.new) result }
{
    match locate(arenas, sector) {
        Some((k, own)) => {
            let arena = arena_at(arenas, k);
            read_own(alloc, images, extent, arena.first(), arena.parts(), own)
        }
        None => unreachable!(),
    }
}
