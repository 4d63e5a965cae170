//! The sector of each block of an arena, and the bytes of its sectors put into pieces of the arena's bytes.
//!
//! A piece may begin and end anywhere. Each function changes bytes up to the end of one block, one map entry or one area, and
//! returns how many bytes are done.
ghost use Rattle.std.specs.Prelude.{◌≡◌, ◌≢◌, ℕ, ◌+◌, ◌-◌, ◌*◌, ◌/◌, ◌^◌, ◌<◌, ◌≤◌, IfOk, IsTrue, List, Some, None, length, replicate, slice_index};
ghost use Rattle.arena_layout.specs.Layout.{IsLayout};
ghost use Rattle.map_table.specs.Entry.{normal_of};
ghost use Rattle.namespace_bytes.specs.Putting.{arena_bytes, block_at};
ghost use Rattle.namespace_bytes.specs.SectorBytes.{arena_byte, block_byte, data_byte, map_byte, owner_of};
ghost use Rattle.namespace_bytes.specs.Changed.{IsFree, changed_front};
ghost use Rattle.namespace_bytes.specs.SectorPut.{HasBlocks, IsOwned, link_of, owner_number};

use crate::reading::ArenaAt;
use arena_layout::Layout;
use arena_open::Opened;
use map_table::{entry, normal};
use nvd_words::Items;
use std::alloc::{AllocError, Global};

/// Stands for no sector. An arena has fewer than 2^30 sectors.
const NONE: u32 = u32::MAX;

/// The size of a map entry, in bytes.
const ENTRY: u64 = 4;

/// An arena of a namespace, and the sector of each of its blocks.
#[derive(Drop)]
pub(crate) struct ArenaOwners {
    /// Its first word in the namespace.
    pub(crate) at: u64,
    pub(crate) opened: Opened,
    /// The sector of each block, by number. A free block has `NONE`.
    pub(crate) owners: Items<u32>,
}

/// Makes a table in which no block has a sector.
fn no_owners(alloc: Global, blocks: u32) -> Result<Vec<u32>, AllocError>
    ensures { IfOk result (λ owners. owners.items ≡ replicate blocks (2 ^ 32 - 1)) }
{
    vec![in alloc; NONE; blocks as usize]
}

/// Writes the number of each sector at the place of its block, from the last sector to the first: so the first sector that has
/// a block counts.
fn put_owners(opened: &Opened, owners: &mut [u32])
    requires blocks { (at : ℕ) × HasBlocks (record { at = at; opened = opened.now }) }
    requires none { owners.old ≡ replicate opened.now.info.layout.internal (2 ^ 32 - 1) }
    ensures { (block : ℕ) → block < opened.now.info.layout.internal → slice_index owners.new block ≡ owner_number (owner_of opened.now block) }
{
    let entries = opened.entries.as_slice();
    let mut own = opened.info.layout.external;
    while own > 0 {
        own -= 1;
        let block = entry(entries[own as usize], own).block;
        owners[block as usize] = own;
    }
}

/// Makes the table of the sector of each block. It fails only if memory runs out.
fn owners_of(alloc: Global, opened: &Opened) -> Result<Items<u32>, AllocError>
    requires blocks { (at : ℕ) × HasBlocks (record { at = at; opened = opened.now }) }
    ensures long { IfOk result (λ owners. length owners ≡ opened.now.info.layout.internal) }
    ensures each { IfOk result (λ owners. (block : ℕ) → block < opened.now.info.layout.internal → slice_index owners block ≡ owner_number (owner_of opened.now block)) }
{
    let mut owners = no_owners(alloc, opened.info.layout.internal)?;
    put_owners(opened, owners.as_mut_slice());
    Ok(Items::from_vec(owners))
}

/// Puts the bytes of a sector from byte `from` on into a piece of its block that begins there. Returns how many bytes are done.
fn put_sector(layout: &Layout, own: u32, from: u64, bytes: &[u8], piece: &mut [u8]) -> usize
    requires own { own < layout.now.external }
    requires from { from < layout.now.sector }
    requires long { length bytes.now ≡ layout.now.external * layout.now.sector }
    requires some { 0 < length piece.old }
    ensures some { 0 < result }
    ensures fits { result ≤ length piece.old }
    ensures inside { from + result ≤ layout.now.sector }
    ensures put { piece.new ≡ changed_front (block_byte layout.now bytes.now (Some own)) from result piece.old }
{
    let size = (u64::from(layout.sector) - from).min(piece.len() as u64) as usize;
    let first = own as usize * layout.sector as usize + from as usize;
    piece[..size].copy_from_slice(&bytes[first..first + size]);
    size
}

/// Puts the bytes of a sector into a piece of its block that begins at byte `from`, or passes over those behind the sector.
/// Returns how many bytes are done.
fn put_block(layout: &Layout, own: u32, from: u64, bytes: &[u8], piece: &mut [u8]) -> usize
    requires layout { IsLayout layout.now }
    requires own { own < layout.now.external }
    requires from { from < layout.now.inner }
    requires long { length bytes.now ≡ layout.now.external * layout.now.sector }
    requires some { 0 < length piece.old }
    ensures some { 0 < result }
    ensures fits { result ≤ length piece.old }
    ensures inside { from + result ≤ layout.now.inner }
    ensures put { piece.new ≡ changed_front (block_byte layout.now bytes.now (Some own)) from result piece.old }
{
    if from < u64::from(layout.sector) {
        return put_sector(layout, own, from, bytes, piece);
    }
    (u64::from(layout.inner) - from).min(piece.len() as u64) as usize
}

/// Puts a map entry's bytes from byte `from` on into a piece of the map that begins there. Returns how many bytes are done.
fn put_word(word: &[u8], from: usize, piece: &mut [u8]) -> usize
    requires from { from < length word.now }
    requires some { 0 < length piece.old }
    ensures some { 0 < result }
    ensures fits { result ≤ length piece.old }
    ensures inside { from + result ≤ length word.now }
    ensures put { piece.new ≡ changed_front (λ k _. slice_index word.now k) from result piece.old }
{
    let size = (word.len() - from).min(piece.len());
    piece[..size].copy_from_slice(&word[from..from + size]);
    size
}

impl ArenaOwners {
    /// Makes the table of an arena. It takes four bytes for each block, and fails only if memory runs out.
    pub(crate) fn of(alloc: Global, arena: ArenaAt) -> Result<ArenaOwners, AllocError>
        requires { HasBlocks arena }
        ensures arena { IfOk result (λ a. link_of a ≡ arena) }
        ensures owned { IfOk result IsOwned }
    {
        let ArenaAt { at, opened } = arena;
        let owners = owners_of(alloc, &opened)?;
        Ok(ArenaOwners { at, opened, owners })
    }

    /// Returns the number of the arena's first byte in the namespace.
    pub(crate) fn start(&self) -> u64
        requires { IsOwned self.now }
        ensures { result ≡ 8 * self.now.at }
    {
        8 * self.at
    }

    /// Returns the arena's size in bytes.
    pub(crate) fn size(&self) -> u64
        ensures { result ≡ self.now.opened.info.layout.size }
    {
        self.opened.info.layout.size
    }

    /// Returns how many bytes the arena's sectors have together.
    pub(crate) fn bytes(&self) -> usize
        ensures { result ≡ arena_bytes self.now.opened }
    {
        let layout = &self.opened.info.layout;
        layout.external as usize * layout.sector as usize
    }

    /// Returns the sector of a block, if it has one.
    fn owner(&self, block: u64) -> Option<u32>
        requires { IsOwned self.now }
        ensures { result ≡ owner_of self.now.opened block }
    {
        let owners = self.owners.as_slice();
        if block >= owners.len() as u64 {
            return None;
        }
        let own = owners[block as usize];
        if own == NONE {
            return None;
        }
        Some(own)
    }

    /// Puts the bytes of a sector into a piece of the data area that begins at byte `at`, up to the end of the block, or passes
    /// over those of no sector. Returns how many bytes are done.
    fn put_data(&self, at: u64, bytes: &[u8], piece: &mut [u8]) -> usize
        requires owned { IsOwned self.now }
        requires inside { self.now.opened.info.layout.data_off + at < self.now.opened.info.layout.map_off }
        requires long { length bytes.now ≡ arena_bytes self.now.opened }
        requires some { 0 < length piece.old }
        ensures some { 0 < result }
        ensures fits { result ≤ length piece.old }
        ensures inside { self.now.opened.info.layout.data_off + at + result ≤ self.now.opened.info.layout.map_off }
        ensures put { piece.new ≡ changed_front (data_byte self.now.opened bytes.now) at result piece.old }
    {
        let layout = &self.opened.info.layout;
        let inner = u64::from(layout.inner);
        let from = at % inner;
        match self.owner(at / inner) {
            Some(own) => put_block(layout, own, from, bytes, piece),
            None => {
                let rest = layout.map_off - layout.data_off - at;
                (inner - from).min(rest).min(piece.len() as u64) as usize
            }
        }
    }

    /// Puts the bytes of a sector's map entry into a piece of the map that begins at byte `at`, or passes over those behind the
    /// map. Returns how many bytes are done.
    fn put_map(&self, at: u64, piece: &mut [u8]) -> usize
        requires owned { IsOwned self.now }
        requires inside { self.now.opened.info.layout.map_off + at < self.now.opened.info.layout.flog_off }
        requires some { 0 < length piece.old }
        ensures some { 0 < result }
        ensures fits { result ≤ length piece.old }
        ensures inside { self.now.opened.info.layout.map_off + at + result ≤ self.now.opened.info.layout.flog_off }
        ensures put { piece.new ≡ changed_front (map_byte self.now.opened) at result piece.old }
    {
        let layout = &self.opened.info.layout;
        let own = at / ENTRY;
        if own < u64::from(layout.external) {
            let word = self.opened.entries.as_slice()[own as usize];
            let block = entry(word, own as u32).block;
            return put_word(&normal(block).to_le_bytes(), (at % ENTRY) as usize, piece);
        }
        (layout.flog_off - layout.map_off - at).min(piece.len() as u64) as usize
    }

    /// Puts the bytes of the arena's sectors into a piece that begins at byte `at` of the arena, up to the end of a block, a map
    /// entry or an area. Info blocks and the log stay. Returns how many bytes are done.
    pub(crate) fn put(&self, at: u64, bytes: &[u8], piece: &mut [u8]) -> usize
        requires owned { IsOwned self.now }
        requires inside { at < self.now.opened.info.layout.size }
        requires long { length bytes.now ≡ arena_bytes self.now.opened }
        requires some { 0 < length piece.old }
        ensures some { 0 < result }
        ensures fits { result ≤ length piece.old }
        ensures inside { at + result ≤ self.now.opened.info.layout.size }
        ensures put { piece.new ≡ changed_front (arena_byte self.now.opened bytes.now) at result piece.old }
    {
        let layout = &self.opened.info.layout;
        if at < layout.data_off {
            return (layout.data_off - at).min(piece.len() as u64) as usize;
        }
        if at < layout.map_off {
            return self.put_data(at - layout.data_off, bytes, piece);
        }
        if at < layout.flog_off {
            return self.put_map(at - layout.map_off, piece);
        }
        (layout.size - at).min(piece.len() as u64) as usize
    }

    /// Returns whether each block of these bytes of the data area has a sector.
    fn are_owned(&self, from: u64, count: u64) -> bool
        requires owned { IsOwned self.now }
        requires inside { from + count ≤ self.now.opened.info.layout.map_off }
        ensures { IsTrue result → (k : ℕ) → k < count → owner_of self.now.opened ((from + k) / self.now.opened.info.layout.inner) ≢ None }
    {
        let inner = u64::from(self.opened.info.layout.inner);
        let mut done = 0;
        while done < count {
            let at = from + done;
            if self.owner(at / inner).is_none() {
                return false;
            }
            done += inner - at % inner;
        }
        true
    }

    /// Returns whether all of these bytes of the arena are sectors' bytes, so that their old values don't matter. Where sectors
    /// don't fill their blocks it says no.
    pub(crate) fn covers(&self, at: u64, count: u64) -> bool
        requires owned { IsOwned self.now }
        requires fits { at + count < 2 ^ 64 }
        ensures inside { IsTrue result → at + count ≤ self.now.opened.info.layout.size }
        ensures covered { IsTrue result → (bytes : List ℕ) → IsFree (arena_byte self.now.opened bytes) at count }
    {
        let layout = &self.opened.info.layout;
        if layout.sector < layout.inner {
            return false;
        }
        if layout.map_off < at + count {
            return false;
        }
        layout.data_off <= at && self.are_owned(at - layout.data_off, count)
    }
}
