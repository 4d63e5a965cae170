//! Sectors with bad words.
ghost use Rattle.std.specs.Prelude.{◌≡◌, ◌+◌, ◌/◌, ◌^◌, ◌<◌, ◌≤◌, length, map, All, IfOk};
ghost use Rattle.arena_layout.specs.Layout.{IsLayout};
ghost use Rattle.map_table.specs.Blocks.{blocks_from};
ghost use Rattle.arena_check.specs.Check.{has_bytes, in_arena, has_bad_word, is_bad_data, data_findings};

use crate::bad::BadWords;
use crate::finding::Finding;
use arena_layout::Layout;
use map_table::{Kind, MapEntry, entry};
use nvd_words::Items;
use std::alloc::{AllocError, Global};

/// Returns whether a sector with an entry of this kind has its block's bytes.
fn has_bytes(kind: Kind) -> bool
    ensures { result ≡ has_bytes kind }
{
    match kind {
        Kind::Initial => true,
        Kind::Normal => true,
        Kind::Zero => false,
        Kind::Bad => false,
    }
}

/// Returns whether one of the words of a block that a sector has is bad.
fn has_bad_word<B: BadWords>(layout: &Layout, bad: &B, at: u64, block: u32) -> bool
    requires layout { IsLayout layout.now }
    requires inside { at + layout.now.size / 8 ≤ 2 ^ 61 }
    requires block { block < layout.now.internal }
    ensures { result ≡ has_bad_word layout.now (in_arena at (B.bad bad.now)) block }
{
    let first = layout.data_off / 8 + u64::from(block) * (u64::from(layout.inner) / 8);
    bad.any_bad(at + first, u64::from(layout.sector) / 8)
}

/// Returns whether a word of a sector's bytes is bad, by the sector's entry. One that reads as zeros
/// or as bad has no bytes.
///
/// `at` is the arena's first word in the namespace, of whose words `bad` speaks.
pub fn is_bad_data<B: BadWords>(layout: &Layout, bad: &B, at: u64, entry: MapEntry) -> bool
    requires layout { IsLayout layout.now }
    requires inside { at + layout.now.size / 8 ≤ 2 ^ 61 }
    requires block { entry.block < layout.now.internal }
    ensures { result ≡ is_bad_data layout.now (in_arena at (B.bad bad.now)) entry }
{
    has_bytes(entry.kind) && has_bad_word(layout, bad, at, entry.block)
}

/// Lists the sectors with bad words, by their entries.
fn list_sectors<B: BadWords>(
    alloc: Global,
    layout: &Layout,
    bad: &B,
    at: u64,
    entries: &[u32],
) -> Result<Items<Finding>, AllocError>
    requires layout { IsLayout layout.now }
    requires inside { at + layout.now.size / 8 ≤ 2 ^ 61 }
    requires sectors { length entries.now ≡ layout.now.external }
    requires blocks { All (λ block. block < layout.now.internal) (blocks_from 0 entries.now) }
    ensures { IfOk result (λ findings. findings ≡ data_findings layout.now (in_arena at (B.bad bad.now)) entries.now) }
{
    let mut findings = Items::new(alloc);
    for (sector, word) in entries.iter().enumerate() {
        let sector = sector as u32;
        if is_bad_data(layout, bad, at, entry(*word, sector)) {
            findings.push(Finding::BadData { sector })?;
        }
    }
    Ok(findings)
}

/// Returns BadData for each sector whose bytes have a bad word, rising.
///
/// The pending moves are made in `entries`, and all blocks that they name exist. `at` is the arena's
/// first word in the namespace, of whose words `bad` speaks. If no word of the data area is bad, it
/// makes no pass over the sectors. It fails only if memory runs out.
pub fn data_findings<B: BadWords>(
    alloc: Global,
    layout: &Layout,
    bad: &B,
    at: u64,
    entries: &[u32],
) -> Result<Items<Finding>, AllocError>
    requires layout { IsLayout layout.now }
    requires inside { at + layout.now.size / 8 ≤ 2 ^ 61 }
    requires sectors { length entries.now ≡ layout.now.external }
    requires blocks { All (λ block. block < layout.now.internal) (blocks_from 0 entries.now) }
    ensures { IfOk result (λ findings. findings ≡ data_findings layout.now (in_arena at (B.bad bad.now)) entries.now) }
{
    let count = u64::from(layout.internal) * (u64::from(layout.inner) / 8);
    if !bad.any_bad(at + layout.data_off / 8, count) {
        return Ok(Items::new(alloc));
    }
    list_sectors(alloc, layout, bad, at, entries)
}
