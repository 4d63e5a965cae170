//! The map.
ghost use Rattle.std.specs.Prelude.{◌≡◌, ◌+◌, ◌/◌, ◌^◌, ◌<◌, ◌≤◌, [], length, All, IfOk};
ghost use Rattle.arena_layout.specs.Layout.{IsLayout};
ghost use Rattle.map_table.specs.Blocks.{blocks_from};
ghost use Rattle.arena_open.specs.Halves.{AreInRange};
ghost use Rattle.arena_check.specs.Check.{bad_sectors, data_findings, in_arena, map_findings, recovered_map};
ghost use Rattle.arena_repair.specs.Repair.{bad_of, entries_repair, if_changed, marked_map};

use arena_check::{BadWords, Finding, block_findings, data_findings, is_bad_data};
use arena_layout::Layout;
use arena_open::{make_moves, pending_moves};
use flog::{Group, Half};
use map_table::entry;
use nvd_words::Items;
use std::alloc::{AllocError, Global};

/// What a check found in a map.
#[derive(Drop)]
pub struct MapCheck {
    pub findings: Items<Finding>,
    /// All entries after a repair; None if it leaves the map.
    pub repair: Option<Items<u32>>,
}

/// Returns the entry of a block that can't be read: Error alone.
fn bad_entry(block: u32) -> u32
    requires { block < 2 ^ 30 }
    ensures { result ≡ bad_of block }
{
    (1 << 30) + block
}

/// Marks the entries of sectors with bad words.
fn mark<B: BadWords>(layout: &Layout, bad: &B, at: u64, entries: &mut [u32])
    requires layout { IsLayout layout.now }
    requires inside { at + layout.now.size / 8 ≤ 2 ^ 61 }
    requires sectors { length entries.old ≡ layout.now.external }
    requires blocks { All (λ block. block < layout.now.internal) (blocks_from 0 entries.old) }
    ensures { entries.new ≡ marked_map layout.now (in_arena at (B.bad bad.now)) entries.old }
{
    for sector in 0..entries.len() as u32 {
        let found = entry(entries[sector as usize], sector);
        if is_bad_data(layout, bad, at, found) {
            entries[sector as usize] = bad_entry(found.block);
        }
    }
}

/// Returns the entries if there were pending moves.
fn if_moved(moves: &[Half], entries: Vec<u32>) -> Option<Items<u32>>
    ensures { result ≡ if_changed moves.now [] entries.items }
{
    if moves.is_empty() {
        return None;
    }
    Some(Items::from_vec(entries))
}

/// Returns what is found in a map whose blocks have no finding, and its entries after a repair.
/// `moves` are the pending moves that were made in it.
fn check_sound<B: BadWords>(
    alloc: Global,
    layout: &Layout,
    bad: &B,
    at: u64,
    moves: &[Half],
    mut entries: Vec<u32>,
) -> Result<MapCheck, AllocError>
    requires layout { IsLayout layout.now }
    requires inside { at + layout.now.size / 8 ≤ 2 ^ 61 }
    requires sectors { length entries.items ≡ layout.now.external }
    requires blocks { All (λ block. block < layout.now.internal) (blocks_from 0 entries.items) }
    ensures findings { IfOk result (λ check. check.findings ≡ data_findings layout.now (in_arena at (B.bad bad.now)) entries.items) }
    ensures repair { IfOk result (λ check. check.repair ≡ if_changed moves.now (bad_sectors layout.now (in_arena at (B.bad bad.now)) entries.items) (marked_map layout.now (in_arena at (B.bad bad.now)) entries.items)) }
{
    let findings = data_findings(alloc, layout, bad, at, &entries)?;
    if findings.len() == 0 {
        return Ok(MapCheck {
            findings,
            repair: if_moved(moves, entries),
        });
    }
    mark(layout, bad, at, &mut entries);
    Ok(MapCheck {
        findings,
        repair: Some(Items::from_vec(entries)),
    })
}

/// Returns the findings of an arena's map: Range for each naming of a block that doesn't exist, by
/// place, Twice for each block that is named more than once, and Missing for each that isn't named;
/// if there are none of these, BadData for each sector whose bytes have a bad word. And all entries
/// after a repair, if the blocks have no finding, and a move is pending or a sector has bad words.
///
/// `groups` are the lanes' current halves, in order. `entries` is the map as read, an entry for
/// each sector; the pending moves are made in it first. `at` is the arena's first word in the
/// namespace, of whose words `bad` speaks. It takes two bits for each block, and time in proportion
/// to the blocks. It fails only if memory runs out.
pub fn check_map<B: BadWords>(
    alloc: Global,
    layout: &Layout,
    bad: &B,
    at: u64,
    groups: &[Group],
    mut entries: Vec<u32>,
) -> Result<MapCheck, AllocError>
    requires layout { IsLayout layout.now }
    requires inside { at + layout.now.size / 8 ≤ 2 ^ 61 }
    requires sectors { length entries.items ≡ layout.now.external }
    requires in_range { AreInRange (length entries.items) groups.now }
    ensures findings { IfOk result (λ check. check.findings ≡ map_findings layout.now (in_arena at (B.bad bad.now)) (recovered_map entries.items groups.now) groups.now) }
    ensures repair { IfOk result (λ check. check.repair ≡ entries_repair layout.now (in_arena at (B.bad bad.now)) entries.items groups.now) }
{
    let moves = pending_moves(alloc, &entries, groups)?;
    make_moves(&mut entries, moves.as_slice());
    let findings = block_findings(alloc, layout.internal, &entries, groups)?;
    if findings.len() > 0 {
        return Ok(MapCheck {
            findings,
            repair: None,
        });
    }
    check_sound(alloc, layout, bad, at, moves.as_slice(), entries)
}
