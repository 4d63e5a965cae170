//! The map.
ghost use Rattle.std.specs.Prelude.{◌≡◌, ◌+◌, ◌/◌, ◌^◌, ◌<◌, ◌≤◌, length, All, IfOk, OnOk};
ghost use Rattle.arena_layout.specs.Layout.{IsLayout};
ghost use Rattle.map_table.specs.Entry.{entry_of};
ghost use Rattle.map_table.specs.Blocks.{blocks_from};
ghost use Rattle.arena_open.specs.Halves.{AreInRange};
ghost use Rattle.arena_open.specs.Reading.{moves_of};
ghost use Rattle.arena_check.specs.Check.{in_arena, recovered_map};
ghost use Rattle.arena_rescue.specs.Rescue.{is_marked, loss_by, losses_of, rescued_map};
ghost use Rattle.arena_rescue.specs.Counting.{counted_twice, losses_to, rescued_to};

use crate::bad::{NoneBad, are_sound, is_known};
use crate::loss::Loss;
use crate::named::count_named;
use arena_check::{BadWords, is_bad_data};
use arena_layout::Layout;
use arena_open::{make_moves, pending_moves};
use flog::{Group, Half};
use map_table::{Counts, Kind, entry, zero};
use nvd_words::Items;
use std::alloc::{AllocError, Global};

/// What can be read of an arena's sectors.
#[derive(Drop)]
pub struct MapRescue {
    /// The pending moves that were made, in the order of lanes. A sector whose map word is bad is
    /// lost all the same.
    pub moves: Items<Half>,
    /// The sectors that are lost, rising.
    pub losses: Items<Loss>,
    /// The entry with which each sector is read: its own, or that of a sector of zeros if it is
    /// lost.
    pub entries: Items<u32>,
}

/// Returns whether an entry of this kind says that its sector is bad.
fn is_marked(kind: Kind) -> bool
    ensures { result ≡ is_marked kind }
{
    match kind {
        Kind::Bad => true,
        Kind::Initial => false,
        Kind::Zero => false,
        Kind::Normal => false,
    }
}

/// Returns why a sector is lost, if it is, by its entry and by how often each block is named.
#[tactic(auto, unfolding(crate::specs::Rescue::loss_by))]
fn loss_of<B: BadWords>(
    layout: &Layout,
    bad: &B,
    at: u64,
    counts: &Counts,
    sector: u32,
    word: u32,
) -> Option<Loss>
    requires layout { IsLayout layout.now }
    requires inside { at + layout.now.size / 8 ≤ 2 ^ 61 }
    requires sector { sector < layout.now.external }
    requires counts { length counts.now ≡ layout.now.internal }
    ensures { result ≡ loss_by layout.now (in_arena at (B.bad bad.now)) (counted_twice counts.now) sector (entry_of word sector) }
{
    let found = entry(word, sector);
    let block = found.block;
    if !is_known(layout, bad, at, sector) {
        return Some(Loss::BadMap { sector });
    }
    if block >= layout.internal {
        return Some(Loss::Range { sector, block });
    }
    if counts.times(block as usize) > 1 {
        return Some(Loss::Twice { sector, block });
    }
    if is_marked(found.kind) {
        return Some(Loss::Marked { sector });
    }
    if is_bad_data(layout, bad, at, found) {
        return Some(Loss::BadData { sector });
    }
    None
}

/// Lists the lost sectors, by how often each block is named, and gives each of them the entry of a
/// sector of zeros.
fn take_lost<B: BadWords>(
    alloc: Global,
    layout: &Layout,
    bad: &B,
    at: u64,
    counts: &Counts,
    entries: &mut [u32],
) -> Result<Items<Loss>, AllocError>
    requires layout { IsLayout layout.now }
    requires inside { at + layout.now.size / 8 ≤ 2 ^ 61 }
    requires sectors { length entries.old ≡ layout.now.external }
    requires counts { length counts.now ≡ layout.now.internal }
    ensures sized { length entries.new ≡ length entries.old }
    ensures losses { IfOk result (λ losses. losses ≡ losses_to layout.now (in_arena at (B.bad bad.now)) (counted_twice counts.now) entries.old (length entries.old)) }
    ensures entries { OnOk result (entries.new ≡ rescued_to layout.now (in_arena at (B.bad bad.now)) (counted_twice counts.now) entries.old) }
{
    let mut losses = Items::new(alloc);
    for sector in 0..entries.len() as u32 {
        let word = entries[sector as usize];
        if let Some(loss) = loss_of(layout, bad, at, counts, sector, word) {
            losses.push(loss)?;
            entries[sector as usize] = zero(0);
        }
    }
    Ok(losses)
}

/// Lists the lost sectors of a map whose moves are made, and gives each of them the entry of a
/// sector of zeros.
fn take_losses<B: BadWords>(
    alloc: Global,
    layout: &Layout,
    bad: &B,
    at: u64,
    groups: &[Group],
    entries: &mut [u32],
) -> Result<Items<Loss>, AllocError>
    requires layout { IsLayout layout.now }
    requires inside { at + layout.now.size / 8 ≤ 2 ^ 61 }
    requires sectors { length entries.old ≡ layout.now.external }
    ensures losses { IfOk result (λ losses. losses ≡ losses_of layout.now (in_arena at (B.bad bad.now)) entries.old groups.now) }
    ensures entries { OnOk result (entries.new ≡ rescued_map layout.now (in_arena at (B.bad bad.now)) entries.old groups.now) }
{
    let counts = count_named(alloc, layout, bad, at, entries, groups)?;
    take_lost(alloc, layout, bad, at, &counts, entries)
}

/// Lists the lost sectors as `take_losses` does. It doesn't look at single words if none of the map
/// and of the blocks is bad.
fn take_all_losses<B: BadWords>(
    alloc: Global,
    layout: &Layout,
    bad: &B,
    at: u64,
    groups: &[Group],
    entries: &mut [u32],
) -> Result<Items<Loss>, AllocError>
    requires layout { IsLayout layout.now }
    requires inside { at + layout.now.size / 8 ≤ 2 ^ 61 }
    requires sectors { length entries.old ≡ layout.now.external }
    ensures losses { IfOk result (λ losses. losses ≡ losses_of layout.now (in_arena at (B.bad bad.now)) entries.old groups.now) }
    ensures entries { OnOk result (entries.new ≡ rescued_map layout.now (in_arena at (B.bad bad.now)) entries.old groups.now) }
{
    if are_sound(layout, bad, at) {
        return take_losses(alloc, layout, &NoneBad, at, groups, entries);
    }
    take_losses(alloc, layout, bad, at, groups, entries)
}

/// Returns what can be read of an arena whose map or log is damaged: the pending moves, which are
/// made first, the sectors that are lost, and the entry with which each sector is read.
///
/// `groups` are the current halves of the lanes that count, in order; the caller leaves out those
/// whose group is refused or has a bad word. `entries` is the map as read, an entry for each
/// sector, also from bad words. `at` is the arena's first word in the namespace, of whose words
/// `bad` speaks. It takes two bits for each block and 12 bytes for each lost sector, and time in
/// proportion to the blocks. It fails only if memory runs out.
pub fn rescue_map<B: BadWords>(
    alloc: Global,
    layout: &Layout,
    bad: &B,
    at: u64,
    groups: &[Group],
    mut entries: Vec<u32>,
) -> Result<MapRescue, AllocError>
    requires layout { IsLayout layout.now }
    requires inside { at + layout.now.size / 8 ≤ 2 ^ 61 }
    requires sectors { length entries.items ≡ layout.now.external }
    requires in_range { AreInRange (length entries.items) groups.now }
    ensures moves { IfOk result (λ r. r.moves ≡ moves_of entries.items groups.now) }
    ensures losses { IfOk result (λ r. r.losses ≡ losses_of layout.now (in_arena at (B.bad bad.now)) (recovered_map entries.items groups.now) groups.now) }
    ensures entries { IfOk result (λ r. r.entries ≡ rescued_map layout.now (in_arena at (B.bad bad.now)) (recovered_map entries.items groups.now) groups.now) }
    ensures sectors { IfOk result (λ r. length r.entries ≡ layout.now.external) }
    ensures blocks { IfOk result (λ r. All (λ block. block < layout.now.internal) (blocks_from 0 r.entries)) }
{
    let moves = pending_moves(alloc, &entries, groups)?;
    make_moves(&mut entries, moves.as_slice());
    let losses = take_all_losses(alloc, layout, bad, at, groups, &mut entries)?;
    Ok(MapRescue {
        moves,
        losses,
        entries: Items::from_vec(entries),
    })
}
