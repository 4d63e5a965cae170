//! The blocks that known entries and lanes name.
ghost use Rattle.std.specs.Prelude.{◌≡◌, ◌∷◌, [], ◌+◌, ◌/◌, ◌^◌, ◌<◌, ◌≤◌, length, IfOk};
ghost use Rattle.arena_layout.specs.Layout.{IsLayout};
ghost use Rattle.map_table.specs.Blocks.{IsCounted};
ghost use Rattle.arena_open.specs.Reading.{free_of};
ghost use Rattle.arena_check.specs.Check.{in_arena};
ghost use Rattle.arena_rescue.specs.Rescue.{known_blocks, named_blocks};
ghost use Rattle.arena_rescue.specs.Counting.{IsCountOf};

use crate::bad::is_known;
use arena_check::BadWords;
use arena_layout::Layout;
use flog::Group;
use map_table::{Counts, entry};
use std::alloc::{AllocError, Global};

/// Counts a block if it exists.
fn count_block(counts: &mut Counts, block: u32)
    ensures sized { length counts.new ≡ length counts.old }
    ensures counted { IsCounted (length counts.old) counts.old counts.new (block ∷ []) }
{
    if (block as usize) < counts.len() {
        counts.add(block as usize);
    }
}

/// Counts the blocks of the entries whose map word isn't bad.
fn count_known<B: BadWords>(layout: &Layout, bad: &B, at: u64, counts: &mut Counts, entries: &[u32])
    requires layout { IsLayout layout.now }
    requires inside { at + layout.now.size / 8 ≤ 2 ^ 61 }
    requires sectors { length entries.now ≡ layout.now.external }
    ensures sized { length counts.new ≡ length counts.old }
    ensures counted { IsCounted (length counts.old) counts.old counts.new (known_blocks layout.now (in_arena at (B.bad bad.now)) entries.now (length entries.now)) }
{
    for (sector, word) in entries.iter().enumerate() {
        let sector = sector as u32;
        if is_known(layout, bad, at, sector) {
            count_block(counts, entry(*word, sector).block);
        }
    }
}

/// Counts the lanes' free blocks.
fn count_free(counts: &mut Counts, groups: &[Group])
    ensures sized { length counts.new ≡ length counts.old }
    ensures counted { IsCounted (length counts.old) counts.old counts.new (free_of groups.now) }
{
    for group in groups {
        count_block(counts, group.half.old);
    }
}

/// Counts how often the known entries and the lanes name each block. It takes two bits for each
/// block, and fails only if memory runs out.
pub(crate) fn count_named<B: BadWords>(
    alloc: Global,
    layout: &Layout,
    bad: &B,
    at: u64,
    entries: &[u32],
    groups: &[Group],
) -> Result<Counts, AllocError>
    requires layout { IsLayout layout.now }
    requires inside { at + layout.now.size / 8 ≤ 2 ^ 61 }
    requires sectors { length entries.now ≡ layout.now.external }
    ensures sized { IfOk result (λ counts. length counts ≡ layout.now.internal) }
    ensures counted { IfOk result (λ counts. IsCountOf layout.now.internal counts (named_blocks layout.now (in_arena at (B.bad bad.now)) entries.now groups.now)) }
{
    let mut counts = Counts::new(alloc, layout.internal as usize)?;
    count_known(layout, bad, at, &mut counts, entries);
    count_free(&mut counts, groups);
    Ok(counts)
}
