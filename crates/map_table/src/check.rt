ghost use Rattle.std.specs.Prelude.{◌≡◌, ◌≢◌, ◌^◌, ◌≤◌, length, replicate, None, Ok, OnOk};
ghost use Rattle.nvd_words.specs.Checks.{Answers};
ghost use Rattle.map_table.specs.Blocks.{blocks_from, blocks_of, block_check, first_outside, least_twice, IsCounted, NamesEachOnce};

use crate::counts::Counts;
use crate::words::entry;
use std::alloc::Global;

/// Why a map and its lanes' free blocks don't name each block exactly once.
#[derive(Clone, Copy, Debug, PartialEq, Eq)]
pub enum BlockFault {
    /// A block number isn't below the number of blocks: the first such one in the map, else among
    /// the free blocks.
    Range { block: u32 },
    /// The least block that is named more than once.
    Twice { block: u32 },
    /// Entries and free blocks together (`had`) are fewer than the blocks (`said`).
    Count { said: u32, had: u64 },
    /// No memory for two bits for each block.
    OutOfMemory,
}

/// Counts the blocks of a map's entries. It returns the first one without a count, if there is one.
fn count_entries(counts: &mut Counts, map: &[u32]) -> Option<u32>
    requires { length map.now ≤ 2 ^ 32 }
    ensures sized { length counts.new ≡ length counts.old }
    ensures outside { result ≡ first_outside (length counts.old) (blocks_from 0 map.now) }
    ensures counted { result ≡ None → IsCounted (length counts.old) counts.old counts.new (blocks_from 0 map.now) }
{
    for (sector, word) in map.iter().enumerate() {
        let block = entry(*word, sector as u32).block;
        if block as usize >= counts.len() {
            return Some(block);
        }
        counts.add(block as usize);
    }
    None
}

/// Counts free blocks. It returns the first one without a count, if there is one.
fn count_free(counts: &mut Counts, free: &[u32]) -> Option<u32>
    ensures sized { length counts.new ≡ length counts.old }
    ensures outside { result ≡ first_outside (length counts.old) free.now }
    ensures counted { result ≡ None → IsCounted (length counts.old) counts.old counts.new free.now }
{
    for block in free {
        if *block as usize >= counts.len() {
            return Some(*block);
        }
        counts.add(*block as usize);
    }
    None
}

/// Counts the blocks of a map's entries, then the free ones. It returns the first one without a
/// count, if there is one.
fn count_all(counts: &mut Counts, map: &[u32], free: &[u32]) -> Option<u32>
    requires { length map.now ≤ 2 ^ 32 }
    ensures sized { length counts.new ≡ length counts.old }
    ensures outside { result ≡ first_outside (length counts.old) (blocks_of map.now free.now) }
    ensures counted { result ≡ None → IsCounted (length counts.old) counts.old counts.new (blocks_of map.now free.now) }
{
    match count_entries(counts, map) {
        Some(block) => Some(block),
        None => count_free(counts, free),
    }
}

/// Makes the check with counts that are all zero.
fn check_counted(
    counts: &mut Counts,
    map: &[u32],
    free: &[u32],
    internal: u32,
) -> Result<(), BlockFault>
    requires map_len { length map.now ≤ 2 ^ 32 }
    requires zeros { counts.old ≡ replicate internal 0 }
    ensures { result ≡ block_check internal (blocks_of map.now free.now) }
{
    if let Some(block) = count_all(counts, map, free) {
        return Err(BlockFault::Range { block });
    }
    if let Some(block) = counts.least_twice() {
        return Err(BlockFault::Twice {
            block: block as u32,
        });
    }
    let had = map.len() as u64 + free.len() as u64;
    if had < u64::from(internal) {
        return Err(BlockFault::Count {
            said: internal,
            had,
        });
    }
    Ok(())
}

/// Allocates the counts and makes the check.
fn check_in(alloc: Global, map: &[u32], free: &[u32], internal: u32) -> Result<(), BlockFault>
    requires { length map.now ≤ 2 ^ 32 }
    ensures { Answers BlockFault.OutOfMemory result (block_check internal (blocks_of map.now free.now)) }
{
    match Counts::new(alloc, internal as usize) {
        Ok(mut counts) => check_counted(&mut counts, map, free, internal),
        Err(_) => Err(BlockFault::OutOfMemory),
    }
}

/// Checks that the entries of a map and the lanes' free blocks name each block below `internal`
/// exactly once.
///
/// `map` has the entry of sector i at i. The call refuses with the first of Range, Twice and Count
/// that applies; `OutOfMemory` may replace any result. It takes two bits for each block and one
/// pass over each list.
///
/// The map may have at most 2^32 entries.
pub fn check_blocks(
    alloc: Global,
    map: &[u32],
    free: &[u32],
    internal: u32,
) -> Result<(), BlockFault>
    requires { length map.now ≤ 2 ^ 32 }
    ensures answer { Answers BlockFault.OutOfMemory result (block_check internal (blocks_of map.now free.now)) }
    ensures sound { OnOk result (NamesEachOnce internal (blocks_of map.now free.now)) }
    ensures complete { NamesEachOnce internal (blocks_of map.now free.now) → result ≢ Err BlockFault.OutOfMemory → result ≡ Ok tt }
{
    check_in(alloc, map, free, internal)
}
