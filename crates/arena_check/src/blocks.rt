//! The blocks that a map and the lanes name.
ghost use Rattle.std.specs.Prelude.{◌≡◌, ◌∷◌, [], ◌++◌, ◌^◌, ◌<◌, ◌≤◌, length, replicate, IfOk, OnOk};
ghost use Rattle.map_table.specs.Blocks.{blocks_from, blocks_of, IsCounted};
ghost use Rattle.arena_open.specs.Reading.{free_of};
ghost use Rattle.arena_check.specs.Check.{range_findings, block_findings};
ghost use Rattle.arena_check.specs.Counting.{often_in, never_in};

use crate::finding::Finding;
use flog::Group;
use map_table::{Counts, entry};
use nvd_words::Items;
use std::alloc::{AllocError, Global};

/// Counts a block, or lists it if it doesn't exist.
fn count_block(
    counts: &mut Counts,
    findings: &mut Items<Finding>,
    block: u32,
) -> Result<(), AllocError>
    ensures sized { length counts.new ≡ length counts.old }
    ensures counted { OnOk result (IsCounted (length counts.old) counts.old counts.new (block ∷ [])) }
    ensures found { OnOk result (findings.new ≡ findings.old ++ range_findings (length counts.old) (block ∷ [])) }
{
    if block as usize >= counts.len() {
        findings.push(Finding::Range { block })?;
    } else {
        counts.add(block as usize);
    }
    Ok(())
}

/// Counts the blocks of a map's entries.
fn count_entries(
    counts: &mut Counts,
    findings: &mut Items<Finding>,
    entries: &[u32],
) -> Result<(), AllocError>
    requires { length entries.now ≤ 2 ^ 32 }
    ensures sized { length counts.new ≡ length counts.old }
    ensures counted { OnOk result (IsCounted (length counts.old) counts.old counts.new (blocks_from 0 entries.now)) }
    ensures found { OnOk result (findings.new ≡ findings.old ++ range_findings (length counts.old) (blocks_from 0 entries.now)) }
{
    for (sector, word) in entries.iter().enumerate() {
        count_block(counts, findings, entry(*word, sector as u32).block)?;
    }
    Ok(())
}

/// Counts the lanes' free blocks.
fn count_free(
    counts: &mut Counts,
    findings: &mut Items<Finding>,
    groups: &[Group],
) -> Result<(), AllocError>
    ensures sized { length counts.new ≡ length counts.old }
    ensures counted { OnOk result (IsCounted (length counts.old) counts.old counts.new (free_of groups.now)) }
    ensures found { OnOk result (findings.new ≡ findings.old ++ range_findings (length counts.old) (free_of groups.now)) }
{
    for group in groups {
        count_block(counts, findings, group.half.old)?;
    }
    Ok(())
}

/// Lists each block that was counted more than once.
fn list_twice(counts: &Counts, findings: &mut Items<Finding>) -> Result<(), AllocError>
    requires { length counts.now < 2 ^ 32 }
    ensures { OnOk result (findings.new ≡ findings.old ++ often_in counts.now (length counts.now)) }
{
    for block in 0..counts.len() as u32 {
        if counts.times(block as usize) > 1 {
            findings.push(Finding::Twice { block })?;
        }
    }
    Ok(())
}

/// Lists each block that wasn't counted.
fn list_missing(counts: &Counts, findings: &mut Items<Finding>) -> Result<(), AllocError>
    requires { length counts.now < 2 ^ 32 }
    ensures { OnOk result (findings.new ≡ findings.old ++ never_in counts.now (length counts.now)) }
{
    for block in 0..counts.len() as u32 {
        if counts.times(block as usize) == 0 {
            findings.push(Finding::Missing { block })?;
        }
    }
    Ok(())
}

/// Returns the findings of the blocks that a map and the lanes name: Range for each naming of a
/// block that doesn't exist, by place, Twice for each block that is named more than once, and
/// Missing for each that isn't named, rising.
///
/// The pending moves are made in `entries`; `groups` are the lanes' current halves. It takes two
/// bits for each block, and one pass over each list. It fails only if memory runs out.
pub fn block_findings(
    alloc: Global,
    internal: u32,
    entries: &[u32],
    groups: &[Group],
) -> Result<Items<Finding>, AllocError>
    requires { length entries.now ≤ 2 ^ 32 }
    ensures { IfOk result (λ findings. findings ≡ block_findings internal (blocks_of entries.now (free_of groups.now))) }
{
    let mut findings = Items::new(alloc);
    let mut counts = Counts::new(alloc, internal as usize)?;
    count_entries(&mut counts, &mut findings, entries)?;
    count_free(&mut counts, &mut findings, groups)?;
    list_twice(&counts, &mut findings)?;
    list_missing(&counts, &mut findings)?;
    Ok(findings)
}
