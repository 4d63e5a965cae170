//! The runs of bytes that a write of one sector puts into a namespace.
ghost use Rattle.std.specs.Prelude.{◌≡◌, ◌+◌, ◌*◌, ◌^◌, ◌<◌, ◌≤◌, ◌++◌, IfOk, length};
ghost use Rattle.cut_words.specs.WordBytes.{bytes_of};
ghost use Rattle.flog.specs.Group.{words_of_half};
ghost use Rattle.namespace_bytes.specs.SectorPut.{HasBlocks};
ghost use Rattle.shell_sectors.specs.LoneRuns.{CanWrite, half_next, half_run, lane_group, lone_runs, value_run};

use flog::{Group, Half, half_words, next_half};
use map_table::entry;
use namespace_bytes::Run;
use namespace_words::{ArenaRead, entry_run};
use nvd_words::Items;
use std::alloc::{AllocError, Global};

/// Returns the current half of the lane that writes.
fn lane_group(arena: &ArenaRead) -> Group
    requires { HasBlocks arena.now }
    ensures group { result ≡ lane_group arena.now }
    ensures writes { CanWrite arena.now.opened.info.layout.internal result }
{
    arena.parts().groups.as_slice()[0]
}

/// Returns the log's half for the move: the sector gets the lane's free block.
fn half_next(arena: &ArenaRead, own: u32) -> Half
    requires arena { HasBlocks arena.now }
    requires own { own < arena.now.opened.info.layout.external }
    ensures half { result ≡ half_next arena.now own }
    ensures old { result.old < 2 ^ 30 }
    ensures new { result.new < 2 ^ 30 }
{
    let group = lane_group(arena);
    let found = entry(arena.parts().entries.as_slice()[own as usize], own);
    next_half(&group, own, found.block, group.half.old)
}

/// Returns the bytes of a half.
fn half_bytes(alloc: Global, half: &Half) -> Result<Vec<u8>, AllocError>
    requires old { half.now.old < 2 ^ 30 }
    requires new { half.now.new < 2 ^ 30 }
    ensures { IfOk result (λ bytes. bytes.items ≡ bytes_of (words_of_half half.now)) }
{
    let words = half_words(half);
    let mut bytes = Vec::new(alloc);
    bytes.extend_from_slice(&words[0].to_le_bytes())?;
    bytes.extend_from_slice(&words[1].to_le_bytes())?;
    Ok(bytes)
}

/// Returns the run of the log's half for the move, on the side that isn't current.
fn half_run(alloc: Global, arena: &ArenaRead, own: u32) -> Result<Run, AllocError>
    requires arena { HasBlocks arena.now }
    requires own { own < arena.now.opened.info.layout.external }
    ensures { IfOk result (λ run. run ≡ half_run arena.now own) }
{
    let half = half_next(arena, own);
    let bytes = half_bytes(alloc, &half)?;
    let place = 16 * u64::from(1 - lane_group(arena).side);
    Ok(Run {
        first: 8 * arena.first() + arena.parts().info.layout.flog_off + place,
        bytes: Items::from_vec(bytes),
    })
}

/// Returns the run of the value, in the lane's free block.
fn value_run(arena: &ArenaRead, value: Vec<u8>) -> Run
    requires arena { HasBlocks arena.now }
    ensures { result ≡ value_run arena.now value.items }
{
    let layout = &arena.parts().info.layout;
    let place = u64::from(lane_group(arena).half.old) * u64::from(layout.inner);
    Run {
        first: 8 * arena.first() + layout.data_off + place,
        bytes: Items::from_vec(value),
    }
}

/// Appends the runs of a write of sector `own` of an arena to others, as `lane_alone` writes it: the value into the free block
/// of lane 0, the log's other half, and the sector's map entry.
///
/// The value has as many bytes as the sector. It fails only if memory runs out.
pub(crate) fn push_write(
    alloc: Global,
    arena: &ArenaRead,
    own: u32,
    value: Vec<u8>,
    runs: &mut Vec<Run>,
) -> Result<(), AllocError>
    requires arena { HasBlocks arena.now }
    requires own { own < arena.now.opened.info.layout.external }
    ensures { IfOk result (λ _. runs.new.items ≡ runs.old.items ++ lone_runs arena.now own value.items) }
{
    let layout = &arena.parts().info.layout;
    let free = lane_group(arena).half.old;
    let half = half_run(alloc, arena, own)?;
    let entry = entry_run(alloc, arena.first(), layout, own, free)?;
    runs.push(value_run(arena, value))?;
    runs.push(half)?;
    runs.push(entry)?;
    Ok(())
}
