//! Pending moves: finding them, applying them to the map, and the free blocks.
ghost use Rattle.std.specs.Prelude.{◌≡◌, ◌≢◌, ℕ, ◌+◌, ◌^◌, ◌<◌, ◌≤◌, length, All, IfOk, map};
ghost use Rattle.nvd_words.specs.Checks.{Answers};
ghost use Rattle.flog.specs.declared.half.Half.{Half};
ghost use Rattle.flog.specs.declared.group.Group.{Group};
ghost use Rattle.arena_open.specs.Reading.{free_of, is_pending, moved, moves_of, opened_with, on_map};
ghost use Rattle.map_table.specs.Blocks.{block_check, blocks_of};
ghost use Rattle.arena_open.specs.Halves.{AreInRange, AreMoves, IsInRange, IsMove};

use crate::opened::Opened;
use crate::refused::OpenRefused;
use arena_layout::Info;
use flog::{Group, Half};
use map_table::{BlockFault, check_blocks, entry, normal};
use nvd_words::Items;
use std::alloc::{AllocError, Global};

/// Returns whether a half makes a move that the map doesn't show yet.
fn is_pending(entries: &[u32], half: &Half) -> bool
    requires { IsInRange (length entries.now) half.now }
    ensures { result ≡ is_pending entries.now half.now }
{
    half.old != half.new && entry(entries[half.lba as usize], half.lba).block == half.old
}

/// Returns the pending moves in the order of lanes, all by the same map.
pub fn pending_moves(
    alloc: Global,
    entries: &[u32],
    groups: &[Group],
) -> Result<Items<Half>, AllocError>
    requires { AreInRange (length entries.now) groups.now }
    ensures { IfOk result (λ moves. moves ≡ moves_of entries.now groups.now) }
{
    let mut moves = Items::new(alloc);
    for group in groups {
        if is_pending(entries, &group.half) {
            moves.push(group.half)?;
        }
    }
    Ok(moves)
}

/// Returns the lanes' free blocks.
pub fn free_blocks(alloc: Global, groups: &[Group]) -> Result<Vec<u32>, AllocError>
    ensures { IfOk result (λ free. free.items ≡ free_of groups.now) }
{
    groups.iter().map(|group| group.half.old).collect(alloc)
}

/// Applies moves to a map, one after another.
pub fn make_moves(entries: &mut [u32], moves: &[Half])
    requires { AreMoves (length entries.old) moves.now }
    ensures { entries.new ≡ moved entries.old moves.now }
{
    for half in moves {
        entries[half.lba as usize] = normal(half.new);
    }
}

/// Checks that the blocks of a map and the free ones are each named once.
fn check_map(
    alloc: Global,
    entries: &[u32],
    groups: &[Group],
    internal: u32,
) -> Result<(), BlockFault>
    requires { length entries.now ≤ 2 ^ 32 }
    ensures { Answers BlockFault.OutOfMemory result (block_check internal (blocks_of entries.now (free_of groups.now))) }
{
    match free_blocks(alloc, groups) {
        Ok(free) => check_blocks(alloc, entries, &free, internal),
        Err(_) => Err(BlockFault::OutOfMemory),
    }
}

/// Decodes an arena from its parts, for callers that don't have all of its words in memory: its info
/// block, the current halves of its lanes, in order, and its map as read, an entry for each sector.
///
/// It finds the pending moves by the map as read, and applies them. It refuses with `Block` if then
/// the map and the free blocks don't name each block once; `OutOfMemory` may replace any result.
pub fn decode_arena(
    alloc: Global,
    info: Info,
    groups: Items<Group>,
    mut entries: Vec<u32>,
) -> Result<Opened, OpenRefused>
    requires few { length entries.items ≤ 2 ^ 30 }
    requires in_range { AreInRange (length entries.items) groups }
    ensures { Answers OpenRefused.OutOfMemory result (on_map info groups entries.items) }
{
    let Ok(moves) = pending_moves(alloc, &entries, groups.as_slice()) else {
        return Err(OpenRefused::OutOfMemory);
    };
    make_moves(&mut entries, moves.as_slice());
    match check_map(alloc, &entries, groups.as_slice(), info.layout.internal) {
        Ok(()) => Ok(Opened {
            info,
            groups,
            entries: Items::from_vec(entries),
            moves,
        }),
        Err(BlockFault::OutOfMemory) => Err(OpenRefused::OutOfMemory),
        Err(fault) => Err(OpenRefused::Block(fault)),
    }
}
