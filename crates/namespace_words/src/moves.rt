//! The runs of bytes that make the pending moves of arenas.
ghost use Rattle.std.specs.Prelude.{◌≡◌, ◌+◌, ◌^◌, ◌<◌, ◌≤◌, ◌++◌, IfOk};
ghost use Rattle.arena_layout.specs.Layout.{IsLayout};
ghost use Rattle.namespace_bytes.specs.Runs.{entry_run};
ghost use Rattle.namespace_bytes.specs.SectorPut.{AreSized, HasBlocks};
ghost use Rattle.namespace_words.specs.Moves.{link_runs, move_run, move_runs};

use crate::arena_read::ArenaRead;
use arena_layout::Layout;
use flog::Half;
use map_table::normal;
use namespace_bytes::Run;
use nvd_words::Items;
use std::alloc::{AllocError, Global};

/// Returns the run of bytes that gives sector `own` of the arena whose first word is `at` the normal map entry of a block.
///
/// The block must be below 2^30. It fails only if memory runs out.
pub fn entry_run(
    alloc: Global,
    at: u64,
    layout: &Layout,
    own: u32,
    block: u32,
) -> Result<Run, AllocError>
    requires layout { IsLayout layout.now }
    requires few { at ≤ 2 ^ 52 }
    requires block { block < 2 ^ 30 }
    ensures { IfOk result (λ run. run ≡ entry_run at layout.now own block) }
{
    let bytes = Vec::from_array(alloc, normal(block).to_le_bytes())?;
    Ok(Run {
        first: 8 * at + layout.map_off + 4 * u64::from(own),
        bytes: Items::from_vec(bytes),
    })
}

/// Returns the run of bytes that makes a move of an arena.
fn move_run(alloc: Global, arena: &ArenaRead, half: &Half) -> Result<Run, AllocError>
    requires arena { HasBlocks arena.now }
    requires block { half.now.new < 2 ^ 30 }
    ensures { IfOk result (λ run. run ≡ move_run arena.now half.now) }
{
    let layout = &arena.opened.info.layout;
    entry_run(alloc, arena.at, layout, half.lba, half.new)
}

/// Appends the runs of an arena's pending moves to others.
fn push_moves(alloc: Global, arena: &ArenaRead, runs: &mut Vec<Run>) -> Result<(), AllocError>
    requires { HasBlocks arena.now }
    ensures { IfOk result (λ _. runs.new.items ≡ runs.old.items ++ link_runs arena.now) }
{
    let opened = arena.parts();
    for half in opened.moves.as_slice() {
        let run = move_run(alloc, arena, half)?;
        runs.push(run)?;
    }
    Ok(())
}

/// Returns the runs of bytes that make the pending moves of arenas, in the order in which a driver makes them.
///
/// The arenas are all of a namespace, as `read_arenas_from` returned them. With these runs the namespace's bytes hold the same
/// arenas, and no move is pending (`HaveMoves` of `specs/Moves.antt`). It fails only if memory runs out.
pub fn move_runs(alloc: Global, arenas: &[ArenaRead]) -> Result<Vec<Run>, AllocError>
    requires { AreSized arenas.now }
    ensures { IfOk result (λ runs. runs.items ≡ move_runs arenas.now) }
{
    let mut runs = Vec::new(alloc);
    for arena in arenas {
        push_moves(alloc, arena, &mut runs)?;
    }
    Ok(runs)
}
