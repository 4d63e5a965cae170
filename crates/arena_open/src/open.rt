ghost use Rattle.std.specs.Prelude.{◌≡◌, ◌≢◌, ◌+◌, ◌*◌, ◌/◌, ◌^◌, ◌<◌, ◌≤◌, length, map, take, drop, is_ok, OnOk, IfOk};
ghost use Rattle.nvd_words.specs.Checks.{Answers};
ghost use Rattle.cut_words.specs.Fuses.{Makes, lasts};
ghost use Rattle.arena_layout.specs.Layout.{IsLayout};
ghost use Rattle.arena_open.specs.Halves.{AreMoves};
ghost use Rattle.arena_open.specs.Writes.{IsSettled, LiesInSpace, write_steps, written_over};
ghost use Rattle.arena_open.specs.Reading.{opening};
ghost use Rattle.arena_open.specs.Moves.{lane_of, move_writes, open_answer, opened_steps, shifted, state_if, IsOpenState, IsUntouched, OpensAgain, Recovers};

use crate::moves::decode_arena;
use crate::opened::{LaneState, Opened};
use crate::read::{read_first, read_lanes, read_map, read_words};
use crate::refused::OpenRefused;
use crate::state::ArenaState;
use arena_layout::Layout;
use cut_words::{Fuse, PowerCut, WordSpace, write_word};
use flog::{Group, Half};
use map_table::{normal, with_entry};
use nvd_words::Items;
use std::alloc::{AllocError, Global};
use uuid::Uuid;

/// Reads an arena whose first word is `at`: its info block, its lanes, and its map with the pending
/// moves applied. Nothing is stored.
///
/// The 4,096 bytes from word `at` on must lie in the space. The space must have fewer than 2^60
/// words, none of them pending. It refuses with the first of Info, Flog (with the least lane) and
/// Block that applies; `OutOfMemory` may replace any result.
pub fn read_arena<W: WordSpace>(
    alloc: Global,
    space: &W,
    at: u64,
    parent: &Uuid,
) -> Result<Opened, OpenRefused>
    requires inside { at + 512 ≤ length (W.words space.now).kept }
    requires small { length (W.words space.now).kept < 2 ^ 60 }
    requires settled { IsSettled (W.words space.now) }
    ensures { Answers OpenRefused.OutOfMemory result (opening (drop at (W.words space.now).kept) parent.now) }
{
    let info = match read_first(space, at, parent) {
        Ok(info) => info,
        Err(fault) => return Err(OpenRefused::Info(fault)),
    };
    let groups = read_lanes(alloc, space, at, &info.layout)?;
    let Ok(entries) = read_map(alloc, space, at, &info.layout) else {
        return Err(OpenRefused::OutOfMemory);
    };
    decode_arena(alloc, info, groups, entries)
}

/// Completes moves, one after another: in the space and in a copy of the arena's words, each map
/// word gets the normal entry of the new block. Each word is stored and flushed.
fn make_good<W: WordSpace>(
    space: &mut W,
    fuse: &mut Fuse,
    at: u64,
    layout: &Layout,
    words: &mut [u64],
    moves: &[Half],
) -> Result<(), PowerCut>
    requires layout { IsLayout layout.now }
    requires moves { AreMoves layout.now.external moves.now }
    requires copied { layout.now.size / 8 ≤ length words.old }
    requires space { LiesInSpace at (length words.old) (W.words space.old) }
    ensures made { Makes (W.words space.old) (W.words space.new) fuse.old fuse.new (write_steps (shifted at (move_writes layout.now words.old moves.now))) (is_ok result) }
    ensures beside { W.beside space.new ≡ W.beside space.old }
    ensures copy { OnOk result (words.new ≡ written_over words.old (move_writes layout.now words.old moves.now)) }
{
    for half in moves {
        let place = layout.map_off / 8 + u64::from(half.lba) / 2;
        let word = with_entry(words[place as usize], half.lba, normal(half.new));
        words[place as usize] = word;
        write_word(space, fuse, at + place, word)?;
    }
    Ok(())
}

/// Returns the lanes of an arena between two writes.
fn lane_states(alloc: Global, groups: &[Group]) -> Result<Vec<LaneState>, AllocError>
    ensures { IfOk result (λ lanes. lanes.items ≡ map lane_of groups.now) }
{
    groups
        .iter()
        .map(|group| LaneState {
            free: group.half.old,
            group: *group,
        })
        .collect(alloc)
}

/// Completes the pending moves of an arena. All memory is allocated before the first store.
fn recover<W: WordSpace>(
    alloc: Global,
    space: &mut W,
    fuse: &mut Fuse,
    at: u64,
    opened: Opened,
) -> Result<ArenaState, OpenRefused>
    requires layout { IsLayout opened.info.layout }
    requires moves { AreMoves opened.info.layout.external opened.moves }
    requires few { length opened.moves ≤ 256 }
    requires space { LiesInSpace at (opened.info.layout.size / 8) (W.words space.old) }
    ensures answer { Answers OpenRefused.OutOfMemory result (state_if (lasts fuse.old (2 * length opened.moves)) (drop at (W.words space.old).kept) opened) }
    ensures made { result ≢ Err OpenRefused.OutOfMemory → Makes (W.words space.old) (W.words space.new) fuse.old fuse.new (opened_steps at (drop at (W.words space.old).kept) opened) (is_ok result) }
    ensures memory { result ≡ Err OpenRefused.OutOfMemory → IsUntouched (W.words space.old) (W.words space.new) fuse.old fuse.new }
    ensures beside { W.beside space.new ≡ W.beside space.old }
{
    let Ok(lanes) = lane_states(alloc, opened.groups.as_slice()) else {
        return Err(OpenRefused::OutOfMemory);
    };
    let Ok(mut words) = read_words(alloc, space, at, opened.info.layout.size / 8) else {
        return Err(OpenRefused::OutOfMemory);
    };
    let moves = opened.moves.as_slice();
    match make_good(space, fuse, at, &opened.info.layout, &mut words, moves) {
        Ok(()) => Ok(ArenaState::new(
            opened.info,
            Items::from_vec(words),
            Items::from_vec(lanes),
            moves.len() as u32,
        )),
        Err(_) => Err(OpenRefused::PowerCut),
    }
}

/// Opens an arena whose first word is `at`, and completes its pending moves.
///
/// A lane's move is pending if its current half names two different blocks, and the map as read has
/// the old one for the move's sector, whatever the entry's kind. The call finds all moves by that
/// map and checks the blocks with all moves applied. Only then it writes the map words, lane by
/// lane, and flushes each.
///
/// The 4,096 bytes from word `at` on must lie in the space. The space must have fewer than 2^60
/// words, none of them pending. It refuses with the first of `Info`, `Flog` (with the least lane)
/// and `Block` that applies; then nothing was stored. It returns `PowerCut` exactly if fewer steps
/// are left than two for each pending move; then it has made as many as there were. `OutOfMemory`
/// may replace any result; then nothing was stored. After Ok no word is pending, and the arena
/// opens as before, but without pending moves.
pub fn open_arena<W: WordSpace>(
    alloc: Global,
    space: &mut W,
    fuse: &mut Fuse,
    at: u64,
    parent: &Uuid,
) -> Result<ArenaState, OpenRefused>
    requires space { LiesInSpace at 512 (W.words space.old) }
    ensures answer { Answers OpenRefused.OutOfMemory result (open_answer fuse.old (drop at (W.words space.old).kept) parent.now) }
    ensures made { result ≢ Err OpenRefused.OutOfMemory → Recovers (W.words space.old) (W.words space.new) fuse.old fuse.new at parent.now }
    ensures memory { result ≡ Err OpenRefused.OutOfMemory → IsUntouched (W.words space.old) (W.words space.new) fuse.old fuse.new }
    ensures beside { W.beside space.new ≡ W.beside space.old }
    ensures settles { OnOk result (IsSettled (W.words space.new)) }
    ensures state { IfOk result IsOpenState }
    ensures again { OnOk result (OpensAgain (drop at (W.words space.old).kept) (drop at (W.words space.new).kept) parent.now) }
{
    let opened = read_arena(alloc, space, at, parent)?;
    recover(alloc, space, fuse, at, opened)
}
