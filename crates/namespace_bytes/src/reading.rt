//! The arenas of a namespace are read in place.
ghost use Rattle.std.specs.Prelude.{◌≡◌, ℕ, ◌+◌, ◌*◌, ◌%◌, ◌^◌, ◌<◌, ◌≤◌, IfOk, Ok, Err, None, List, length, map, sum, sum_by};
ghost use Rattle.arena_open.specs.Chain.{chain_answer, state_at};
ghost use Rattle.arena_open.specs.ChainCells.{sizes_of};
ghost use Rattle.arena_open.specs.Writes.{IsSettled};
ghost use Rattle.sector_namespaces.specs.Changing.{IsFinding};
ghost use Rattle.sector_namespaces.specs.View.{opened_view};
ghost use Rattle.namespace_bytes.specs.Putting.{AreAll, Linked, link_bytes};
ghost use Rattle.namespace_bytes.specs.SectorPut.{AreSized};

use arena_layout::InfoFault;
use arena_open::{ChainRefused, OpenRefused, Opened, read_arena};
use cut_words::WordSpace;
use label_codec::Mode;
use namespace_areas::first_arena;
use nvd_words::Items;
use std::alloc::Global;
use std::marker::Model;
use uuid::Uuid;

/// An arena in a namespace's words: its first word, and what was read of it.
#[derive(Debug, Drop)]
pub struct ArenaAt {
    pub(crate) at: u64,
    pub(crate) opened: Opened,
}

impl Model for ArenaAt {
    ghost use Rattle.arena_open.specs.Chain.{Link};

    ghost Value = { Link };

    ghost view = { λ arena. record { at = arena.at; opened = arena.opened } };
}

impl ArenaAt {
    /// Makes an arena whose first word in the namespace is `at` of what was read of it.
    pub fn new(at: u64, opened: Opened) -> ArenaAt
        ensures { result ≡ record { at = at; opened = opened } }
    {
        ArenaAt { at, opened }
    }
}

/// Returns how many bytes the sectors of an arena have together.
pub(crate) fn size_of(arena: &ArenaAt) -> u64
    ensures { result ≡ link_bytes arena.now }
{
    let layout = &arena.opened.info.layout;
    u64::from(layout.external) * u64::from(layout.sector)
}

/// Returns how many bytes the sectors of all these arenas have together, as they were read.
pub fn size_of_all(arenas: &[ArenaAt]) -> u64
    requires { AreSized arenas.now }
    ensures size { result ≡ sum_by link_bytes arenas.now }
    ensures sized { (words : List ℕ) → result ≡ sum (sizes_of (map (state_at words) arenas.now)) }
{
    let mut size = 0;
    for arena in arenas {
        size += size_of(arena);
    }
    size
}

/// Reads the arenas of a namespace, in order; the first one begins at word `first`. No word is stored, and of the arenas only
/// the maps and the lanes are copied.
///
/// A refusal names the first arena that isn't opened; `OutOfMemory` may come in place of any answer.
fn read_chain<W: WordSpace>(
    alloc: Global,
    space: &W,
    first: u64,
    parent: &Uuid,
) -> Result<Items<ArenaAt>, ChainRefused>
    requires from { first % 512 ≡ 0 }
    requires to { length (W.words space.now).kept % 512 ≡ 0 }
    requires inside { first < length (W.words space.now).kept }
    requires small { length (W.words space.now).kept ≤ 2 ^ 52 }
    requires settled { IsSettled (W.words space.now) }
    ensures read { IfOk result (λ links. Ok (map (state_at (W.words space.now).kept) links) ≡ chain_answer None (W.words space.now).kept parent.now first) }
    ensures linked { IfOk result (Linked (W.words space.now).kept parent.now first) }
    ensures refused { (f : ChainRefused) → result ≡ Err f → IsFinding f → chain_answer None (W.words space.now).kept parent.now first ≡ Err f }
{
    let mut arenas = Vec::new(alloc);
    let mut at = first;
    'arenas: loop {
        let arena = arenas.len() as u32;
        if arenas.reserve(1).is_err() {
            return Err(ChainRefused {
                arena,
                fault: OpenRefused::OutOfMemory,
            });
        }
        match read_arena(alloc, space, at, parent) {
            Ok(opened) => {
                let next = opened.info.next;
                arenas.push_reserved(ArenaAt { at, opened });
                if next == 0 {
                    return Ok(Items::from_vec(arenas));
                }
                at += next / 8;
            }
            Err(fault) => return Err(ChainRefused { arena, fault }),
        }
    }
}

/// Reads all arenas of a namespace of sectors, in order. No word is stored, and of the arenas only the maps and the lanes are
/// copied.
///
/// The words are whole pages, and none is pending. The UUID is the namespace's. A refusal names the first arena that isn't
/// opened; `OutOfMemory` may come in place of any answer.
pub fn read_arenas<W: WordSpace>(
    alloc: Global,
    space: &W,
    uuid: &Uuid,
) -> Result<Items<ArenaAt>, ChainRefused>
    requires pages { length (W.words space.now).kept % 512 ≡ 0 }
    requires few { length (W.words space.now).kept ≤ 2 ^ 52 }
    requires settled { IsSettled (W.words space.now) }
    ensures all { IfOk result (AreAll (W.words space.now).kept uuid.now) }
    ensures refused { (f : ChainRefused) → result ≡ Err f → IsFinding f → opened_view (W.words space.now).kept uuid.now ≡ Err f }
{
    if space.count() == 0 {
        return Err(ChainRefused {
            arena: 0,
            fault: OpenRefused::Info(InfoFault::Signature),
        });
    }
    read_chain(alloc, space, first_arena(&Mode::Sector), uuid)
}
