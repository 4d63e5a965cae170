//! The arenas of a namespace, read without copying their words.
ghost use Rattle.std.specs.Prelude.{◌≡◌, ◌+◌, ◌/◌, ◌%◌, ◌^◌, ◌<◌, ◌≤◌, None, MatchOption, length, map, slice_index, slice_index_or, sum_by};
ghost use Rattle.std.specs.List.{All, HoldsAt, slice_get};
ghost use Rattle.arena_open.specs.declared.cell.Cell.TheVariants.{Bad as bad_cell};
ghost use Rattle.arena_open.specs.Cells.{GivesCell};
ghost use Rattle.arena_open.specs.Moves.{moves_made};
ghost use Rattle.arena_open.specs.Writes.{IsSettled};
ghost use Rattle.arena_open.specs.ChainCells.{LiesIn, contents_of, sectors_of, sizes_of};
ghost use Rattle.arena_open.specs.Chain.{HasMemory, chain_answer, state_at};
ghost use Rattle.arena_open.specs.InPlace.{AreRead, IsFew, LiesInLink, external_in};

use crate::chain_refused::ChainRefused;
use crate::{CellKind, OpenRefused, Opened, cell_in_place, read_arena};
use arena_layout::Info;
use cut_words::WordSpace;
use nvd_words::Items;
use std::alloc::Global;
use std::marker::Model;
use uuid::Uuid;

/// An arena in a namespace's words: its first word, and what was read of it.
#[derive(Debug, Drop)]
pub(crate) struct ArenaAt {
    at: u64,
    opened: Opened,
}

impl Model for ArenaAt {
    ghost use Rattle.arena_open.specs.Chain.{Link};

    ghost Value = { Link };

    ghost view = { λ arena. record { at = arena.at; opened = arena.opened } };
}

/// The arenas of a namespace, in order, without a copy of their words and without a store.
/// Contracts see the list of their states with all pending moves completed, as for a
/// [`Chain`](crate::Chain).
#[derive(Drop)]
pub struct ReadChain<W: WordSpace> {
    space: W,
    arenas: Items<ArenaAt>,
}

impl<W: WordSpace> Model for ReadChain<W> {
    ghost use Rattle.std.specs.Prelude.{List, map};
    ghost use Rattle.arena_open.specs.declared.state.ArenaState.{ArenaState};
    ghost use Rattle.arena_open.specs.Chain.{state_at};
    ghost use Rattle.arena_open.specs.InPlace.{AreRead};

    ghost Value = { List ArenaState };

    ghost view = { λ chain. map (state_at (W.words chain.space).kept) chain.arenas };

    ghost invariant = { λ chain. AreRead (W.words chain.space) chain.arenas };
}

/// Returns the number of sectors in these arenas together.
fn sectors_in(arenas: &[ArenaAt]) -> u64
    requires { IsFew arenas.now }
    ensures { result ≡ sum_by external_in arenas.now }
{
    let mut count = 0;
    for arena in arenas {
        count += u64::from(arena.opened.info.layout.external);
    }
    count
}

/// Returns the arena of a sector, and the sector's number in this arena.
fn locate_in(arenas: &[ArenaAt], sector: u64) -> Option<(usize, u32)>
    ensures { MatchOption result (sum_by external_in arenas.now ≤ sector) (λ place. LiesInLink arenas.now sector place.0 place.1) }
{
    let mut own = sector;
    for (k, arena) in arenas.iter().enumerate() {
        let external = u64::from(arena.opened.info.layout.external);
        if own < external {
            return Some((k, own as u32));
        }
        own -= external;
    }
    None
}

impl<W: WordSpace> ReadChain<W> {
    fn new(space: W, arenas: Items<ArenaAt>) -> ReadChain<W>
        requires { AreRead (W.words space) arenas }
        ensures { result ≡ map (state_at (W.words space).kept) arenas }
    {
        ReadChain { space, arenas }
    }

    /// Returns the number of arenas.
    pub fn len(&self) -> usize
        ensures { result ≡ length self.now }
    {
        self.arenas.len()
    }

    /// Returns the info of an arena, which must exist.
    pub fn info(&self, k: usize) -> &Info
        requires { k < length self.now }
        ensures { HoldsAt (λ state. result.now ≡ state.info) self.now k }
    {
        let arena = &self.arenas.as_slice()[k];
        &arena.opened.info
    }

    /// Returns the number of moves that are pending in the words of an arena, which must exist.
    pub fn moves(&self, k: usize) -> u32
        requires { k < length self.now }
        ensures { HoldsAt (λ state. result ≡ moves_made state) self.now k }
    {
        let arena = &self.arenas.as_slice()[k];
        arena.opened.moves.len() as u32
    }

    /// Returns the number of sectors in all arenas together.
    pub fn sectors(&self) -> u64
        ensures { result ≡ sectors_of self.now }
    {
        sectors_in(self.arenas.as_slice())
    }

    /// Returns the arena of a sector of the namespace, and the sector's number in this arena. It
    /// returns `None` exactly if the namespace has no such sector.
    pub fn locate(&self, sector: u64) -> Option<(usize, u32)>
        ensures { MatchOption result (sectors_of self.now ≤ sector) (λ place. LiesIn self.now sector place.0 place.1) }
    {
        locate_in(self.arenas.as_slice(), sector)
    }

    /// Returns the size of a sector in bytes, that of its arena's sectors. It returns `None`
    /// exactly if the namespace has no such sector.
    pub fn sector_size(&self, sector: u64) -> Option<u32>
        ensures { result ≡ slice_get (sizes_of self.now) sector }
    {
        match self.locate(sector) {
            Some((k, _)) => Some(self.info(k).layout.sector),
            None => None,
        }
    }

    /// Reads a sector's cell from the namespace's words into `into`, which is unchanged if the cell
    /// is bad.
    ///
    /// The namespace must have the sector, and `into` must have as many words as the sector.
    pub fn read(&self, sector: u64, into: &mut [u64]) -> CellKind
        requires there { sector < sectors_of self.now }
        requires room { length into.old ≡ slice_index (sizes_of self.now) sector / 8 }
        ensures { GivesCell (slice_index_or (contents_of self.now) sector bad_cell) result into.old into.new }
    {
        match locate_in(self.arenas.as_slice(), sector) {
            Some((k, own)) => {
                let arena = &self.arenas.as_slice()[k];
                cell_in_place(&self.space, arena.at, &arena.opened, own, into)
            }
            None => unreachable!(),
        }
    }
}

/// Reads the arenas of a namespace, in order; the first one begins at word `first`. It completes
/// pending moves only in the maps in memory: it stores no word of the space, and copies none.
///
/// `first` and the number of words must be multiples of 512, so that each arena's info block lies
/// in the namespace. `first` must be a word of the space. The space may have at most 2^52 words,
/// none of them pending.
///
/// The result is that of [`open_chain`](crate::open_chain) without a power cut: the arenas, or the
/// first one that is refused, by its number in the chain. `OutOfMemory` may replace any result.
pub fn read_chain<W: WordSpace + Drop>(
    alloc: Global,
    space: W,
    first: u64,
    parent: &Uuid,
) -> Result<ReadChain<W>, ChainRefused>
    requires from { first % 512 ≡ 0 }
    requires to { length (W.words space).kept % 512 ≡ 0 }
    requires inside { first < length (W.words space).kept }
    requires small { length (W.words space).kept ≤ 2 ^ 52 }
    requires settled { IsSettled (W.words space) }
    ensures { HasMemory result → result ≡ chain_answer None (W.words space).kept parent.now first }
{
    let mut arenas = Vec::new(alloc);
    let mut at = first;
    'arenas: loop {
        let arena = arenas.len() as u32;
        if arenas.reserve(1).is_err() {
            return Err(ChainRefused {
                arena,
                fault: OpenRefused::OutOfMemory,
            });
        }
        match read_arena(alloc, &space, at, parent) {
            Ok(opened) => {
                let next = opened.info.next;
                arenas.push_reserved(ArenaAt { at, opened });
                if next == 0 {
                    return Ok(ReadChain::new(space, Items::from_vec(arenas)));
                }
                at += next / 8;
            }
            Err(fault) => return Err(ChainRefused { arena, fault }),
        }
    }
}
