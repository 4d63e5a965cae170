ghost use Rattle.std.specs.Prelude.{◌≡◌, ◌+◌, ◌/◌, ◌<◌, ◌≤◌, ◌≢◌, MatchOption, length, slice_index, slice_index_or, sum_by, take};
ghost use Rattle.std.specs.List.{All, slice_get};
ghost use Rattle.arena_open.specs.declared.cell.Cell.TheVariants.{Bad as bad_cell};
ghost use Rattle.arena_open.specs.Cells.{GivesCell};
ghost use Rattle.arena_open.specs.Moves.{IsOpenState};
ghost use Rattle.arena_open.specs.ChainCells.{AreOpen, LiesIn, contents_of, external_of, sectors_of, sizes_of};

use crate::{ArenaState, CellKind, cell_of};
use nvd_words::Items;
use std::marker::Model;

/// The arenas of a namespace, in order, opened and without pending moves. Contracts see the list of
/// their states.
#[derive(Debug, Drop)]
pub struct Chain {
    arenas: Items<ArenaState>,
}

impl Model for Chain {
    ghost use Rattle.std.specs.Prelude.{List};
    ghost use Rattle.arena_open.specs.declared.state.ArenaState.{ArenaState};
    ghost use Rattle.arena_open.specs.ChainCells.{AreOpen};

    ghost Value = { List ArenaState };

    ghost view = { λ chain. chain.arenas };

    ghost invariant = { λ chain. AreOpen chain.arenas };
}

impl Chain {
    pub(crate) fn new(arenas: Items<ArenaState>) -> Chain
        requires { AreOpen arenas }
        ensures { result ≡ arenas }
    {
        Chain { arenas }
    }

    /// Returns the arenas, in order.
    pub fn arenas(&self) -> &[ArenaState]
        ensures value { result.now ≡ self.now }
        ensures open { AreOpen result.now }
    {
        self.arenas.as_slice()
    }

    /// Gives the arenas away, in order. The call takes no memory.
    pub fn into_arenas(self) -> Vec<ArenaState>
        ensures value { result.items ≡ self }
        ensures open { AreOpen result.items }
    {
        self.arenas.into_vec()
    }

    /// Returns the number of sectors in all arenas together.
    pub fn sectors(&self) -> u64
        ensures { result ≡ sectors_of self.now }
    {
        let mut count = 0;
        for arena in self.arenas() {
            count += u64::from(arena.info.layout.external);
        }
        count
    }

    /// Returns the arena of a sector of the namespace, and the sector's number in this arena. It
    /// returns `None` exactly if the namespace has no such sector.
    pub fn locate(&self, sector: u64) -> Option<(usize, u32)>
        ensures { MatchOption result (sectors_of self.now ≤ sector) (λ place. LiesIn self.now sector place.0 place.1) }
    {
        let mut own = sector;
        for (k, arena) in self.arenas().iter().enumerate() {
            let external = u64::from(arena.info.layout.external);
            if own < external {
                return Some((k, own as u32));
            }
            own -= external;
        }
        None
    }

    /// Returns the size of a sector in bytes, that of its arena's sectors. It returns `None`
    /// exactly if the namespace has no such sector.
    pub fn sector_size(&self, sector: u64) -> Option<u32>
        ensures { result ≡ slice_get (sizes_of self.now) sector }
    {
        match self.locate(sector) {
            Some((k, _)) => Some(self.arenas()[k].info.layout.sector),
            None => None,
        }
    }

    /// Reads a sector's cell into `into`, which is unchanged if the cell is bad.
    ///
    /// The namespace must have the sector, and `into` must have as many words as the sector.
    pub fn read(&self, sector: u64, into: &mut [u64]) -> CellKind
        requires there { sector < sectors_of self.now }
        requires room { length into.old ≡ slice_index (sizes_of self.now) sector / 8 }
        ensures { GivesCell (slice_index_or (contents_of self.now) sector bad_cell) result into.old into.new }
    {
        match self.locate(sector) {
            Some((k, own)) => cell_of(&self.arenas()[k], own, into),
            None => unreachable!(),
        }
    }
}
