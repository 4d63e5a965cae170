//! The bytes of all sectors of a namespace, put into the namespace's bytes piece by piece.
ghost use Rattle.std.specs.Prelude.{◌≡◌, ℕ, ◌+◌, ◌*◌, ◌^◌, ◌<◌, ◌≤◌, IfOk, IsTrue, List, length, sum_by};
ghost use Rattle.namespace_bytes.specs.Putting.{link_bytes};
ghost use Rattle.namespace_bytes.specs.SectorPut.{AreSized};
ghost use Rattle.namespace_bytes.specs.SectorBytes.{sector_byte};
ghost use Rattle.namespace_bytes.specs.Changed.{IsFree, changed_from, changed_front};

use crate::block_owners::ArenaOwners;
use crate::reading::ArenaAt;
use nvd_words::Items;
use std::alloc::{AllocError, Global};
use std::marker::Model;

/// The bytes of all sectors of a namespace, which are put into the namespace's bytes piece by piece. Neither the namespace nor a
/// second copy of the bytes is in memory.
#[derive(Drop)]
pub struct SectorBytes {
    arenas: Items<ArenaOwners>,
    /// The bytes of all sectors, one after another.
    bytes: Vec<u8>,
}

impl Model for SectorBytes {
    ghost use Rattle.std.specs.Prelude.{map};
    ghost use Rattle.namespace_bytes.specs.SectorPut.{SectorPut, AreOwned, link_of};

    ghost Value = { SectorPut };

    ghost view = { λ put. record { links = map link_of put.arenas; bytes = put.bytes.items } };

    ghost invariant = { λ put. AreOwned put.arenas put.bytes.items };
}

impl SectorBytes {
    /// Takes the bytes of all sectors of a namespace, of which these are all arenas, as they were read.
    ///
    /// There must be as many bytes as the sectors have. It takes four bytes for each block, and fails only if memory runs out.
    pub fn of(
        alloc: Global,
        arenas: Items<ArenaAt>,
        bytes: Vec<u8>,
    ) -> Result<SectorBytes, AllocError>
        requires sized { AreSized arenas }
        requires long { length bytes.items ≡ sum_by link_bytes arenas }
        ensures made { IfOk result (λ put. put ≡ record { links = arenas; bytes = bytes.items }) }
    {
        let mut owned = Items::new(alloc);
        for arena in arenas.into_vec() {
            let table = ArenaOwners::of(alloc, arena)?;
            owned.push(table)?;
        }
        Ok(SectorBytes {
            arenas: owned,
            bytes,
        })
    }

    /// Puts the bytes of sectors into a piece of the namespace that begins at byte `from`, up to the end of a block, a map entry
    /// or an area, or passes over those that stay. Returns how many bytes are done.
    fn put_run(&self, from: u64, piece: &mut [u8]) -> usize
        requires fits { from + length piece.old < 2 ^ 64 }
        requires some { 0 < length piece.old }
        ensures some { 0 < result }
        ensures fits { result ≤ length piece.old }
        ensures put { piece.new ≡ changed_front (sector_byte self.now.links self.now.bytes) from result piece.old }
    {
        let mut first = 0;
        for arena in self.arenas.as_slice() {
            let start = arena.start();
            if from < start {
                return (start - from).min(piece.len() as u64) as usize;
            }
            let next = first + arena.bytes();
            if from < start + arena.size() {
                return arena.put(from - start, &self.bytes[first..next], piece);
            }
            first = next;
        }
        piece.len()
    }

    /// Puts the bytes of sectors into a piece of the namespace that begins at byte `from`. Whatever is no sector's stays, but each
    /// sector's map entry becomes the normal one of its block.
    pub fn patch(&self, from: u64, piece: &mut [u8])
        requires fits { from + length piece.old < 2 ^ 64 }
        ensures put { piece.new ≡ changed_from (sector_byte self.now.links self.now.bytes) from piece.old }
    {
        let mut done = 0;
        while done < piece.len() {
            done += self.put_run(from + done as u64, &mut piece[done..]);
        }
    }

    /// Returns whether the new values of these bytes of the namespace don't depend on the old ones. It says so only of bytes inside
    /// one arena's data area, where each block has a sector that fills it.
    pub fn covers(&self, from: u64, count: u64) -> bool
        requires fits { from + count < 2 ^ 64 }
        ensures { IsTrue result → IsFree (sector_byte self.now.links self.now.bytes) from count }
    {
        for arena in self.arenas.as_slice() {
            let start = arena.start();
            if from < start + arena.size() {
                return start <= from && arena.covers(from - start, count);
            }
        }
        false
    }
}
