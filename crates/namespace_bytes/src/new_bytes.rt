//! The new bytes of a namespace.
ghost use Rattle.std.specs.Prelude.{◌≡◌, ℕ, ◌+◌, ◌^◌, ◌<◌, ◌≤◌, IsTrue, length};
ghost use Rattle.namespace_bytes.specs.Changed.{IsFree, changed_from};
ghost use Rattle.namespace_bytes.specs.Patching.{IsFor, new_of};

use crate::runs::{Run, put_runs};
use crate::sector_bytes::SectorBytes;
use nvd_words::Items;

/// What the bytes of a namespace become. A byte's new value depends only on its number and its old value.
#[derive(Drop)]
pub enum NewBytes {
    /// These, one after another, whatever was there.
    Raw(Items<u8>),
    /// The sectors get these. What is no sector's stays, but each sector's map entry becomes the normal one of its block.
    Sectors(SectorBytes),
    /// Runs of them get these, one run after another. What is in no run stays.
    Runs(Items<Run>),
}

impl NewBytes {
    /// Returns whether the new values of some bytes of the namespace don't depend on the old ones.
    pub(crate) fn covers(&self, from: u64, count: u64) -> bool
        requires fits { from + count < 2 ^ 64 }
        ensures { IsTrue result → IsFree (new_of self.now) from count }
    {
        match self {
            NewBytes::Raw(_) => true,
            NewBytes::Sectors(put) => put.covers(from, count),
            // A piece is longer than a run.
            NewBytes::Runs(_) => false,
        }
    }

    /// Changes bytes of the namespace, of which the first has number `from`.
    pub(crate) fn put(&self, from: u64, piece: &mut [u8])
        requires inside { (size : ℕ) × IsFor self.now size × (from + length piece.old ≤ size) }
        requires fits { from + length piece.old < 2 ^ 64 }
        ensures { piece.new ≡ changed_from (new_of self.now) from piece.old }
    {
        match self {
            NewBytes::Raw(bytes) => {
                let from = from as usize;
                piece.copy_from_slice(&bytes.as_slice()[from..from + piece.len()]);
            }
            NewBytes::Sectors(put) => put.patch(from, piece),
            NewBytes::Runs(runs) => put_runs(runs.as_slice(), from, piece),
        }
    }
}
