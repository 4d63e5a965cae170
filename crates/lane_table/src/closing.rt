//! Closes an arena.
ghost use Rattle.std.specs.Prelude.{◌≡◌, ◌≤◌, [], length, IfOk, IfErr, All, vec_capacity};

use crate::arena::Arena;
use crate::gathering::{copy_words, gather};
use crate::lanes::LaneEnd;
use crate::log::LoggedCall;
use std::alloc::{AllocError, Global};

/// What a closed arena leaves: its words as they are seen and as they are kept, and at `l` the
/// calls of lane `l`, oldest first.
#[derive(Drop)]
pub struct Closed {
    pub seen: Vec<u64>,
    pub kept: Vec<u64>,
    pub logs: Vec<Vec<LoggedCall>>,
}

/// Out of memory. The arena and its lanes come back.
#[derive(Drop)]
pub struct CloseRefused {
    pub arena: Arena,
    pub ends: Vec<LaneEnd>,
}

/// Room for what is handed out.
pub(crate) fn room(alloc: Global, words: usize, lanes: usize) -> Result<Closed, AllocError>
    ensures seen { IfOk result (λ c. (c.seen.items ≡ []) × (words ≤ vec_capacity c.seen)) }
    ensures kept { IfOk result (λ c. (c.kept.items ≡ []) × (words ≤ vec_capacity c.kept)) }
    ensures logs { IfOk result (λ c. (c.logs.items ≡ []) × (lanes ≤ vec_capacity c.logs)) }
{
    let seen = Vec::with_capacity(alloc, words)?;
    let kept = Vec::with_capacity(alloc, words)?;
    let logs = Vec::with_capacity(alloc, lanes)?;
    Ok(Closed { seen, kept, logs })
}

impl Arena {
    ghost use Rattle.lane_table.specs.Closed.{AreInOrder, IsClosed};
    ghost use Rattle.lane_table.specs.Kits.{arena_id, kit_in};

    /// Takes all lanes, in the order of their numbers and each in any state, and returns the words
    /// and the logs. The only refusal is out of memory; then the arena and the lanes come back.
    pub fn close(self, alloc: Global, ends: Vec<LaneEnd>) -> Result<Closed, CloseRefused>
        requires ends { All (λ e. (kit_in e).seat.table_id ≡ arena_id self) ends.items }
        requires every { AreInOrder self.shape.lanes ends.items }
        ensures closed { IfOk result (λ c. IsClosed self.table.shared.key ends.items c) }
        ensures refused { IfErr result (λ r. (r.arena ≡ self) × (r.ends ≡ ends)) }
    {
        let total = self.shape.total as usize;
        match room(alloc, total, ends.len()) {
            Err(AllocError) => Err(CloseRefused { arena: self, ends }),
            Ok(room) => {
                let Closed {
                    mut seen,
                    mut kept,
                    mut logs,
                } = room;
                let Arena { table, shape: _ } = self;
                let host = gather(&table.shared, ends, &mut logs);
                let closed = table.close_with(host);
                copy_words(&closed, 0, total, &mut seen);
                copy_words(&closed, total, total, &mut kept);
                closed.free();
                Ok(Closed { seen, kept, logs })
            }
        }
    }
}
