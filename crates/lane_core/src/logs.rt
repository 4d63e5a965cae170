//! What a lane answered.
ghost use Rattle.std.specs.Prelude.{◌≡◌, ◌<◌, map, IfOk};
ghost use Rattle.lane_core.specs.History.{of_lane};
ghost use Rattle.lane_core.specs.Invariant.{is_reading};
ghost use Rattle.lane_core.specs.Logs.{but_last, IsLog};
ghost use Rattle.lane_core.specs.Machines.{IsSomeCore};

use crate::history::Entry;
use crate::machine::Core;
use crate::phase::Phase;
use std::alloc::{AllocError, Global};

/// Whether a lane loads the words of a read that stands.
fn is_reading(phase: Phase) -> bool
    ensures { result ≡ is_reading phase }
{
    matches!(phase, Phase::Reading(_))
}

/// The entries of a lane.
#[tactic(auto, unfolding(crate::specs::History::of_lane))]
fn entries_of(alloc: Global, history: &[Entry], lane: u32) -> Result<Vec<&Entry>, AllocError>
    ensures { IfOk result (λ found. map (λ e. e.now) found.items ≡ of_lane lane history.now) }
{
    history
        .iter()
        .filter(|entry| entry.lane == lane)
        .collect(alloc)
}

/// All entries but the last.
fn without_last<'a>(mut entries: Vec<&'a Entry>) -> Vec<&'a Entry>
    ensures { map (λ e. e.now) result.items ≡ but_last (map (λ e. e.now) entries.entry.items) }
{
    entries.pop();
    entries
}

impl Core {
    /// The log of a lane, oldest first: the calls that it answered, and its write from the store of
    /// the map word on.
    ///
    /// A read stands in [`Core::history`] from its second look on, and in the log once it is
    /// answered. The only refusal is out of memory. Condition: the lane exists.
    pub fn log(&self, alloc: Global, lane: u32) -> Result<Vec<&Entry>, AllocError>
        requires core { IsSomeCore self.now }
        requires lane { lane < self.now.shape.lanes }
        ensures entries { IfOk result (λ log. IsLog self.now lane (map (λ e. e.now) log.items)) }
    {
        let entries = entries_of(alloc, self.history.as_slice(), lane)?;
        if is_reading(self.phase(lane)) {
            Ok(without_last(entries))
        } else {
            Ok(entries)
        }
    }
}
