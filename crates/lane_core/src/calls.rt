ghost use Rattle.std.specs.Prelude.{◌≡◌, ◌<◌, ◌≤◌, [], OnOk, OnErr};
ghost use Rattle.lane_core.specs.Rows.{grown};

use crate::history::Entry;
use std::alloc::{AllocError, Global};
use std::marker::Model;

/// The calls that stand, oldest first, with room for more.
#[derive(Debug, Drop)]
pub struct History {
    entries: Vec<Entry>,
}

impl Model for History {
    ghost use Rattle.std.specs.Prelude.{◌-◌, vec_len};
    ghost use Rattle.std.specs.Vec.{vec_capacity};
    ghost use Rattle.lane_core.specs.Rows.{Recorded};

    ghost Value = { Recorded };

    ghost view = { λ history. record { entries = history.entries.items; room = vec_capacity history.entries - vec_len history.entries } };
}

impl History {
    /// No call stands.
    pub fn none(alloc: Global) -> History
        ensures { result.entries ≡ [] }
    {
        History {
            entries: Vec::new(alloc),
        }
    }

    /// Makes room for this many more entries.
    pub fn reserve(&mut self, more: usize) -> Result<(), AllocError>
        ensures entries { self.new.entries ≡ self.old.entries }
        ensures room { OnOk result (more ≤ self.new.room) }
        ensures grows { self.old.room ≤ self.new.room }
        ensures kept { OnErr result (self.new ≡ self.old) }
    {
        self.entries.reserve(more)
    }

    /// Adds a call that stands. There is room for it.
    pub fn push(&mut self, entry: Entry)
        requires room { 0 < self.old.room }
        ensures { self.new ≡ grown self.old entry }
    {
        self.entries.push_reserved(entry);
    }

    /// The calls that stand.
    pub fn as_slice(&self) -> &[Entry]
        ensures { result.now ≡ self.now.entries }
    {
        &self.entries
    }
}
