//! Counts of claims.
ghost use Rattle.std.specs.Prelude.{◌≡◌, ◌+◌, ◌<◌, ◌≤◌, [], length, OnOk};
ghost use Rattle.namespace_ops.specs.Claims.{count_of, with_count};

use std::alloc::{AllocError, Global};
use std::marker::Model;
use uuid::Uuid;

/// How often UUIDs are claimed: a count for each that ever was, the one that was changed last in front.
#[derive(Debug, Drop)]
pub(crate) struct Claims {
    counts: Vec<(Uuid, u32)>,
}

impl Model for Claims {
    ghost use Rattle.std.specs.Vec.{vec_capacity};
    ghost use Rattle.namespace_ops.specs.Claims.{Counts};

    ghost Value = { Counts };

    ghost view = { λ c. record { counts = c.counts.items; room = vec_capacity c.counts } };
}

impl Claims {
    /// No claims.
    pub(crate) fn new(alloc: Global) -> Claims
        ensures { result.counts ≡ [] }
    {
        Claims {
            counts: Vec::new(alloc),
        }
    }

    /// Makes room for so many counts more.
    pub(crate) fn reserve(&mut self, more: usize) -> Result<(), AllocError>
        ensures counts { self.new.counts ≡ self.old.counts }
        ensures room { OnOk result (length self.new.counts + more ≤ self.new.room) }
        ensures grows { self.old.room ≤ self.new.room }
    {
        self.counts.reserve(more)?;
        Ok(())
    }

    /// How often a UUID is claimed.
    pub(crate) fn count(&self, uuid: &Uuid) -> u32
        ensures { result ≡ count_of self.now.counts uuid.now }
    {
        match self.counts.iter().find(|claim| claim.0 == *uuid) {
            Some(claim) => claim.1,
            None => 0,
        }
    }

    /// Takes a count for a UUID. There is room for one more, and it takes no memory.
    pub(crate) fn set(&mut self, uuid: &Uuid, count: u32)
        requires room { length self.old.counts < self.old.room }
        ensures counts { self.new.counts ≡ with_count self.old.counts uuid.now count }
        ensures room { self.new.room ≡ self.old.room }
    {
        self.counts.retain(|claim| claim.0 != *uuid);
        let taken = self.counts.insert(0, (*uuid, count));
        prove!(taken.is_ok());
    }
}
