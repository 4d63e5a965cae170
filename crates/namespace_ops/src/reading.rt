//! What a registry tells without a change.
ghost use Rattle.std.specs.Prelude.{◌≡◌, ◌<◌, false, IfOk, length};
ghost use Rattle.namespace_map.specs.Namespaces.{listed, lookup};
ghost use Rattle.namespace_areas.specs.Finding.{LiesInSet, found_of, set_at};
ghost use Rattle.namespace_ops.specs.Claims.{count_of};
ghost use Rattle.namespace_ops.specs.Counted.{namespaces_in};
ghost use Rattle.namespace_ops.specs.Registered.{IsJournaled, state_of};
ghost use Rattle.namespace_ops.specs.Room.{room_of};

use crate::journal::JournalEntry;
use crate::listing::listed;
use crate::registry::Registry;
use interleave::InterleaveSet;
use label_codec::Mode;
use namespace_areas::{Area, Found, find};
use namespace_map::{Namespace, OpRefused};
use nvd_words::Items;
use std::alloc::{AllocError, Global};
use uuid::Uuid;

impl Registry {
    /// The calls with a tag, in their order. Replayed on the opening they make what the registry has; from the first
    /// `PowerCut` on, what a crash leaves.
    pub fn journal(&self) -> &[JournalEntry]
        ensures entries { result.now ≡ self.now.journal }
        ensures says { IsJournaled self.now }
    {
        self.journal.entries()
    }

    /// For how many more calls a session has room.
    pub fn room(&self, session: u32) -> u32
        ensures { result ≡ room_of self.now.room session }
    {
        self.journal.room(session)
    }

    /// How often a namespace is claimed; 0 if there is none of the UUID.
    pub fn claims(&self, uuid: &Uuid) -> u32
        ensures { result ≡ count_of self.now.claims uuid.now }
    {
        self.namespaces.claims.count(uuid)
    }

    /// Whether power was cut, in a command or in recovery. Then every call with a tag answers `PowerCut`.
    pub fn is_stopped(&self) -> bool
        ensures { result ≡ self.now.stopped }
    {
        self.namespaces.store.is_stopped()
    }

    /// Finds the complete sector namespace of a UUID. It takes no memory.
    ///
    /// Power wasn't cut. Refusals, of which the first that holds is answered: `NoSuch`, no label has the UUID; `NotComplete`,
    /// its labels make no complete namespace; `NotSector`, its mode isn't that of sectors. What is found lies in its
    /// region's set in whole units.
    pub fn find(&self, uuid: &Uuid) -> Result<Found, OpRefused>
        requires running { self.now.stopped ≡ false }
        ensures found { result ≡ found_of self.now.sets (lookup uuid.now (namespaces_in (state_of self.now)).entries) }
        ensures lies { IfOk result (LiesInSet self.now.sets) }
        ensures sector { IfOk result (λ found. found.mode ≡ Mode.Sector) }
    {
        let store = &self.namespaces.store;
        // The clause of `areas` says that no area is stopped, so they show the labels that are kept by UUID.
        let _areas = store.areas();
        find(store.regions(), store.groups(), uuid)
    }

    /// The namespaces, rising by the bytes of their UUIDs, each with how often it is claimed: one for each UUID that a label
    /// names.
    ///
    /// Power wasn't cut. The one error is out of memory.
    pub fn list(&self, alloc: Global) -> Result<Items<Namespace>, AllocError>
        requires running { self.now.stopped ≡ false }
        ensures { IfOk result (λ namespaces. namespaces ≡ listed (namespaces_in (state_of self.now))) }
    {
        let store = &self.namespaces.store;
        // As for `find`.
        let _areas = store.areas();
        listed(
            alloc,
            store.regions(),
            store.groups(),
            &self.namespaces.claims,
        )
    }

    /// The interleave sets, by region number.
    pub fn sets(&self) -> &[InterleaveSet]
        ensures { result.now ≡ self.now.sets }
    {
        self.namespaces.store.sets()
    }

    /// The interleave set of a region that is there.
    pub fn set(&self, region: u32) -> &InterleaveSet
        requires { region < length self.now.sets }
        ensures { result.now ≡ set_at self.now.sets region }
    {
        &self.sets()[region as usize]
    }

    /// The label areas, by the modules' numbers.
    pub fn into_areas(self) -> Vec<Area>
        ensures areas { result.items ≡ self.areas }
        ensures says { IsJournaled self }
    {
        self.namespaces.store.into_areas()
    }

    /// The interleave sets, by region number, and the label areas, by the modules' numbers.
    pub fn into_parts(self) -> (Items<InterleaveSet>, Vec<Area>)
        ensures sets { result.0 ≡ self.sets }
        ensures areas { result.1.items ≡ self.areas }
    {
        self.namespaces.store.into_parts()
    }
}
