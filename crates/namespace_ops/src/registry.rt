//! The registry, and how it is opened.
ghost use Rattle.std.specs.Prelude.{◌≡◌, ◌<◌, ◌^◌, false, not, [], IfOk, OnOk, OnErr, is_ok, length, slice_index_or};
ghost use Rattle.nvd_words.specs.Checks.{Answers, value_unless};
ghost use Rattle.nfit_reader.specs.declared.table.Region.{Region};
ghost use Rattle.nfit_reader.specs.Counted.{AreCounted};
ghost use Rattle.namespace_map.specs.Left.{AreRegions};
ghost use Rattle.namespace_map.specs.Commands.{after_recovery};
ghost use Rattle.namespace_map.specs.Changes.{namespaces_of, recovery_changes};
ghost use Rattle.namespace_areas.specs.Areas.{AreRunning, labels_of};
ghost use Rattle.namespace_areas.specs.Seen.{AreHeld, areas_seen};
ghost use Rattle.namespace_areas.specs.Went.{Went};
ghost use Rattle.namespace_ops.specs.Held.{Held};
ghost use Rattle.namespace_ops.specs.Opening.{WasRead, registry_opening, overlap_as, overlap_fault, set_fault_as, set_fault_from, set_or_fault, sets_of};
ghost use Rattle.namespace_ops.specs.Registered.{RecoveryKeeps, opened_on, state_of};
ghost use Rattle.namespace_ops.specs.Room.{with_room};

use crate::claims::Claims;
use crate::counted::CountedNamespaces;
use crate::journal::Journal;
use crate::label_store::LabelStore;
use cut_words::{Fuse, PowerCut};
use interleave::{InterleaveSet, SetFault, interleave_set};
use namespace_areas::{Area, extents_of, gathered};
use nfit_reader::Nfit;
use nvd_words::Items;
use region_space::{Space, SpaceFault};
use std::alloc::{AllocError, Global};
use std::marker::Model;
use std::snapshot::Snapshot;
use uuid::Uuid;

/// Why a registry isn't opened.
#[derive(Clone, Copy, Debug, PartialEq, Eq)]
pub enum OpenFault {
    /// The region of this number is no interleave set, and this is its first fault.
    Set { region: u32, fault: SetFault },
    /// Extents of two UUIDs meet on a module: the least such pair of labels, in the order of modules and
    /// slots.
    Overlap { a: Uuid, b: Uuid },
    /// Memory ran out.
    OutOfMemory,
}

impl From<AllocError> for OpenFault {
    ghost use Rattle.namespace_ops.specs.declared.registry.OpenFault.TheVariants.{OutOfMemory};

    ghost from_gives = { λ _ fault. fault ≡ OutOfMemory };

    fn from(_error: AllocError) -> OpenFault {
        OpenFault::OutOfMemory
    }
}

/// The namespaces of an image set: its interleave sets and label areas, how often each namespace is claimed, and a journal
/// of the calls with a tag.
///
/// Replayed on the label areas that it began with (its *opening*), the journal gives those of now (`IsJournaled`).
#[derive(Drop)]
pub struct Registry {
    pub(crate) namespaces: CountedNamespaces,
    pub(crate) journal: Journal,
    // The label areas from which the journal replays. Only contracts look at it.
    opening: Snapshot<Vec<Area>>,
}

impl Model for Registry {
    ghost use Rattle.namespace_ops.specs.Counting.{state_in};
    ghost use Rattle.namespace_ops.specs.Registered.{IsKept, Registered, registered};

    ghost Value = { Registered };

    ghost view = { λ r. registered (state_in r.namespaces) r.journal.entries r.journal.room r.opening.value.items };

    ghost invariant = { λ r. IsKept (registered (state_in r.namespaces) r.journal.entries r.journal.room r.opening.value.items) r.namespaces.claims.room };
}

/// The fault of a region that is no interleave set.
fn set_fault(region: u32, fault: SetFault) -> OpenFault
    ensures { result ≡ set_fault_as region fault }
{
    match fault {
        SetFault::OutOfMemory => OpenFault::OutOfMemory,
        fault => OpenFault::Set { region, fault },
    }
}

/// The fault of extents that are no space.
fn space_fault(fault: SpaceFault) -> OpenFault
    ensures { result ≡ overlap_as fault }
{
    match fault {
        SpaceFault::Overlap { a, b } => OpenFault::Overlap { a, b },
        SpaceFault::OutOfMemory => OpenFault::OutOfMemory,
    }
}

/// The interleave set of a region.
fn set_of(alloc: Global, nfit: &Nfit, region: u32) -> Result<InterleaveSet, OpenFault>
    requires there { region < length nfit.now.regions }
    requires counted { AreCounted nfit.now }
    ensures { (blank : Region) → Answers OpenFault.OutOfMemory result (set_or_fault region (slice_index_or nfit.now.regions region blank)) }
{
    match interleave_set(alloc, nfit, region) {
        Ok(set) => Ok(set),
        Err(fault) => Err(set_fault(region, fault)),
    }
}

/// Returns the interleave sets of all regions of a table, by region number, or the first region
/// that is no set.
///
/// `OutOfMemory` comes in place of any other answer.
pub fn sets_of(alloc: Global, nfit: &Nfit) -> Result<Items<InterleaveSet>, OpenFault>
    requires counted { AreCounted nfit.now }
    requires few { length nfit.now.regions < 2 ^ 32 }
    ensures sets { Answers OpenFault.OutOfMemory result (value_unless (sets_of nfit.now) (set_fault_from 0 nfit.now.regions)) }
    ensures few { IfOk result (λ sets. length sets < 2 ^ 32) }
{
    let mut sets = Items::new(alloc);
    for region in 0..nfit.regions.len() {
        match set_of(alloc, nfit, region as u32) {
            Ok(set) => sets.push(set)?,
            Err(fault) => return Err(fault),
        }
    }
    Ok(sets)
}

/// Looks for extents of two UUIDs that meet on a module, whatever the status of their labels.
/// Power wasn't cut in a change of an area.
///
/// `OutOfMemory` comes in place of any other answer.
pub fn check_overlap(alloc: Global, areas: &[Area]) -> Result<(), OpenFault>
    requires running { AreRunning areas.now }
    requires few { length areas.now < 2 ^ 32 }
    ensures { Answers OpenFault.OutOfMemory result (value_unless tt (overlap_fault (labels_of areas.now))) }
{
    let labels = gathered(alloc, areas)?;
    let extents = extents_of(alloc, &labels)?;
    match Space::of(alloc, &extents) {
        Ok(_) => Ok(()),
        Err(fault) => Err(space_fault(fault)),
    }
}

impl Registry {
    /// A registry that begins with these label areas: no namespace is claimed, and the journal is empty and without room.
    fn first(alloc: Global, store: LabelStore) -> Registry
        requires running { store.stopped ≡ false }
        ensures { result ≡ opened_on store.sets store.areas }
    {
        let opening = store.snapshot();
        Registry {
            namespaces: CountedNamespaces {
                store,
                claims: Claims::new(alloc),
            },
            journal: Journal::new(alloc),
            opening,
        }
    }

    /// The registry of areas over interleave sets, unless extents of two UUIDs meet.
    fn over(
        alloc: Global,
        sets: Items<InterleaveSet>,
        areas: Items<Area>,
    ) -> Result<Registry, OpenFault>
        requires few_sets { length sets < 2 ^ 32 }
        requires regions { AreRegions sets }
        requires held { AreHeld areas }
        requires few { length areas < 2 ^ 32 }
        ensures { Answers OpenFault.OutOfMemory result (value_unless (opened_on sets areas) (overlap_fault (labels_of areas))) }
    {
        check_overlap(alloc, areas.as_slice())?;
        let store = LabelStore::of(alloc, sets, areas.into_vec())?;
        Ok(Registry::first(alloc, store))
    }

    /// Opens the namespaces of an image set. The journal is empty, and will replay from these areas.
    ///
    /// The table is as `read_nfit` returns it. The areas stand by the modules' numbers, and none was changed since it was read;
    /// those that aren't there, or weren't read, have no labels. Refusals, of which the first that holds is answered, and
    /// which drop the areas:
    ///
    /// 1. `Set`: a region is no interleave set; it is the first such.
    /// 2. `Overlap`: extents of labels of two UUIDs meet on a module, whatever their status.
    /// 3. `OutOfMemory`, in place of any other answer.
    ///
    /// It allocates room for two labels and two changes for each slot of the areas, so that of all commands only a create
    /// takes memory.
    pub fn open_all(alloc: Global, nfit: Nfit, areas: Items<Area>) -> Result<Registry, OpenFault>
        requires table { WasRead nfit }
        requires counted { AreCounted nfit }
        requires regions { length nfit.regions < 2 ^ 32 }
        requires held { AreHeld areas }
        requires few { length areas < 2 ^ 32 }
        ensures { Answers OpenFault.OutOfMemory result (registry_opening nfit areas) }
    {
        match sets_of(alloc, &nfit) {
            Ok(sets) => Registry::over(alloc, sets, areas),
            Err(fault) => Err(fault),
        }
    }

    /// Makes room in the journal for so many calls more of each session, `calls[q]` of session q.
    ///
    /// After an error nothing has changed. It is out of memory, also if the journal would come to 2^32 entries.
    pub fn reserve(&mut self, alloc: Global, calls: &[u32]) -> Result<(), AllocError>
        ensures room { OnOk result (self.new.room ≡ with_room self.old.room calls.now) }
        ensures same { OnErr result (self.new.room ≡ self.old.room) }
        ensures state { state_of self.new ≡ state_of self.old }
        ensures journal { self.new.journal ≡ self.old.journal }
        ensures opening { self.new.opening ≡ self.old.opening }
    {
        let room = self.journal.room_with(alloc, calls)?;
        self.namespaces.claims.reserve(room.total() as usize)?;
        self.journal.give(room)
    }

    /// Finishes, or takes back, the commands that a power cut interrupted: first every unfinished namespace, rising by UUID,
    /// loses its labels; then every complete one that is pending, rising, has each label with UPDATING rewritten under the
    /// namespace's name and without it, on each module with a free slot. All else of a label is kept.
    ///
    /// Power wasn't cut, and the journal is empty; after `Ok` it will replay from the areas as they are then. It takes no
    /// memory. `PowerCut` comes exactly if the fuse has fewer steps left than the changes take. Then the
    /// areas after a crash show the changes cut at that step (`Went`), and the registry is stopped.
    pub fn recover(&mut self, fuse: &mut Fuse) -> Result<(), PowerCut>
        requires running { self.old.stopped ≡ false }
        requires first { self.old.journal ≡ [] }
        ensures went { Went self.old.areas self.new.areas fuse.old fuse.new (recovery_changes self.old.sets (areas_seen self.old.areas)) (is_ok result) }
        ensures map { OnOk result (namespaces_of self.old.sets (areas_seen self.new.areas) ≡ after_recovery (namespaces_of self.old.sets (areas_seen self.old.areas))) }
        ensures opening { OnOk result (self.new.opening ≡ self.new.areas) }
        ensures began { OnErr result (self.new.opening ≡ self.old.opening) }
        ensures stopped { self.new.stopped ≡ not (is_ok result) }
        ensures kept { RecoveryKeeps self.old self.new }
    {
        match self.namespaces.store.recover(fuse) {
            Ok(()) => {
                self.opening = self.namespaces.store.snapshot();
                Ok(())
            }
            Err(PowerCut) => Err(PowerCut),
        }
    }
}
