//! The label areas of an image set, and the memory in which commands on them work.
ghost use Rattle.std.specs.Prelude.{◌≡◌, ◌<◌, ◌^◌, true, false, not, length, is_ok, IfOk, OnOk};
ghost use Rattle.namespace_map.specs.Left.{AreRegions};
ghost use Rattle.namespace_areas.specs.Areas.{labels_of};
ghost use Rattle.namespace_map.specs.Commands.{after_recovery};
ghost use Rattle.namespace_map.specs.Changes.{namespaces_of, recovery_changes};
ghost use Rattle.namespace_areas.specs.Groups.{HasGroupsOf};
ghost use Rattle.namespace_areas.specs.Seen.{AreHeld, areas_seen};
ghost use Rattle.namespace_areas.specs.Went.{Went};

use crate::recovering::recover;
use crate::room::Room;
use cut_words::{Fuse, PowerCut};
use interleave::InterleaveSet;
use namespace_areas::{Area, LabelGroups, Regions, slots_in};
use nvd_words::Items;
use std::alloc::{AllocError, Global};
use std::marker::Model;
use std::snapshot::Snapshot;

/// The interleave sets of an image set, the label areas of its modules, their labels by UUID, and room for the labels and
/// the changes of a command. After a power cut it is **stopped**, and no command can run.
#[derive(Debug, Drop)]
pub(crate) struct LabelStore {
    pub(crate) sets: Regions,
    pub(crate) areas: Vec<Area>,
    pub(crate) groups: LabelGroups,
    pub(crate) room: Room,
    pub(crate) stopped: bool,
}

impl Model for LabelStore {
    ghost use Rattle.std.specs.Vec.{vec_capacity};
    ghost use Rattle.namespace_ops.specs.Held.{Held, IsStore};

    ghost Value = { Held };

    ghost view = { λ h. record { sets = h.sets; areas = h.areas.items; stopped = h.stopped } };

    ghost invariant = { λ h. IsStore (record { sets = h.sets; areas = h.areas.items; stopped = h.stopped }) h.groups (vec_capacity h.room.own) (vec_capacity h.room.changes) };
}

impl LabelStore {
    /// The label areas over interleave sets of regions of which no two meet. No area was changed since it was read.
    ///
    /// The one error is out of memory. For each slot of the areas it takes room for two labels and two changes.
    pub(crate) fn of(
        alloc: Global,
        sets: Items<InterleaveSet>,
        areas: Vec<Area>,
    ) -> Result<LabelStore, AllocError>
        requires few_sets { length sets < 2 ^ 32 }
        requires few_areas { length areas.items < 2 ^ 32 }
        requires regions { AreRegions sets }
        requires held { AreHeld areas.items }
        ensures { IfOk result (λ store. store ≡ record { sets = sets; areas = areas.items; stopped = false }) }
    {
        let sets = Regions::of(alloc, sets, areas.len() as u32)?;
        let groups = LabelGroups::of(alloc, &areas)?;
        let slots = slots_in(&areas);
        let room = Room {
            own: Vec::with_capacity(alloc, slots)?,
            changes: Vec::with_capacity(alloc, 2 * slots)?,
        };
        Ok(LabelStore {
            sets,
            areas,
            groups,
            room,
            stopped: false,
        })
    }

    /// Finishes, or takes back, the commands that a power cut interrupted: first every unfinished namespace, rising by UUID,
    /// loses its labels; then every complete one that is pending, rising, has each label with UPDATING rewritten under
    /// the namespace's name and without it, on each module with a free slot. All else of a label is kept.
    ///
    /// It isn't stopped. It takes no memory. `PowerCut` comes exactly if the fuse has fewer steps left than these changes
    /// take, and then it is stopped: the areas after a crash show the changes cut at that step
    /// (`Went`). After `Ok` the namespaces are what recovery makes of the map (`after_recovery`).
    pub(crate) fn recover(&mut self, fuse: &mut Fuse) -> Result<(), PowerCut>
        requires running { self.old.stopped ≡ false }
        ensures went { Went self.old.areas self.new.areas fuse.old fuse.new (recovery_changes self.old.sets (areas_seen self.old.areas)) (is_ok result) }
        ensures map { OnOk result (namespaces_of self.old.sets (areas_seen self.new.areas) ≡ after_recovery (namespaces_of self.old.sets (areas_seen self.old.areas))) }
        ensures sets { self.new.sets ≡ self.old.sets }
        ensures stopped { self.new.stopped ≡ not (is_ok result) }
    {
        let done = recover(
            &self.sets,
            &mut self.areas,
            &mut self.groups,
            &mut self.room,
            fuse,
        );
        self.stopped = done.is_err();
        done
    }

    /// The labels of all modules by UUID; after a power cut those from before the command.
    pub(crate) fn groups(&self) -> &LabelGroups
        ensures { self.now.stopped ≡ false → HasGroupsOf result.now.sorted (labels_of self.now.areas) }
    {
        &self.groups
    }

    /// The label areas as contracts see them.
    pub(crate) fn snapshot(&self) -> Snapshot<Vec<Area>>
        ensures { result.value.items ≡ self.now.areas }
    {
        Snapshot::of(&self.areas)
    }

    /// Whether power was cut in a command.
    pub(crate) fn is_stopped(&self) -> bool
        ensures { result ≡ self.now.stopped }
    {
        self.stopped
    }

    /// The interleave sets, and the regions of each module.
    pub(crate) fn regions(&self) -> &Regions
        ensures { result.now ≡ self.now.sets }
    {
        &self.sets
    }

    /// Power was cut in the format of an arena: no command can run any more.
    pub(crate) fn stop(&mut self)
        ensures { self.new ≡ record { sets = self.old.sets; areas = self.old.areas; stopped = true } }
    {
        self.stopped = true;
    }

    /// The interleave sets, by region number.
    pub(crate) fn sets(&self) -> &[InterleaveSet]
        ensures sets { result.now ≡ self.now.sets }
        ensures few { length result.now < 2 ^ 32 }
    {
        self.sets.as_slice()
    }

    /// The label areas, by the modules' numbers. None is stopped unless power was cut in a command.
    pub(crate) fn areas(&self) -> &[Area]
        ensures areas { result.now ≡ self.now.areas }
        ensures held { self.now.stopped ≡ false → AreHeld self.now.areas }
    {
        &self.areas
    }

    /// The label areas, by the modules' numbers.
    pub(crate) fn into_areas(self) -> Vec<Area>
        ensures { result.items ≡ self.areas }
    {
        self.areas
    }

    /// The interleave sets, by region number, and the label areas, by the modules' numbers.
    pub(crate) fn into_parts(self) -> (Items<InterleaveSet>, Vec<Area>)
        ensures sets { result.0 ≡ self.sets }
        ensures areas { result.1.items ≡ self.areas }
    {
        (self.sets.into_sets(), self.areas)
    }
}
