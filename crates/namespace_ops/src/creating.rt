//! A namespace is created.
ghost use Rattle.std.specs.Prelude.{◌≡◌, ◌≢◌, ◌+◌, ◌/◌, ◌<◌, ◌^◌, [], Some, false, length, map, is_ok, Err, IfOk, OnOk, slice_get, slice_index_or, unwrap_or};
ghost use Rattle.std.specs.List.{AllByRecursion, enumerate_from};
ghost use Rattle.nfit_reader.specs.declared.table.Mapping.{Mapping};
ghost use Rattle.namespace_map.specs.Left.{AreRegions};
ghost use Rattle.namespace_map.specs.declared.commands.Command.TheVariants as command;
ghost use Rattle.namespace_map.specs.declared.refused.OpRefused.{OpRefused as Refused};
ghost use Rattle.namespace_map.specs.Commands.{done, lba_for, refusal_of};
ghost use Rattle.namespace_map.specs.Changes.{abstraction_for, in_two, new_label};
ghost use Rattle.namespace_areas.specs.Seen.{areas_seen};
ghost use Rattle.namespace_areas.specs.Went.{CanMake, PutsSound, Went};
ghost use Rattle.namespace_areas.specs.Refusals.{shown};
ghost use Rattle.namespace_ops.specs.Held.{AreCurrent, StayCurrent};
ghost use Rattle.namespace_ops.specs.Plans.{pairs_of};
ghost use Rattle.namespace_ops.specs.Carried.{Carried, IsGoodName, becomes, is_cut};
ghost use Rattle.namespace_ops.specs.Created.{IsNew, new_changes};

use crate::changing::carry_out;
use crate::turns::{Round, plan};
use cut_words::Fuse;
use interleave::InterleaveSet;
use label_codec::{BTT_2_0, Label, NO_ABSTRACTION, Name, PERSISTENT_MEMORY};
use label_set::Placed;
use namespace_areas::{Area, Change, LabelGroups, create_offset};
use namespace_map::{CreateSpec, Make, Named, OpRefused};
use std::alloc::{AllocError, Global};
use uuid::Uuid;

/// LbaSize of a namespace without sectors.
const RAW_LBA: u64 = 512;

/// The LbaSize of a new namespace's labels, in bytes.
fn lba_for(make: Make) -> u64
    ensures { result ≡ lba_for make }
{
    match make {
        Make::Raw => RAW_LBA,
        Make::Sector { sector, .. } => u64::from(sector),
    }
}

/// The AddressAbstractionGuid of a new namespace's labels.
fn abstraction_for(make: Make) -> Uuid
    ensures { result ≡ abstraction_for make }
{
    match make {
        Make::Raw => Uuid::from_bytes(NO_ABSTRACTION),
        Make::Sector { .. } => Uuid::from_bytes(BTT_2_0),
    }
}

/// What the labels of a new namespace have in common.
#[derive(Clone, Copy, Debug)]
pub(crate) struct NewLabels {
    pub(crate) uuid: Uuid,
    pub(crate) name: Name,
    pub(crate) make: Make,
    /// How far its extents lie from the start of each mapping, in bytes.
    pub(crate) offset: u64,
    /// The bytes of each module.
    pub(crate) raw: u64,
}

impl NewLabels {
    /// The label for the module at a position; it has no slot yet.
    fn at(&self, set: &InterleaveSet, position: u32) -> Placed
        requires inside { position < length set.now }
        requires fits { (m : Mapping) → (slice_index_or set.now position m).start + self.now.offset < 2 ^ 64 }
        ensures { (m : Mapping) → (result.«module», result.label)
            ≡ new_label self.now.uuid self.now.name self.now.make set.now self.now.offset self.now.raw (position, slice_index_or set.now position m) }
    {
        Placed {
            module: set.module_at(position),
            slot: 0,
            label: Label {
                uuid: self.uuid,
                name: self.name,
                flags: 0,
                count: set.ways() as u16,
                position: position as u16,
                cookie: set.cookie(),
                lba: lba_for(self.make),
                dpa: set.start(position) + self.offset,
                raw: self.raw,
                slot: 0,
                align: 0,
                kind: Uuid::from_bytes(PERSISTENT_MEMORY),
                abstraction: abstraction_for(self.make),
                spa_cookie: 0,
            },
        }
    }

    /// The labels for all modules of a set, by position.
    fn all(&self, alloc: Global, set: &InterleaveSet) -> Result<Vec<Placed>, AllocError>
        requires fits { AllByRecursion (λ m. m.start + self.now.offset < 2 ^ 64) set.now }
        ensures { IfOk result (λ own. pairs_of own.items
            ≡ map (new_label self.now.uuid self.now.name self.now.make set.now self.now.offset self.now.raw) (enumerate_from 0 set.now)) }
    {
        let mut own = Vec::new(alloc);
        for position in 0..set.ways() {
            own.push(self.at(set, position))?;
        }
        Ok(own)
    }

    /// Their changes: each is put with UPDATING, and then without it.
    fn changes(&self, alloc: Global, set: &InterleaveSet) -> Result<Vec<Change>, AllocError>
        requires fits { AllByRecursion (λ m. m.start + self.now.offset < 2 ^ 64) set.now }
        ensures { IfOk result (λ changes. changes.items ≡ in_two (becomes Round.Mark) (becomes Round.Settle)
            (map (new_label self.now.uuid self.now.name self.now.make set.now self.now.offset self.now.raw) (enumerate_from 0 set.now))) }
    {
        let own = self.all(alloc, set)?;
        let mut changes = Vec::with_capacity(alloc, 2 * own.len())?;
        plan(&own, &Round::Mark, &Round::Settle, &mut changes);
        Ok(changes)
    }
}

/// The set of a region that is there.
pub(crate) fn set_at(sets: &[InterleaveSet], region: u32) -> &InterleaveSet
    requires { region < length sets.now }
    ensures { result.now ≡ unwrap_or (slice_get sets.now region) [] }
{
    &sets[region as usize]
}

/// Where a namespace that nothing refuses will lie, and the label changes by which it is made. All memory that a create
/// takes is in it.
#[derive(Debug, Drop)]
pub(crate) struct NewNamespace {
    /// How far its extents lie from the start of each mapping, in bytes.
    pub(crate) offset: u64,
    /// Each label is put with UPDATING, by position, and then without it; a single one is put at once.
    pub(crate) changes: Vec<Change>,
}

/// The label changes of a namespace of this name at an offset.
fn named_changes(
    alloc: Global,
    sets: &[InterleaveSet],
    spec: &CreateSpec,
    name: Name,
    offset: u64,
) -> Result<Vec<Change>, OpRefused>
    requires there { spec.now.region < length sets.now }
    requires fits { AllByRecursion (λ m. m.start + offset < 2 ^ 64) (unwrap_or (slice_get sets.now spec.now.region) []) }
    ensures changes { IfOk result (λ changes. changes.items ≡ new_changes (unwrap_or (slice_get sets.now spec.now.region) [])
        (record { uuid = spec.now.uuid; name = name; make = spec.now.make; offset = offset; raw = spec.now.size / length (unwrap_or (slice_get sets.now spec.now.region) []) })) }
    ensures memory { (f : Refused) → result ≡ Err f → f ≡ OpRefused.OutOfMemory }
{
    let set = set_at(sets, spec.region);
    let new = NewLabels {
        uuid: spec.uuid,
        name,
        make: spec.make,
        offset,
        raw: spec.size / u64::from(set.ways()),
    };
    match new.changes(alloc, set) {
        Ok(changes) => Ok(changes),
        Err(AllocError) => Err(OpRefused::OutOfMemory),
    }
}

/// Plans a namespace, or says why it isn't made.
pub(crate) fn plan_create(
    alloc: Global,
    sets: &[InterleaveSet],
    areas: &[Area],
    groups: &LabelGroups,
    spec: &CreateSpec,
) -> Result<NewNamespace, OpRefused>
    requires regions { AreRegions sets.now }
    requires few_sets { length sets.now < 2 ^ 32 }
    requires few { length areas.now < 2 ^ 32 }
    requires current { AreCurrent areas.now groups.now }
    ensures planned { IfOk result (IsNew sets.now areas.now spec.now) }
    ensures refused { (f : Refused) → result ≡ Err f → f ≢ OpRefused.OutOfMemory → refusal_of (shown sets.now areas.now) (command.Create spec.now) ≡ Some f }
{
    let offset = create_offset(alloc, sets, areas, groups, spec)?;
    match spec.name {
        Named::Good(name) => {
            let changes = named_changes(alloc, sets, spec, name, offset)?;
            Ok(NewNamespace { offset, changes })
        }
        Named::Refused { bytes } => Err(OpRefused::BadName { bytes }),
    }
}

/// Makes the labels of a namespace that was planned. It takes no memory.
pub(crate) fn create(
    sets: &[InterleaveSet],
    areas: &mut [Area],
    groups: &mut LabelGroups,
    fuse: &mut Fuse,
    spec: &CreateSpec,
    new: &NewNamespace,
) -> Result<(), OpRefused>
    requires regions { AreRegions sets.now }
    requires few { length areas.old < 2 ^ 32 }
    requires name { IsGoodName spec.now.name }
    requires current { AreCurrent areas.old groups.old }
    requires planned { IsNew sets.now areas.old spec.now new.now }
    ensures carried { Carried sets.now areas.old areas.new fuse.old fuse.new (command.Create spec.now) result }
    ensures done { OnOk result (shown sets.now areas.new ≡ done (shown sets.now areas.old) (command.Create spec.now)) }
    ensures current { is_cut result ≡ false → StayCurrent areas.old areas.new groups.new }
{
    carry_out(areas, groups, &new.changes, fuse)
}
