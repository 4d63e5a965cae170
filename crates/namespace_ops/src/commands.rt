//! The commands on label areas.
ghost use Rattle.std.specs.Prelude.{◌≡◌, ◌≢◌, ℕ, Option, false, Some, Err, IfOk, OnOk};
ghost use Rattle.nvd_words.specs.Checks.{value_unless};
ghost use Rattle.namespace_map.specs.declared.commands.Command.TheVariants as command;
ghost use Rattle.namespace_map.specs.Commands.{claim_refusal, done, refusal_of};
ghost use Rattle.namespace_map.specs.declared.refused.OpRefused.{OpRefused as Refused};
ghost use Rattle.namespace_areas.specs.Refusals.{shown};
ghost use Rattle.namespace_ops.specs.Carried.{Carried, IsGoodName, is_cut};
ghost use Rattle.namespace_ops.specs.Created.{IsNew};

use crate::changing::{delete, rename};
use crate::creating::{NewNamespace, create, plan_create};
use crate::label_store::LabelStore;
use cut_words::Fuse;
use namespace_areas::find;
use namespace_map::{CreateSpec, Named, OpRefused};
use std::alloc::Global;
use uuid::Uuid;

/// Whether power was cut in a command.
fn is_cut(answer: &Result<(), OpRefused>) -> bool
    ensures { result ≡ is_cut answer.now }
{
    matches!(answer, Err(OpRefused::PowerCut))
}

impl LabelStore {
    /// Plans a namespace: finds its place, and the label changes by which it is made. Nothing changes, and all memory that
    /// a create needs is allocated here.
    ///
    /// It isn't stopped. Refusals are those of [`LabelStore::create`]; `OutOfMemory` may come in place of any other answer.
    pub(crate) fn plan_create(
        &self,
        alloc: Global,
        spec: &CreateSpec,
    ) -> Result<NewNamespace, OpRefused>
        requires running { self.now.stopped ≡ false }
        ensures planned { IfOk result (IsNew self.now.sets self.now.areas spec.now) }
        ensures refused { (f : Refused) → result ≡ Err f → f ≢ OpRefused.OutOfMemory → refusal_of (shown self.now.sets self.now.areas) (command.Create spec.now) ≡ Some f }
    {
        plan_create(alloc, self.sets.as_slice(), &self.areas, &self.groups, spec)
    }

    /// Makes a namespace that was planned on the areas of now. It takes no memory.
    ///
    /// It isn't stopped, and the name has no zero byte, as `name_of` of `label_codec` makes it. `PowerCut` as for
    /// [`LabelStore::delete`].
    pub(crate) fn create_planned(
        &mut self,
        fuse: &mut Fuse,
        spec: &CreateSpec,
        new: &NewNamespace,
    ) -> Result<(), OpRefused>
        requires running { self.old.stopped ≡ false }
        requires name { IsGoodName spec.now.name }
        requires planned { IsNew self.old.sets self.old.areas spec.now new.now }
        ensures carried { Carried self.old.sets self.old.areas self.new.areas fuse.old fuse.new (command.Create spec.now) result }
        ensures done { OnOk result (shown self.new.sets self.new.areas ≡ done (shown self.old.sets self.old.areas) (command.Create spec.now)) }
        ensures sets { self.new.sets ≡ self.old.sets }
        ensures stopped { self.new.stopped ≡ is_cut result }
    {
        let created = create(
            self.sets.as_slice(),
            &mut self.areas,
            &mut self.groups,
            fuse,
            spec,
            new,
        );
        self.stopped = is_cut(&created);
        created
    }

    /// Creates the labels of a namespace on all modules of a region: a label is put with UPDATING on each, by position, and then each
    /// without it. On a single module the label is put at once. It lies at the least offset, the same on each module, at
    /// which it fits beside the extents of all labels.
    ///
    /// It isn't stopped, and the name has no zero byte, as `name_of` of `label_codec` makes it. Refusals, after which
    /// nothing has changed (`create_offset` of `namespace_areas`): `BadName`, `NoRegion`, `ModuleLabels`, `Exists`,
    /// `BadSize`, `NoSlot`, `NoSpace`. `OutOfMemory` may come in place of any other answer, and nothing has changed then.
    /// Else `PowerCut`, as for [`LabelStore::delete`].
    pub(crate) fn create(
        &mut self,
        alloc: Global,
        fuse: &mut Fuse,
        spec: &CreateSpec,
    ) -> Result<(), OpRefused>
        requires running { self.old.stopped ≡ false }
        requires name { IsGoodName spec.now.name }
        ensures carried { result ≢ Err OpRefused.OutOfMemory → Carried self.old.sets self.old.areas self.new.areas fuse.old fuse.new (command.Create spec.now) result }
        ensures memory { result ≡ Err OpRefused.OutOfMemory → (self.new.areas ≡ self.old.areas) × (fuse.new ≡ fuse.old) }
        ensures unchanged { (f : Refused) → refusal_of (shown self.old.sets self.old.areas) (command.Create spec.now) ≡ Some f → result ≢ Err OpRefused.OutOfMemory → (self.new ≡ self.old) × (fuse.new ≡ fuse.old) }
        ensures done { OnOk result (shown self.new.sets self.new.areas ≡ done (shown self.old.sets self.old.areas) (command.Create spec.now)) }
        ensures sets { self.new.sets ≡ self.old.sets }
        ensures stopped { self.new.stopped ≡ is_cut result }
    {
        match self.plan_create(alloc, spec) {
            Ok(new) => self.create_planned(fuse, spec, &new),
            Err(refused) => Err(refused),
        }
    }

    /// Deletes the namespace of a UUID: its labels get UPDATING, by position, and then each is removed. A single label
    /// is removed at once.
    ///
    /// It isn't stopped. Refusals, after which nothing has changed (`delete_refusal` of `namespace_areas`): `NoSuch`,
    /// `NotComplete`, `ReadOnlyLabel`, `NoSlot`. Else `PowerCut` comes exactly if the fuse has fewer steps left than
    /// these changes take, and then it is stopped: the areas after a crash show the changes cut at that step. It takes
    /// no memory.
    pub(crate) fn delete(&mut self, fuse: &mut Fuse, uuid: &Uuid) -> Result<(), OpRefused>
        requires running { self.old.stopped ≡ false }
        ensures carried { Carried self.old.sets self.old.areas self.new.areas fuse.old fuse.new (command.Delete uuid.now) result }
        ensures unchanged { (f : Refused) → refusal_of (shown self.old.sets self.old.areas) (command.Delete uuid.now) ≡ Some f → (self.new ≡ self.old) × (fuse.new ≡ fuse.old) }
        ensures done { OnOk result (shown self.new.sets self.new.areas ≡ done (shown self.old.sets self.old.areas) (command.Delete uuid.now)) }
        ensures sets { self.new.sets ≡ self.old.sets }
        ensures stopped { self.new.stopped ≡ is_cut result }
    {
        let deleted = delete(
            self.sets.as_slice(),
            &mut self.areas,
            &mut self.groups,
            &mut self.room,
            fuse,
            uuid,
        );
        self.stopped = is_cut(&deleted);
        deleted
    }

    /// Renames the namespace of a UUID: its labels get the name and UPDATING, by position, and then the name without
    /// UPDATING. A single label gets the name at once.
    ///
    /// It isn't stopped, and the name has no zero byte, as `name_of` of `label_codec` makes it. Refusals, after which
    /// nothing has changed (`rename_refusal` of `namespace_areas`): `BadName`, `NoSuch`, `NotComplete`,
    /// `ReadOnlyLabel`, `NoSlot`. Else as for [`LabelStore::delete`].
    pub(crate) fn rename(
        &mut self,
        fuse: &mut Fuse,
        uuid: &Uuid,
        name: &Named,
    ) -> Result<(), OpRefused>
        requires running { self.old.stopped ≡ false }
        requires name { IsGoodName name.now }
        ensures carried { Carried self.old.sets self.old.areas self.new.areas fuse.old fuse.new (command.Rename uuid.now name.now) result }
        ensures unchanged { (f : Refused) → refusal_of (shown self.old.sets self.old.areas) (command.Rename uuid.now name.now) ≡ Some f → (self.new ≡ self.old) × (fuse.new ≡ fuse.old) }
        ensures done { OnOk result (shown self.new.sets self.new.areas ≡ done (shown self.old.sets self.old.areas) (command.Rename uuid.now name.now)) }
        ensures sets { self.new.sets ≡ self.old.sets }
        ensures stopped { self.new.stopped ≡ is_cut result }
    {
        let renamed = rename(
            self.sets.as_slice(),
            &mut self.areas,
            &mut self.groups,
            &mut self.room,
            fuse,
            uuid,
            name,
        );
        self.stopped = is_cut(&renamed);
        renamed
    }

    /// Whether the namespace of a UUID may be claimed; nothing changes here. It takes no memory.
    ///
    /// It isn't stopped. Refusals, of which the first that holds is answered: `NoSuch`, no label has the UUID;
    /// `NotComplete`, its labels make no complete namespace; `NotSector`, its mode isn't that of sectors.
    pub(crate) fn claim(&self, uuid: &Uuid) -> Result<(), OpRefused>
        requires running { self.now.stopped ≡ false }
        ensures answer { result ≡ value_unless tt (claim_refusal (shown self.now.sets self.now.areas) uuid.now) }
        ensures carried { (fuse : Option ℕ) → Carried self.now.sets self.now.areas self.now.areas fuse fuse (command.Claim uuid.now) result }
        ensures uncut { is_cut result ≡ false }
    {
        match find(&self.sets, &self.groups, uuid) {
            Ok(_found) => Ok(()),
            Err(refused) => Err(refused),
        }
    }
}
