//! Namespaces are deleted and renamed.
ghost use Rattle.std.specs.Prelude.{◌≡◌, ◌<◌, ◌^◌, false, length, is_ok, Err, OnOk};
ghost use Rattle.std.specs.List.{AllByRecursion};
ghost use Rattle.std.specs.Vec.{vec_capacity};
ghost use Rattle.namespace_map.specs.declared.commands.Command.TheVariants as command;
ghost use Rattle.namespace_map.specs.declared.refused.OpRefused.{OpRefused as Refused};
ghost use Rattle.namespace_areas.specs.Seen.{areas_seen};
ghost use Rattle.namespace_areas.specs.Went.{CanMake, PutsSound, Went};
ghost use Rattle.namespace_map.specs.Left.{AreRegions};
ghost use Rattle.namespace_map.specs.Commands.{done};
ghost use Rattle.namespace_areas.specs.Refusals.{shown};
ghost use Rattle.namespace_ops.specs.Held.{AreCurrent, StayCurrent};
ghost use Rattle.namespace_ops.specs.Carried.{AreWorkable, Carried, IsGoodName, first_round, is_cut, rounds};

use crate::making::make_all;
use crate::room::{Room, order};
use crate::settling::plan_first;
use crate::turns::{Round, plan};
use cut_words::{Fuse, PowerCut};
use interleave::InterleaveSet;
use namespace_areas::{Area, Change, LabelGroups, delete_refusal, rename_refusal};
use namespace_map::{Named, OpRefused};
use uuid::Uuid;

/// Makes changes one after another, and brings the labels by UUID up to date.
pub(crate) fn carry_out(
    areas: &mut [Area],
    groups: &mut LabelGroups,
    changes: &[Change],
    fuse: &mut Fuse,
) -> Result<(), OpRefused>
    requires few { length areas.old < 2 ^ 32 }
    requires current { AreCurrent areas.old groups.old }
    requires can { CanMake (areas_seen areas.old) changes.now }
    requires sound { AllByRecursion PutsSound changes.now }
    ensures went { Went areas.old areas.new fuse.old fuse.new changes.now (is_ok result) }
    ensures cut { (f : Refused) → result ≡ Err f → f ≡ OpRefused.PowerCut }
    ensures current { OnOk result (StayCurrent areas.old areas.new groups.new) }
{
    match make_all(areas, groups, changes, fuse) {
        Ok(()) => Ok(()),
        Err(PowerCut) => Err(OpRefused::PowerCut),
    }
}

/// Makes two rounds of changes of the labels of a UUID, by position.
fn make_rounds(
    areas: &mut [Area],
    groups: &mut LabelGroups,
    room: &mut Room,
    fuse: &mut Fuse,
    uuid: &Uuid,
    first: &Round,
    second: &Round,
) -> Result<(), OpRefused>
    requires few { length areas.old < 2 ^ 32 }
    requires work { AreWorkable areas.old groups.old (vec_capacity room.old.own) (vec_capacity room.old.changes) }
    requires can { CanMake (areas_seen areas.old) (rounds first.now second.now (areas_seen areas.old) uuid.now) }
    requires sound { AllByRecursion PutsSound (rounds first.now second.now (areas_seen areas.old) uuid.now) }
    ensures went { Went areas.old areas.new fuse.old fuse.new (rounds first.now second.now (areas_seen areas.old) uuid.now) (is_ok result) }
    ensures cut { (f : Refused) → result ≡ Err f → f ≡ OpRefused.PowerCut }
    ensures work { is_cut result ≡ false → AreWorkable areas.new groups.new (vec_capacity room.new.own) (vec_capacity room.new.changes) }
{
    order(&mut room.own, groups.group(uuid));
    plan(&room.own, first, second, &mut room.changes);
    carry_out(areas, groups, &room.changes, fuse)
}

/// Settles the namespace of a UUID if it is pending and has two or more labels; else nothing changes.
///
/// A command that a crash interrupted left UPDATING on some of its labels, or another name. As long as they differ, a
/// crash in a delete or rename could leave labels of which recovery can't say what they belong to. So these begin on a
/// settled namespace.
fn settle_first(
    sets: &[InterleaveSet],
    areas: &mut [Area],
    groups: &mut LabelGroups,
    room: &mut Room,
    fuse: &mut Fuse,
    uuid: &Uuid,
) -> Result<(), OpRefused>
    requires few_sets { length sets.now < 2 ^ 32 }
    requires few { length areas.old < 2 ^ 32 }
    requires work { AreWorkable areas.old groups.old (vec_capacity room.old.own) (vec_capacity room.old.changes) }
    ensures went { Went areas.old areas.new fuse.old fuse.new (first_round sets.now (areas_seen areas.old) uuid.now) (is_ok result) }
    ensures cut { (f : Refused) → result ≡ Err f → f ≡ OpRefused.PowerCut }
    ensures work { is_cut result ≡ false → AreWorkable areas.new groups.new (vec_capacity room.new.own) (vec_capacity room.new.changes) }
{
    plan_first(sets, areas, groups.group(uuid), room);
    carry_out(areas, groups, &room.changes, fuse)
}

/// Deletes the namespace of a UUID: its labels get UPDATING, by position, and then each is removed. A single label
/// is removed at once. A pending namespace of two or more labels is settled first ([`settle_first`]).
///
/// It is refused as `delete_refusal` of `namespace_areas` says, and nothing has changed then. Else the one error is
/// `PowerCut`: the fuse has fewer steps left than all changes take. As many were made as there were, and one area is
/// stopped; what a crash leaves is what is left of the changes after these steps (`Went`). No area was stopped before, the
/// groups are those of the areas' labels, and there is room for them. It takes no memory.
pub(crate) fn delete(
    sets: &[InterleaveSet],
    areas: &mut [Area],
    groups: &mut LabelGroups,
    room: &mut Room,
    fuse: &mut Fuse,
    uuid: &Uuid,
) -> Result<(), OpRefused>
    requires regions { AreRegions sets.now }
    requires few_sets { length sets.now < 2 ^ 32 }
    requires few { length areas.old < 2 ^ 32 }
    requires work { AreWorkable areas.old groups.old (vec_capacity room.old.own) (vec_capacity room.old.changes) }
    ensures carried { Carried sets.now areas.old areas.new fuse.old fuse.new (command.Delete uuid.now) result }
    ensures done { OnOk result (shown sets.now areas.new ≡ done (shown sets.now areas.old) (command.Delete uuid.now)) }
    ensures work { is_cut result ≡ false → AreWorkable areas.new groups.new (vec_capacity room.new.own) (vec_capacity room.new.changes) }
{
    if let Some(refused) = delete_refusal(sets, areas, groups, uuid) {
        return Err(refused);
    }
    settle_first(sets, areas, groups, room, fuse, uuid)?;
    make_rounds(
        areas,
        groups,
        room,
        fuse,
        uuid,
        &Round::Mark,
        &Round::Remove,
    )
}

/// Renames the namespace of a UUID: its labels get the name and UPDATING, by position, and then the name without
/// UPDATING. A single label gets the name at once. It is settled first as in [`delete`].
///
/// It is refused as `rename_refusal` of `namespace_areas` says, and nothing has changed then. Else the one error is
/// `PowerCut`, as for [`delete`]. Conditions as for [`delete`]; the name has no zero byte. It takes no memory.
pub(crate) fn rename(
    sets: &[InterleaveSet],
    areas: &mut [Area],
    groups: &mut LabelGroups,
    room: &mut Room,
    fuse: &mut Fuse,
    uuid: &Uuid,
    name: &Named,
) -> Result<(), OpRefused>
    requires regions { AreRegions sets.now }
    requires few_sets { length sets.now < 2 ^ 32 }
    requires few { length areas.old < 2 ^ 32 }
    requires name { IsGoodName name.now }
    requires work { AreWorkable areas.old groups.old (vec_capacity room.old.own) (vec_capacity room.old.changes) }
    ensures carried { Carried sets.now areas.old areas.new fuse.old fuse.new (command.Rename uuid.now name.now) result }
    ensures done { OnOk result (shown sets.now areas.new ≡ done (shown sets.now areas.old) (command.Rename uuid.now name.now)) }
    ensures work { is_cut result ≡ false → AreWorkable areas.new groups.new (vec_capacity room.new.own) (vec_capacity room.new.changes) }
{
    if let Some(refused) = rename_refusal(sets, areas, groups, uuid, name) {
        return Err(refused);
    }
    settle_first(sets, areas, groups, room, fuse, uuid)?;
    match name {
        Named::Good(name) => make_rounds(
            areas,
            groups,
            room,
            fuse,
            uuid,
            &Round::MarkAs(*name),
            &Round::SettleAs(*name),
        ),
        Named::Refused { bytes } => Err(OpRefused::BadName { bytes: *bytes }),
    }
}
