//! Recovery: interrupted commands are finished, or taken back.
ghost use Rattle.std.specs.Prelude.{◌≡◌, ◌<◌, ◌^◌, length, is_ok, OnOk};
ghost use Rattle.std.specs.Vec.{vec_capacity};
ghost use Rattle.namespace_map.specs.Left.{AreRegions};
ghost use Rattle.namespace_map.specs.Commands.{after_recovery};
ghost use Rattle.namespace_map.specs.Changes.{namespaces_of, recovery_changes};
ghost use Rattle.namespace_areas.specs.Seen.{areas_seen};
ghost use Rattle.namespace_areas.specs.Went.{Went};
ghost use Rattle.namespace_areas.specs.Groups.{slots_in};
ghost use Rattle.namespace_ops.specs.Held.{AreCurrent, HasRoomFor};
ghost use Rattle.namespace_ops.specs.Plans.{gone_round, settling_round};

use crate::making::make_all;
use crate::removing::plan_removals;
use crate::room::Room;
use crate::settling::plan_settlings;
use cut_words::{Fuse, PowerCut};
use namespace_areas::{Area, LabelGroups, Regions};

/// Every unfinished namespace, rising by UUID, loses its labels.
fn remove_unfinished(
    regions: &Regions,
    areas: &mut [Area],
    groups: &mut LabelGroups,
    room: &mut Room,
    fuse: &mut Fuse,
) -> Result<(), PowerCut>
    requires few { length areas.old < 2 ^ 32 }
    requires current { AreCurrent areas.old groups.old }
    requires room { HasRoomFor (slots_in areas.old) (vec_capacity room.old.own) (vec_capacity room.old.changes) }
    ensures went { Went areas.old areas.new fuse.old fuse.new (gone_round regions.now (areas_seen areas.old)) (is_ok result) }
    ensures current { OnOk result (AreCurrent areas.new groups.new) }
    ensures room { OnOk result (HasRoomFor (slots_in areas.new) (vec_capacity room.new.own) (vec_capacity room.new.changes)) }
{
    plan_removals(regions, groups, room);
    make_all(areas, groups, &room.changes, fuse)
}

/// Every pending namespace, rising by UUID, is settled as far as slots are free.
fn settle_pending(
    regions: &Regions,
    areas: &mut [Area],
    groups: &mut LabelGroups,
    room: &mut Room,
    fuse: &mut Fuse,
) -> Result<(), PowerCut>
    requires few { length areas.old < 2 ^ 32 }
    requires current { AreCurrent areas.old groups.old }
    requires room { HasRoomFor (slots_in areas.old) (vec_capacity room.old.own) (vec_capacity room.old.changes) }
    ensures went { Went areas.old areas.new fuse.old fuse.new (settling_round regions.now (areas_seen areas.old)) (is_ok result) }
    ensures current { OnOk result (AreCurrent areas.new groups.new) }
    ensures room { OnOk result (HasRoomFor (slots_in areas.new) (vec_capacity room.new.own) (vec_capacity room.new.changes)) }
{
    plan_settlings(regions, areas, groups, room);
    make_all(areas, groups, &room.changes, fuse)
}

/// Both rounds.
pub(crate) fn recover(
    regions: &Regions,
    areas: &mut [Area],
    groups: &mut LabelGroups,
    room: &mut Room,
    fuse: &mut Fuse,
) -> Result<(), PowerCut>
    requires few { length areas.old < 2 ^ 32 }
    requires regions { AreRegions regions.now }
    requires current { AreCurrent areas.old groups.old }
    requires room { HasRoomFor (slots_in areas.old) (vec_capacity room.old.own) (vec_capacity room.old.changes) }
    ensures went { Went areas.old areas.new fuse.old fuse.new (recovery_changes regions.now (areas_seen areas.old)) (is_ok result) }
    ensures map { OnOk result (namespaces_of regions.now (areas_seen areas.new) ≡ after_recovery (namespaces_of regions.now (areas_seen areas.old))) }
    ensures current { OnOk result (AreCurrent areas.new groups.new) }
    ensures room { OnOk result (HasRoomFor (slots_in areas.new) (vec_capacity room.new.own) (vec_capacity room.new.changes)) }
{
    remove_unfinished(regions, areas, groups, room, fuse)?;
    settle_pending(regions, areas, groups, room, fuse)
}
