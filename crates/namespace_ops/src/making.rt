//! Changes of the areas, and of the labels by UUID with them.
ghost use Rattle.std.specs.Prelude.{◌≡◌, ◌<◌, ◌^◌, length, is_ok, OnOk};
ghost use Rattle.std.specs.List.{AllByRecursion};
ghost use Rattle.namespace_areas.specs.Seen.{areas_seen};
ghost use Rattle.namespace_areas.specs.Went.{CanMake, PutsSound, Went};
ghost use Rattle.namespace_ops.specs.Held.{AreCurrent, StayCurrent};

use cut_words::{Fuse, PowerCut};
use namespace_areas::{Area, Change, LabelGroups, make_changes};

/// Makes changes, and brings the labels by UUID up to date. It takes no memory. After `PowerCut` they are those from
/// before.
pub(crate) fn make_all(
    areas: &mut [Area],
    groups: &mut LabelGroups,
    changes: &[Change],
    fuse: &mut Fuse,
) -> Result<(), PowerCut>
    requires few { length areas.old < 2 ^ 32 }
    requires current { AreCurrent areas.old groups.old }
    requires can { CanMake (areas_seen areas.old) changes.now }
    requires sound { AllByRecursion PutsSound changes.now }
    ensures went { Went areas.old areas.new fuse.old fuse.new changes.now (is_ok result) }
    ensures current { OnOk result (StayCurrent areas.old areas.new groups.new) }
{
    make_changes(areas, fuse, changes)?;
    groups.refresh(areas);
    Ok(())
}
