//! A list of changes, made one after another.
ghost use Rattle.std.specs.Prelude.{◌≡◌, ◌∷◌, [], is_ok, IsSome};
ghost use Rattle.std.specs.List.{AllByRecursion};
ghost use Rattle.namespace_map.specs.Areas.{area_at};
ghost use Rattle.namespace_areas.specs.Seen.{AreHeld, areas_seen};
ghost use Rattle.namespace_areas.specs.Went.{CanMake, HasRoom, PutsSound, Went};

use crate::Area;
use crate::change::change_label;
use cut_words::{Fuse, PowerCut};
use label_codec::Label;
use std::marker::Model;
use uuid::Uuid;

/// A change of one module's labels. Contracts see it as the `Change` of `namespace_map`.
#[derive(Debug, Drop)]
pub struct Change {
    /// The module.
    pub number: u32,
    /// The label of this UUID goes, if there is one.
    pub uuid: Uuid,
    /// This label comes, under the number of its slot.
    pub label: Option<Label>,
}

impl Model for Change {
    ghost use Rattle.namespace_map.specs.Areas as areas;

    ghost Value = { areas.Change };

    ghost view = { λ c. record { number = c.number; uuid = c.uuid; label = c.label } };
}

/// Makes a change.
fn make_change(areas: &mut [Area], fuse: &mut Fuse, change: &Change) -> Result<(), PowerCut>
    requires held { AreHeld areas.old }
    requires ready { IsSome (area_at (areas_seen areas.old) change.now.number) }
    requires sound { PutsSound change.now }
    requires room { HasRoom (area_at (areas_seen areas.old) change.now.number) change.now.label }
    ensures { Went areas.old areas.new fuse.old fuse.new (change.now ∷ []) (is_ok result) }
{
    change_label(
        areas,
        fuse,
        change.number,
        &change.uuid,
        change.label.as_ref(),
    )
}

/// Makes changes one after another, each as [`change_label`] makes it, until power is cut.
///
/// The areas are held, and each change can be made when its turn comes (`CanMake`): its module's area is ready, and a
/// label that is put finds a free slot. Those labels can be written. It takes no memory. `PowerCut` comes exactly
/// if the fuse has fewer steps left than all changes take; then one area is stopped.
pub fn make_changes(areas: &mut [Area], fuse: &mut Fuse, changes: &[Change]) -> Result<(), PowerCut>
    requires held { AreHeld areas.old }
    requires can { CanMake (areas_seen areas.old) changes.now }
    requires sound { AllByRecursion PutsSound changes.now }
    ensures { Went areas.old areas.new fuse.old fuse.new changes.now (is_ok result) }
{
    for change in changes {
        make_change(areas, fuse, change)?;
    }
    Ok(())
}
