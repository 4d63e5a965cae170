//! One change of the labels of one module.
ghost use Rattle.std.specs.Prelude.{◌≡◌, ◌∷◌, ◌<◌, ◌≤◌, [], length, is_ok, option_copied, IfSome, IsSome, Some};
ghost use Rattle.std.specs.List.{position};
ghost use Rattle.label_codec.specs.declared.label.Label.{Label};
ghost use Rattle.label_codec.specs.Writable.{IsSound};
ghost use Rattle.label_area.specs.Opened.{IsReady};
ghost use Rattle.namespace_map.specs.Areas.{area_at, free_in, slots_on};
ghost use Rattle.namespace_areas.specs.Seen.{AreHeld, areas_seen, is_label_of, ready_seen};
ghost use Rattle.namespace_areas.specs.Went.{AreaWent, HasRoom, Went};

use crate::Area;
use cut_words::{Fuse, PowerCut};
use label_area::LabelArea;
use label_codec::Label;
use uuid::Uuid;

/// Whether a slot has a label of a UUID.
fn is_label_of(slot: &Option<Label>, uuid: &Uuid) -> bool
    ensures { result ≡ is_label_of uuid.now slot.now }
{
    match slot {
        Some(label) => label.uuid == *uuid,
        None => false,
    }
}

/// The place of the first slot with a label of a UUID.
fn place_of(labels: &[Option<Label>], uuid: &Uuid) -> Option<usize>
    ensures value { result ≡ position (is_label_of uuid.now) labels.now }
    ensures bound { IfSome result (λ place. place < length labels.now) }
{
    labels.iter().position(|slot| is_label_of(slot, uuid))
}

/// The first slot with a label of a UUID.
fn slot_of(labels: &[Option<Label>], uuid: &Uuid) -> Option<u32>
    requires few { length labels.now ≤ 4096 }
    ensures { result ≡ position (is_label_of uuid.now) labels.now }
{
    place_of(labels, uuid).map(|place| place as u32)
}

/// Changes the labels of one area.
fn change_area(
    area: &mut LabelArea,
    fuse: &mut Fuse,
    uuid: &Uuid,
    put: Option<&Label>,
) -> Result<(), PowerCut>
    requires ready { IsReady area.old }
    requires sound { (label : Label) → option_copied put ≡ Some label → IsSound label }
    requires room { HasRoom (Some (ready_seen area.old)) (option_copied put) }
    ensures { AreaWent area.old area.new fuse.old fuse.new uuid.now (option_copied put.entry) (is_ok result) }
{
    let out = slot_of(area.labels(), uuid);
    match area.replace(fuse, out, put) {
        Ok(_slot) => Ok(()),
        Err(_refused) => Err(PowerCut),
    }
}

/// Changes the labels of one module in one change (UEFI 2.10, section 13.19; the order of its steps is this project's
/// rule): the first slot with a label of the UUID is freed, if there is one, and the label, if one is given, is put
/// into the least slot that is free before, under that slot's number.
///
/// Conditions: no area was stopped by a power cut. The module's area is ready. A label that is put can be written, and
/// the area has a free slot for it. A label takes 64 steps, and the index block two for each of its words and two more.
/// It takes no memory.
///
/// `PowerCut` comes if and only if the fuse has fewer steps left. It made all of these, and the module's area is stopped:
/// its words show the area before the change, or after it if one step alone is missing and the chooser says so. No other
/// area changes.
pub fn change_label(
    areas: &mut [Area],
    fuse: &mut Fuse,
    module: u32,
    uuid: &Uuid,
    put: Option<&Label>,
) -> Result<(), PowerCut>
    requires held { AreHeld areas.old }
    requires ready { IsSome (area_at (areas_seen areas.old) «module») }
    requires sound { (label : Label) → option_copied put ≡ Some label → IsSound label }
    requires room { HasRoom (area_at (areas_seen areas.old) «module») (option_copied put) }
    ensures { Went areas.old areas.new fuse.old fuse.new (record { number = «module»; uuid = uuid.now; label = option_copied put.entry } ∷ []) (is_ok result) }
{
    match &mut areas[module as usize] {
        Area::Ready(area) => change_area(area, fuse, uuid, put),
        Area::Absent | Area::Refused(_) => unreachable!(),
    }
}
