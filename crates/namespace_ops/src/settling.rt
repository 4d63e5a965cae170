//! The label changes of pending namespaces.
ghost use Rattle.std.specs.Prelude.{◌≡◌, ◌+◌, ◌≤◌, ◌<◌, ◌^◌, ◌++◌, ◌∷◌, [], nat_le, length, vec_len, Some};
ghost use Rattle.std.specs.Vec.{vec_capacity};
ghost use Rattle.namespace_map.specs.Namespaces.{entry_with};
ghost use Rattle.label_codec.specs.Flags.{updated};
ghost use Rattle.namespace_map.specs.Areas.{free_in, slots_of, slots_on};
ghost use Rattle.namespace_map.specs.Changes.{change_to, is_unsettled, with_name};
ghost use Rattle.namespace_areas.specs.Seen.{AreHeld, IsHeld, area_seen, areas_seen};
ghost use Rattle.namespace_ops.specs.Plans.{all_settling, first_of, pending_of, settling_of, settlings};

use crate::room::{Room, add, order};
use interleave::InterleaveSet;
use label_codec::{Label, Name};
use label_set::{Placed, SetStatus};
use namespace_areas::{Area, Change, LabelGroups, Regions, region_of, status_in};

/// A label without UPDATING, and with a name; all else is kept.
fn updated_label(label: &Label, name: &Name) -> Label
    ensures { result ≡ with_name name.now (updated label.now) }
{
    Label {
        name: *name,
        ..label.without_updating()
    }
}

/// Whether an area has a free slot.
fn has_free_slot(area: &Area) -> bool
    requires { IsHeld area.now }
    ensures { result ≡ nat_le 1 (free_in (slots_of (area_seen area.now))) }
{
    match area {
        Area::Ready(area) => area.free_slots() >= 1,
        Area::Absent | Area::Refused(_) => false,
    }
}

/// Whether a module has a free slot.
fn is_free_on(areas: &[Area], module: u32) -> bool
    requires { AreHeld areas.now }
    ensures { result ≡ nat_le 1 (free_in (slots_on (areas_seen areas.now) «module»)) }
{
    match areas.get(module as usize) {
        Some(area) => has_free_slot(area),
        None => false,
    }
}

/// Whether a label has UPDATING, on a module with a free slot.
fn is_unsettled(areas: &[Area], label: &Placed) -> bool
    requires { AreHeld areas.now }
    ensures { result ≡ is_unsettled (areas_seen areas.now) (label.now.«module», label.now.label) }
{
    label.label.is_updating() && is_free_on(areas, label.module)
}

/// Adds the change by which a label is settled.
fn add_settled(changes: &mut Vec<Change>, label: &Placed, name: &Name)
    requires room { vec_len changes.old + 1 ≤ vec_capacity changes.old }
    ensures items { changes.new.items ≡ changes.old.items ++ change_to (λ l. Some (with_name name.now (updated l))) (label.now.«module», label.now.label) ∷ [] }
    ensures len { vec_len changes.new ≡ vec_len changes.old + 1 }
    ensures capacity { vec_capacity changes.old ≤ vec_capacity changes.new }
{
    add(
        changes,
        Change {
            number: label.module,
            uuid: label.label.uuid,
            label: Some(updated_label(&label.label, name)),
        },
    );
}

/// Adds the changes by which labels are settled that aren't, in their order.
fn add_settlings(areas: &[Area], name: &Name, own: &[Placed], changes: &mut Vec<Change>)
    requires held { AreHeld areas.now }
    requires room { vec_len changes.old + length own.now ≤ vec_capacity changes.old }
    ensures items { changes.new.items ≡ changes.old.items ++ settlings (areas_seen areas.now) name.now own.now }
    ensures len { vec_len changes.new ≤ vec_len changes.old + length own.now }
    ensures capacity { vec_capacity changes.old ≤ vec_capacity changes.new }
{
    for label in own {
        if is_unsettled(areas, label) {
            add_settled(changes, label, name);
        }
    }
}

/// Adds the changes of a namespace that may be pending, whose labels are given, and the first of them.
fn add_settling(
    regions: &Regions,
    areas: &[Area],
    group: &[Placed],
    first: &Placed,
    room: &mut Room,
)
    requires some { 0 < length group.now }
    requires held { AreHeld areas.now }
    requires own { length group.now ≤ vec_capacity room.old.own }
    requires room { vec_len room.old.changes + length group.now ≤ vec_capacity room.old.changes }
    ensures items { room.new.changes.items ≡ room.old.changes.items ++ settling_of (areas_seen areas.now) (entry_with regions.now group.now first.now) group.now }
    ensures len { vec_len room.new.changes ≤ vec_len room.old.changes + length group.now }
    ensures own_capacity { vec_capacity room.old.own ≤ vec_capacity room.new.own }
    ensures capacity { vec_capacity room.old.changes ≤ vec_capacity room.new.changes }
{
    if let SetStatus::Complete { name, .. } = status_in(regions.region_of(first), group, first) {
        order(&mut room.own, group);
        add_settlings(areas, &name, &room.own, &mut room.changes);
    }
}

/// Adds the changes of a namespace if it is pending; its labels are given, and the first of them.
fn add_pending(
    sets: &[InterleaveSet],
    areas: &[Area],
    group: &[Placed],
    first: &Placed,
    room: &mut Room,
)
    requires few { length sets.now < 2 ^ 32 }
    requires some { 0 < length group.now }
    requires held { AreHeld areas.now }
    requires own { length group.now ≤ vec_capacity room.old.own }
    requires room { vec_len room.old.changes + length group.now ≤ vec_capacity room.old.changes }
    ensures items { room.new.changes.items ≡ room.old.changes.items ++ pending_of (areas_seen areas.now) (entry_with sets.now group.now first.now) group.now }
    ensures own_capacity { vec_capacity room.old.own ≤ vec_capacity room.new.own }
    ensures capacity { vec_capacity room.old.changes ≤ vec_capacity room.new.changes }
{
    if let SetStatus::Complete { name, pending } = status_in(region_of(sets, first), group, first) {
        if pending {
            order(&mut room.own, group);
            add_settlings(areas, &name, &room.own, &mut room.changes);
        }
    }
}

/// Takes the changes by which a pending namespace of two or more labels is settled before a delete or rename; its labels
/// are given. For any other namespace there are none.
pub(crate) fn plan_first(sets: &[InterleaveSet], areas: &[Area], group: &[Placed], room: &mut Room)
    requires few { length sets.now < 2 ^ 32 }
    requires held { AreHeld areas.now }
    requires own { length group.now ≤ vec_capacity room.old.own }
    requires room { length group.now ≤ vec_capacity room.old.changes }
    ensures items { room.new.changes.items ≡ first_of sets.now (areas_seen areas.now) group.now }
    ensures own_capacity { vec_capacity room.old.own ≤ vec_capacity room.new.own }
    ensures capacity { vec_capacity room.old.changes ≤ vec_capacity room.new.changes }
{
    room.changes.clear();
    if group.len() >= 2 {
        add_pending(sets, areas, group, &group[0], room);
    }
}

/// Takes the changes by which every pending namespace is settled as far as slots are free, rising by UUID.
pub(crate) fn plan_settlings(
    regions: &Regions,
    areas: &[Area],
    groups: &LabelGroups,
    room: &mut Room,
)
    requires held { AreHeld areas.now }
    requires own { length groups.now.sorted ≤ vec_capacity room.old.own }
    requires room { length groups.now.sorted ≤ vec_capacity room.old.changes }
    ensures items { room.new.changes.items ≡ all_settling regions.now (areas_seen areas.now) groups.now.sorted }
    ensures own_capacity { vec_capacity room.old.own ≤ vec_capacity room.new.own }
    ensures capacity { vec_capacity room.old.changes ≤ vec_capacity room.new.changes }
{
    room.changes.clear();
    let mut at = 0;
    while at < groups.labels().len() {
        let group = groups.group_from(at);
        add_settling(regions, areas, group, &group[0], room);
        at += group.len();
    }
}
