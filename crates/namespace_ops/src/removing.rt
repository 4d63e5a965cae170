//! The label changes of unfinished namespaces.
ghost use Rattle.std.specs.Prelude.{◌≡◌, ◌+◌, ◌≤◌, ◌<◌, ◌++◌, length, vec_len};
ghost use Rattle.std.specs.Vec.{vec_capacity};
ghost use Rattle.namespace_map.specs.Namespaces.{entry_with};
ghost use Rattle.namespace_ops.specs.Plans.{all_gone, gone_of, removals};

use crate::room::{Room, add, order};
use label_set::{Placed, SetStatus};
use namespace_areas::{Change, LabelGroups, Regions, status_in};

/// Adds the removals of labels, in their order.
fn add_removals(changes: &mut Vec<Change>, own: &[Placed])
    requires room { vec_len changes.old + length own.now ≤ vec_capacity changes.old }
    ensures items { changes.new.items ≡ changes.old.items ++ removals own.now }
    ensures len { vec_len changes.new ≡ vec_len changes.old + length own.now }
    ensures capacity { vec_capacity changes.old ≤ vec_capacity changes.new }
{
    for label in own {
        add(
            changes,
            Change {
                number: label.module,
                uuid: label.label.uuid,
                label: None,
            },
        );
    }
}

/// Adds the changes of a namespace that may be unfinished, whose labels are given, and the first of them.
fn add_gone(regions: &Regions, group: &[Placed], first: &Placed, room: &mut Room)
    requires some { 0 < length group.now }
    requires own { length group.now ≤ vec_capacity room.old.own }
    requires room { vec_len room.old.changes + length group.now ≤ vec_capacity room.old.changes }
    ensures items { room.new.changes.items ≡ room.old.changes.items ++ gone_of (entry_with regions.now group.now first.now) group.now }
    ensures len { vec_len room.new.changes ≤ vec_len room.old.changes + length group.now }
    ensures own_capacity { vec_capacity room.old.own ≤ vec_capacity room.new.own }
    ensures capacity { vec_capacity room.old.changes ≤ vec_capacity room.new.changes }
{
    if let SetStatus::Unfinished = status_in(regions.region_of(first), group, first) {
        order(&mut room.own, group);
        add_removals(&mut room.changes, &room.own);
    }
}

/// Takes the changes by which every unfinished namespace loses its labels, rising by UUID.
pub(crate) fn plan_removals(regions: &Regions, groups: &LabelGroups, room: &mut Room)
    requires own { length groups.now.sorted ≤ vec_capacity room.old.own }
    requires room { length groups.now.sorted ≤ vec_capacity room.old.changes }
    ensures items { room.new.changes.items ≡ all_gone regions.now groups.now.sorted }
    ensures own_capacity { vec_capacity room.old.own ≤ vec_capacity room.new.own }
    ensures capacity { vec_capacity room.old.changes ≤ vec_capacity room.new.changes }
{
    room.changes.clear();
    let mut at = 0;
    while at < groups.labels().len() {
        let group = groups.group_from(at);
        add_gone(regions, group, &group[0], room);
        at += group.len();
    }
}
