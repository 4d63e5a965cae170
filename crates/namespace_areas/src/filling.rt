//! The labels of all modules, put into room that is there.
ghost use Rattle.std.specs.Prelude.{◌≡◌, ◌+◌, ◌*◌, ◌<◌, ◌≤◌, ◌^◌, ◌++◌, ◌∷◌, [], Some, length, vec_len};
ghost use Rattle.std.specs.Option.{option_to_list};
ghost use Rattle.std.specs.Vec.{vec_capacity};
ghost use Rattle.namespace_map.specs.Namespaces.{placed_in, placed_on};
ghost use Rattle.namespace_areas.specs.Areas.{AreRunning, IsRunning, labels_of, shown_in};
ghost use Rattle.namespace_areas.specs.Groups.{slots_of, slots_in};

use crate::Area;
use label_codec::Label;
use label_set::Placed;

/// Adds a label, for which there is room.
fn put(room: &mut Vec<Placed>, placed: Placed)
    requires room { vec_len room.old + 1 ≤ vec_capacity room.old }
    ensures items { room.new.items ≡ room.old.items ++ placed ∷ [] }
    ensures len { vec_len room.new ≡ vec_len room.old + 1 }
    ensures capacity { vec_capacity room.old ≤ vec_capacity room.new }
{
    let added = room.extend_from_slice(&[placed]);
    prove!(added.is_ok());
}

/// Adds the label of a slot, if it has one.
fn put_label(module: u32, slot: u32, label: &Option<Label>, room: &mut Vec<Placed>)
    requires room { vec_len room.old + 1 ≤ vec_capacity room.old }
    ensures items { room.new.items ≡ room.old.items ++ option_to_list (placed_in «module» (slot, label.now)) }
    ensures len { vec_len room.new ≤ vec_len room.old + 1 }
    ensures capacity { vec_capacity room.old ≤ vec_capacity room.new }
{
    if let Some(label) = label {
        put(
            room,
            Placed {
                module,
                slot,
                label: *label,
            },
        );
    }
}

/// Adds the labels of a module, by slot.
fn put_labels(module: u32, labels: &[Option<Label>], room: &mut Vec<Placed>)
    requires few { length labels.now ≤ 4096 }
    requires room { vec_len room.old + length labels.now ≤ vec_capacity room.old }
    ensures items { room.new.items ≡ room.old.items ++ placed_on («module», Some labels.now) }
    ensures len { vec_len room.new ≤ vec_len room.old + length labels.now }
    ensures capacity { vec_capacity room.old ≤ vec_capacity room.new }
{
    for (slot, label) in labels.iter().enumerate() {
        put_label(module, slot as u32, label, room);
    }
}

/// Adds the labels that an area shows.
fn put_area(module: u32, area: &Area, room: &mut Vec<Placed>)
    requires running { IsRunning area.now }
    requires room { vec_len room.old + slots_of area.now ≤ vec_capacity room.old }
    ensures items { room.new.items ≡ room.old.items ++ placed_on («module», shown_in area.now) }
    ensures len { vec_len room.new ≤ vec_len room.old + slots_of area.now }
    ensures capacity { vec_capacity room.old ≤ vec_capacity room.new }
{
    match area {
        Area::Ready(area) => put_labels(module, area.labels(), room),
        Area::Absent | Area::Refused(_) => {}
    }
}

/// The labels of all areas, by module and slot, in place of what the room had.
pub(crate) fn fill(room: &mut Vec<Placed>, areas: &[Area])
    requires running { AreRunning areas.now }
    requires few { length areas.now < 2 ^ 32 }
    requires room { slots_in areas.now ≤ vec_capacity room.old }
    ensures items { room.new.items ≡ labels_of areas.now }
    ensures few { vec_len room.new ≤ slots_in areas.now }
    ensures capacity { vec_capacity room.old ≤ vec_capacity room.new }
{
    room.clear();
    for (module, area) in areas.iter().enumerate() {
        put_area(module as u32, area, room);
    }
}

/// The slots of an area; none if it isn't read.
fn slot_count(area: &Area) -> usize
    requires { IsRunning area.now }
    ensures count { result ≡ slots_of area.now }
    ensures few { result ≤ 4096 }
{
    match area {
        Area::Ready(area) => area.labels().len(),
        Area::Absent | Area::Refused(_) => 0,
    }
}

/// The slots of all areas. No area was stopped by a power cut.
pub fn slots_in(areas: &[Area]) -> usize
    requires running { AreRunning areas.now }
    requires few { length areas.now < 2 ^ 32 }
    ensures count { result ≡ slots_in areas.now }
    ensures bound { result ≤ 4096 * length areas.now }
{
    let mut count = 0;
    for area in areas {
        count += slot_count(area);
    }
    count
}
