//! The labels of all modules.
ghost use Rattle.std.specs.Prelude.{◌≡◌, ◌<◌, ◌≤◌, ◌^◌, ◌++◌, Some, IfOk, OnOk, length};
ghost use Rattle.std.specs.Option.{option_to_list};
ghost use Rattle.namespace_map.specs.Namespaces.{placed_in, placed_on};
ghost use Rattle.namespace_areas.specs.Areas.{AreRunning, IsRunning, labels_of, shown_in};

use crate::area::Area;
use label_codec::Label;
use label_set::Placed;
use std::alloc::{AllocError, Global};

/// Adds the label of a slot, if it has one.
fn add_label(
    module: u32,
    slot: u32,
    label: &Option<Label>,
    placed: &mut Vec<Placed>,
) -> Result<(), AllocError>
    ensures { OnOk result (placed.new.items ≡ placed.old.items ++ option_to_list (placed_in «module» (slot, label.now))) }
{
    if let Some(label) = label {
        placed.push(Placed {
            module,
            slot,
            label: *label,
        })?;
    }
    Ok(())
}

/// Adds the labels of a module, by slot.
fn add_labels(
    module: u32,
    labels: &[Option<Label>],
    placed: &mut Vec<Placed>,
) -> Result<(), AllocError>
    requires few { length labels.now ≤ 4096 }
    ensures { OnOk result (placed.new.items ≡ placed.old.items ++ placed_on («module», Some labels.now)) }
{
    for (slot, label) in labels.iter().enumerate() {
        add_label(module, slot as u32, label, placed)?;
    }
    Ok(())
}

/// Adds the labels that an area shows.
fn add_area(module: u32, area: &Area, placed: &mut Vec<Placed>) -> Result<(), AllocError>
    requires { IsRunning area.now }
    ensures { OnOk result (placed.new.items ≡ placed.old.items ++ placed_on («module», shown_in area.now)) }
{
    match area {
        Area::Ready(area) => add_labels(module, area.labels(), placed),
        Area::Absent | Area::Refused(_) => Ok(()),
    }
}

/// The labels of all areas, rising by module and slot.
///
/// No area was stopped by a power cut. An area that is absent or refused has none; a label has its module's
/// and its slot's number. The one error is out of memory.
pub fn gathered(alloc: Global, areas: &[Area]) -> Result<Vec<Placed>, AllocError>
    requires running { AreRunning areas.now }
    requires few { length areas.now < 2 ^ 32 }
    ensures { IfOk result (λ placed. placed.items ≡ labels_of areas.now) }
{
    let mut placed = Vec::new(alloc);
    for (module, area) in areas.iter().enumerate() {
        add_area(module as u32, area, &mut placed)?;
    }
    Ok(placed)
}
