//! What the modules' label areas have room for.
ghost use Rattle.std.specs.Prelude.{◌≡◌, nat_lt, not, map, if◌then◌else◌, Some, None};
ghost use Rattle.label_set.specs.Rules.{lesser, module_of, modules_of};
ghost use Rattle.namespace_map.specs.Changes.{area_summary};
ghost use Rattle.namespace_map.specs.Commands.{least_module};
ghost use Rattle.namespace_areas.specs.Seen.{AreHeld, IsHeld, area_seen};
ghost use Rattle.namespace_areas.specs.Refusals.{area_summary_at};

use crate::Area;
use interleave::InterleaveSet;
use label_set::Placed;

/// How many slots of an area are free; none of one that isn't ready.
fn free_in(area: &Area) -> u32
    requires { IsHeld area.now }
    ensures { result ≡ (area_summary (area_seen area.now)).free }
{
    match area {
        Area::Ready(area) => area.free_slots(),
        Area::Absent | Area::Refused(_) => 0,
    }
}

/// How many slots of a module's area are free; none of one that isn't ready.
fn free_slots(areas: &[Area], module: u32) -> u32
    requires { AreHeld areas.now }
    ensures { result ≡ (area_summary_at areas.now «module»).free }
{
    let place = module as usize;
    if place < areas.len() {
        free_in(&areas[place])
    } else {
        0
    }
}

/// Whether an area is ready.
fn is_open(area: &Area) -> bool
    ensures { result ≡ (area_summary (area_seen area.now)).ready }
{
    match area {
        Area::Ready(_) => true,
        Area::Absent | Area::Refused(_) => false,
    }
}

/// Whether a module's area is ready.
fn is_ready(areas: &[Area], module: u32) -> bool
    ensures { result ≡ (area_summary_at areas.now «module»).ready }
{
    let place = module as usize;
    if place < areas.len() {
        is_open(&areas[place])
    } else {
        false
    }
}

/// The lesser of a module so far and another one, if that counts.
fn lesser_of(least: Option<u32>, module: u32, counts: bool) -> Option<u32>
    ensures { result ≡ lesser (λ number. number) least (if counts then Some «module» else None) }
{
    match least {
        Some(first) if !counts || first <= module => Some(first),
        _ if counts => Some(module),
        _ => None,
    }
}

/// The least module of a set whose area isn't ready.
pub(crate) fn least_unready(set: &InterleaveSet, areas: &[Area]) -> Option<u32>
    ensures { result ≡ least_module (λ number. not (area_summary_at areas.now number).ready) (modules_of set.now) }
{
    let mut least = None;
    for position in 0..set.ways() {
        let module = set.module_at(position);
        least = lesser_of(least, module, !is_ready(areas, module));
    }
    least
}

/// The least module of a set whose area has fewer free slots than are wanted.
pub(crate) fn least_short(set: &InterleaveSet, areas: &[Area], wanted: u32) -> Option<u32>
    requires { AreHeld areas.now }
    ensures { result ≡ least_module (λ number. nat_lt (area_summary_at areas.now number).free wanted) (modules_of set.now) }
{
    let mut least = None;
    for position in 0..set.ways() {
        let module = set.module_at(position);
        least = lesser_of(least, module, free_slots(areas, module) < wanted);
    }
    least
}

/// The least module of some labels whose area has no free slot.
pub(crate) fn least_full(labels: &[Placed], areas: &[Area]) -> Option<u32>
    requires { AreHeld areas.now }
    ensures { result ≡ least_module (λ number. nat_lt (area_summary_at areas.now number).free 1) (map module_of labels.now) }
{
    let mut least = None;
    for placed in labels {
        least = lesser_of(least, placed.module, free_slots(areas, placed.module) < 1);
    }
    least
}
