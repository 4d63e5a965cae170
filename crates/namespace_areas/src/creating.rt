//! Why no namespace is created, or where it lies.
ghost use Rattle.std.specs.Prelude.{◌≡◌, ◌<◌, ◌^◌, ◌∷◌, [], is_none, is_some, slice_get, unwrap_or, length, IfOk, map};
ghost use Rattle.std.specs.Option.{option_map};
ghost use Rattle.nvd_words.specs.Checks.{Answers, fault_if, first_fault, value_unless};
ghost use Rattle.namespace_map.specs.Namespaces.{labels_with};
ghost use Rattle.namespace_map.specs.Commands.{create_refusal, has_no_plan, is_bad_size, new_offset, set_of, share_of};
ghost use Rattle.namespace_map.specs.declared.refused.OpRefused.TheVariants.{NoSpace};
ghost use Rattle.namespace_areas.specs.Seen.{AreHeld};
ghost use Rattle.namespace_areas.specs.Refusals.{AreOpen, creating, crowded_in, fit_beside, offset_for, offset_or, shown, unready_in};

use crate::entries::bad_name;
use crate::modules::{least_short, least_unready};
use crate::{Area, LabelGroups, extents_of};
use arena_layout::plan;
use interleave::InterleaveSet;
use label_set::Placed;
use namespace_map::{CreateSpec, Make, OpRefused};
use region_space::Space;
use std::alloc::{AllocError, Global};
use uuid::Uuid;

/// The least module of a set whose area isn't ready.
fn unready(set: &InterleaveSet, areas: &[Area]) -> Option<OpRefused>
    ensures { result ≡ unready_in areas.now set.now }
{
    match least_unready(set, areas) {
        Some(module) => Some(OpRefused::ModuleLabels { module }),
        None => None,
    }
}

/// The least module of a set with fewer than two free slots.
fn crowded(set: &InterleaveSet, areas: &[Area]) -> Option<OpRefused>
    requires { AreHeld areas.now }
    ensures { result ≡ crowded_in areas.now set.now }
{
    match least_short(set, areas, 2) {
        Some(module) => Some(OpRefused::NoSlot { module }),
        None => None,
    }
}

/// Whether a label has a UUID.
fn is_taken(groups: &LabelGroups, uuid: &Uuid) -> bool
    ensures { result ≡ is_some (slice_get (labels_with uuid.now groups.now.sorted) 0) }
{
    groups.group(uuid).first().is_some()
}

/// Whether no arena is planned for a size.
fn has_no_plan(make: Make, size: u64) -> bool
    ensures { result ≡ has_no_plan make size }
{
    match make {
        Make::Raw => false,
        Make::Sector { sector, lanes } => plan(size, sector, lanes).is_err(),
    }
}

/// Whether a size is 0, or not the same multiple of the unit on each module, or no arena is planned for it.
fn is_bad_size(set: &InterleaveSet, size: u64, make: Make) -> bool
    ensures { result ≡ is_bad_size set.now size make }
{
    let step = u128::from(set.ways()) * u128::from(set.unit());
    size == 0 || u128::from(size) % step != 0 || has_no_plan(make, size)
}

/// The bytes of each module.
fn share(set: &InterleaveSet, size: u64) -> u64
    ensures share { result ≡ share_of set.now size }
    ensures some { 0 < length set.now }
{
    size / u64::from(set.ways())
}

/// The least offset at which so many bytes of each module fit beside all labels' extents.
fn fit(
    alloc: Global,
    set: &InterleaveSet,
    labels: &[Placed],
    raw: u64,
) -> Result<Option<u64>, AllocError>
    requires some { 0 < length set.now }
    ensures { IfOk result (λ offset. offset ≡ fit_beside set.now labels.now raw) }
{
    let extents = extents_of(alloc, labels)?;
    let space = Space::gather(alloc, &extents)?;
    Ok(space.first_fit(set, raw))
}

/// That offset, or the refusal if there is none.
fn place(alloc: Global, set: &InterleaveSet, labels: &[Placed], raw: u64) -> Result<u64, OpRefused>
    requires some { 0 < length set.now }
    ensures { Answers OpRefused.OutOfMemory result (value_unless (unwrap_or (fit_beside set.now labels.now raw) 0)
        (first_fault (fault_if (is_none (fit_beside set.now labels.now raw)) (NoSpace raw) ∷ []))) }
{
    match fit(alloc, set, labels, raw) {
        Ok(Some(offset)) => Ok(offset),
        Ok(None) => Err(OpRefused::NoSpace { wanted: raw }),
        Err(AllocError) => Err(OpRefused::OutOfMemory),
    }
}

/// The offset in a set, or why nothing is made in it.
#[tactic(auto, using(nvd_words::proofs::Checks::faults))]
fn offset_in(
    alloc: Global,
    set: &InterleaveSet,
    areas: &[Area],
    labels: &[Placed],
    taken: bool,
    size: u64,
    make: Make,
) -> Result<u64, OpRefused>
    requires { AreHeld areas.now }
    ensures { Answers OpRefused.OutOfMemory result (offset_or set.now labels.now size (first_fault (creating set.now areas.now labels.now taken size make))) }
{
    if let Some(refused) = unready(set, areas) {
        return Err(refused);
    }
    if taken {
        return Err(OpRefused::Exists);
    }
    if is_bad_size(set, size, make) {
        return Err(OpRefused::BadSize { bytes: size });
    }
    if let Some(refused) = crowded(set, areas) {
        return Err(refused);
    }
    place(alloc, set, labels, share(set, size))
}

/// Where a new namespace lies: how far from the start of each module's mapping, in bytes; or why it isn't
/// made: the first of these.
///
/// 1. `BadName`: the text makes no name.
/// 2. `NoRegion`: there is no region of this number.
/// 3. `ModuleLabels`: the label area of a module of the region isn't ready.
/// 4. `Exists`: a label has the UUID, whatever its status.
/// 5. `BadSize`: 0; or no multiple of the unit for each module; or, in mode sector, one for which no arena is planned.
/// 6. `NoSlot`: a module of the region has fewer than two free slots.
/// 7. `NoSpace`: nowhere in the region so many bytes of each module are free. The extents of all labels count,
///    whatever they make.
///
/// `OutOfMemory` may come in place of any other answer. No area was stopped by a power cut, and the groups are those
/// of the areas' labels.
pub fn create_offset(
    alloc: Global,
    sets: &[InterleaveSet],
    areas: &[Area],
    groups: &LabelGroups,
    spec: &CreateSpec,
) -> Result<u64, OpRefused>
    requires open { AreOpen areas.now groups.now }
    requires few { length sets.now < 2 ^ 32 }
    ensures { Answers OpRefused.OutOfMemory result (value_unless (offset_for (shown sets.now areas.now) spec.now)
        (create_refusal (shown sets.now areas.now) spec.now)) }
{
    if let Some(refused) = bad_name(&spec.name) {
        return Err(refused);
    }
    let place = spec.region as usize;
    if place >= sets.len() {
        return Err(OpRefused::NoRegion {
            region: spec.region,
        });
    }
    let taken = is_taken(groups, &spec.uuid);
    offset_in(
        alloc,
        &sets[place],
        areas,
        groups.labels(),
        taken,
        spec.size,
        spec.make,
    )
}
