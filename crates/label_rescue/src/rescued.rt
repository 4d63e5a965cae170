//! The namespace of a UUID, found by the labels that are there.
ghost use Rattle.std.specs.Prelude.{◌≡◌, IfOk, List, Some, false};
ghost use Rattle.std.specs.Option.{option_map};
ghost use Rattle.nfit_reader.specs.declared.table.Mapping.{Mapping};
ghost use Rattle.label_set.specs.Rules.{counted_from, mapping_of};
ghost use Rattle.namespace_map.specs.Commands.{is_sector};
ghost use Rattle.namespace_map.specs.Namespaces.{listed};
ghost use Rattle.namespace_areas.specs.Finding.{LiesInSet, found_at, set_at};
ghost use Rattle.namespace_ops.specs.Counted.{namespaces_in};
ghost use Rattle.namespace_ops.specs.Registered.{state_of};
ghost use Rattle.label_rescue.specs.Rescue.{IsOfLabels, is_rescuable, namespace_at, rescued_of, rescued_one, rescued_with};

use crate::missing::missing_of;
use crate::taken::is_disputed;
use interleave::InterleaveSet;
use label_codec::Mode;
use label_set::{SetStatus, Why};
use namespace_areas::Found;
use namespace_map::{Namespace, OpRefused};
use namespace_ops::Registry;
use nvd_words::Items;
use region_space::Extent;
use std::alloc::{AllocError, Global};
use uuid::Uuid;

/// A sector namespace whose place is known, though labels may be missing.
#[derive(Debug, Drop)]
pub struct RescueFound {
    /// Its place.
    pub found: Found,
    /// The modules of its set without a label, in ascending order.
    pub missing: Items<u32>,
}

/// Returns whether labels are complete, or the first rule that they break is that some are missing.
fn is_rescuable(status: &SetStatus) -> bool
    ensures { result ≡ is_rescuable status.now }
{
    match status {
        SetStatus::Complete { .. } => true,
        SetStatus::Incomplete {
            why: Why::Missing { .. },
        } => true,
        _ => false,
    }
}

/// Returns whether a namespace is one of sectors.
fn is_sector(mode: &Mode) -> bool
    ensures { result ≡ is_sector mode.now }
{
    match mode {
        Mode::Sector => true,
        _ => false,
    }
}

/// Returns the first device address of a module's mapping.
fn start_of(set: &InterleaveSet, module: u32) -> Option<u64>
    ensures { result ≡ option_map (λ m. m.start) (mapping_of set.now «module») }
{
    match set.position(module) {
        Some(position) => Some(set.start(u32::from(position))),
        None => None,
    }
}

/// Returns an extent's address relative to the start of its module's mapping.
fn relative_start(set: &InterleaveSet, extent: &Extent) -> u64
    ensures { result ≡ counted_from (mapping_of set.now extent.now.«module») extent.now.start }
{
    match start_of(set, extent.module) {
        Some(start) => extent.start.saturating_sub(start),
        None => extent.start,
    }
}

/// Returns the place of a namespace by its extent on one module, in the set of its region.
fn found_at(set: &InterleaveSet, region: u32, mode: Mode, extent: &Extent) -> Found
    ensures { (sets : List (List Mapping)) → set_at sets region ≡ set.now → result ≡ found_at sets mode region extent.now }
{
    Found {
        region,
        offset: relative_start(set, extent),
        raw: extent.length,
        mode,
    }
}

/// Returns a place with the modules that have no label, unless another UUID's label takes one of
/// their places.
fn with_missing(
    alloc: Global,
    set: &InterleaveSet,
    namespaces: &[Namespace],
    namespace: &Namespace,
    found: Found,
) -> Result<Result<RescueFound, OpRefused>, AllocError>
    ensures answer { (sets : List (List Mapping)) → set_at sets found.region ≡ set.now → IfOk result (λ answer. answer ≡ rescued_with sets namespaces.now namespace.now found) }
    ensures same { IfOk result (λ answer. IfOk answer (λ rescued. rescued.found ≡ found)) }
{
    if is_disputed(set, namespaces, namespace, &found) {
        return Ok(Err(OpRefused::NotComplete));
    }
    let missing = missing_of(alloc, set, namespace.extents.as_slice())?;
    Ok(Ok(RescueFound {
        found,
        missing: Items::from_vec(missing),
    }))
}

/// Returns the place of a namespace that labels make, or why it can't be rescued.
fn rescued_one(
    alloc: Global,
    sets: &[InterleaveSet],
    namespaces: &[Namespace],
    namespace: &Namespace,
) -> Result<Result<RescueFound, OpRefused>, AllocError>
    requires labels { IsOfLabels sets.now namespace.now }
    ensures answer { IfOk result (λ answer. answer ≡ rescued_one sets.now namespaces.now (Some namespace.now)) }
    ensures lies { IfOk result (λ answer. IfOk answer (λ rescued. LiesInSet sets.now rescued.found)) }
    ensures sector { IfOk result (λ answer. IfOk answer (λ rescued. rescued.found.mode ≡ Mode.Sector)) }
{
    if !is_rescuable(&namespace.status) {
        return Ok(Err(OpRefused::NotComplete));
    }
    if !is_sector(&namespace.mode) {
        return Ok(Err(OpRefused::NotSector));
    }
    let Some(region) = namespace.region else {
        return Ok(Err(OpRefused::NotComplete));
    };
    let Some(extent) = namespace.extents.as_slice().first() else {
        return Ok(Err(OpRefused::NotComplete));
    };
    let set = &sets[region as usize];
    let found = found_at(set, region, namespace.mode, extent);
    with_missing(alloc, set, namespaces, namespace, found)
}

/// Returns the namespace of a UUID, if a label names it.
fn namespace_at<'a>(namespaces: &'a [Namespace], uuid: &Uuid) -> Option<&'a Namespace>
    ensures { option_map (λ namespace. namespace.now) result ≡ namespace_at namespaces.now uuid.now }
{
    namespaces.iter().find(|namespace| namespace.uuid == *uuid)
}

/// Finds the sector namespace of a UUID by the labels that are there.
///
/// Power wasn't cut. Refusals, of which the first that holds is answered: `NoSuch`, no label has the
/// UUID; `NotComplete`, the labels break another rule than that some are missing, or all that are
/// there have UPDATING; `NotSector`, its mode isn't that of sectors; `NotComplete`, a label of
/// another UUID reserves some of the bytes of a missing label. What is found lies in its region's
/// set in whole units. The one error is out of memory.
pub fn find_rescued(
    alloc: Global,
    registry: &Registry,
    uuid: &Uuid,
) -> Result<Result<RescueFound, OpRefused>, AllocError>
    requires running { registry.now.stopped ≡ false }
    ensures answer { IfOk result (λ answer. answer ≡ rescued_of registry.now.sets (listed (namespaces_in (state_of registry.now))) uuid.now) }
    ensures lies { IfOk result (λ answer. IfOk answer (λ rescued. LiesInSet registry.now.sets rescued.found)) }
    ensures sector { IfOk result (λ answer. IfOk answer (λ rescued. rescued.found.mode ≡ Mode.Sector)) }
{
    let namespaces = registry.list(alloc)?;
    let namespaces = namespaces.as_slice();
    match namespace_at(namespaces, uuid) {
        Some(namespace) => rescued_one(alloc, registry.sets(), namespaces, namespace),
        None => Ok(Err(OpRefused::NoSuch)),
    }
}
