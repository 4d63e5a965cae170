//! The namespace that is exported: where it lies.
ghost use Rattle.std.specs.Prelude.{◌≡◌, false, find, IfOk};
ghost use Rattle.std.specs.Option.{option_map};
ghost use Rattle.std.specs.Str.{bytes_eq};
ghost use Rattle.label_set.specs.Rules.{counted_from, mapping_of};
ghost use Rattle.namespace_map.specs.Namespaces.{listed, lookup};
ghost use Rattle.namespace_map.specs.Commands.{is_complete, is_sector};
ghost use Rattle.namespace_areas.specs.Finding.{LiesInSet, set_at};
ghost use Rattle.namespace_areas.specs.Seen.{AreHeld};
ghost use Rattle.namespace_ops.specs.Counted.{namespaces_in};
ghost use Rattle.namespace_ops.specs.Registered.{state_of};
ghost use Rattle.shell_export.specs.Export.{is_raw, place_of};
ghost use Rattle.shell_export.specs.Listed.{placed_by, raw_of};

use interleave::InterleaveSet;
use label_codec::Mode;
use label_set::SetStatus;
use namespace_areas::Found;
use namespace_map::{Namespace, OpRefused};
use namespace_ops::Registry;
use region_space::Extent;
use std::alloc::{AllocError, Global};
use uuid::Uuid;

/// The first device address of a module's mapping.
fn start_of(set: &InterleaveSet, module: u32) -> Option<u64>
    ensures { result ≡ option_map (λ m. m.start) (mapping_of set.now «module») }
{
    match set.position(module) {
        Some(position) => Some(set.start(u32::from(position))),
        None => None,
    }
}

/// An extent's address from the start of its mapping on, in bytes.
fn relative(set: &InterleaveSet, extent: &Extent) -> u64
    ensures { result ≡ counted_from (mapping_of set.now extent.now.«module») extent.now.start }
{
    match start_of(set, extent.module) {
        Some(start) => extent.start.saturating_sub(start),
        None => extent.start,
    }
}

/// The same in a region, by its number.
fn relative_in(sets: &[InterleaveSet], region: u32, extent: &Extent) -> u64
    ensures { result ≡ counted_from (mapping_of (set_at sets.now region) extent.now.«module») extent.now.start }
{
    match sets.get(region as usize) {
        Some(set) => relative(set, extent),
        None => extent.start,
    }
}

/// Whether labels make a complete namespace.
fn is_complete(status: &SetStatus) -> bool
    ensures { result ≡ is_complete status.now }
{
    match status {
        SetStatus::Complete { .. } => true,
        _ => false,
    }
}

/// Whether a namespace is one of sectors.
pub fn is_sector(mode: &Mode) -> bool
    ensures { result ≡ is_sector mode.now }
{
    match mode {
        Mode::Sector => true,
        _ => false,
    }
}

/// Whether a namespace is raw.
fn is_raw(mode: &Mode) -> bool
    ensures { result ≡ is_raw mode.now }
{
    match mode {
        Mode::Raw => true,
        _ => false,
    }
}

/// A namespace by its region and its first extent.
fn placed_by(sets: &[InterleaveSet], namespace: &Namespace) -> Result<Found, OpRefused>
    ensures { result ≡ placed_by sets.now namespace.now.mode namespace.now.region namespace.now.extents }
{
    let Some(region) = namespace.region else {
        return Err(OpRefused::NotComplete);
    };
    match namespace.extents.as_slice().first() {
        Some(first) => Ok(Found {
            region,
            offset: relative_in(sets, region, first),
            raw: first.length,
            mode: namespace.mode,
        }),
        None => Err(OpRefused::NotComplete),
    }
}

/// A raw namespace, if one is there.
fn raw_of(sets: &[InterleaveSet], namespace: Option<&Namespace>) -> Result<Found, OpRefused>
    ensures { result ≡ raw_of sets.now (option_map (λ ns. ns.now) namespace.entry) }
{
    let Some(namespace) = namespace else {
        return Err(OpRefused::NoSuch);
    };
    if !is_complete(&namespace.status) {
        return Err(OpRefused::NotComplete);
    }
    if !is_raw(&namespace.mode) {
        return Err(OpRefused::NotSector);
    }
    placed_by(sets, namespace)
}

/// Returns the namespace of a UUID.
fn named<'a>(namespaces: &'a [Namespace], uuid: &Uuid) -> Option<&'a Namespace>
    ensures { option_map (λ ns. ns.now) result ≡ find (λ ns. bytes_eq ns.uuid uuid.now) namespaces.now }
{
    namespaces.iter().find(|namespace| namespace.uuid == *uuid)
}

/// Finds the complete raw namespace of a UUID.
fn find_raw(
    alloc: Global,
    registry: &Registry,
    uuid: &Uuid,
) -> Result<Result<Found, OpRefused>, AllocError>
    requires running { registry.now.stopped ≡ false }
    ensures { IfOk result (λ found. found ≡ raw_of registry.now.sets (find (λ ns. bytes_eq ns.uuid uuid.now) (listed (namespaces_in (state_of registry.now))))) }
{
    let namespaces = registry.list(alloc)?;
    Ok(raw_of(registry.sets(), named(namespaces.as_slice(), uuid)))
}

/// Finds the complete namespace of a UUID, of sectors or raw.
///
/// Power wasn't cut. Refusals, of which the first that holds is answered: `NoSuch`, no label has the UUID; `NotComplete`, its
/// labels make no complete namespace; `NotSector`, it is neither raw nor of sectors. What is found lies in its region's set
/// in whole units. Only a namespace that isn't one of sectors takes memory.
pub fn find_place(
    alloc: Global,
    registry: &Registry,
    uuid: &Uuid,
) -> Result<Result<Found, OpRefused>, AllocError>
    requires running { registry.now.stopped ≡ false }
    requires held { AreHeld registry.now.areas }
    ensures place { IfOk result (λ found. found ≡ place_of registry.now.sets (lookup uuid.now (namespaces_in (state_of registry.now)).entries)) }
    ensures lies { IfOk result (λ found. IfOk found (LiesInSet registry.now.sets)) }
{
    match registry.find(uuid) {
        Ok(found) => Ok(Ok(found)),
        Err(OpRefused::NotSector) => find_raw(alloc, registry, uuid),
        Err(refused) => Ok(Err(refused)),
    }
}
