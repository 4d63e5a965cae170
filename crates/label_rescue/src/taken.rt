//! Whether the place of a missing label is taken by a label of another UUID.
ghost use Rattle.std.specs.Prelude.{◌≡◌, ◌^◌, ◌<◌, length, slice_index_or};
ghost use Rattle.std.specs.List.{list_any};
ghost use Rattle.nfit_reader.specs.declared.table.Mapping.{Mapping};
ghost use Rattle.region_space.specs.Space.{clash};
ghost use Rattle.label_rescue.specs.Rescue.{extent_in, extent_on, is_taken, is_taken_on};

use crate::missing::has_extent;
use interleave::InterleaveSet;
use namespace_areas::Found;
use namespace_map::Namespace;
use region_space::Extent;
use uuid::Uuid;

/// What a missing label would reserve: bytes of one module.
#[derive(Clone, Copy, Debug)]
struct Place {
    owner: Uuid,
    module: u32,
    /// The device address of the first byte.
    start: u128,
    /// The size in bytes.
    length: u64,
}

/// Returns whether an extent of another owner overlaps a place.
fn clashes(place: &Place, other: &Extent) -> bool
    requires { place.now.start < 2 ^ 65 }
    ensures { result ≡ clash (extent_in place.now) other.now }
{
    place.owner != other.owner
        && place.module == other.module
        && place.start < u128::from(other.start) + u128::from(other.length)
        && u128::from(other.start) < place.start + u128::from(place.length)
}

/// Returns whether one of some extents is of another owner and overlaps a place.
fn has_clash(place: &Place, extents: &[Extent]) -> bool
    requires { place.now.start < 2 ^ 65 }
    ensures { result ≡ list_any (clash (extent_in place.now)) extents.now }
{
    extents.iter().any(|other| clashes(place, other))
}

/// Returns whether a label of another owner reserves some bytes of a place.
fn is_taken(namespaces: &[Namespace], place: &Place) -> bool
    requires { place.now.start < 2 ^ 65 }
    ensures { result ≡ is_taken namespaces.now (extent_in place.now) }
{
    namespaces
        .iter()
        .any(|other| has_clash(place, other.extents.as_slice()))
}

/// Returns what a namespace's label reserves on the module at a position.
fn place_at(set: &InterleaveSet, position: u32, owner: &Uuid, found: &Found) -> Place
    requires { position < length set.now }
    ensures place { (blank : Mapping) → extent_in result ≡ extent_on owner.now found.now (slice_index_or set.now position blank) }
    ensures small { result.start < 2 ^ 65 }
{
    Place {
        owner: *owner,
        module: set.module_at(position),
        start: u128::from(set.start(position)) + u128::from(found.offset),
        length: found.raw,
    }
}

/// Returns whether the label of the module at a position is missing, and its place is taken.
fn is_taken_at(
    set: &InterleaveSet,
    position: u32,
    namespaces: &[Namespace],
    namespace: &Namespace,
    found: &Found,
) -> bool
    requires { position < length set.now }
    ensures { (blank : Mapping) → result ≡ is_taken_on namespaces.now namespace.now found.now (slice_index_or set.now position blank) }
{
    if has_extent(namespace.extents.as_slice(), set.module_at(position)) {
        return false;
    }
    is_taken(namespaces, &place_at(set, position, &namespace.uuid, found))
}

/// Returns whether the place of a missing label of a namespace is taken.
pub(crate) fn is_disputed(
    set: &InterleaveSet,
    namespaces: &[Namespace],
    namespace: &Namespace,
    found: &Found,
) -> bool
    ensures { result ≡ list_any (is_taken_on namespaces.now namespace.now found.now) set.now }
{
    for position in 0..set.ways() {
        if is_taken_at(set, position, namespaces, namespace, found) {
            return true;
        }
    }
    false
}
