//! What the labels of one UUID make.
ghost use Rattle.std.specs.Prelude.{◌≡◌, ◌<◌, ◌^◌, ◌++◌, None, IfOk, OnOk, length, map};
ghost use Rattle.std.specs.Option.{option_map, option_to_list};
ghost use Rattle.namespace_map.specs.Namespaces.{extent_of, region_of, shown_name, status_in};
ghost use Rattle.namespace_areas.specs.GroupSeen.{namespace_in, namespace_with, number_in};

use crate::Regions;
use interleave::InterleaveSet;
use label_codec::Name;
use label_set::{Placed, SetStatus, Why, is_outside, some_local, status};
use namespace_map::Namespace;
use nvd_words::Items;
use region_space::Extent;
use std::alloc::{AllocError, Global};

/// The first region whose mapping has the whole extent of a label, with its set.
pub fn region_of<'a>(sets: &'a [InterleaveSet], label: &Placed) -> Option<(u32, &'a InterleaveSet)>
    requires few { length sets.now < 2 ^ 32 }
    ensures { option_map (λ region. (region.0, region.1.now)) result ≡ region_of sets.now label.now }
{
    for (number, set) in sets.iter().enumerate() {
        if !is_outside(set, label) {
            return Some((number as u32, set));
        }
    }
    None
}

/// What labels make that lie in no region; the first of them is given.
fn unplaced(labels: &[Placed], first: &Placed) -> SetStatus
    ensures { result ≡ status_in None labels.now first.now }
{
    if some_local(labels) {
        return SetStatus::Local;
    }
    SetStatus::Incomplete {
        why: Why::Outside {
            module: first.module,
        },
    }
}

/// What labels make by the region in which the first of them lies.
pub fn status_in(
    region: Option<(u32, &InterleaveSet)>,
    labels: &[Placed],
    first: &Placed,
) -> SetStatus
    requires { 0 < length labels.now }
    ensures { result ≡ status_in (option_map (λ region. (region.0, region.1.now)) region.entry) labels.now first.now }
{
    match region {
        Some((_, set)) => status(set, labels),
        None => unplaced(labels, first),
    }
}

/// The number of a region.
pub fn number_of(region: Option<(u32, &InterleaveSet)>) -> Option<u32>
    ensures { result ≡ option_map number_in (option_map (λ region. (region.0, region.1.now)) region.entry) }
{
    match region {
        Some((number, _)) => Some(number),
        None => None,
    }
}

/// The name of a namespace: that of its status, else its first label's.
pub fn shown_name(status: &SetStatus, first: &Placed) -> Name
    ensures { result ≡ shown_name status.now first.now }
{
    match status {
        SetStatus::Complete { name, .. } => *name,
        _ => first.label.name,
    }
}

/// The bytes that a label reserves.
pub fn extent_of(label: &Placed) -> Extent
    ensures { result ≡ extent_of label.now }
{
    Extent {
        owner: label.label.uuid,
        module: label.module,
        start: label.label.dpa,
        length: label.label.raw,
    }
}

/// The bytes that labels reserve.
pub fn extents_of(alloc: Global, labels: &[Placed]) -> Result<Vec<Extent>, AllocError>
    ensures { IfOk result (λ extents. extents.items ≡ map extent_of labels.now) }
{
    labels.iter().map(extent_of).collect(alloc)
}

/// What a caller sees of the labels of one UUID, of which the first is given.
#[tactic(auto, unfolding(crate::specs::GroupSeen::namespace_with))]
pub fn namespace_with(
    alloc: Global,
    regions: &Regions,
    labels: &[Placed],
    first: &Placed,
) -> Result<Namespace, AllocError>
    requires some { 0 < length labels.now }
    ensures { IfOk result (λ namespace. namespace ≡ namespace_with regions.now labels.now first.now) }
{
    let region = regions.region_of(first);
    let status = status_in(region, labels, first);
    Ok(Namespace {
        uuid: first.label.uuid,
        name: shown_name(&status, first),
        region: number_of(region),
        mode: first.label.mode(),
        lba: first.label.lba,
        extents: Items::from_vec(extents_of(alloc, labels)?),
        status,
        claims: 0,
    })
}

/// Adds what a caller sees of the labels of one UUID, if there is one.
pub fn add_namespace(
    alloc: Global,
    regions: &Regions,
    labels: &[Placed],
    listed: &mut Items<Namespace>,
) -> Result<(), AllocError>
    ensures { OnOk result (listed.new ≡ listed.old ++ option_to_list (namespace_in regions.now labels.now)) }
{
    if let Some(first) = labels.first() {
        listed.push(namespace_with(alloc, regions, labels, first)?)?;
    }
    Ok(())
}
