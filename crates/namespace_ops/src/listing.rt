//! The namespaces as a caller sees them, with their claims.
ghost use Rattle.std.specs.Prelude.{◌≡◌, ◌<◌, IfOk, length, map};
ghost use Rattle.namespace_map.specs.Namespaces.{entries_of, entry_with, namespace_of, uuid_of};
ghost use Rattle.namespace_ops.specs.Claims.{count_of};

use crate::claims::Claims;
use label_set::Placed;
use namespace_areas::{LabelGroups, Regions, namespace_with};
use namespace_map::Namespace;
use nvd_words::Items;
use std::alloc::{AllocError, Global};

/// The namespace of the labels of one UUID, of which the first is given.
#[tactic(auto, unfolding(namespace_areas::specs::GroupSeen::namespace_with))]
fn counted(
    alloc: Global,
    regions: &Regions,
    labels: &[Placed],
    first: &Placed,
    claims: &Claims,
) -> Result<Namespace, AllocError>
    requires some { 0 < length labels.now }
    ensures { IfOk result (λ namespace. namespace ≡ namespace_of (entry_with regions.now labels.now first.now) (count_of claims.now.counts (uuid_of first.now))) }
{
    let mut namespace = namespace_with(alloc, regions, labels, first)?;
    namespace.claims = claims.count(&first.label.uuid);
    Ok(namespace)
}

/// All namespaces, rising by UUID.
pub(crate) fn listed(
    alloc: Global,
    regions: &Regions,
    groups: &LabelGroups,
    claims: &Claims,
) -> Result<Items<Namespace>, AllocError>
    ensures { IfOk result (λ listed. listed ≡ map (λ e. namespace_of e (count_of claims.now.counts e.uuid)) (entries_of regions.now groups.now.sorted)) }
{
    let mut listed = Items::new(alloc);
    let mut at = 0;
    while at < groups.labels().len() {
        let group = groups.group_from(at);
        listed.push(counted(alloc, regions, group, &group[0], claims)?)?;
        at += group.len();
    }
    Ok(listed)
}
