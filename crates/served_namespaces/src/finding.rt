//! Sector namespaces are found by their UUIDs.
ghost use Rattle.std.specs.Prelude.{◌≡◌, ◌++◌, ◌∷◌, [], false, IfOk, OnOk};
ghost use Rattle.std.specs.List.{All, cons_option};
ghost use Rattle.namespace_areas.specs.Finding.{found_of};
ghost use Rattle.namespace_laws.specs.Apart.{EntriesApart};
ghost use Rattle.namespace_map.specs.Namespaces.{lookup};
ghost use Rattle.namespace_ops.specs.Counted.{namespaces_in};
ghost use Rattle.namespace_ops.specs.Registered.{state_of};
ghost use Rattle.served_namespaces.specs.Opening.{firsts, found_as, found_each};
ghost use Rattle.served_namespaces.specs.Places.{AreDifferent, AreDisjoint, CanOpen};
ghost use Rattle.served_namespaces.specs.Steps.{added};

use crate::places::FoundNamespace;
use crate::sets::know_sets;
use indexmap::IndexSet;
use label_codec::Mode;
use namespace_ops::Registry;
use nvd_words::Items;
use std::alloc::{AllocError, Global};
use uuid::Uuid;

/// Adds a UUID to others, if it isn't among them.
fn add(ones: &mut IndexSet<Uuid>, uuid: &Uuid) -> Result<(), AllocError>
    ensures { OnOk result (ones.new.keys ≡ added ones.old.keys uuid.now) }
{
    match ones.insert(*uuid) {
        Ok(_) => Ok(()),
        Err(_) => Err(AllocError),
    }
}

/// The set of these UUIDs, in order of their first places.
fn set_of(alloc: Global, uuids: &[Uuid]) -> Result<IndexSet<Uuid>, AllocError>
    ensures { IfOk result (λ ones. ones.keys ≡ firsts uuids.now) }
{
    let mut ones = IndexSet::new(alloc);
    for uuid in uuids {
        add(&mut ones, uuid)?;
    }
    Ok(ones)
}

/// The UUIDs of a set, in their order.
fn listed(alloc: Global, ones: &IndexSet<Uuid>) -> Result<Vec<Uuid>, AllocError>
    ensures { IfOk result (λ list. list.items ≡ ones.now.keys) }
{
    let mut list = Vec::new(alloc);
    list.extend_from_slice(ones.as_slice())?;
    Ok(list)
}

/// Returns each of these UUIDs once, in order of its first place. The one error is out of
/// memory.
pub fn first_ones(alloc: Global, uuids: &[Uuid]) -> Result<Vec<Uuid>, AllocError>
    ensures ones { IfOk result (λ ones. ones.items ≡ firsts uuids.now) }
    ensures different { IfOk result (λ ones. AreDifferent ones.items) }
{
    let set = set_of(alloc, uuids)?;
    let ones = listed(alloc, &set)?;
    Ok(ones)
}

/// Adds a namespace of sectors to others.
fn with_place(
    each: Items<FoundNamespace>,
    place: FoundNamespace,
) -> Result<Items<FoundNamespace>, AllocError>
    requires { place.found.mode ≡ Mode.Sector }
    ensures { IfOk result (λ now. now ≡ each ++ place ∷ []) }
{
    // The type of the mode must be named here: the prover looks for it in the list.
    let _mode = &place.found.mode;
    let mut each = each;
    each.push(place)?;
    Ok(each)
}

/// Finds the complete sector namespace of a UUID, and adds it to others if there is one.
fn with_found(
    each: Items<FoundNamespace>,
    registry: &Registry,
    uuid: &Uuid,
) -> Result<Items<FoundNamespace>, AllocError>
    requires running { registry.now.stopped ≡ false }
    requires lie { All (CanOpen registry.now.sets) each }
    ensures found { IfOk result (λ now. now ≡ each ++ cons_option (found_as uuid.now (found_of registry.now.sets (lookup uuid.now (namespaces_in (state_of registry.now)).entries))) []) }
    ensures lie { IfOk result (All (CanOpen registry.now.sets)) }
{
    match registry.find(uuid) {
        Ok(found) => with_place(each, FoundNamespace { uuid: *uuid, found }),
        Err(_) => Ok(each),
    }
}

/// Finds the complete sector namespaces of these UUIDs.
fn find_all(
    alloc: Global,
    registry: &Registry,
    uuids: &[Uuid],
) -> Result<Items<FoundNamespace>, AllocError>
    requires running { registry.now.stopped ≡ false }
    ensures found { IfOk result (λ each. each ≡ found_each registry.now.sets (namespaces_in (state_of registry.now)) uuids.now) }
    ensures lie { IfOk result (All (CanOpen registry.now.sets)) }
{
    let mut each = Items::new(alloc);
    for uuid in uuids {
        each = with_found(each, registry, uuid)?;
    }
    Ok(each)
}

/// Finds the complete sector namespaces of these UUIDs, in order. A UUID that has none is passed
/// over.
///
/// Power wasn't cut. If no two entries of the registry have extents that meet (what opening a
/// registry checks, and commands and recovery keep), and no UUID stands twice, then no two of
/// those that are found share an address of a module (`apart`). The one error is out of memory.
pub fn find_each(
    alloc: Global,
    registry: &Registry,
    uuids: &[Uuid],
) -> Result<Vec<FoundNamespace>, AllocError>
    requires running { registry.now.stopped ≡ false }
    ensures found { IfOk result (λ each. each.items ≡ found_each registry.now.sets (namespaces_in (state_of registry.now)) uuids.now) }
    ensures lie { IfOk result (λ each. All (CanOpen registry.now.sets) each.items) }
    ensures apart { IfOk result (λ each. EntriesApart (namespaces_in (state_of registry.now)) → AreDifferent uuids.now → AreDisjoint registry.now.sets each.items) }
{
    know_sets(registry.sets());
    let each = find_all(alloc, registry, uuids)?;
    Ok(each.into_vec())
}
