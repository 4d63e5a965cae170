//! Mappings into two regions that share bytes of a module.

ghost use Rattle.std.specs.Prelude.{◌≡◌, ◌==◌, ◌<◌, ◌^◌, ◌+◌, ℕ, List, map, length, drop, find, IfOk, IsTrue, None, option_copied};
ghost use Rattle.std.specs.List.{filter_map, position_from};
ghost use Rattle.std.specs.Ordering.{nat_cmp};
ghost use Rattle.std.specs.BTreeMap as tree;
ghost use Rattle.nfit_reader.specs.declared.structures.Structure.{Structure};
ghost use Rattle.nfit_reader.specs.Table.{is_alias, alias_in, place_of, dpa_range_of, regions_of};
ghost use Rattle.nfit_reader.specs.Names.{IsNumbered, IsPlaced};
ghost use Rattle.nfit_reader.specs.Apart.{is_before, StandApart};

use crate::modules::places_of;
use crate::regions::push_some;
use crate::structures::Link;
use crate::table::{NfitFault, Region};
use nvd_words::Items;
use std::alloc::{AllocError, Global};
use std::collections::BTreeMap;

/// The device physical addresses (DPA) that a mapping into a region takes on its module. DPA ranges
/// are ordered by module, then by start.
#[derive(Clone, Copy, PartialEq, Eq, PartialOrd, Ord)]
pub(crate) struct DpaRange {
    pub module: u32,
    pub start: u64,
    pub size: u64,
    pub region: u32,
}

/// Returns whether two DPA ranges of one module, in two regions, share a byte.
#[tactic(auto, unfolding(crate::specs::Table::is_alias))]
fn is_alias(a: DpaRange, b: DpaRange) -> bool
    ensures { result ≡ is_alias a b }
{
    let end_of_a = u128::from(a.start) + u128::from(a.size);
    let end_of_b = u128::from(b.start) + u128::from(b.size);
    a.module == b.module
        && a.region != b.region
        && u128::from(a.start.max(b.start)) < end_of_a.min(end_of_b)
}

/// Returns the first of these DPA ranges that is an alias of `a`.
fn first_alias(a: DpaRange, others: &[DpaRange]) -> Option<DpaRange>
    ensures { result ≡ find (is_alias a) others.now }
{
    others.iter().copied().find(|b| is_alias(a, *b))
}

fn others_after(dpa_ranges: &[DpaRange], place: usize) -> &[DpaRange]
    requires { place < length dpa_ranges.now }
    ensures { result.now ≡ drop (place + 1) dpa_ranges.now }
{
    &dpa_ranges[place + 1..]
}

/// Returns the fault of the first DPA range that has an alias after it, with the first such alias.
fn alias_in(dpa_ranges: &[DpaRange]) -> Option<NfitFault>
    ensures { result ≡ alias_in dpa_ranges.now }
{
    for (place, a) in dpa_ranges.iter().enumerate() {
        if let Some(b) = first_alias(*a, others_after(dpa_ranges, place)) {
            return Some(NfitFault::Alias {
                module: a.module,
                a: a.region,
                b: b.region,
            });
        }
    }
    None
}

/// Returns whether DPA range `a` is of a module before `b`'s, or ends before `b` starts on the same
/// module.
#[tactic(auto, unfolding(crate::specs::Apart::is_before))]
fn is_before(a: DpaRange, b: DpaRange) -> bool
    ensures { result ≡ is_before a b }
{
    a.module < b.module
        || (a.module == b.module && u128::from(a.start) + u128::from(a.size) <= u128::from(b.start))
}

fn stand_apart(sorted: &[DpaRange]) -> bool
    ensures { IsTrue result → StandApart sorted.now }
{
    for place in 1..sorted.len() {
        if !is_before(sorted[place - 1], sorted[place]) {
            return false;
        }
    }
    true
}

/// Returns true only if no two DPA ranges of one module meet. It sorts them, in n log n steps. If it
/// returns false, each pair must be compared.
fn is_apart(alloc: Global, dpa_ranges: &[DpaRange]) -> Result<bool, AllocError>
    ensures { IfOk result (λ apart. IsTrue apart → alias_in dpa_ranges.now ≡ None) }
{
    let mut sorted = Vec::from_slice(alloc, dpa_ranges)?;
    sorted.sort()?;
    Ok(stand_apart(&sorted))
}

/// Returns the fault of the first alias, if there is one.
pub(crate) fn alias_fault(
    alloc: Global,
    dpa_ranges: &[DpaRange],
) -> Result<Option<NfitFault>, AllocError>
    ensures { IfOk result (λ fault. fault ≡ alias_in dpa_ranges.now) }
{
    if is_apart(alloc, dpa_ranges)? {
        return Ok(None);
    }
    Ok(alias_in(dpa_ranges))
}

/// Maps each index to the number of the first region with it.
fn region_numbers(alloc: Global, regions: &[Region]) -> Result<BTreeMap<u32, u32>, AllocError>
    requires { length regions.now < 2 ^ 32 }
    ensures { IfOk result (λ places. (index : ℕ) → tree.get nat_cmp places index
        ≡ position_from (λ r. r.index == index) 0 regions.now) }
{
    let mut indices = Vec::new(alloc);
    for region in regions {
        indices.push(u32::from(region.index))?;
    }
    places_of(alloc, &indices)
}

#[tactic(auto, unfolding(crate::specs::Table::dpa_range_of))]
fn dpa_range_of(
    numbers: &BTreeMap<u32, u32>,
    places: &BTreeMap<u32, u32>,
    link: Link,
) -> Option<DpaRange>
    ensures { (structures : List Structure) → IsNumbered numbers.now structures →
        IsPlaced places.now structures → result ≡ dpa_range_of structures link }
{
    let region = places.get(&u32::from(link.range)).copied()?;
    Some(DpaRange {
        module: numbers.get(&link.handle).copied().unwrap_or(0),
        region,
        start: link.start,
        size: link.size,
    })
}

/// Returns the DPA ranges of the mappings into regions, in the order of the table.
pub(crate) fn dpa_ranges_of(
    alloc: Global,
    numbers: &BTreeMap<u32, u32>,
    regions: &[Region],
    links: &[Link],
) -> Result<Items<DpaRange>, AllocError>
    requires { length regions.now < 2 ^ 32 }
    ensures { (structures : List Structure) → IsNumbered numbers.now structures →
        regions.now ≡ regions_of structures →
        IfOk result (λ dpa_ranges. dpa_ranges ≡ filter_map (dpa_range_of structures) links.now) }
{
    let places = region_numbers(alloc, regions)?;
    let mut dpa_ranges = Items::new(alloc);
    for link in links {
        push_some(&mut dpa_ranges, dpa_range_of(numbers, &places, *link))?;
    }
    Ok(dpa_ranges)
}
