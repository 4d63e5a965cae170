//! Regions: the ranges of persistent memory with their mappings.

ghost use Rattle.std.specs.Prelude.{◌≡◌, ◌≤◌, ◌==◌, ◌++◌, OnOk, length, ℕ, List, [], map, filter, IfOk, unwrap_or, Some, None, if◌then◌else◌};
ghost use Rattle.std.specs.Option.{option_to_list};
ghost use Rattle.std.specs.List.{filter_map};
ghost use Rattle.std.specs.Ordering.{nat_cmp};
ghost use Rattle.std.specs.BTreeMap as tree;
ghost use Rattle.nfit_reader.specs.declared.structures.Structure.{Structure};
ghost use Rattle.nfit_reader.specs.Table.{mapping_of, region_of, regions_of, is_region, as_range, as_link, links_of, links_into, ranges_of};
ghost use Rattle.nfit_reader.specs.Names.{IsNamed, IsNumbered, IsGrouped, items_of, region_where};

use crate::names::Names;
use crate::structures::{Link, Range, Structure};
use crate::table::{Identity, Lines, Mapping, Region};
use nvd_words::Items;
use std::alloc::{AllocError, Global};
use std::collections::BTreeMap;

/// The ranges among structures.
pub(crate) fn ranges_of(alloc: Global, structures: &[Structure]) -> Result<Vec<Range>, AllocError>
    ensures { IfOk result (λ ranges. ranges.items ≡ filter_map as_range structures.now) }
{
    structures
        .iter()
        .filter_map(|structure| structure.as_range())
        .collect(alloc)
}

/// The mappings among structures.
pub(crate) fn links_of(alloc: Global, structures: &[Structure]) -> Result<Vec<Link>, AllocError>
    ensures { IfOk result (λ links. links.items ≡ filter_map as_link structures.now) }
{
    structures
        .iter()
        .filter_map(|structure| structure.as_link())
        .collect(alloc)
}

fn lines_of(names: &Names, index: u16) -> Result<Option<Lines>, AllocError>
    ensures { IfOk result (λ lines. lines ≡ tree.get nat_cmp names.now.lines index) }
{
    match names.lines(index) {
        Some(lines) => Ok(Some(lines.share()?)),
        None => Ok(None),
    }
}

/// The identity of a missing control region.
const NO_IDENTITY: Identity = Identity {
    vendor: 0,
    date: 0,
    location: 0,
    serial: 0,
};

/// Resolves the indices of a mapping.
#[tactic(auto, unfolding(crate::specs::Table::mapping_of))]
fn mapping_of(
    names: &Names,
    numbers: &BTreeMap<u32, u32>,
    link: Link,
) -> Result<Mapping, AllocError>
    ensures { (structures : List Structure) → IsNamed names.now structures →
        IsNumbered numbers.now structures →
        IfOk result (λ mapping. mapping ≡ mapping_of structures link) }
{
    let lines = lines_of(names, link.interleave)?;
    Ok(Mapping {
        module: numbers.get(&link.handle).copied().unwrap_or(0),
        size: link.size,
        offset: link.offset,
        start: link.start,
        ways: link.ways,
        lines,
        identity: names.identity(link.control).unwrap_or(NO_IDENTITY),
    })
}

/// Takes the group with an index out of the map.
#[tactic(auto, using(crate::proofs::Groups::orders))]
fn taken(alloc: Global, groups: &mut BTreeMap<u16, Vec<Link>>, index: u16) -> Vec<Link>
    ensures group { result.items ≡ items_of (tree.get nat_cmp groups.old index) }
    ensures others { (other : ℕ) → tree.get nat_cmp groups.new other
        ≡ (if index == other then None else tree.get nat_cmp groups.old other) }
{
    match groups.remove(&index) {
        Some(group) => group,
        None => Vec::new(alloc),
    }
}

/// Groups the mappings by the index of their range, each group in the order of the table.
pub(crate) fn grouped(alloc: Global, links: &[Link]) -> Result<BTreeMap<u16, Vec<Link>>, AllocError>
    ensures { IfOk result (λ groups. IsGrouped groups links.now) }
{
    let mut groups = BTreeMap::new(alloc);
    for link in links {
        let mut group = taken(alloc, &mut groups, link.range);
        group.push(*link)?;
        groups.insert(link.range, group)?;
    }
    Ok(groups)
}

fn is_region(range: Range, group: &[Link]) -> bool
    ensures { (structures : List Structure) → group.now ≡ links_into structures range.index →
        result ≡ is_region structures range }
{
    range.persistent && !group.is_empty()
}

/// Returns the region of a range, if it is persistent memory with at least one mapping.
#[tactic(auto, unfolding(crate::specs::Names::region_where, crate::specs::Table::region_of))]
fn region_where(
    alloc: Global,
    names: &Names,
    numbers: &BTreeMap<u32, u32>,
    group: &[Link],
    range: Range,
) -> Result<Option<Region>, AllocError>
    ensures { (structures : List Structure) → IsNamed names.now structures →
        IsNumbered numbers.now structures →
        group.now ≡ links_into structures range.index →
        IfOk result (λ region. region ≡ region_where structures range) }
{
    if !is_region(range, group) {
        return Ok(None);
    }
    let mappings = mappings_of(alloc, names, numbers, group)?;
    Ok(Some(Region {
        index: range.index,
        base: range.base,
        length: range.length,
        mappings,
    }))
}

fn mappings_of(
    alloc: Global,
    names: &Names,
    numbers: &BTreeMap<u32, u32>,
    group: &[Link],
) -> Result<Items<Mapping>, AllocError>
    ensures { (structures : List Structure) → IsNamed names.now structures →
        IsNumbered numbers.now structures →
        IfOk result (λ mappings. mappings ≡ map (mapping_of structures) group.now) }
{
    let mut mappings = Items::new(alloc);
    for link in group {
        mappings.push(mapping_of(names, numbers, *link)?)?;
    }
    Ok(mappings)
}

/// Returns the mappings of the group with an index.
fn group_of(groups: &BTreeMap<u16, Vec<Link>>, index: u16) -> &[Link]
    ensures { result.now ≡ items_of (tree.get nat_cmp groups.now index) }
{
    match groups.get(&index) {
        Some(group) => group,
        None => &[],
    }
}

/// Adds a value, if there is one, at the end.
pub(crate) fn push_some<T: Drop>(items: &mut Items<T>, item: Option<T>) -> Result<(), AllocError>
    ensures { OnOk result (items.new ≡ items.old ++ option_to_list item) }
{
    if let Some(item) = item {
        items.push(item)?;
    }
    Ok(())
}

/// Returns the regions, in the order of their ranges.
pub(crate) fn regions_of(
    alloc: Global,
    names: &Names,
    numbers: &BTreeMap<u32, u32>,
    ranges: &[Range],
    links: &[Link],
) -> Result<Items<Region>, AllocError>
    ensures regions { (structures : List Structure) → IsNamed names.now structures →
        IsNumbered numbers.now structures → ranges.now ≡ ranges_of structures →
        links.now ≡ links_of structures →
        IfOk result (λ regions. regions ≡ regions_of structures) }
    ensures few { IfOk result (λ regions. length regions ≤ length ranges.now) }
{
    let groups = grouped(alloc, links)?;
    let mut regions = Items::new(alloc);
    for range in ranges {
        let group = group_of(&groups, range.index);
        let region = region_where(alloc, names, numbers, group, *range)?;
        push_some(&mut regions, region)?;
    }
    Ok(regions)
}
