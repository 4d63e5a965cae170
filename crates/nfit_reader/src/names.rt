//! What the indices of the table name.

ghost use Rattle.std.specs.Prelude.{◌≡◌, ◌∷◌, [], List, IfOk, OnOk, if◌then◌else◌};
ghost use Rattle.std.specs.Prelude.{map, option_copied, is_some};
ghost use Rattle.std.specs.List.{filter_map};
ghost use Rattle.std.specs.Ordering.{nat_cmp};
ghost use Rattle.std.specs.BTreeMap as tree;
ghost use Rattle.nvd_words.specs.Checks.{first_fault};
ghost use Rattle.nfit_reader.specs.declared.structures.Structure.{Structure};
ghost use Rattle.nfit_reader.specs.Table.{name_of, twice_in, missing_of, is_persistent, is_into_persistent, lacks_range, lacks_identity, lacks_lines};
ghost use Rattle.nfit_reader.specs.Names.{IsNamed, again_in};

use crate::structures::{Link, Range, Structure};
use crate::table::{Identity, Lines, NfitFault};
use nvd_words::Items;
use std::alloc::{AllocError, Global};
use std::collections::BTreeMap;

/// The structures by index. If two have the same index, the first counts.
#[derive(Drop)]
pub(crate) struct Names {
    ranges: BTreeMap<u16, Range>,
    lines: BTreeMap<u16, Lines>,
    identities: BTreeMap<u16, Identity>,
}

fn twice_if(again: bool, kind: u16, index: u16) -> Option<NfitFault>
    ensures { result ≡ (if again then Some (NfitFault.TwiceIndex kind index) else None) }
{
    if again {
        Some(NfitFault::TwiceIndex { kind, index })
    } else {
        None
    }
}

impl Names {
    fn new(alloc: Global) -> Names
        ensures { IsNamed result [] }
    {
        Names {
            ranges: BTreeMap::new(alloc),
            lines: BTreeMap::new(alloc),
            identities: BTreeMap::new(alloc),
        }
    }

    /// Adds a structure that comes before all others. The fault is set if one of the others has its
    /// type and index.
    fn add(&mut self, structure: Structure) -> Result<Option<NfitFault>, AllocError>
        ensures named { (rest : List Structure) → IsNamed self.old rest →
            OnOk result (IsNamed self.new (structure ∷ rest)) }
        ensures again { (rest : List Structure) → IsNamed self.old rest →
            IfOk result (λ again. again ≡ again_in structure rest) }
    {
        match structure {
            Structure::Range(range) => {
                let old = self.ranges.insert(range.index, range)?;
                Ok(twice_if(old.is_some(), 0, range.index))
            }
            Structure::Interleave(interleave) => {
                let index = interleave.index;
                let old = self.lines.insert(index, interleave.lines)?;
                Ok(twice_if(old.is_some(), 2, index))
            }
            Structure::Control(control) => {
                let old = self.identities.insert(control.index, control.identity)?;
                Ok(twice_if(old.is_some(), 4, control.index))
            }
            Structure::Mapping(_) => Ok(None),
            Structure::PassedOver => Ok(None),
        }
    }

    pub(crate) fn range(&self, index: u16) -> Option<Range>
        ensures { result ≡ tree.get nat_cmp self.now.ranges index }
    {
        self.ranges.get(&index).copied()
    }

    pub(crate) fn lines(&self, index: u16) -> Option<&Lines>
        ensures { option_copied result ≡ tree.get nat_cmp self.now.lines index }
    {
        self.lines.get(&index)
    }

    pub(crate) fn identity(&self, index: u16) -> Option<Identity>
        ensures { result ≡ tree.get nat_cmp self.now.identities index }
    {
        self.identities.get(&index).copied()
    }

    fn is_into_persistent(&self, link: Link) -> bool
        ensures { (structures : List Structure) → IsNamed self.now structures →
            result ≡ is_into_persistent structures link }
    {
        is_persistent(self.range(link.range))
    }

    #[tactic(auto, unfolding(crate::specs::Table::lacks_range))]
    fn lacks_range(&self, link: Link) -> bool
        ensures { (structures : List Structure) → IsNamed self.now structures →
            result ≡ lacks_range structures link }
    {
        link.range != 0 && self.range(link.range).is_none()
    }

    #[tactic(auto, unfolding(crate::specs::Table::lacks_identity))]
    fn lacks_identity(&self, link: Link) -> bool
        ensures { (structures : List Structure) → IsNamed self.now structures →
            result ≡ lacks_identity structures link }
    {
        self.is_into_persistent(link) && self.identity(link.control).is_none()
    }

    #[tactic(auto, unfolding(crate::specs::Table::lacks_lines))]
    fn lacks_lines(&self, link: Link) -> bool
        ensures { (structures : List Structure) → IsNamed self.now structures →
            result ≡ lacks_lines structures link }
    {
        self.is_into_persistent(link) && link.interleave != 0 && !self.has_lines(link.interleave)
    }

    fn has_lines(&self, index: u16) -> bool
        ensures { result ≡ is_some (tree.get nat_cmp self.now.lines index) }
    {
        self.lines(index).is_some()
    }

    /// Returns the fault of the first index of a mapping that names nothing, if there is one.
    #[tactic(auto, using(crate::proofs::Firsts::firsts), unfolding(crate::specs::Table::missing_of))]
    fn missing(&self, link: Link) -> Option<NfitFault>
        ensures { (structures : List Structure) → IsNamed self.now structures →
            result ≡ missing_of structures link }
    {
        if self.lacks_range(link) {
            return Some(missing_index(0, link.range));
        }
        if self.lacks_identity(link) {
            return Some(missing_index(4, link.control));
        }
        if self.lacks_lines(link) {
            return Some(missing_index(2, link.interleave));
        }
        None
    }
}

fn missing_index(kind: u16, index: u16) -> NfitFault
    ensures { result ≡ NfitFault.MissingIndex kind index }
{
    NfitFault::MissingIndex { kind, index }
}

fn is_persistent(range: Option<Range>) -> bool
    ensures { result ≡ is_persistent range }
{
    match range {
        Some(range) => range.persistent,
        None => false,
    }
}

/// Returns the structures by index, and the fault of the first structure whose type and index occur
/// again later. It goes from the last structure to the first.
pub(crate) fn named(
    alloc: Global,
    structures: Items<Structure>,
) -> Result<(Names, Option<NfitFault>), AllocError>
    ensures named { IfOk result (λ found. IsNamed found.0 structures) }
    ensures twice { IfOk result (λ found. found.1 ≡ twice_in (filter_map name_of structures)) }
{
    let mut names = Names::new(alloc);
    let mut twice = None;
    let mut left = structures.into_vec();
    while let Some(structure) = left.pop() {
        twice = names.add(structure)?.or(twice);
    }
    Ok((names, twice))
}

/// Returns the fault of the first mapping that names a missing structure.
pub(crate) fn first_missing(names: &Names, links: &[Link]) -> Option<NfitFault>
    ensures { (structures : List Structure) → IsNamed names.now structures →
        result ≡ first_fault (map (missing_of structures) links.now) }
{
    for link in links {
        let missing = names.missing(*link);
        if missing.is_some() {
            return missing;
        }
    }
    None
}
