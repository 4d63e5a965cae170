//! Modules, numbered in the order of first appearance of their device handles.

ghost use Rattle.std.specs.Prelude.{◌≡◌, ◌^◌, ◌<◌, ◌≤◌, ℕ, [], length, map, IfOk};
ghost use Rattle.std.specs.Ordering.{nat_cmp};
ghost use Rattle.std.specs.BTreeMap as tree;
ghost use Rattle.nfit_reader.specs.Table.{distinct_after, place_of};

use crate::structures::Link;
use nvd_words::Items;
use std::alloc::{AllocError, Global};
use std::collections::{BTreeMap, BTreeSet};

/// Returns the device handle of each module, by its number.
pub(crate) fn modules_of(alloc: Global, links: &[Link]) -> Result<Items<u32>, AllocError>
    ensures numbered { IfOk result (λ modules.
        modules ≡ distinct_after [] (map (λ m. m.handle) links.now)) }
    ensures few { IfOk result (λ modules. length modules ≤ length links.now) }
{
    let mut seen = BTreeSet::new(alloc);
    let mut modules = Items::new(alloc);
    for link in links {
        if seen.insert(link.handle)? {
            modules.push(link.handle)?;
        }
    }
    Ok(modules)
}

/// Maps each key to its first place in a list.
pub(crate) fn places_of(alloc: Global, keys: &[u32]) -> Result<BTreeMap<u32, u32>, AllocError>
    requires { length keys.now < 2 ^ 32 }
    ensures { IfOk result (λ places. (key : ℕ) →
        tree.get nat_cmp places key ≡ place_of key keys.now) }
{
    let mut places = BTreeMap::new(alloc);
    for (place, key) in keys.iter().enumerate() {
        if !places.contains_key(key) {
            places.insert(*key, place as u32)?;
        }
    }
    Ok(places)
}
