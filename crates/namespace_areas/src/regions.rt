//! The interleave sets of all regions, and which of them have a mapping of a module.
ghost use Rattle.std.specs.Prelude.{◌≡◌, ℕ, List, ◌<◌, ◌≤◌, ◌^◌, is_some, length, IfOk, Some, slice_get};
ghost use Rattle.std.specs.List.{AllByRecursion};
ghost use Rattle.std.specs.Option.{option_map};
ghost use Rattle.label_set.specs.Rules.{mapping_of};
ghost use Rattle.namespace_map.specs.Namespaces.{region_of};
ghost use Rattle.namespace_areas.specs.Regions.{AreOnModules, found_among, regions_on};

use crate::region_of;
use interleave::InterleaveSet;
use label_set::{Placed, is_outside};
use nvd_words::Items;
use std::alloc::{AllocError, Global};
use std::marker::Model;

/// The interleave sets of all regions, by region number. Contracts see it as the list of these sets.
///
/// A table of up to 1 MiB has some ten thousand regions, and each label asks in which of them it lies. So for each module the
/// regions stand by themselves that have a mapping of it: a label is compared with those alone.
#[derive(Debug, Drop)]
pub struct Regions {
    sets: Items<InterleaveSet>,
    /// By module: the numbers of the regions that have a mapping of it, rising.
    on_modules: Vec<Vec<u32>>,
}

impl Model for Regions {
    ghost use Rattle.std.specs.Prelude.{◌<◌, ◌^◌, List, length};
    ghost use Rattle.nfit_reader.specs.declared.table.Mapping.{Mapping};
    ghost use Rattle.namespace_areas.specs.Regions.{AreOnModules};

    ghost Value = { List (List Mapping) };

    ghost view = { λ regions. regions.sets };

    ghost invariant = { λ regions. (length regions.sets < 2 ^ 32) × AreOnModules regions.sets regions.on_modules.items };
}

/// Returns whether a set has a mapping of a module.
fn is_on(set: &InterleaveSet, module: u32) -> bool
    ensures { result ≡ is_some (mapping_of set.now «module») }
{
    set.position(module).is_some()
}

/// Returns the numbers of the regions that have a mapping of a module, rising.
fn regions_on(alloc: Global, sets: &[InterleaveSet], module: u32) -> Result<Vec<u32>, AllocError>
    requires few { length sets.now < 2 ^ 32 }
    ensures { IfOk result (λ numbers. numbers.items ≡ regions_on sets.now «module») }
{
    let mut numbers = Vec::new(alloc);
    for (number, set) in sets.iter().enumerate() {
        if is_on(set, module) {
            numbers.push(number as u32)?;
        }
    }
    Ok(numbers)
}

/// Returns the regions of each module below a number.
fn on_modules(
    alloc: Global,
    sets: &[InterleaveSet],
    modules: u32,
) -> Result<Vec<Vec<u32>>, AllocError>
    requires few { length sets.now < 2 ^ 32 }
    ensures regions { IfOk result (λ lists. AreOnModules sets.now lists.items) }
    ensures count { IfOk result (λ lists. length lists.items ≡ modules) }
{
    let mut lists = Vec::new(alloc);
    for module in 0..modules {
        lists.push(regions_on(alloc, sets, module)?)?;
    }
    Ok(lists)
}

/// Returns the first of some regions in whose mapping a label lies whole, with its set.
fn found_among<'a>(
    sets: &'a [InterleaveSet],
    numbers: &[u32],
    label: &Placed,
) -> Option<(u32, &'a InterleaveSet)>
    requires inside { AllByRecursion (λ number. number < length sets.now) numbers.now }
    ensures { option_map (λ region. (region.0, region.1.now)) result ≡ found_among sets.now label.now numbers.now }
{
    for number in numbers {
        let set = &sets[*number as usize];
        if !is_outside(set, label) {
            return Some((*number, set));
        }
    }
    None
}

impl Regions {
    /// Takes the sets of all regions, and finds the regions of each of so many modules.
    ///
    /// It allocates four bytes for each mapping. The one error is out of memory.
    pub fn of(
        alloc: Global,
        sets: Items<InterleaveSet>,
        modules: u32,
    ) -> Result<Regions, AllocError>
        requires few { length sets < 2 ^ 32 }
        ensures { IfOk result (λ regions. regions ≡ sets) }
    {
        let on_modules = on_modules(alloc, sets.as_slice(), modules)?;
        Ok(Regions { sets, on_modules })
    }

    /// Returns the interleave sets, by region number.
    pub fn as_slice(&self) -> &[InterleaveSet]
        ensures { result.now ≡ self.now }
    {
        self.sets.as_slice()
    }

    /// Gives the interleave sets away, by region number.
    pub fn into_sets(self) -> Items<InterleaveSet>
        ensures { result ≡ self }
    {
        self.sets
    }

    /// Returns the first region in whose mapping a label lies whole, with its set.
    ///
    /// It looks at the regions that have a mapping of the label's module. It takes no memory.
    pub fn region_of(&self, label: &Placed) -> Option<(u32, &InterleaveSet)>
        ensures { option_map (λ region. (region.0, region.1.now)) result ≡ region_of self.now label.now }
    {
        let sets = self.sets.as_slice();
        let module = label.module as usize;
        if module < self.on_modules.len() {
            found_among(sets, &self.on_modules[module], label)
        } else {
            region_of(sets, label)
        }
    }
}
