ghost use Rattle.std.specs.Prelude.{◌≡◌, ◌<◌, ◌*◌, ◌^◌, ◌∷◌, [], List, length, IfOk};
ghost use Rattle.nvd_words.specs.Checks.{Answers, first_fault, value_unless};
ghost use Rattle.nfit_reader.specs.declared.structures.Structure.{Structure};
ghost use Rattle.nfit_reader.specs.Table.{nfit_reading, table_reading, nfit_of, too_large, aliasing, ranges_of, links_of};
ghost use Rattle.nfit_reader.specs.Names.{IsNamed};
ghost use Rattle.nfit_reader.specs.Counted.{AreCounted, NamesItsModules};

use crate::alias::{alias_fault, dpa_ranges_of};
use crate::header::{header_fault, said};
use crate::modules::{modules_of, places_of};
use crate::names::{Names, first_missing, named};
use crate::regions::{links_of, ranges_of, regions_of};
use crate::structures::{Link, Range, Structure, structures_in};
use crate::table::{Nfit, NfitFault};
use nvd_words::Items;
use std::alloc::Global;

/// The most modules that a table may have: this project's rule.
const MODULES: usize = 64;

/// Reads a table: its modules and regions, or the first fault, in the order of `NfitFault`. Each
/// region has a mapping, and all counts are below 2^32 (`AreCounted`). Each mapping is of one of
/// the table's modules, at most 64 (`NamesItsModules`).
///
/// `bytes` may be longer than the table's Length; the rest is ignored. `OutOfMemory` may replace
/// any other result if memory runs out. No state is kept between calls.
///
/// - `Signature`, `Length`, `Checksum`: faults of the header (ACPI 6.5, section 5.2.25). A missing
///   byte of the Length field counts as zero.
/// - `Structure`: the first offset, in bytes from the table's start, with no complete structure.
/// - `TwiceIndex`: the first structure whose type and index occur again later.
/// - `MissingIndex`: the first mapping that names a missing structure. In one mapping the order is:
///   its range (unless the index is 0); then, if that is persistent memory, its control region and
///   its interleave structure (unless the index is 0).
/// - `TooLarge`: more than 64 device handles, which is this project's rule.
/// - `Alias`: the first pair, by place in the table, of mappings of one module into two regions
///   that share bytes of the module; `a` is the region of the earlier mapping. This project's rule.
#[tactic(auto, using(crate::proofs::Readings::readings))]
pub fn read_nfit(alloc: Global, bytes: &[u8]) -> Result<Nfit, NfitFault>
    ensures reading { Answers NfitFault.OutOfMemory result (nfit_reading bytes.now) }
    ensures counted { IfOk result AreCounted }
    ensures few { IfOk result (λ nfit. length nfit.regions < 2 ^ 32) }
    ensures modules { IfOk result NamesItsModules }
{
    if let Some(fault) = header_fault(bytes) {
        return Err(fault);
    }
    let table = &bytes[..said(bytes) as usize];
    table_of(alloc, structures_in(alloc, table)?)
}

/// Returns the modules and regions of a table with complete structures.
#[tactic(auto, using(nvd_words::proofs::Checks::faults), unfolding(crate::specs::Table::table_reading))]
fn table_of(alloc: Global, structures: Items<Structure>) -> Result<Nfit, NfitFault>
    requires { 4 * length structures < 2 ^ 32 }
    ensures { Answers NfitFault.OutOfMemory result (table_reading structures) }
{
    let ranges = ranges_of(alloc, structures.as_slice())?;
    let links = links_of(alloc, structures.as_slice())?;
    let (names, twice) = named(alloc, structures)?;
    if let Some(fault) = twice {
        return Err(fault);
    }
    if let Some(fault) = first_missing(&names, &links) {
        return Err(fault);
    }
    nfit_of(alloc, &names, &ranges, &links)
}

/// Returns the modules and regions of a table in which each index names one structure.
#[tactic(auto, using(nvd_words::proofs::Checks::faults))]
fn nfit_of(
    alloc: Global,
    names: &Names,
    ranges: &[Range],
    links: &[Link],
) -> Result<Nfit, NfitFault>
    requires few_ranges { length ranges.now < 2 ^ 32 }
    requires few_links { length links.now < 2 ^ 32 }
    ensures { (structures : List Structure) → IsNamed names.now structures →
        ranges.now ≡ ranges_of structures → links.now ≡ links_of structures →
        Answers NfitFault.OutOfMemory result (value_unless (nfit_of structures)
        (first_fault (too_large structures ∷ aliasing structures ∷ []))) }
{
    let modules = modules_of(alloc, links)?;
    if MODULES < modules.len() {
        return Err(NfitFault::TooLarge {
            modules: modules.len() as u32,
        });
    }
    let numbers = places_of(alloc, modules.as_slice())?;
    let regions = regions_of(alloc, names, &numbers, ranges, links)?;
    let dpa_ranges = dpa_ranges_of(alloc, &numbers, regions.as_slice(), links)?;
    match alias_fault(alloc, dpa_ranges.as_slice())? {
        Some(fault) => Err(fault),
        None => Ok(Nfit { modules, regions }),
    }
}
