//! Whether a module's contents hold all mappings on it.
ghost use Rattle.std.specs.Prelude.{◌≡◌};
ghost use Rattle.set_objects.specs.Found.{end_fault, passes_end, region_end_fault, regions_end_fault};

use image_set::LoadFault;
use nfit_reader::{Mapping, Region};
use nvd_media::Object;

/// Returns whether a mapping is on a module and passes the end of its contents of `bytes` bytes.
fn passes_end(mapping: &Mapping, module: u32, bytes: u64) -> bool
    ensures { result ≡ passes_end «module» bytes mapping.now }
{
    mapping.module == module && (bytes as u128) < mapping.start as u128 + mapping.size as u128
}

/// Returns the fault of a mapping that does so.
fn mapping_fault(mapping: &Mapping, module: u32, bytes: u64) -> Option<LoadFault>
    ensures { result ≡ end_fault «module» bytes mapping.now }
{
    if passes_end(mapping, module, bytes) {
        let object = Object::Contents(module);
        Some(LoadFault::Size { object, bytes })
    } else {
        None
    }
}

/// Returns the fault of the first of a region's mappings that does so.
fn region_fault(mappings: &[Mapping], module: u32, bytes: u64) -> Option<LoadFault>
    ensures { result ≡ region_end_fault «module» bytes mappings.now }
{
    for mapping in mappings {
        if let Some(fault) = mapping_fault(mapping, module, bytes) {
            return Some(fault);
        }
    }
    None
}

/// Returns the fault of the first of all mappings, region by region, that is on a module and passes
/// the end of its contents of `bytes` bytes.
pub(crate) fn mappings_fault(regions: &[Region], module: u32, bytes: u64) -> Option<LoadFault>
    ensures { result ≡ regions_end_fault «module» bytes regions.now }
{
    for region in regions {
        if let Some(fault) = region_fault(region.mappings.as_slice(), module, bytes) {
            return Some(fault);
        }
    }
    None
}
