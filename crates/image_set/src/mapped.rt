//! Whether the mappings lie inside the contents of their modules.
ghost use Rattle.std.specs.Prelude.{◌≡◌, ◌<◌, ◌≤◌, ◌+◌, length, IfSome};
ghost use Rattle.std.specs.List.{All};
ghost use Rattle.image_set.specs.Sizes.{IsSizeFault, contents_of, mapping_fault_by, region_fault_by, mappings_fault_by};

use crate::fault::LoadFault;
use crate::sizes::Sizes;
use nfit_reader::{Mapping, Region};
use nvd_media::Object;

/// Returns the fault of a mapping that passes the end of its module's contents.
fn mapping_fault(mapping: &Mapping, sizes: &[Sizes]) -> Option<LoadFault>
    requires { mapping.now.«module» < length sizes.now }
    ensures fault { result ≡ mapping_fault_by (contents_of sizes.now) mapping.now }
    ensures size { IfSome result IsSizeFault }
{
    let bytes = sizes[mapping.module as usize].contents;
    if (bytes as u128) < mapping.start as u128 + mapping.size as u128 {
        let object = Object::Contents(mapping.module);
        Some(LoadFault::Size { object, bytes })
    } else {
        None
    }
}

/// Returns the first fault of a region's mappings.
fn region_fault(mappings: &[Mapping], sizes: &[Sizes]) -> Option<LoadFault>
    requires { All (λ m. m.«module» < length sizes.now) mappings.now }
    ensures fault { result ≡ region_fault_by (contents_of sizes.now) mappings.now }
    ensures size { IfSome result IsSizeFault }
{
    for mapping in mappings {
        if let Some(fault) = mapping_fault(mapping, sizes) {
            return Some(fault);
        }
    }
    None
}

/// Returns the first fault of all mappings, region by region.
pub(crate) fn mappings_fault(regions: &[Region], sizes: &[Sizes]) -> Option<LoadFault>
    requires { All (λ region. All (λ m. m.«module» < length sizes.now) region.mappings) regions.now }
    ensures fault { result ≡ mappings_fault_by (contents_of sizes.now) regions.now }
    ensures size { IfSome result IsSizeFault }
{
    for region in regions {
        if let Some(fault) = region_fault(region.mappings.as_slice(), sizes) {
            return Some(fault);
        }
    }
    None
}
