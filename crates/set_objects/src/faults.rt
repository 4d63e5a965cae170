//! The faults of the modules' objects, from their lengths.
ghost use Rattle.std.specs.Prelude.{◌≡◌, ◌++◌, ◌^◌, ◌<◌, ◌≤◌, ◌∷◌, [], length, IfOk, OnOk};
ghost use Rattle.std.specs.List.{flat_map, range_with_len};
ghost use Rattle.nvd_media.specs.Images.{Images};
ghost use Rattle.label_index.specs.Area.{is_area_size};
ghost use Rattle.image_set.specs.Limits.{is_bad_size, is_contents_size};
ghost use Rattle.set_objects.specs.Found.{AreFoundIn, contents_length_fault, found_faults, length_fault};
ghost use Rattle.set_objects.specs.Objects.{faults_in, module_faults};

use crate::found::Found;
use crate::mapped::mappings_fault;
use image_set::LoadFault;
use label_index::is_area_size;
use nfit_reader::Region;
use nvd_media::Object;
use nvd_words::Items;
use std::alloc::{AllocError, Global};

/// The size of contents is a multiple of this, in bytes.
const PAGE_BYTES: u64 = 4096;

/// The most bytes of all contents together.
const CONTENTS_BYTES: u128 = 1 << 44;

/// The bytes of one bad range: its start and its length.
const RANGE_BYTES: u64 = 16;

/// The most bytes of a list of bad ranges.
const BAD_BYTES: u64 = 64 << 10;

/// Returns whether the contents of a module may have this size, after `before` bytes of the modules
/// before it.
fn is_contents_size(before: u128, bytes: u64) -> bool
    requires { before < 2 ^ 96 }
    ensures { result ≡ is_contents_size before bytes }
{
    1 <= bytes && bytes % PAGE_BYTES == 0 && before + bytes as u128 <= CONTENTS_BYTES
}

/// Returns whether a list of bad ranges may have this size, in bytes.
pub(crate) fn is_bad_size(bytes: u64) -> bool
    ensures { result ≡ is_bad_size bytes }
{
    bytes % RANGE_BYTES == 0 && bytes <= BAD_BYTES
}

/// Returns the fault of a label area.
fn labels_fault(module: u32, found: Option<u64>) -> Option<LoadFault>
    ensures { result ≡ length_fault is_area_size (Object.Labels «module») found }
{
    let object = Object::Labels(module);
    match found {
        None => None,
        Some(bytes) if is_area_size(bytes) => None,
        Some(bytes) => Some(LoadFault::Size { object, bytes }),
    }
}

/// Returns the fault of contents, after `before` bytes of the modules before.
fn contents_fault(
    regions: &[Region],
    module: u32,
    before: u128,
    found: Option<u64>,
) -> Option<LoadFault>
    requires { before < 2 ^ 96 }
    ensures { result ≡ contents_length_fault regions.now «module» before found }
{
    let object = Object::Contents(module);
    match found {
        None => Some(LoadFault::Missing { object }),
        Some(bytes) if is_contents_size(before, bytes) => mappings_fault(regions, module, bytes),
        Some(bytes) => Some(LoadFault::Size { object, bytes }),
    }
}

/// Returns the fault of a list of bad ranges.
fn bad_fault(module: u32, found: Option<u64>) -> Option<LoadFault>
    ensures { result ≡ length_fault is_bad_size (Object.BadRanges «module») found }
{
    let object = Object::BadRanges(module);
    match found {
        None => None,
        Some(bytes) if is_bad_size(bytes) => None,
        Some(bytes) => Some(LoadFault::Size { object, bytes }),
    }
}

/// Adds a fault to a list, if there is one.
fn push_fault(faults: &mut Items<LoadFault>, fault: Option<LoadFault>) -> Result<(), AllocError>
    ensures { OnOk result (faults.new ≡ faults.old ++ faults_in (fault ∷ [])) }
{
    match fault {
        Some(fault) => faults.push(fault),
        None => Ok(()),
    }
}

/// Adds the faults of a module's objects to a list.
fn push_faults(
    faults: &mut Items<LoadFault>,
    regions: &[Region],
    module: u32,
    before: u128,
    found: &Found,
) -> Result<(), AllocError>
    requires { before < 2 ^ 96 }
    ensures { OnOk result
        (faults.new ≡ faults.old ++ found_faults regions.now «module» before found.now) }
{
    push_fault(faults, labels_fault(module, found.labels))?;
    push_fault(
        faults,
        contents_fault(regions, module, before, found.contents),
    )?;
    push_fault(faults, bad_fault(module, found.bad))
}

/// Returns the faults of all modules' objects, module by module.
pub(crate) fn faults_of(
    alloc: Global,
    regions: &[Region],
    found: &[Found],
) -> Result<Items<LoadFault>, AllocError>
    requires few { length found.now ≤ 64 }
    ensures faults { IfOk result (λ faults. (set : Images) → AreFoundIn found.now set
        → faults ≡ flat_map (module_faults set regions.now)
        (range_with_len 0 (length found.now))) }
{
    let mut faults = Items::new(alloc);
    let mut before = 0;
    for module in 0..found.len() as u32 {
        let of_module = &found[module as usize];
        push_faults(&mut faults, regions, module, before, of_module)?;
        before += of_module.contents.unwrap_or(0) as u128;
    }
    Ok(faults)
}
