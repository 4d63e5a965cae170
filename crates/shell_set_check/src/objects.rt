//! The faults of objects and of regions.
ghost use Rattle.std.specs.Prelude.{◌≡◌, ◌≢◌, ◌++◌, ◌<◌, ◌^◌, Err, OnOk, length, slice_index_or};
ghost use Rattle.std.specs.List.{All};
ghost use Rattle.nfit_reader.specs.declared.table.Region.{Region as RegionRead};
ghost use Rattle.nfit_reader.specs.Counted.{AreCounted};
ghost use Rattle.interleave.specs.Sets.{set_reading};
ghost use Rattle.shell_reports.specs.LoadFaults.{load_fault_text};
ghost use Rattle.shell_set_check.specs.Text.{fault_line, object_lines, region_lines, region_part};

use crate::text::push_fault;
use image_set::LoadFault;
use interleave::{InterleaveSet, SetFault, interleave_set};
use namespace_ops::OpenFault;
use nfit_reader::{Nfit, Region};
use shell_reports::{load_fault_text, open_fault_text};
use std::alloc::{AllocError, Global};

/// Appends the line of a fault of an object. The source didn't fail.
pub(crate) fn push_object(
    alloc: Global,
    fault: LoadFault,
    text: &mut Vec<u8>,
) -> Result<(), AllocError>
    requires { fault ≢ LoadFault.ReadFault }
    ensures { OnOk result (text.new.items ≡ text.old.items ++ fault_line (load_fault_text fault)) }
{
    let what = load_fault_text(alloc, fault)?;
    push_fault(alloc, what.as_str(), text)
}

/// Appends the lines of faults of objects.
pub(crate) fn push_objects(
    alloc: Global,
    faults: &[LoadFault],
    text: &mut Vec<u8>,
) -> Result<(), AllocError>
    requires { All (λ fault. fault ≢ LoadFault.ReadFault) faults.now }
    ensures { OnOk result (text.new.items ≡ text.old.items ++ object_lines faults.now) }
{
    for fault in faults {
        push_object(alloc, *fault, text)?;
    }
    Ok(())
}

/// Appends the line of a region that isn't an interleave set.
fn push_set_fault(
    alloc: Global,
    region: u32,
    fault: SetFault,
    text: &mut Vec<u8>,
) -> Result<(), AllocError>
    ensures text { OnOk result (text.new.items ≡ text.old.items ++ region_part region (Err fault)) }
    ensures finding { OnOk result (fault ≢ SetFault.OutOfMemory) }
{
    if let SetFault::OutOfMemory = fault {
        return Err(AllocError);
    }
    let what = open_fault_text(alloc, OpenFault::Set { region, fault })?;
    push_fault(alloc, what.as_str(), text)
}

/// Appends the line of a region, if it isn't an interleave set.
fn push_reading(
    alloc: Global,
    region: u32,
    reading: Result<InterleaveSet, SetFault>,
    text: &mut Vec<u8>,
) -> Result<(), AllocError>
    ensures text { OnOk result (text.new.items ≡ text.old.items ++ region_part region reading) }
    ensures finding { OnOk result (reading ≢ Err SetFault.OutOfMemory) }
{
    match reading {
        Ok(_) => Ok(()),
        Err(fault) => push_set_fault(alloc, region, fault, text),
    }
}

/// Appends the line of the region with this number, if it isn't an interleave set.
fn push_region(
    alloc: Global,
    nfit: &Nfit,
    number: u32,
    _region: &Region,
    text: &mut Vec<u8>,
) -> Result<(), AllocError>
    requires there { number < length nfit.now.regions }
    requires counted { AreCounted nfit.now }
    requires region { (blank : RegionRead) → _region.now ≡ slice_index_or nfit.now.regions number blank }
    ensures { OnOk result (text.new.items ≡ text.old.items ++ region_part number (set_reading _region.now)) }
{
    let reading = interleave_set(alloc, nfit, number);
    push_reading(alloc, number, reading, text)
}

/// Appends the lines of the regions that aren't interleave sets.
pub(crate) fn push_regions(alloc: Global, nfit: &Nfit, text: &mut Vec<u8>) -> Result<(), AllocError>
    requires counted { AreCounted nfit.now }
    requires few { length nfit.now.regions < 2 ^ 32 }
    ensures { OnOk result (text.new.items ≡ text.old.items ++ region_lines 0 nfit.now.regions) }
{
    for (number, region) in nfit.regions.as_slice().iter().enumerate() {
        push_region(alloc, nfit, number as u32, region, text)?;
    }
    Ok(())
}
