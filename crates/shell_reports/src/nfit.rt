//! The lines of the command `nfit`: the modules and regions of a firmware table.
ghost use Rattle.std.specs.Prelude.{◌≡◌, ◌≢◌, ◌<◌, ◌^◌, ◌++◌, IfOk, OnOk, Ok, Err, length, slice_index_or, string_bytes};
ghost use Rattle.nfit_reader.specs.declared.table.Region.{Region};
ghost use Rattle.nfit_reader.specs.Counted.{AreCounted};
ghost use Rattle.shell_reports.specs.Outcome.{printed};
ghost use Rattle.shell_reports.specs.Nfit.{module_line, module_lines, set_fault_text, members_text, range_text, set_text, reading_text, region_start, region_line, region_lines, nfit_text};
ghost use Rattle.shell_reports.specs.Saved.{outcome_of};

use crate::{Report, printed_answer};
use interleave::{InterleaveSet, SetFault, interleave_set};
use nfit_reader::{Nfit, Region};
use std::alloc::{AllocError, Global};

/// The line of a module.
fn module_line(alloc: Global, number: usize, handle: u32) -> Result<String, AllocError>
    ensures { IfOk result (λ line. string_bytes line ≡ module_line number handle) }
{
    format!(in alloc; "module {} handle {}\n", number, handle)
}

/// Appends the lines of modules, from their handles.
fn add_modules(alloc: Global, handles: &[u32], text: &mut String) -> Result<(), AllocError>
    ensures { OnOk result (string_bytes text.new ≡ string_bytes text.old ++ module_lines 0 handles.now) }
{
    for (number, handle) in handles.iter().enumerate() {
        text.push_str(module_line(alloc, number, *handle)?.as_str())?;
    }
    Ok(())
}

/// Returns the text of why a region isn't an interleave set.
pub fn set_fault_text(alloc: Global, fault: SetFault) -> Result<String, AllocError>
    ensures text { IfOk result (λ text. string_bytes text ≡ set_fault_text fault) }
    ensures finding { IfOk result (λ _. fault ≢ SetFault.OutOfMemory) }
{
    match fault {
        SetFault::Ways { said, had } => format!(in alloc; "Ways {} {}", said, had),
        SetFault::Twice { module } => format!(in alloc; "Twice {}", module),
        SetFault::Offsets { a, b } => format!(in alloc; "Offsets {} {}", a, b),
        SetFault::Line { module } => format!(in alloc; "Line {}", module),
        SetFault::Share { bytes } => format!(in alloc; "Share {}", bytes),
        SetFault::Size { said, had } => format!(in alloc; "Size {} {}", said, had),
        SetFault::Cover { line } => format!(in alloc; "Cover {}", line),
        SetFault::OutOfMemory => Err(AllocError),
    }
}

/// Appends a set's modules in order of position.
fn add_members(alloc: Global, set: &InterleaveSet, text: &mut String) -> Result<(), AllocError>
    ensures { OnOk result (string_bytes text.new ≡ string_bytes text.old ++ members_text set.now) }
{
    for position in 0..set.ways() {
        text.push_str(format!(in alloc; " {}", set.module_at(position))?.as_str())?;
    }
    Ok(())
}

/// Returns the first part of the text for a region that is a set.
fn range_text(alloc: Global, region: &Region) -> Result<String, AllocError>
    ensures { IfOk result (λ text. string_bytes text ≡ range_text region.now) }
{
    format!(in alloc; " base {} length {} modules", region.base, region.length)
}

/// Returns the last part of the text for a set.
fn set_text(alloc: Global, set: &InterleaveSet) -> Result<String, AllocError>
    ensures { IfOk result (λ text. string_bytes text ≡ set_text set.now) }
{
    let cookie = hex::encode(alloc, set.cookie().to_be_bytes())?;
    format!(in alloc; " cookie {} unit {}\n", cookie, set.unit())
}

/// Appends the text for a region that is a set.
fn add_set(
    alloc: Global,
    region: &Region,
    set: &InterleaveSet,
    text: &mut String,
) -> Result<(), AllocError>
    ensures { OnOk result (string_bytes text.new ≡ string_bytes text.old ++ reading_text region.now (Ok set.now)) }
{
    text.push_str(range_text(alloc, region)?.as_str())?;
    add_members(alloc, set, text)?;
    text.push_str(set_text(alloc, set)?.as_str())
}

/// Appends the text for a region that isn't a set.
fn add_fault(alloc: Global, fault: SetFault, text: &mut String) -> Result<(), AllocError>
    ensures text { (region : Region) → OnOk result (string_bytes text.new ≡ string_bytes text.old ++ reading_text region (Err fault)) }
    ensures finding { OnOk result (fault ≢ SetFault.OutOfMemory) }
{
    let fault = set_fault_text(alloc, fault)?;
    text.push_str(format!(in alloc; " fault {}\n", fault)?.as_str())
}

/// Returns the start of a region's line.
fn region_start(alloc: Global, number: u32, index: u16) -> Result<String, AllocError>
    ensures { IfOk result (λ text. string_bytes text ≡ region_start number index) }
{
    format!(in alloc; "region {} index {}", number, index)
}

/// Appends the line of the region with this number.
fn add_region(
    alloc: Global,
    nfit: &Nfit,
    number: u32,
    region: &Region,
    text: &mut String,
) -> Result<(), AllocError>
    requires there { number < length nfit.now.regions }
    requires counted { AreCounted nfit.now }
    requires region { (blank : Region) → region.now ≡ slice_index_or nfit.now.regions number blank }
    ensures { OnOk result (string_bytes text.new ≡ string_bytes text.old ++ region_line number region.now) }
{
    text.push_str(region_start(alloc, number, region.index)?.as_str())?;
    match interleave_set(alloc, nfit, number) {
        Ok(set) => add_set(alloc, region, &set, text),
        Err(fault) => add_fault(alloc, fault, text),
    }
}

/// Appends the lines of a table's regions.
fn add_regions(alloc: Global, nfit: &Nfit, text: &mut String) -> Result<(), AllocError>
    requires counted { AreCounted nfit.now }
    requires few { length nfit.now.regions < 2 ^ 32 }
    ensures { OnOk result (string_bytes text.new ≡ string_bytes text.old ++ region_lines 0 nfit.now.regions) }
{
    for (number, region) in nfit.regions.as_slice().iter().enumerate() {
        add_region(alloc, nfit, number as u32, region, text)?;
    }
    Ok(())
}

/// The lines of a table's modules and regions.
fn nfit_text(alloc: Global, nfit: &Nfit) -> Result<String, AllocError>
    requires counted { AreCounted nfit.now }
    requires few { length nfit.now.regions < 2 ^ 32 }
    ensures { IfOk result (λ text. string_bytes text ≡ nfit_text nfit.now) }
{
    let mut text = String::new(alloc);
    add_modules(alloc, nfit.modules.as_slice(), &mut text)?;
    add_regions(alloc, nfit, &mut text)?;
    Ok(text)
}

/// Answers `nfit` on a firmware table: a line for each module and each region. The line of a region
/// that isn't an interleave set has the reason. (The table: ACPI 6.5, section 5.2.25.)
pub fn nfit_answer(alloc: Global, nfit: &Nfit) -> Result<Report, AllocError>
    requires counted { AreCounted nfit.now }
    requires few { length nfit.now.regions < 2 ^ 32 }
    ensures { IfOk result (λ answer. outcome_of answer ≡ printed (nfit_text nfit.now)) }
{
    let text = nfit_text(alloc, nfit)?;
    Ok(printed_answer(text.into_bytes()))
}
