//! The texts for an image set that isn't loaded.
ghost use Rattle.std.specs.Prelude.{◌≡◌, ◌≢◌, IfOk, string_bytes};
ghost use Rattle.shell_reports.specs.LoadFaults.{object_text, nfit_fault_text, load_fault_text, load_outcome};
ghost use Rattle.shell_reports.specs.Saved.{outcome_of};

use crate::outcome::{Report, image_answer};
use image_set::LoadFault;
use nfit_reader::NfitFault;
use nvd_media::Object;
use std::alloc::{AllocError, Global};

/// The name of an object.
fn object_text(alloc: Global, object: Object) -> Result<String, AllocError>
    ensures { IfOk result (λ text. string_bytes text ≡ object_text object) }
{
    match object {
        Object::Mark => String::from_str(alloc, "mark"),
        Object::Nfit => String::from_str(alloc, "nfit"),
        Object::Labels(module) => format!(in alloc; "labels {}", module),
        Object::Contents(module) => format!(in alloc; "contents {}", module),
        Object::BadRanges(module) => format!(in alloc; "badranges {}", module),
    }
}

/// Returns the text of a firmware table's fault.
fn nfit_fault_text(alloc: Global, fault: NfitFault) -> Result<String, AllocError>
    ensures text { IfOk result (λ text. string_bytes text ≡ nfit_fault_text fault) }
    ensures finding { IfOk result (λ _. fault ≢ NfitFault.OutOfMemory) }
{
    match fault {
        NfitFault::Signature => String::from_str(alloc, "Signature"),
        NfitFault::Length { said, had } => format!(in alloc; "Length {} {}", said, had),
        NfitFault::Checksum { sum } => format!(in alloc; "Checksum {}", sum),
        NfitFault::Structure { at } => format!(in alloc; "Structure {}", at),
        NfitFault::TwiceIndex { kind, index } => format!(in alloc; "TwiceIndex {} {}", kind, index),
        NfitFault::MissingIndex { kind, index } => {
            format!(in alloc; "MissingIndex {} {}", kind, index)
        }
        NfitFault::TooLarge { modules } => format!(in alloc; "TooLarge {}", modules),
        NfitFault::Alias { module, a, b } => format!(in alloc; "Alias {} {} {}", module, a, b),
        NfitFault::OutOfMemory => Err(AllocError),
    }
}

/// Returns the text for a missing object.
fn missing_text(alloc: Global, object: Object) -> Result<String, AllocError>
    ensures { IfOk result (λ text. string_bytes text ≡ load_fault_text (LoadFault.Missing object)) }
{
    let object = object_text(alloc, object)?;
    format!(in alloc; "{} Missing", object)
}

/// Returns the text for an object whose size is outside its limits.
fn size_text(alloc: Global, object: Object, bytes: u64) -> Result<String, AllocError>
    ensures { IfOk result (λ text. string_bytes text ≡ load_fault_text (LoadFault.Size object bytes)) }
{
    let object = object_text(alloc, object)?;
    format!(in alloc; "{} Size {}", object, bytes)
}

/// Returns the text for a table that is refused.
fn table_text(alloc: Global, fault: NfitFault) -> Result<String, AllocError>
    ensures { IfOk result (λ text. string_bytes text ≡ load_fault_text (LoadFault.Nfit fault)) }
{
    let fault = nfit_fault_text(alloc, fault)?;
    format!(in alloc; "nfit {}", fault)
}

/// Returns the text of why an image set isn't loaded. The source didn't fail. Out of memory isn't a finding.
pub fn load_fault_text(alloc: Global, fault: LoadFault) -> Result<String, AllocError>
    requires { fault ≢ LoadFault.ReadFault }
    ensures text { IfOk result (λ text. string_bytes text ≡ load_fault_text fault) }
    ensures finding { IfOk result (λ _. fault ≢ LoadFault.OutOfMemory) }
{
    match fault {
        LoadFault::Missing { object } => missing_text(alloc, object),
        LoadFault::Size { object, bytes } => size_text(alloc, object, bytes),
        LoadFault::Nfit(fault) => table_text(alloc, fault),
        LoadFault::ReadFault => unreachable!(),
        LoadFault::OutOfMemory => Err(AllocError),
    }
}

/// Answers on an image set that isn't loaded because of a fault of its objects. The source didn't fail. Out of memory isn't
/// a finding.
pub fn load_answer(alloc: Global, fault: LoadFault) -> Result<Report, AllocError>
    requires { fault ≢ LoadFault.ReadFault }
    ensures text { IfOk result (λ answer. outcome_of answer ≡ load_outcome fault) }
    ensures finding { IfOk result (λ _. fault ≢ LoadFault.OutOfMemory) }
{
    let fault = load_fault_text(alloc, fault)?;
    Ok(image_answer(format!(in alloc; "image {}\n", fault)?))
}
