//! The command `list`: the namespaces in the labels of all modules.
ghost use Rattle.std.specs.Prelude.{◌≡◌, ◌≢◌, ◌++◌, ◌<◌, ◌^◌, ℕ, List, IfOk, OnOk, false, length, string_bytes};
ghost use Rattle.image_set.specs.Outline.{IsOutlined, image_set_with};
ghost use Rattle.namespace_map.specs.Namespaces.{listed};
ghost use Rattle.namespace_ops.specs.Counted.{namespaces_in};
ghost use Rattle.namespace_ops.specs.Registered.{state_of};
ghost use Rattle.shell_reports.specs.Outcome.{printed};
ghost use Rattle.shell_reports.specs.Saved.{outcome_of};
ghost use Rattle.shell_reports.specs.List.{why_text, field_text, status_text, region_text, size_in, facts_text, namespace_line, extent_line, extent_lines, namespace_lines, list_text, open_fault_text, open_outcome, list_outcome};

use crate::nfit::set_fault_text;
use crate::{Report, image_answer, mode_text, name_text, printed_answer};
use image_set::Outline;
use interleave::SetFault;
use label_set::{Field, SetStatus, Why};
use namespace_areas::open_areas;
use namespace_map::Namespace;
use namespace_ops::{OpenFault, Registry};
use region_space::Extent;
use std::alloc::{AllocError, Global};

fn field_text(field: Field) -> &'static str
    ensures { result.now ≡ field_text field }
{
    match field {
        Field::Count => "Count",
        Field::Dpa => "Dpa",
        Field::RawSize => "RawSize",
        Field::LbaSize => "LbaSize",
        Field::Guids => "Guids",
        Field::Names => "Names",
    }
}

/// Returns the text of why labels make up no namespace: the rule that they break.
pub fn why_text(alloc: Global, why: Why) -> Result<String, AllocError>
    ensures { IfOk result (λ text. string_bytes text ≡ why_text why) }
{
    match why {
        Why::Twice { module } => format!(in alloc; "Twice {}", module),
        Why::Outside { module } => format!(in alloc; "Outside {}", module),
        Why::Cookie { module, found } => format!(in alloc; "Cookie {} {}", module, found),
        Why::Position { module, found } => format!(in alloc; "Position {} {}", module, found),
        Why::Differs { field } => format!(in alloc; "Differs {}", field_text(field)),
        Why::Unaligned { module } => format!(in alloc; "Unaligned {}", module),
        Why::Missing { module } => format!(in alloc; "Missing {}", module),
    }
}

/// Returns the text of labels that make up no namespace.
fn incomplete_text(alloc: Global, why: Why) -> Result<String, AllocError>
    ensures { IfOk result (λ text. string_bytes text ≡ status_text (SetStatus.Incomplete why)) }
{
    let why = why_text(alloc, why)?;
    format!(in alloc; "incomplete {}", why)
}

/// Returns the text of the status of labels.
fn status_text(alloc: Global, status: &SetStatus) -> Result<String, AllocError>
    ensures { IfOk result (λ text. string_bytes text ≡ status_text status.now) }
{
    match *status {
        SetStatus::Complete { pending: false, .. } => String::from_str(alloc, "complete"),
        SetStatus::Complete { pending: true, .. } => String::from_str(alloc, "complete pending"),
        SetStatus::Unfinished => String::from_str(alloc, "unfinished"),
        SetStatus::Local => String::from_str(alloc, "local"),
        SetStatus::Incomplete { why } => incomplete_text(alloc, why),
    }
}

/// Returns the number of a region, or `-` if there is none.
fn region_text(alloc: Global, region: Option<u32>) -> Result<String, AllocError>
    ensures { IfOk result (λ text. string_bytes text ≡ region_text region) }
{
    match region {
        Some(number) => format!(in alloc; "{}", number),
        None => String::from_str(alloc, "-"),
    }
}

/// Returns the size of all extents together, in bytes.
fn size_in(extents: &[Extent]) -> u128
    requires { length extents.now < 2 ^ 63 }
    ensures { result ≡ size_in extents.now }
{
    let mut size = 0;
    for extent in extents {
        size += u128::from(extent.length);
    }
    size
}

/// Returns the text of a namespace's line after its name.
fn facts(alloc: Global, namespace: &Namespace) -> Result<String, AllocError>
    ensures { IfOk result (λ text. string_bytes text ≡ facts_text namespace.now) }
{
    let region = region_text(alloc, namespace.region)?;
    let mode = mode_text(alloc, namespace.mode)?;
    let size = size_in(namespace.extents.as_slice());
    let status = status_text(alloc, &namespace.status)?;
    format!(in alloc;
        " region {} mode {} lba {} size {} {}\n",
        region, mode, namespace.lba, size, status
    )
}

/// The line of a namespace.
fn namespace_line(alloc: Global, namespace: &Namespace) -> Result<Vec<u8>, AllocError>
    ensures { IfOk result (λ line. line.items ≡ namespace_line namespace.now) }
{
    let mut line = format!(in alloc; "ns {} ", namespace.uuid)?.into_bytes();
    line.extend_from_slice(&name_text(alloc, namespace.name.bytes())?)?;
    line.extend_from_slice(facts(alloc, namespace)?.as_bytes())?;
    Ok(line)
}

/// The line of an extent.
fn extent_line(alloc: Global, extent: &Extent) -> Result<String, AllocError>
    ensures { IfOk result (λ text. string_bytes text ≡ extent_line extent.now) }
{
    format!(in alloc;
        "extent {} {} {}\n",
        extent.module, extent.start, extent.length
    )
}

/// Appends the lines of extents.
fn add_extents(alloc: Global, extents: &[Extent], text: &mut Vec<u8>) -> Result<(), AllocError>
    ensures { OnOk result (text.new.items ≡ text.old.items ++ extent_lines extents.now) }
{
    for extent in extents {
        text.extend_from_slice(extent_line(alloc, extent)?.as_bytes())?;
    }
    Ok(())
}

/// Appends the lines of a namespace.
fn add_namespace(alloc: Global, namespace: &Namespace, text: &mut Vec<u8>) -> Result<(), AllocError>
    ensures { OnOk result (text.new.items ≡ text.old.items ++ namespace_lines namespace.now) }
{
    text.extend_from_slice(&namespace_line(alloc, namespace)?)?;
    add_extents(alloc, namespace.extents.as_slice(), text)
}

/// The lines of namespaces.
fn list_text(alloc: Global, namespaces: &[Namespace]) -> Result<Vec<u8>, AllocError>
    ensures { IfOk result (λ text. text.items ≡ list_text namespaces.now) }
{
    let mut text = Vec::new(alloc);
    for namespace in namespaces {
        add_namespace(alloc, namespace, &mut text)?;
    }
    Ok(text)
}

/// Answers on an open registry.
fn open_answer(alloc: Global, registry: &Registry) -> Result<Report, AllocError>
    requires running { registry.now.stopped ≡ false }
    ensures { IfOk result (λ answer. outcome_of answer ≡ printed (list_text (listed (namespaces_in (state_of registry.now))))) }
{
    let namespaces = registry.list(alloc)?;
    Ok(printed_answer(list_text(alloc, namespaces.as_slice())?))
}

/// Returns the text for a region that isn't an interleave set.
fn set_text(alloc: Global, region: u32, fault: SetFault) -> Result<String, AllocError>
    ensures { IfOk result (λ text. string_bytes text ≡ open_fault_text (OpenFault.Set region fault)) }
{
    let fault = set_fault_text(alloc, fault)?;
    format!(in alloc; "region {} {}", region, fault)
}

/// Returns the text of why a registry isn't opened. Out of memory isn't a finding.
pub fn open_fault_text(alloc: Global, fault: OpenFault) -> Result<String, AllocError>
    ensures text { IfOk result (λ text. string_bytes text ≡ open_fault_text fault) }
    ensures finding { IfOk result (λ _. fault ≢ OpenFault.OutOfMemory) }
{
    match fault {
        OpenFault::Set { region, fault } => set_text(alloc, region, fault),
        OpenFault::Overlap { a, b } => format!(in alloc; "labels Overlap {} {}", a, b),
        OpenFault::OutOfMemory => Err(AllocError),
    }
}

/// Answers on a registry that isn't opened: the first region that isn't an interleave set, with its
/// fault, or the first two UUIDs with overlapping extents.
pub fn open_fault_answer(alloc: Global, fault: OpenFault) -> Result<Report, AllocError>
    ensures text { IfOk result (λ answer. outcome_of answer ≡ open_outcome fault) }
    ensures finding { IfOk result (λ _. fault ≢ OpenFault.OutOfMemory) }
{
    let fault = open_fault_text(alloc, fault)?;
    Ok(image_answer(format!(in alloc; "image {}\n", fault)?))
}

/// Answers `list` on an image set: a line for each UUID that a label names, in ascending order of
/// the UUIDs' bytes, with the lines of its extents; or the first region that isn't an interleave
/// set, or the first two UUIDs with overlapping extents. A label area without a valid index block
/// has no labels. The set was loaded without its contents, so each label area has a valid size.
/// (UEFI 2.10, section 13.19.)
pub fn list_answer(alloc: Global, outline: Outline) -> Result<Report, AllocError>
    requires { IsOutlined outline }
    ensures { IfOk result (λ answer. (contents : List (List ℕ)) → outcome_of answer ≡ list_outcome (image_set_with outline contents)) }
{
    let Outline { nfit, labels, .. } = outline;
    let areas = open_areas(alloc, labels)?;
    match Registry::open_all(alloc, nfit, areas) {
        Ok(registry) => open_answer(alloc, &registry),
        Err(fault) => open_fault_answer(alloc, fault),
    }
}
