//! What the labels of each UUID break.
ghost use Rattle.std.specs.Prelude.{◌≡◌, ◌++◌, ◌∷◌, ◌<◌, ◌^◌, [], IfOk, OnOk, length, map, string_bytes};
ghost use Rattle.std.specs.Option.{option_map};
ghost use Rattle.namespace_areas.specs.Areas.{AreRunning, labels_of};
ghost use Rattle.namespace_map.specs.Namespaces.{entries_of, region_of};
ghost use Rattle.image_set.specs.Load.{bytes_kept};
ghost use Rattle.image_set.specs.Outline.{IsOutlined};
ghost use Rattle.label_set.specs.Status.{findings, present, status_of};
ghost use Rattle.nfit_reader.specs.Counted.{AreCounted};
ghost use Rattle.namespace_ops.specs.Opening.{overlap_fault, set_fault_from, sets_of};
ghost use Rattle.shell_reports.specs.List.{why_text};
ghost use Rattle.shell_set_check.specs.Namespaces.{entry_lines, found_or, group_part, label_lines, labels_by, namespace_lines, namespace_text, overlap_part, status_lines, status_part, statuses_in};
ghost use Rattle.shell_set_check.specs.Text.{notice_line};

use crate::text::{push_fault, push_notice};
use image_set::Outline;
use interleave::InterleaveSet;
use label_set::{Placed, SetStatus, Why, broken_rules, some_local, status};
use namespace_areas::{Area, LabelGroups, Regions, into_words, open_areas};
use namespace_ops::{OpenFault, check_overlap, sets_of};
use nfit_reader::Nfit;
use nvd_words::Items;
use shell_reports::{open_fault_text, why_text};
use std::alloc::{AllocError, Global};
use uuid::Uuid;

/// A list of one status.
fn only(alloc: Global, status: SetStatus) -> Result<Vec<SetStatus>, AllocError>
    ensures { IfOk result (λ list. list.items ≡ status ∷ []) }
{
    let mut list = Vec::new(alloc);
    list.push(status)?;
    Ok(list)
}

/// All that the rules find of labels in their set, or what the labels make.
fn set_statuses(
    alloc: Global,
    set: &InterleaveSet,
    labels: &[Placed],
) -> Result<Vec<SetStatus>, AllocError>
    requires { 0 < length labels.now }
    ensures { IfOk result (λ found. found.items ≡ found_or (status_of set.now labels.now) (present (findings set.now labels.now))) }
{
    let found = broken_rules(alloc, set, labels)?;
    if found.is_empty() {
        return only(alloc, status(set, labels));
    }
    Ok(found)
}

/// All that is found of labels, by the region in which the first of them lies.
fn statuses_in(
    alloc: Global,
    region: Option<(u32, &InterleaveSet)>,
    labels: &[Placed],
    first: &Placed,
) -> Result<Vec<SetStatus>, AllocError>
    requires { 0 < length labels.now }
    ensures { IfOk result (λ found. found.items ≡ statuses_in (option_map (λ region. (region.0, region.1.now)) region.entry) labels.now first.now) }
{
    if some_local(labels) {
        return only(alloc, SetStatus::Local);
    }
    match region {
        Some((_, set)) => set_statuses(alloc, set, labels),
        None => only(
            alloc,
            SetStatus::Incomplete {
                why: Why::Outside {
                    module: first.module,
                },
            },
        ),
    }
}

/// Returns the text of something about a namespace.
fn namespace_text(alloc: Global, uuid: &Uuid, what: &str) -> Result<String, AllocError>
    ensures { IfOk result (λ text. string_bytes text ≡ namespace_text uuid.now what.now) }
{
    format!(in alloc; "namespace {} {}", uuid, what)
}

/// Appends the notice of something about a namespace.
fn push_state(alloc: Global, uuid: &Uuid, what: &str, text: &mut Vec<u8>) -> Result<(), AllocError>
    ensures { OnOk result (text.new.items ≡ text.old.items ++ notice_line (namespace_text uuid.now what.now)) }
{
    let what = namespace_text(alloc, uuid, what)?;
    push_notice(alloc, what.as_str(), text)
}

/// Appends the line of a rule that a namespace's labels break.
fn push_why(alloc: Global, uuid: &Uuid, why: Why, text: &mut Vec<u8>) -> Result<(), AllocError>
    ensures { OnOk result (text.new.items ≡ text.old.items ++ status_part uuid.now (SetStatus.Incomplete why)) }
{
    let why = why_text(alloc, why)?;
    let what = namespace_text(alloc, uuid, why.as_str())?;
    push_fault(alloc, what.as_str(), text)
}

/// Appends the line of a status, if it has one.
fn push_status(
    alloc: Global,
    uuid: &Uuid,
    status: &SetStatus,
    text: &mut Vec<u8>,
) -> Result<(), AllocError>
    ensures { OnOk result (text.new.items ≡ text.old.items ++ status_part uuid.now status.now) }
{
    match *status {
        SetStatus::Complete { pending: false, .. } => Ok(()),
        SetStatus::Complete { pending: true, .. } => push_state(alloc, uuid, "pending", text),
        SetStatus::Unfinished => push_state(alloc, uuid, "unfinished", text),
        SetStatus::Local => push_state(alloc, uuid, "local", text),
        SetStatus::Incomplete { why } => push_why(alloc, uuid, why, text),
    }
}

/// Appends the lines of statuses.
fn push_statuses(
    alloc: Global,
    uuid: &Uuid,
    statuses: &[SetStatus],
    text: &mut Vec<u8>,
) -> Result<(), AllocError>
    ensures { OnOk result (text.new.items ≡ text.old.items ++ status_lines uuid.now statuses.now) }
{
    for status in statuses {
        push_status(alloc, uuid, status, text)?;
    }
    Ok(())
}

/// Appends the lines of the labels of one UUID, of which the first is given.
fn push_group(
    alloc: Global,
    regions: &Regions,
    labels: &[Placed],
    first: &Placed,
    text: &mut Vec<u8>,
) -> Result<(), AllocError>
    requires { 0 < length labels.now }
    ensures { OnOk result (text.new.items ≡ text.old.items ++ group_part regions.now labels.now first.now) }
{
    let region = regions.region_of(first);
    let statuses = statuses_in(alloc, region, labels, first)?;
    push_statuses(alloc, &first.label.uuid, &statuses, text)
}

/// Appends the lines of all UUIDs, in ascending order.
fn push_groups(
    alloc: Global,
    regions: &Regions,
    groups: &LabelGroups,
    text: &mut Vec<u8>,
) -> Result<(), AllocError>
    ensures { OnOk result (text.new.items ≡ text.old.items ++ entry_lines regions.now groups.now.sorted (entries_of regions.now groups.now.sorted)) }
{
    let mut at = 0;
    while at < groups.labels().len() {
        let group = groups.group_from(at);
        push_group(alloc, regions, group, &group[0], text)?;
        at += group.len();
    }
    Ok(())
}

/// Appends the line of the first two UUIDs with extents that meet.
fn push_overlap(alloc: Global, areas: &[Area], text: &mut Vec<u8>) -> Result<(), AllocError>
    requires running { AreRunning areas.now }
    requires few { length areas.now < 2 ^ 32 }
    ensures { OnOk result (text.new.items ≡ text.old.items ++ overlap_part (overlap_fault (labels_of areas.now))) }
{
    match check_overlap(alloc, areas) {
        Ok(()) => Ok(()),
        Err(OpenFault::OutOfMemory) => Err(AllocError),
        Err(fault) => {
            let what = open_fault_text(alloc, fault)?;
            push_fault(alloc, what.as_str(), text)
        }
    }
}

/// Appends the lines of labels, whose interleave sets are known.
fn push_judged(
    alloc: Global,
    sets: Items<InterleaveSet>,
    areas: &[Area],
    text: &mut Vec<u8>,
) -> Result<(), AllocError>
    requires few_sets { length sets < 2 ^ 32 }
    requires running { AreRunning areas.now }
    requires few { length areas.now < 2 ^ 32 }
    ensures { OnOk result (text.new.items ≡ text.old.items ++ label_lines sets (labels_of areas.now)) }
{
    push_overlap(alloc, areas, text)?;
    let groups = LabelGroups::of(alloc, areas)?;
    let regions = Regions::of(alloc, sets, areas.len() as u32)?;
    push_groups(alloc, &regions, &groups, text)
}

/// Appends the lines of labels, or that they aren't judged, since a region isn't an interleave set.
fn push_labels(
    alloc: Global,
    nfit: &Nfit,
    areas: &[Area],
    text: &mut Vec<u8>,
) -> Result<(), AllocError>
    requires counted { AreCounted nfit.now }
    requires few_regions { length nfit.now.regions < 2 ^ 32 }
    requires running { AreRunning areas.now }
    requires few { length areas.now < 2 ^ 32 }
    ensures { OnOk result (text.new.items ≡ text.old.items ++ labels_by (set_fault_from 0 nfit.now.regions) (sets_of nfit.now) (labels_of areas.now)) }
{
    match sets_of(alloc, nfit) {
        Ok(sets) => push_judged(alloc, sets, areas, text),
        Err(OpenFault::OutOfMemory) => Err(AllocError),
        Err(_) => push_notice(alloc, "namespaces Unchecked", text),
    }
}

/// Appends the lines of the namespaces of a set: the first two UUIDs with extents that meet, and
/// what the labels of each UUID break. It returns the set as it was.
pub(crate) fn push_namespaces(
    alloc: Global,
    outline: Outline,
    text: &mut Vec<u8>,
) -> Result<Outline, AllocError>
    requires { IsOutlined outline }
    ensures lines { OnOk result (text.new.items ≡ text.old.items ++ namespace_lines outline.nfit (map (option_map bytes_kept) outline.labels)) }
    ensures same { IfOk result (λ after. after ≡ outline) }
{
    let Outline {
        nfit,
        nfit_bytes,
        labels,
        sizes,
        bad,
    } = outline;
    let areas = open_areas(alloc, labels)?;
    push_labels(alloc, &nfit, areas.as_slice(), text)?;
    let labels = into_words(alloc, areas.into_vec())?;
    Ok(Outline {
        nfit,
        nfit_bytes,
        labels,
        sizes,
        bad,
    })
}
