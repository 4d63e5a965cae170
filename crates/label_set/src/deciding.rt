ghost use Rattle.std.specs.Prelude.{◌≡◌, ◌<◌, ◌++◌, IfOk, OnOk, length};
ghost use Rattle.std.specs.Option.{option_to_list};
ghost use Rattle.nvd_words.specs.Checks.{first_fault};
ghost use Rattle.label_set.specs.Status.{local_finding, twice_finding, broken_finding, differing_finding, missing_finding, findings, naming_of, present, status_of};

use crate::agreeing::{
    agreed_name, agreed_name_where, all_updating, differ_in, some_local, some_updating,
};
use crate::least::{least_breaking, least_missing, least_twice};
use crate::placed::{Field, Placed, SetStatus, Why};
use crate::rules::Rule;
use interleave::InterleaveSet;
use std::alloc::{AllocError, Global};

/// Finds a label with the flag LOCAL.
fn local(labels: &[Placed]) -> Option<SetStatus>
    ensures { result ≡ local_finding labels.now }
{
    if some_local(labels) {
        Some(SetStatus::Local)
    } else {
        None
    }
}

/// Finds a module with two of the labels.
fn twice(labels: &[Placed]) -> Option<SetStatus>
    ensures { result ≡ twice_finding labels.now }
{
    match least_twice(labels) {
        Some(module) => Some(SetStatus::Incomplete {
            why: Why::Twice { module },
        }),
        None => None,
    }
}

/// Finds a label that violates a rule.
fn broken(rule: Rule, set: &InterleaveSet, labels: &[Placed]) -> Option<SetStatus>
    ensures { result ≡ broken_finding rule set.now labels.now }
{
    match least_breaking(rule, set, labels) {
        Some(placed) => Some(SetStatus::Incomplete {
            why: rule.why(&placed),
        }),
        None => None,
    }
}

/// Finds labels that differ in a field.
fn differing(field: Field, set: &InterleaveSet, labels: &[Placed]) -> Option<SetStatus>
    ensures { result ≡ differing_finding field set.now labels.now }
{
    if differ_in(field, set, labels) {
        Some(SetStatus::Incomplete {
            why: Why::Differs { field },
        })
    } else {
        None
    }
}

/// Finds a module of the set without a label.
fn missing(set: &InterleaveSet, labels: &[Placed]) -> Option<SetStatus>
    ensures { result ≡ missing_finding set.now labels.now }
{
    let module = least_missing(set, labels)?;
    if all_updating(labels) {
        return Some(SetStatus::Unfinished);
    }
    Some(SetStatus::Incomplete {
        why: Why::Missing { module },
    })
}

/// Returns the first finding, in the order of the rules.
fn finding(set: &InterleaveSet, labels: &[Placed]) -> Option<SetStatus>
    ensures { result ≡ first_fault (findings set.now labels.now) }
{
    local(labels)
        .or(twice(labels))
        .or(broken(Rule::Inside, set, labels))
        .or(broken(Rule::Cookie, set, labels))
        .or(differing(Field::Count, set, labels))
        .or(broken(Rule::Position, set, labels))
        .or(differing(Field::Dpa, set, labels))
        .or(differing(Field::RawSize, set, labels))
        .or(differing(Field::LbaSize, set, labels))
        .or(differing(Field::Guids, set, labels))
        .or(broken(Rule::Aligned, set, labels))
        .or(missing(set, labels))
}

/// Returns the status of labels without a finding: they make up a namespace if their names agree,
/// or if those without UPDATING agree on one name and those with it on another.
fn naming(labels: &[Placed]) -> SetStatus
    ensures { result ≡ naming_of labels.now }
{
    if let Some(name) = agreed_name(labels) {
        return SetStatus::Complete {
            name,
            pending: some_updating(labels),
        };
    }
    match (
        agreed_name_where(false, labels),
        agreed_name_where(true, labels),
    ) {
        (Some(name), Some(_)) => SetStatus::Complete {
            name,
            pending: true,
        },
        _ => SetStatus::Incomplete {
            why: Why::Differs {
                field: Field::Names,
            },
        },
    }
}

/// Returns the status of the labels of one UUID, with the interleave set of the region in which
/// they lie.
///
/// The first rule of `specs/Status.antt` that applies decides: Local; Twice; Outside; Cookie;
/// Differs in Count; Position; Differs in Dpa (relative to the mapping), RawSize, LbaSize, Guids;
/// Unaligned; then, if a module has no label, Unfinished if all labels have UPDATING, else Missing;
/// then Complete, or Differs in Names. Of several modules the least is named. The rules are this
/// project's, over the fields of UEFI 2.10, section 13.19.
///
/// There must be at least one label. All labels should have one UUID; the call doesn't check it. It
/// takes no memory. It makes one pass over the labels for each rule; for Twice, one for each module
/// that has a label.
pub fn status(set: &InterleaveSet, labels: &[Placed]) -> SetStatus
    requires { 0 < length labels.now }
    ensures { result ≡ status_of set.now labels.now }
{
    match finding(set, labels) {
        Some(status) => status,
        None => naming(labels),
    }
}

/// Adds a finding to others, if there is one.
fn add_finding(finding: &Option<SetStatus>, found: &mut Vec<SetStatus>) -> Result<(), AllocError>
    ensures { OnOk result (found.new.items ≡ found.old.items ++ option_to_list finding.now) }
{
    if let Some(status) = finding {
        found.push(*status)?;
    }
    Ok(())
}

/// Returns those of some findings that there are.
fn present(alloc: Global, findings: &[Option<SetStatus>]) -> Result<Vec<SetStatus>, AllocError>
    ensures { IfOk result (λ found. found.items ≡ present findings.now) }
{
    let mut found = Vec::new(alloc);
    for finding in findings {
        add_finding(finding, &mut found)?;
    }
    Ok(found)
}

/// Returns what each rule finds that the labels of one UUID break, in the order of [`status`]. The
/// list is empty exactly if they make up a namespace, or if only their names differ.
///
/// All labels should have one UUID; the call doesn't check it. The one error is out of memory.
pub fn broken_rules(
    alloc: Global,
    set: &InterleaveSet,
    labels: &[Placed],
) -> Result<Vec<SetStatus>, AllocError>
    ensures { IfOk result (λ found. found.items ≡ present (findings set.now labels.now)) }
{
    let findings = [
        local(labels),
        twice(labels),
        broken(Rule::Inside, set, labels),
        broken(Rule::Cookie, set, labels),
        differing(Field::Count, set, labels),
        broken(Rule::Position, set, labels),
        differing(Field::Dpa, set, labels),
        differing(Field::RawSize, set, labels),
        differing(Field::LbaSize, set, labels),
        differing(Field::Guids, set, labels),
        broken(Rule::Aligned, set, labels),
        missing(set, labels),
    ];
    present(alloc, &findings)
}
