//! Why a namespace is neither deleted nor renamed.
ghost use Rattle.std.specs.Prelude.{◌≡◌, ◌<◌, ◌^◌, find, length};
ghost use Rattle.std.specs.Option.{option_map};
ghost use Rattle.nvd_words.specs.Checks.{first_fault};
ghost use Rattle.label_set.specs.Rules.{module_of};
ghost use Rattle.namespace_map.specs.Namespaces.{is_read_only};
ghost use Rattle.namespace_map.specs.Commands.{bad_name, delete_refusal, is_complete, rename_refusal};
ghost use Rattle.namespace_areas.specs.Seen.{AreHeld};
ghost use Rattle.namespace_areas.specs.Refusals.{AreOpen, changing, deleting, full_of, incomplete_of, read_only_of, renaming, shown, status_with};

use crate::modules::least_full;
use crate::{Area, LabelGroups, region_of, status_in};
use interleave::InterleaveSet;
use label_set::{Placed, SetStatus};
use namespace_map::{Named, OpRefused};
use uuid::Uuid;

/// Whether a label has the flag ROLABEL.
fn is_read_only(placed: &Placed) -> bool
    ensures { result ≡ is_read_only placed.now }
{
    placed.label.is_read_only()
}

/// The module of the first label that has ROLABEL.
fn read_only_module(labels: &[Placed]) -> Option<u32>
    ensures { result ≡ option_map module_of (find is_read_only labels.now) }
{
    for placed in labels {
        if is_read_only(placed) {
            return Some(placed.module);
        }
    }
    None
}

/// The module of the first label that has ROLABEL, as a refusal.
fn read_only(labels: &[Placed]) -> Option<OpRefused>
    ensures { result ≡ read_only_of labels.now }
{
    match read_only_module(labels) {
        Some(module) => Some(OpRefused::ReadOnlyLabel { module }),
        None => None,
    }
}

/// Whether labels make a complete namespace; the first of them is given.
fn is_complete(sets: &[InterleaveSet], labels: &[Placed], first: &Placed) -> bool
    requires some { 0 < length labels.now }
    requires few { length sets.now < 2 ^ 32 }
    ensures { result ≡ is_complete (status_with sets.now labels.now first.now) }
{
    let region = region_of(sets, first);
    matches!(status_in(region, labels, first), SetStatus::Complete { .. })
}

/// The least module of labels that has no free slot.
fn full(labels: &[Placed], areas: &[Area]) -> Option<OpRefused>
    requires { AreHeld areas.now }
    ensures { result ≡ full_of areas.now labels.now }
{
    match least_full(labels, areas) {
        Some(module) => Some(OpRefused::NoSlot { module }),
        None => None,
    }
}

/// Why labels aren't removed; the first of them is given.
#[tactic(auto, using(crate::proofs::Firsts::firsts))]
fn deleting(
    sets: &[InterleaveSet],
    areas: &[Area],
    labels: &[Placed],
    first: &Placed,
) -> Option<OpRefused>
    requires held { AreHeld areas.now }
    requires some { 0 < length labels.now }
    requires few { length sets.now < 2 ^ 32 }
    ensures { result ≡ first_fault (deleting sets.now areas.now labels.now first.now) }
{
    if !is_complete(sets, labels, first) {
        return Some(OpRefused::NotComplete);
    }
    if let Some(refused) = read_only(labels) {
        return Some(refused);
    }
    if labels.len() < 2 {
        return None;
    }
    full(labels, areas)
}

/// Why labels aren't renamed; the first of them is given.
#[tactic(auto, using(crate::proofs::Firsts::firsts))]
fn renaming(
    sets: &[InterleaveSet],
    areas: &[Area],
    labels: &[Placed],
    first: &Placed,
) -> Option<OpRefused>
    requires held { AreHeld areas.now }
    requires some { 0 < length labels.now }
    requires few { length sets.now < 2 ^ 32 }
    ensures { result ≡ first_fault (renaming sets.now areas.now labels.now first.now) }
{
    if !is_complete(sets, labels, first) {
        return Some(OpRefused::NotComplete);
    }
    if let Some(refused) = read_only(labels) {
        return Some(refused);
    }
    full(labels, areas)
}

/// Why the labels of a UUID aren't removed.
fn delete_labels(sets: &[InterleaveSet], areas: &[Area], labels: &[Placed]) -> Option<OpRefused>
    requires held { AreHeld areas.now }
    requires few { length sets.now < 2 ^ 32 }
    ensures { result ≡ changing (deleting sets.now areas.now) labels.now }
{
    match labels.first() {
        Some(first) => deleting(sets, areas, labels, first),
        None => Some(OpRefused::NoSuch),
    }
}

/// Why the labels of a UUID aren't renamed.
fn rename_labels(sets: &[InterleaveSet], areas: &[Area], labels: &[Placed]) -> Option<OpRefused>
    requires held { AreHeld areas.now }
    requires few { length sets.now < 2 ^ 32 }
    ensures { result ≡ changing (renaming sets.now areas.now) labels.now }
{
    match labels.first() {
        Some(first) => renaming(sets, areas, labels, first),
        None => Some(OpRefused::NoSuch),
    }
}

/// Why the namespace of a UUID isn't deleted: the first of these.
///
/// 1. `NoSuch`: no label has the UUID.
/// 2. `NotComplete`: its labels make no complete namespace.
/// 3. `ReadOnlyLabel`: one of them has ROLABEL.
/// 4. `NoSlot`: it has labels on two modules or more, and one of these has no free slot.
///
/// No area was stopped by a power cut, and the groups are those of the areas' labels. It takes no memory.
pub fn delete_refusal(
    sets: &[InterleaveSet],
    areas: &[Area],
    groups: &LabelGroups,
    uuid: &Uuid,
) -> Option<OpRefused>
    requires open { AreOpen areas.now groups.now }
    requires few { length sets.now < 2 ^ 32 }
    ensures { result ≡ delete_refusal (shown sets.now areas.now) uuid.now }
{
    delete_labels(sets, areas, groups.group(uuid))
}

/// Why a name is refused.
pub(crate) fn bad_name(name: &Named) -> Option<OpRefused>
    ensures { result ≡ bad_name name.now }
{
    match name {
        Named::Good(_) => None,
        Named::Refused { bytes } => Some(OpRefused::BadName { bytes: *bytes }),
    }
}

/// Why the namespace of a UUID isn't renamed: the first of these.
///
/// 1. `BadName`: the text makes no name.
/// 2. `NoSuch`: no label has the UUID.
/// 3. `NotComplete`: its labels make no complete namespace.
/// 4. `ReadOnlyLabel`: one of them has ROLABEL.
/// 5. `NoSlot`: a module of one of them has no free slot.
///
/// Conditions as for [`delete_refusal`]. It takes no memory.
pub fn rename_refusal(
    sets: &[InterleaveSet],
    areas: &[Area],
    groups: &LabelGroups,
    uuid: &Uuid,
    name: &Named,
) -> Option<OpRefused>
    requires open { AreOpen areas.now groups.now }
    requires few { length sets.now < 2 ^ 32 }
    ensures { result ≡ rename_refusal (shown sets.now areas.now) uuid.now name.now }
{
    if let Some(refused) = bad_name(name) {
        return Some(refused);
    }
    rename_labels(sets, areas, groups.group(uuid))
}
