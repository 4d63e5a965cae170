ghost use Rattle.std.specs.Prelude.{◌≡◌, ◌||◌, not, find, filter};
ghost use Rattle.std.specs.Option.{option_map};
ghost use Rattle.std.specs.List.{list_any, list_all};
ghost use Rattle.label_set.specs.Rules.{is_local, is_updating, is_marked, same_name, agrees_of, differ_in, agreed_name};

use crate::placed::{Field, Placed};
use crate::rules::{agrees, is_local, is_updating, same_name};
use interleave::InterleaveSet;
use label_codec::Name;

/// Returns whether a label has the flag LOCAL (UEFI 2.10, section 13.19, Flags): the namespace lies
/// on one module alone.
pub fn some_local(labels: &[Placed]) -> bool
    ensures { result ≡ list_any is_local labels.now }
{
    labels.iter().any(is_local)
}

/// Returns whether some label has the flag UPDATING.
pub fn some_updating(labels: &[Placed]) -> bool
    ensures { result ≡ list_any is_updating labels.now }
{
    labels.iter().any(is_updating)
}

/// Returns whether all labels have the flag UPDATING.
pub fn all_updating(labels: &[Placed]) -> bool
    ensures { result ≡ list_all is_updating labels.now }
{
    labels.iter().all(is_updating)
}

/// Returns whether some label differs in a field from `first`, or, for Count, from the set.
fn some_differs(field: Field, set: &InterleaveSet, first: &Placed, labels: &[Placed]) -> bool
    ensures { result ≡ list_any (λ q. not (agrees_of field set.now first.now q)) labels.now }
{
    labels
        .iter()
        .any(|placed| !agrees(field, set, first, placed))
}

/// Returns whether some label differs in a field from the first one, or, for Count, from the set.
pub fn differ_in(field: Field, set: &InterleaveSet, labels: &[Placed]) -> bool
    ensures { result ≡ differ_in field set.now labels.now }
{
    match labels.first() {
        Some(first) => some_differs(field, set, first, labels),
        None => false,
    }
}

/// Returns whether all labels have this label's name.
fn all_named(first: &Placed, labels: &[Placed]) -> bool
    ensures { result ≡ list_all (same_name first.now) labels.now }
{
    labels.iter().all(|placed| same_name(first, placed))
}

/// Returns the name of all labels, if they have the same.
pub fn agreed_name(labels: &[Placed]) -> Option<Name>
    ensures { result ≡ agreed_name labels.now }
{
    let first = labels.first()?;
    if all_named(first, labels) {
        Some(first.label.name)
    } else {
        None
    }
}

/// Returns whether a label's flag UPDATING is as given.
fn is_marked(updating: bool, placed: &Placed) -> bool
    ensures { result ≡ is_marked updating placed.now }
{
    if updating {
        is_updating(placed)
    } else {
        !is_updating(placed)
    }
}

/// Returns the first label whose flag UPDATING is as given.
fn first_marked(updating: bool, labels: &[Placed]) -> Option<&Placed>
    ensures { option_map (λ placed. placed.now) result ≡ find (is_marked updating) labels.now }
{
    labels.iter().find(|placed| is_marked(updating, placed))
}

/// Returns whether all labels whose flag UPDATING is as given have this label's name.
fn all_marked_named(updating: bool, first: &Placed, labels: &[Placed]) -> bool
    ensures { result ≡ list_all (λ q. not (is_marked updating q) || same_name first.now q) labels.now }
{
    labels.iter().all(|placed| !is_marked(updating, placed) || same_name(first, placed))
}

/// Returns the name of all labels whose flag UPDATING is as given, if they have the same.
pub fn agreed_name_where(updating: bool, labels: &[Placed]) -> Option<Name>
    ensures { result ≡ agreed_name (filter (is_marked updating) labels.now) }
{
    let first = first_marked(updating, labels)?;
    if all_marked_named(updating, first, labels) {
        Some(first.label.name)
    } else {
        None
    }
}
