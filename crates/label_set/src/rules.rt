ghost use Rattle.std.specs.Prelude.{◌≡◌};
ghost use Rattle.std.specs.Option.{option_map};
ghost use Rattle.label_set.specs.Rules.{mapping_of, relative_of, is_past, is_outside, is_elsewhere, is_unaligned, is_local, is_updating, breaks_of, why_of, same_guids, same_name, agrees_of};

use crate::placed::{Field, Placed, Why};
use interleave::InterleaveSet;

/// A rule for a single label and its interleave set.
#[derive(Clone, Copy, Debug, PartialEq, Eq)]
pub enum Rule {
    /// Its module is in the set, and its extent inside the module's mapping.
    Inside,
    /// Its cookie is the set's.
    Cookie,
    /// Its position is its module's.
    Position,
    /// Its address, relative to the mapping, and its size are multiples of the set's unit.
    Aligned,
}

/// Returns whether a label has the flag LOCAL.
pub fn is_local(placed: &Placed) -> bool
    ensures { result ≡ is_local placed.now }
{
    placed.label.is_local()
}

/// Returns whether a label has the flag UPDATING.
pub fn is_updating(placed: &Placed) -> bool
    ensures { result ≡ is_updating placed.now }
{
    placed.label.is_updating()
}

/// Returns the first device address of a module's mapping.
fn start_of(set: &InterleaveSet, module: u32) -> Option<u64>
    ensures { result ≡ option_map (λ m. m.start) (mapping_of set.now «module») }
{
    match set.position(module) {
        Some(position) => Some(set.start(u32::from(position))),
        None => None,
    }
}

/// Returns a label's address relative to the start of its mapping, in bytes.
pub fn relative_address(set: &InterleaveSet, placed: &Placed) -> u64
    ensures { result ≡ relative_of set.now placed.now }
{
    match start_of(set, placed.module) {
        Some(start) => placed.label.dpa.saturating_sub(start),
        None => placed.label.dpa,
    }
}

/// Returns whether a label's extent isn't inside `span` bytes from `start` on.
fn leaves(start: u64, span: u64, placed: &Placed) -> bool
    ensures { result ≡ is_past start span placed.now }
{
    let label = &placed.label;
    label.dpa < start || label.raw > span || label.dpa - start > span - label.raw
}

/// Returns whether a label's module isn't in the set, or its extent isn't inside the module's
/// mapping (UEFI 2.10, section 13.19, Dpa and RawSize).
pub fn is_outside(set: &InterleaveSet, placed: &Placed) -> bool
    ensures { result ≡ is_outside set.now placed.now }
{
    match start_of(set, placed.module) {
        Some(start) => leaves(start, set.span(), placed),
        None => true,
    }
}

/// Returns whether a label's position isn't its module's.
fn is_elsewhere(set: &InterleaveSet, placed: &Placed) -> bool
    ensures { result ≡ is_elsewhere set.now placed.now }
{
    match set.position(placed.module) {
        Some(position) => placed.label.position != position,
        None => true,
    }
}

/// Returns whether a label's address or size isn't a multiple of the unit.
fn is_unaligned(set: &InterleaveSet, placed: &Placed) -> bool
    ensures { result ≡ is_unaligned set.now placed.now }
{
    let unit = set.unit();
    relative_address(set, placed) % unit != 0 || placed.label.raw % unit != 0
}

impl Rule {
    /// Returns whether a label violates the rule.
    pub fn breaks(self, set: &InterleaveSet, placed: &Placed) -> bool
        ensures { result ≡ breaks_of self set.now placed.now }
    {
        match self {
            Rule::Inside => is_outside(set, placed),
            Rule::Cookie => placed.label.cookie != set.cookie(),
            Rule::Position => is_elsewhere(set, placed),
            Rule::Aligned => is_unaligned(set, placed),
        }
    }

    /// Returns the reason for a label that violates the rule.
    pub fn why(self, placed: &Placed) -> Why
        ensures { result ≡ why_of self placed.now }
    {
        let module = placed.module;
        match self {
            Rule::Inside => Why::Outside { module },
            Rule::Cookie => Why::Cookie {
                module,
                found: placed.label.cookie,
            },
            Rule::Position => Why::Position {
                module,
                found: placed.label.position,
            },
            Rule::Aligned => Why::Unaligned { module },
        }
    }
}

/// Returns whether two labels have the same GUIDs.
fn same_guids(first: &Placed, placed: &Placed) -> bool
    ensures { result ≡ same_guids first.now placed.now }
{
    placed.label.kind.into_bytes() == first.label.kind.into_bytes()
        && placed.label.abstraction.into_bytes() == first.label.abstraction.into_bytes()
}

/// Returns whether a label agrees in a field with the first of its namespace, or, for Count, with
/// the set.
pub fn agrees(field: Field, set: &InterleaveSet, first: &Placed, placed: &Placed) -> bool
    ensures { result ≡ agrees_of field set.now first.now placed.now }
{
    match field {
        Field::Count => u32::from(placed.label.count) == set.ways(),
        Field::Dpa => relative_address(set, placed) == relative_address(set, first),
        Field::RawSize => placed.label.raw == first.label.raw,
        Field::LbaSize => placed.label.lba == first.label.lba,
        Field::Guids => same_guids(first, placed),
        Field::Names => same_name(first, placed),
    }
}

/// Returns whether two labels have the same name.
pub fn same_name(first: &Placed, placed: &Placed) -> bool
    ensures { result ≡ same_name first.now placed.now }
{
    placed.label.name.bytes() == first.label.name.bytes()
}
