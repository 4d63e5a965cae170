//! The structures of the table, decoded by type (ACPI 6.5, sections 5.2.25.2 to 5.2.25.6).

ghost use Rattle.std.specs.Prelude.{◌≡◌, ◌+◌, ◌*◌, ◌^◌, ◌<◌, ◌≤◌, length, IfOk, drop, IsTrue};
ghost use Rattle.std.specs.Int.{w16, w32};
ghost use Rattle.nvd_words.specs.Bytes.{number_at};
ghost use Rattle.nvd_words.specs.Checks.{Answers};
ghost use Rattle.nfit_reader.specs.Structures.{least_length, has_lines, is_structure, range_of, link_of, lines_of, identity_of, range_structure, interleave_structure, control_structure, structure_of, structures_of, spans_from, IsWhole};
ghost use Rattle.nfit_reader.specs.Table.{as_range, as_link};
ghost use Rattle.nfit_reader.specs.Counted.{IsShort};
ghost use Rattle.std.specs.List.{All};

use crate::fields::{eight_at, four_at, two_at};
use crate::shared::Shared;
use crate::table::{Identity, Lines, NfitFault};
use nvd_words::Items;
use std::alloc::{AllocError, Global};

/// A structure that the reader uses. All others are skipped.
#[derive(Drop)]
pub(crate) enum Structure {
    Range(Range),
    Mapping(Link),
    Interleave(Interleave),
    Control(Control),
    PassedOver,
}

impl Structure {
    pub(crate) fn as_range(&self) -> Option<Range>
        ensures { result ≡ as_range self.now }
    {
        match self {
            Structure::Range(range) => Some(*range),
            _ => None,
        }
    }

    pub(crate) fn as_link(&self) -> Option<Link>
        ensures { result ≡ as_link self.now }
    {
        match self {
            Structure::Mapping(link) => Some(*link),
            _ => None,
        }
    }
}

/// A system physical address range structure, type 0.
#[derive(Clone, Copy)]
pub(crate) struct Range {
    /// SPA Range Structure Index, u16 at 4.
    pub index: u16,
    /// Whether the Address Range Type GUID, 16 bytes at 16, is that of persistent memory.
    pub persistent: bool,
    /// System Physical Address Range Base, u64 at 32.
    pub base: u64,
    /// System Physical Address Range Length, u64 at 40.
    pub length: u64,
}

/// A region mapping structure, type 1. It links a module with a range.
#[derive(Clone, Copy)]
pub(crate) struct Link {
    /// NFIT Device Handle, u32 at 4.
    pub handle: u32,
    /// SPA Range Structure Index, u16 at 12.
    pub range: u16,
    /// NVDIMM Control Region Structure Index, u16 at 14.
    pub control: u16,
    /// NVDIMM Region Size, u64 at 16.
    pub size: u64,
    /// Region Offset, u64 at 24.
    pub offset: u64,
    /// NVDIMM Physical Address Region Base, u64 at 32.
    pub start: u64,
    /// Interleave Structure Index, u16 at 40.
    pub interleave: u16,
    /// Interleave Ways, u16 at 42.
    pub ways: u16,
}

/// An interleave structure, type 2.
#[derive(Drop)]
pub(crate) struct Interleave {
    /// Interleave Structure Index, u16 at 4.
    pub index: u16,
    /// Number of Lines Described, u32 at 8; Line Size, u32 at 12; from 16 on a Line Offset, u32,
    /// for each line.
    pub lines: Lines,
}

/// A control region structure, type 4.
#[derive(Clone, Copy)]
pub(crate) struct Control {
    /// NVDIMM Control Region Structure Index, u16 at 4.
    pub index: u16,
    /// Vendor ID, u16 at 6; Manufacturing Location, u8 at 19; Manufacturing Date, u16 at 20; Serial
    /// Number, u32 at 24.
    pub identity: Identity,
}

// Every structure: Type u16, Length u16; types 0, 2 and 4: an index u16.
const TYPE_AT: usize = 0;

const LENGTH_AT: usize = 2;

const INDEX_AT: usize = 4;

// SPA range.
const RANGE_GUID_AT: usize = 16;

const RANGE_BASE_AT: usize = 32;

const RANGE_LENGTH_AT: usize = 40;

const RANGE_BYTES: u16 = 56;

// Region mapping.
const HANDLE_AT: usize = 4;

const RANGE_INDEX_AT: usize = 12;

const CONTROL_INDEX_AT: usize = 14;

const REGION_SIZE_AT: usize = 16;

const REGION_OFFSET_AT: usize = 24;

const REGION_START_AT: usize = 32;

const INTERLEAVE_INDEX_AT: usize = 40;

const WAYS_AT: usize = 42;

const MAPPING_BYTES: u16 = 48;

// Interleave.
const LINE_COUNT_AT: usize = 8;

const LINE_SIZE_AT: usize = 12;

const LINES_AT: usize = 16;

const INTERLEAVE_BYTES: u16 = 16;

// Control region.
const VENDOR_AT: usize = 6;

const LOCATION_AT: usize = 19;

const DATE_AT: usize = 20;

const SERIAL_AT: usize = 24;

const CONTROL_BYTES: u16 = 32;

/// The GUID of persistent memory, 66f0d379-b4f3-4074-ac43-0d3318b78cdb, its first three fields with
/// their low byte first.
const PERSISTENT_MEMORY: &[u8; 16] = &[
    0x79, 0xd3, 0xf0, 0x66, 0xf3, 0xb4, 0x74, 0x40, 0xac, 0x43, 0x0d, 0x33, 0x18, 0xb7, 0x8c, 0xdb,
];

/// Returns the minimum Length of a type.
#[tactic(auto, unfolding(crate::specs::Structures::least_length))]
fn least_length(kind: u16) -> u16
    ensures { result ≡ least_length kind }
{
    match kind {
        0 => RANGE_BYTES,
        1 => MAPPING_BYTES,
        2 => INTERLEAVE_BYTES,
        4 => CONTROL_BYTES,
        _ => 4,
    }
}

/// Returns whether an interleave structure has at least one line and room for all of them.
#[tactic(auto, unfolding(crate::specs::Structures::has_lines))]
fn has_lines(rest: &[u8]) -> bool
    requires { 16 ≤ length rest.now }
    ensures { result ≡ has_lines rest.now }
{
    let lines = u64::from(four_at(rest, LINE_COUNT_AT));
    1 <= lines && 16 + 4 * lines <= u64::from(two_at(rest, LENGTH_AT))
}

/// Returns whether the bytes begin with a complete structure.
#[tactic(auto, using(crate::proofs::Spans::least), unfolding(crate::specs::Structures::is_structure))]
fn is_structure(rest: &[u8]) -> bool
    ensures { result ≡ is_structure rest.now }
{
    if rest.len() < 4 {
        return false;
    }
    let kind = two_at(rest, TYPE_AT);
    let len = two_at(rest, LENGTH_AT);
    if len < least_length(kind) || rest.len() < len as usize {
        return false;
    }
    kind != 2 || has_lines(rest)
}

#[tactic(auto, unfolding(crate::specs::Structures::range_of))]
fn range_of(span: &[u8]) -> Range
    requires { 56 ≤ length span.now }
    ensures { result ≡ range_of span.now }
{
    Range {
        index: two_at(span, INDEX_AT),
        persistent: &span[RANGE_GUID_AT..RANGE_GUID_AT + 16] == PERSISTENT_MEMORY.as_slice(),
        base: eight_at(span, RANGE_BASE_AT),
        length: eight_at(span, RANGE_LENGTH_AT),
    }
}

#[tactic(auto, unfolding(crate::specs::Structures::link_of))]
fn link_of(span: &[u8]) -> Link
    requires { 48 ≤ length span.now }
    ensures { result ≡ link_of span.now }
{
    Link {
        handle: four_at(span, HANDLE_AT),
        range: two_at(span, RANGE_INDEX_AT),
        control: two_at(span, CONTROL_INDEX_AT),
        size: eight_at(span, REGION_SIZE_AT),
        offset: eight_at(span, REGION_OFFSET_AT),
        start: eight_at(span, REGION_START_AT),
        interleave: two_at(span, INTERLEAVE_INDEX_AT),
        ways: two_at(span, WAYS_AT),
    }
}

#[tactic(auto, unfolding(crate::specs::Structures::lines_of))]
fn lines_of(alloc: Global, span: &[u8]) -> Result<Lines, AllocError>
    requires lines { 16 + 4 * number_at w32 span.now 8 ≤ length span.now }
    requires header { 16 ≤ length span.now }
    ensures { IfOk result (λ lines. lines ≡ lines_of span.now) }
{
    let count = four_at(span, LINE_COUNT_AT) as usize;
    let mut offsets = Items::new(alloc);
    for line in 0..count {
        offsets.push(four_at(span, LINES_AT + 4 * line))?;
    }
    Ok(Lines {
        size: four_at(span, LINE_SIZE_AT),
        offsets: Shared::from_items(offsets)?,
    })
}

#[tactic(auto, unfolding(crate::specs::Structures::identity_of))]
fn identity_of(span: &[u8]) -> Identity
    requires { 32 ≤ length span.now }
    ensures { result ≡ identity_of span.now }
{
    Identity {
        vendor: two_at(span, VENDOR_AT),
        date: two_at(span, DATE_AT),
        location: span[LOCATION_AT],
        serial: four_at(span, SERIAL_AT),
    }
}

#[tactic(auto, unfolding(crate::specs::Structures::range_structure, crate::specs::Structures::range_of))]
fn range_structure(span: &[u8]) -> Structure
    requires { 56 ≤ length span.now }
    ensures { result ≡ range_structure span.now }
{
    let range = range_of(span);
    if two_at(span, INDEX_AT) == 0 {
        Structure::PassedOver
    } else {
        Structure::Range(range)
    }
}

#[tactic(auto, unfolding(crate::specs::Structures::interleave_structure))]
fn interleave_structure(alloc: Global, span: &[u8]) -> Result<Structure, AllocError>
    requires lines { 16 + 4 * number_at w32 span.now 8 ≤ length span.now }
    requires header { 16 ≤ length span.now }
    ensures { IfOk result (λ s. s ≡ interleave_structure span.now) }
{
    let index = two_at(span, INDEX_AT);
    if index == 0 {
        return Ok(Structure::PassedOver);
    }
    let lines = lines_of(alloc, span)?;
    Ok(Structure::Interleave(Interleave { index, lines }))
}

#[tactic(auto, unfolding(crate::specs::Structures::control_structure))]
fn control_structure(span: &[u8]) -> Structure
    requires { 32 ≤ length span.now }
    ensures { result ≡ control_structure span.now }
{
    let index = two_at(span, INDEX_AT);
    if index == 0 {
        Structure::PassedOver
    } else {
        Structure::Control(Control {
            index,
            identity: identity_of(span),
        })
    }
}

/// Decodes the structure in a span. A structure of type 0, 2 or 4 with index 0 is skipped.
#[tactic(auto, using(crate::proofs::Spans::whole), unfolding(crate::specs::Structures::structure_of))]
fn structure_of(alloc: Global, span: &[u8]) -> Result<Structure, AllocError>
    requires { IsWhole span.now }
    ensures { IfOk result (λ s. s ≡ structure_of span.now) }
{
    match two_at(span, TYPE_AT) {
        0 => Ok(range_structure(span)),
        1 => Ok(Structure::Mapping(link_of(span))),
        2 => interleave_structure(alloc, span),
        4 => Ok(control_structure(span)),
        _ => Ok(Structure::PassedOver),
    }
}

fn rest_of(table: &[u8], at: usize) -> &[u8]
    requires { at ≤ length table.now }
    ensures { result.now ≡ drop at table.now }
{
    &table[at..]
}

/// Decodes the structures from byte 40 to the table's end.
pub(crate) fn structures_in(alloc: Global, table: &[u8]) -> Result<Items<Structure>, NfitFault>
    requires header { 40 ≤ length table.now }
    requires small { length table.now < 2 ^ 32 }
    ensures reading { Answers NfitFault.OutOfMemory result
        (structures_of (spans_from (length table.now) 40 (drop 40 table.now))) }
    ensures few { IfOk result (λ structures. 4 * length structures ≤ length table.now) }
    ensures short { IfOk result (All IsShort) }
{
    let mut structures = Items::new(alloc);
    let mut at = 40;
    while at < table.len() {
        let rest = rest_of(table, at);
        if !is_structure(rest) {
            return Err(NfitFault::Structure { at: at as u64 });
        }
        let len = two_at(rest, LENGTH_AT) as usize;
        structures.push(structure_of(alloc, &rest[..len])?)?;
        at += len;
    }
    Ok(structures)
}
