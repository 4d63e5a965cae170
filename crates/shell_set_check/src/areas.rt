//! The faults of label areas, and the notices of bad ranges.
ghost use Rattle.std.specs.Prelude.{◌≡◌, ◌≢◌, ◌++◌, ◌+◌, ◌*◌, ◌<◌, ◌≤◌, Err, IfOk, IfSome, OnOk, Option, length, slice_index_or, string_bytes};
ghost use Rattle.std.specs.Option.{option_map};
ghost use Rattle.cut_words.specs.Words.{Words};
ghost use Rattle.image_set.specs.Load.{bytes_kept};
ghost use Rattle.image_set.specs.Outline.{IsOutlined};
ghost use Rattle.label_codec.specs.Label.{label_reading};
ghost use Rattle.label_index.specs.Area.{IsAreaSize};
ghost use Rattle.label_index.specs.Index.{index_reading};
ghost use Rattle.label_area.specs.Area.{block_in, slot_bytes};
ghost use Rattle.shell_set_check.specs.Text.{area_part, area_part_of, areas_lines, bad_lines, bad_part, index_fault_text, record_part, record_text, side_fault, side_part, side_text, sides_part, slot_lines, slot_part, slot_text, slots_part};

use crate::text::{push_fault, push_notice};
use cut_words::CutWords;
use image_set::Outline;
use label_area::{AreaFault, current_block, read_slot};
use label_codec::LabelFault;
use label_index::{IndexBlock, IndexFault, Side, read_index};
use nvd_words::Items;
use shell_reports::label_fault_text;
use std::alloc::{AllocError, Global};

/// Returns the text of why an index block is refused. Out of memory isn't a finding.
fn index_fault_text(alloc: Global, fault: IndexFault) -> Result<String, AllocError>
    ensures text { IfOk result (λ text. string_bytes text ≡ index_fault_text fault) }
    ensures finding { IfOk result (λ _. fault ≢ IndexFault.OutOfMemory) }
{
    match fault {
        IndexFault::Signature => String::from_str(alloc, "Signature"),
        IndexFault::Sequence => String::from_str(alloc, "Sequence"),
        IndexFault::Version { major, minor } => format!(in alloc; "Version {} {}", major, minor),
        IndexFault::Offsets => String::from_str(alloc, "Offsets"),
        IndexFault::Slots => String::from_str(alloc, "Slots"),
        IndexFault::Checksum => String::from_str(alloc, "Checksum"),
        IndexFault::OutOfMemory => Err(AllocError),
    }
}

/// Returns the text of an index block that is refused.
pub(crate) fn side_text(
    alloc: Global,
    module: u32,
    side: u32,
    fault: IndexFault,
) -> Result<String, AllocError>
    ensures text { IfOk result (λ text. string_bytes text ≡ side_text «module» side fault) }
    ensures finding { IfOk result (λ _. fault ≢ IndexFault.OutOfMemory) }
{
    let why = index_fault_text(alloc, fault)?;
    format!(in alloc; "labels {} index {} {}", module, side, why)
}

/// Appends the line of an index block that is refused.
fn push_side_fault(
    alloc: Global,
    module: u32,
    side: u32,
    fault: IndexFault,
    text: &mut Vec<u8>,
) -> Result<(), AllocError>
    ensures text { OnOk result (text.new.items ≡ text.old.items ++ side_fault «module» side fault) }
    ensures finding { OnOk result (fault ≢ IndexFault.OutOfMemory) }
{
    let what = side_text(alloc, module, side, fault)?;
    match fault {
        IndexFault::Sequence => push_notice(alloc, what.as_str(), text),
        _ => push_fault(alloc, what.as_str(), text),
    }
}

/// Appends the line of an index block, if it is refused.
fn push_side(
    alloc: Global,
    module: u32,
    side: u32,
    block: Result<IndexBlock, IndexFault>,
    text: &mut Vec<u8>,
) -> Result<(), AllocError>
    ensures text { OnOk result (text.new.items ≡ text.old.items ++ side_part «module» side block) }
    ensures finding { OnOk result (block ≢ Err IndexFault.OutOfMemory) }
{
    match block {
        Ok(_) => Ok(()),
        Err(fault) => push_side_fault(alloc, module, side, fault, text),
    }
}

/// Appends the lines of both index blocks, as they were read.
fn push_both(
    alloc: Global,
    module: u32,
    a: Result<IndexBlock, IndexFault>,
    b: Result<IndexBlock, IndexFault>,
    text: &mut Vec<u8>,
) -> Result<(), AllocError>
    ensures text { OnOk result (text.new.items ≡ text.old.items ++ sides_part «module» a b) }
    ensures first { OnOk result (a ≢ Err IndexFault.OutOfMemory) }
    ensures second { OnOk result (b ≢ Err IndexFault.OutOfMemory) }
{
    if let (Err(IndexFault::Signature), Err(IndexFault::Signature)) = (&a, &b) {
        let what = format!(in alloc; "labels {} NoIndex", module)?;
        return push_notice(alloc, what.as_str(), text);
    }
    push_side(alloc, module, 0, a, text)?;
    push_side(alloc, module, 1, b, text)
}

/// Appends the lines of both index blocks of an area.
fn push_sides(alloc: Global, module: u32, area: &[u8], text: &mut Vec<u8>) -> Result<(), AllocError>
    requires { IsAreaSize (length area.now) }
    ensures { OnOk result (text.new.items ≡ text.old.items ++ sides_part «module» (index_reading area.now Side.Zero) (index_reading area.now Side.One)) }
{
    let a = read_index(alloc, area, Side::Zero);
    let b = read_index(alloc, area, Side::One);
    push_both(alloc, module, a, b, text)
}

/// Appends the line of a used slot without a valid label.
fn push_bad_slot(
    alloc: Global,
    module: u32,
    slot: u32,
    fault: LabelFault,
    text: &mut Vec<u8>,
) -> Result<(), AllocError>
    ensures { OnOk result (text.new.items ≡ text.old.items ++ slot_part «module» slot (Err fault)) }
{
    let why = label_fault_text(alloc, fault)?;
    let what = format!(in alloc; "labels {} slot {} {}", module, slot, why)?;
    push_fault(alloc, what.as_str(), text)
}

/// Appends the line of a used slot, if it has no valid label.
fn push_slot(
    alloc: Global,
    module: u32,
    area: &[u8],
    size: u64,
    slot: u32,
    text: &mut Vec<u8>,
) -> Result<(), AllocError>
    requires { 2 * size + 256 * slot + 256 ≤ length area.now }
    ensures { OnOk result (text.new.items ≡ text.old.items ++ slot_part «module» slot (label_reading (slot_bytes area.now size slot) slot)) }
{
    match read_slot(area, size, slot) {
        Ok(_) => Ok(()),
        Err(fault) => push_bad_slot(alloc, module, slot, fault, text),
    }
}

/// Appends the lines of the used slots by an index block.
fn push_slots(
    alloc: Global,
    module: u32,
    area: &[u8],
    block: &IndexBlock,
    text: &mut Vec<u8>,
) -> Result<(), AllocError>
    requires fits { 2 * block.now.size + 256 * length block.now.free ≤ length area.now }
    requires small { length area.now ≤ 1048576 }
    ensures { OnOk result (text.new.items ≡ text.old.items ++ slot_lines «module» area.now block.now.size 0 block.now.free) }
{
    for (slot, free) in block.free.as_slice().iter().enumerate() {
        if !*free {
            push_slot(alloc, module, area, block.size, slot as u32, text)?;
        }
    }
    Ok(())
}

/// Appends the lines of a label area.
fn push_area(alloc: Global, module: u32, area: &[u8], text: &mut Vec<u8>) -> Result<(), AllocError>
    requires { IsAreaSize (length area.now) }
    ensures { OnOk result (text.new.items ≡ text.old.items ++ area_part «module» area.now) }
{
    push_sides(alloc, module, area, text)?;
    match current_block(alloc, area) {
        Ok(block) => push_slots(alloc, module, area, &block, text),
        Err(AreaFault::OutOfMemory) => Err(AllocError),
        Err(_) => Ok(()),
    }
}

/// Appends the lines of a module's label area, if it has one.
fn push_area_of(
    alloc: Global,
    module: u32,
    area: Option<Vec<u8>>,
    text: &mut Vec<u8>,
) -> Result<(), AllocError>
    requires { IfSome area (λ bytes. IsAreaSize (length bytes.items)) }
    ensures { OnOk result (text.new.items ≡ text.old.items ++ area_part_of «module» (option_map (λ bytes. bytes.items) area)) }
{
    match area {
        Some(area) => push_area(alloc, module, &area, text),
        None => Ok(()),
    }
}

/// The bytes of a module's label area, if it has one.
fn area_at(
    alloc: Global,
    outline: &Outline,
    module: u32,
    _area: &Option<CutWords>,
) -> Result<Option<Vec<u8>>, AllocError>
    requires outlined { IsOutlined outline.now }
    requires there { «module» < length outline.now.labels }
    requires area { (blank : Option Words) → _area.now ≡ slice_index_or outline.now.labels «module» blank }
    ensures bytes { IfOk result (λ found. option_map (λ bytes. bytes.items) found ≡ option_map bytes_kept _area.now) }
    ensures sized { IfOk result (λ found. IfSome found (λ bytes. IsAreaSize (length bytes.items))) }
{
    outline.area(alloc, module)
}

/// Appends the lines of all label areas.
pub(crate) fn push_areas(
    alloc: Global,
    outline: &Outline,
    text: &mut Vec<u8>,
) -> Result<(), AllocError>
    requires { IsOutlined outline.now }
    ensures { OnOk result (text.new.items ≡ text.old.items ++ areas_lines 0 outline.now.labels) }
{
    for (module, area) in outline.labels.as_slice().iter().enumerate() {
        let area = area_at(alloc, outline, module as u32, area)?;
        push_area_of(alloc, module as u32, area, text)?;
    }
    Ok(())
}

/// Returns the text of so many records of bad ranges.
fn record_text(alloc: Global, module: u32, count: usize) -> Result<String, AllocError>
    ensures { IfOk result (λ text. string_bytes text ≡ record_text «module» count) }
{
    format!(in alloc; "badranges {} {}", module, count)
}

/// Appends the notice of so many records of bad ranges, if there are any.
fn push_records(
    alloc: Global,
    module: u32,
    count: usize,
    text: &mut Vec<u8>,
) -> Result<(), AllocError>
    ensures { OnOk result (text.new.items ≡ text.old.items ++ record_part «module» count) }
{
    if count == 0 {
        return Ok(());
    }
    let what = record_text(alloc, module, count)?;
    push_notice(alloc, what.as_str(), text)
}

/// Appends the notice of a module's records of bad ranges, 16 bytes each, if there are any.
fn push_bad(
    alloc: Global,
    module: u32,
    bytes: &Option<Items<u8>>,
    text: &mut Vec<u8>,
) -> Result<(), AllocError>
    ensures { OnOk result (text.new.items ≡ text.old.items ++ bad_part «module» bytes.now) }
{
    match bytes {
        Some(bytes) => push_records(alloc, module, bytes.len() / 16, text),
        None => Ok(()),
    }
}

/// Appends the notices of all modules' records of bad ranges.
pub(crate) fn push_bad_ranges(
    alloc: Global,
    bad: &[Option<Items<u8>>],
    text: &mut Vec<u8>,
) -> Result<(), AllocError>
    requires { length bad.now ≤ 64 }
    ensures { OnOk result (text.new.items ≡ text.old.items ++ bad_lines 0 bad.now) }
{
    for (module, bytes) in bad.iter().enumerate() {
        push_bad(alloc, module as u32, bytes, text)?;
    }
    Ok(())
}
