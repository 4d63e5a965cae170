//! The command `labels`: a module's current index block and its labels.
ghost use Rattle.std.specs.Prelude.{◌≡◌, ◌≢◌, ◌≤◌, ◌+◌, ◌*◌, ◌++◌, ℕ, List, IfOk, IfSome, OnOk, None, length, string_bytes};
ghost use Rattle.std.specs.Option.{option_map};
ghost use Rattle.image_set.specs.Outline.{IsOutlined, image_set_with};
ghost use Rattle.shell_reports.specs.Labels.{labels_outcome, module_outcome, area_outcome, area_fault_text, block_outcome, fault_outcome, index_line, label_line, bad_line, numbers_text, ending_text, used_line, slot_line, lines_from};
ghost use Rattle.shell_reports.specs.Saved.{outcome_of};
ghost use Rattle.label_index.specs.Area.{IsAreaSize};

use crate::{Report, image_answer, label_fault_text, mode_text, name_text, printed_answer};
use image_set::Outline;
use label_area::{AreaFault, current_block, read_slot};
use label_codec::{Label, LabelFault};
use label_index::{IndexBlock, Side};
use std::alloc::{AllocError, Global};

/// The line of the current index block.
fn index_line(alloc: Global, block: &IndexBlock) -> Result<String, AllocError>
    ensures { IfOk result (λ text. string_bytes text ≡ index_line block.now) }
{
    let side = match block.side {
        Side::Zero => 0,
        Side::One => 1,
    };
    format!(in alloc;
        "index {} seq {} slots {} free {}\n",
        side,
        block.seq,
        block.slots,
        block.free.count()
    )
}

/// The line of a label.
fn label_line(alloc: Global, slot: u32, label: &Label) -> Result<Vec<u8>, AllocError>
    ensures { IfOk result (λ line. line.items ≡ label_line slot label.now) }
{
    let mut line = format!(in alloc; "label {} {} ", slot, label.uuid)?.into_bytes();
    line.extend_from_slice(&name_text(alloc, label.name.bytes())?)?;
    line.extend_from_slice(numbers(alloc, label)?.as_bytes())?;
    line.extend_from_slice(ending(alloc, label)?.as_bytes())?;
    Ok(line)
}

/// The numbers in a label's line.
fn numbers(alloc: Global, label: &Label) -> Result<String, AllocError>
    ensures { IfOk result (λ text. string_bytes text ≡ numbers_text label.now) }
{
    format!(in alloc;
        " pos {} of {} dpa {} size {} flags {} lba {}",
        label.position, label.count, label.dpa, label.raw, label.flags, label.lba
    )
}

/// The end of a label's line.
fn ending(alloc: Global, label: &Label) -> Result<String, AllocError>
    ensures { IfOk result (λ text. string_bytes text ≡ ending_text label.now) }
{
    let mode = mode_text(alloc, label.mode())?;
    let cookie = hex::encode(alloc, label.cookie.to_be_bytes())?;
    format!(in alloc; " mode {} cookie {}\n", mode, cookie)
}

/// The line of a used slot without a valid label.
fn bad_line(alloc: Global, slot: u32, fault: LabelFault) -> Result<Vec<u8>, AllocError>
    ensures { IfOk result (λ line. line.items ≡ bad_line slot fault) }
{
    let fault = label_fault_text(alloc, fault)?;
    Ok(format!(in alloc; "bad {} {}\n", slot, fault)?.into_bytes())
}

/// The line of a used slot.
fn used_line(alloc: Global, area: &[u8], size: u64, slot: u32) -> Result<Vec<u8>, AllocError>
    requires { 2 * size + 256 * slot + 256 ≤ length area.now }
    ensures { IfOk result (λ line. line.items ≡ used_line area.now size slot) }
{
    match read_slot(area, size, slot) {
        Ok(label) => label_line(alloc, slot, &label),
        Err(fault) => bad_line(alloc, slot, fault),
    }
}

/// Returns the line of a slot, nothing if it is free.
fn slot_line(
    alloc: Global,
    area: &[u8],
    size: u64,
    slot: u32,
    free: bool,
) -> Result<Vec<u8>, AllocError>
    requires { 2 * size + 256 * slot + 256 ≤ length area.now }
    ensures { IfOk result (λ line. line.items ≡ slot_line area.now size slot free) }
{
    if free {
        Ok(Vec::new(alloc))
    } else {
        used_line(alloc, area, size, slot)
    }
}

/// Appends the lines of an area's slots to a text.
fn add_lines(
    alloc: Global,
    area: &[u8],
    block: &IndexBlock,
    text: &mut Vec<u8>,
) -> Result<(), AllocError>
    requires fits { 2 * block.now.size + 256 * length block.now.free ≤ length area.now }
    requires small { length area.now ≤ 1048576 }
    ensures { OnOk result (text.new.items ≡ text.old.items ++ lines_from area.now block.now.size 0 block.now.free) }
{
    for (slot, free) in block.free.as_slice().iter().enumerate() {
        let line = slot_line(alloc, area, block.size, slot as u32, *free)?;
        text.extend_from_slice(&line)?;
    }
    Ok(())
}

/// Answers on an area with a current block.
fn block_answer(alloc: Global, area: &[u8], block: &IndexBlock) -> Result<Report, AllocError>
    requires fits { 2 * block.now.size + 256 * length block.now.free ≤ length area.now }
    requires small { length area.now ≤ 1048576 }
    ensures { IfOk result (λ answer. outcome_of answer ≡ block_outcome area.now block.now) }
{
    let mut text = index_line(alloc, block)?.into_bytes();
    add_lines(alloc, area, block, &mut text)?;
    Ok(printed_answer(text))
}

/// Returns the text of why an area is refused. Power wasn't cut. Out of memory isn't a finding.
fn area_fault_text(alloc: Global, fault: AreaFault) -> Result<String, AllocError>
    requires { fault ≢ AreaFault.PowerCut }
    ensures text { IfOk result (λ text. string_bytes text ≡ area_fault_text fault) }
    ensures finding { IfOk result (λ _. fault ≢ AreaFault.OutOfMemory) }
{
    match fault {
        AreaFault::Unsupported { major, minor } => {
            format!(in alloc; "Unsupported {} {}", major, minor)
        }
        AreaFault::NoIndex => String::from_str(alloc, "NoIndex"),
        AreaFault::AlreadyInitialised { seq } => format!(in alloc; "AlreadyInitialised {}", seq),
        AreaFault::PowerCut => unreachable!(),
        AreaFault::OutOfMemory => Err(AllocError),
    }
}

/// Answers on an area that is refused: it has no current block, or `init` found one. Power wasn't cut.
/// Out of memory isn't a finding.
pub fn fault_answer(alloc: Global, module: u32, fault: AreaFault) -> Result<Report, AllocError>
    requires { fault ≢ AreaFault.PowerCut }
    ensures text { IfOk result (λ answer. outcome_of answer ≡ fault_outcome «module» fault) }
    ensures finding { IfOk result (λ _. fault ≢ AreaFault.OutOfMemory) }
{
    let fault = area_fault_text(alloc, fault)?;
    Ok(image_answer(format!(in alloc; "image labels {} {}\n", module, fault)?))
}

/// Answers on a whole area.
fn area_answer(alloc: Global, module: u32, area: &[u8]) -> Result<Report, AllocError>
    requires { IsAreaSize (length area.now) }
    ensures { IfOk result (λ answer. outcome_of answer ≡ area_outcome «module» area.now) }
{
    match current_block(alloc, area) {
        Ok(block) => block_answer(alloc, area, &block),
        Err(fault) => fault_answer(alloc, module, fault),
    }
}

/// Answers for an area that doesn't exist.
pub fn missing_answer(alloc: Global, module: u32) -> Result<Report, AllocError>
    ensures { IfOk result (λ answer. outcome_of answer ≡ module_outcome «module» None) }
{
    Ok(image_answer(format!(in alloc; "image labels {} Missing\n", module)?))
}

/// Answers on a module's label area, if it has one.
fn module_answer(alloc: Global, module: u32, area: Option<Vec<u8>>) -> Result<Report, AllocError>
    requires { IfSome area (λ bytes. IsAreaSize (length bytes.items)) }
    ensures { IfOk result (λ answer. outcome_of answer ≡ module_outcome «module» (option_map (λ bytes. bytes.items) area)) }
{
    match area {
        Some(area) => area_answer(alloc, module, &area),
        None => missing_answer(alloc, module),
    }
}

/// Answers `labels` on an image set: the module's current index block and its labels. The set was
/// loaded without its contents, so each label area has a valid size.
pub fn labels_answer(alloc: Global, module: u32, outline: &Outline) -> Result<Report, AllocError>
    requires { IsOutlined outline.now }
    ensures { IfOk result (λ answer. (contents : List (List ℕ)) → outcome_of answer ≡ labels_outcome «module» (image_set_with outline.now contents)) }
{
    let area = outline.area(alloc, module)?;
    module_answer(alloc, module, area)
}
