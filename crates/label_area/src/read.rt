//! Reading the words of a label area into memory.
ghost use Rattle.std.specs.Prelude.{◌≡◌, ◌+◌, ◌*◌, ◌≤◌, length, IfOk, Ok};
ghost use Rattle.nvd_words.specs.Checks.{Answers};
ghost use Rattle.label_index.specs.Area.{IsAreaSize};
ghost use Rattle.cut_words.specs.Words.{settled};
ghost use Rattle.cut_words.specs.WordBytes.{bytes_of};
ghost use Rattle.label_area.specs.Shown.{shown_by};
ghost use Rattle.label_area.specs.Area.{block_in, label_in, labels_in, slot_at, slots_by};

use crate::area::{current_block, read_slot};
use crate::fault::AreaFault;
use crate::list::LabelList;
use cut_words::{CutWords, WordSpace};
use label_codec::Label;
use label_index::IndexBlock;
use std::alloc::{AllocError, Global};

/// Returns the bytes of words, none of which is pending.
fn bytes_of_words(alloc: Global, words: &CutWords) -> Result<Vec<u8>, AllocError>
    requires { words.now ≡ settled words.now.kept }
    ensures { IfOk result (λ bytes. bytes.items ≡ bytes_of words.now.kept) }
{
    let mut bytes = Vec::new(alloc);
    for i in 0..words.count() {
        bytes.extend_from_slice(&words.load(i).to_le_bytes())?;
    }
    Ok(bytes)
}

/// Returns the label in a slot of an area with index blocks of `size` bytes, if the slot is used
/// and its label is valid.
fn label_of_slot(area: &[u8], size: u64, slot: u32, free: bool) -> Option<Label>
    requires { 2 * size + 256 * slot + 256 ≤ length area.now }
    ensures { result ≡ label_in (slot_at area.now size (slot, free)) }
{
    if free {
        None
    } else {
        read_slot(area, size, slot).ok()
    }
}

/// The contents of an area: its current index block, and its labels.
#[derive(Debug, Drop)]
pub(crate) struct Shown {
    pub(crate) block: IndexBlock,
    pub(crate) labels: LabelList,
}

/// Returns the labels of an area by its current block, one entry for each slot.
fn labels_of(alloc: Global, area: &[u8], block: &IndexBlock) -> Result<LabelList, AllocError>
    requires fits { 2 * block.now.size + 256 * length block.now.free ≤ length area.now }
    requires small { length area.now ≤ 1048576 }
    ensures { IfOk result (λ labels. labels ≡ labels_in (slots_by area.now block.now)) }
{
    let mut labels = Vec::new(alloc);
    for (slot, free) in block.free.as_slice().iter().enumerate() {
        labels.push(label_of_slot(area, block.size, slot as u32, *free))?;
    }
    Ok(LabelList::from_vec(labels))
}

/// Returns the contents of an area's bytes, or why there is no current block.
fn shown_in(alloc: Global, area: &[u8]) -> Result<Shown, AreaFault>
    requires { IsAreaSize (length area.now) }
    ensures { Answers AreaFault.OutOfMemory result (shown_by area.now (block_in area.now)) }
{
    let block = current_block(alloc, area)?;
    match labels_of(alloc, area, &block) {
        Ok(labels) => Ok(Shown { block, labels }),
        Err(_) => Err(AreaFault::OutOfMemory),
    }
}

/// Returns the contents of words none of which is pending, or why there is no current block.
pub(crate) fn shown_by_words(alloc: Global, words: &CutWords) -> Result<Shown, AreaFault>
    requires settled { words.now ≡ settled words.now.kept }
    requires size { IsAreaSize (8 * length words.now.kept) }
    ensures { Answers AreaFault.OutOfMemory result (shown_by (bytes_of words.now.kept) (block_in (bytes_of words.now.kept))) }
{
    match bytes_of_words(alloc, words) {
        Ok(bytes) => shown_in(alloc, &bytes),
        Err(_) => Err(AreaFault::OutOfMemory),
    }
}

/// Returns the current block of words none of which is pending, or why there is none.
pub(crate) fn block_of_words(alloc: Global, words: &CutWords) -> Result<IndexBlock, AreaFault>
    requires settled { words.now ≡ settled words.now.kept }
    requires size { IsAreaSize (8 * length words.now.kept) }
    ensures { Answers AreaFault.OutOfMemory result (block_in (bytes_of words.now.kept)) }
{
    match bytes_of_words(alloc, words) {
        Ok(bytes) => current_block(alloc, &bytes),
        Err(_) => Err(AreaFault::OutOfMemory),
    }
}
