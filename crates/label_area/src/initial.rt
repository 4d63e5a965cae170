//! The first two index blocks of a label area.
ghost use Rattle.std.specs.Prelude.{◌≡◌, ◌*◌, ◌/◌, length, is_ok, IfOk, OnOk, Ok, None, true, replicate};
ghost use Rattle.nvd_words.specs.Checks.{Answers};
ghost use Rattle.label_index.specs.Area.{IsAreaSize};
ghost use Rattle.label_index.specs.declared.index.Side.TheVariants as side;
ghost use Rattle.cut_words.specs.Fuses.{Makes};
ghost use Rattle.cut_words.specs.Words.{settled};
ghost use Rattle.cut_words.specs.WordBytes.{bytes_of};
ghost use Rattle.label_area.specs.Area.{block_in};
ghost use Rattle.label_area.specs.Init.{empty_block, init_steps, IsInit};
ghost use Rattle.label_area.specs.Initialise.{blank as blank_of, blank_by};

use crate::change::write_spelled;
use crate::fault::AreaFault;
use crate::list::LabelList;
use crate::read::{Shown, block_of_words};
use cut_words::{CutWords, Fuse, PowerCut, WordSpace};
use label_index::{FreeList, IndexBlock, Side, area_index_size, slots_for};
use std::alloc::{AllocError, Global};

/// The sequence number of the first block written, that of side One.
const FIRST_SEQ: u32 = 2;

/// The sequence number of the second block written, that of side Zero.
const SECOND_SEQ: u32 = 3;

/// Makes a list of slots that are all free.
fn all_free(alloc: Global, slots: usize) -> Result<FreeList, AllocError>
    ensures { IfOk result (λ free. free ≡ replicate slots true) }
{
    Ok(FreeList::from_vec(vec![in alloc; true; slots]?))
}

/// Returns the contents of an area of `count` words whose slots are all free.
fn blank(alloc: Global, count: u64) -> Result<Shown, AllocError>
    requires { IsAreaSize (8 * count) }
    ensures { IfOk result (λ shown. shown ≡ blank_of count) }
{
    let area = 8 * count;
    let slots = slots_for(area);
    let free = all_free(alloc, slots as usize)?;
    let labels = LabelList::none(alloc, slots as usize)?;
    Ok(Shown {
        block: IndexBlock {
            side: Side::One,
            seq: FIRST_SEQ,
            size: area_index_size(area),
            slots,
            free,
        },
        labels,
    })
}

/// Returns the contents of the words after initialisation, under the first block, or why they can't
/// be initialised.
pub(crate) fn blank_of_words(alloc: Global, words: &CutWords) -> Result<Shown, AreaFault>
    requires settled { words.now ≡ settled words.now.kept }
    requires size { IsAreaSize (8 * length words.now.kept) }
    ensures { Answers AreaFault.OutOfMemory result (blank_by (length words.now.kept) (block_in (bytes_of words.now.kept))) }
{
    match block_of_words(alloc, words) {
        Ok(block) => Err(AreaFault::AlreadyInitialised { seq: block.seq }),
        Err(AreaFault::NoIndex) => match blank(alloc, words.count()) {
            Ok(shown) => Ok(shown),
            Err(_) => Err(AreaFault::OutOfMemory),
        },
        Err(fault) => Err(fault),
    }
}

/// Writes both blocks, side One first. `block` becomes the second one, which is then current.
pub(crate) fn write_both(
    words: &mut CutWords,
    fuse: &mut Fuse,
    block: &mut IndexBlock,
) -> Result<(), PowerCut>
    requires settled { words.old ≡ settled words.old.kept }
    requires init { IsInit words.old.kept block.old.size block.old.slots }
    requires first { block.old ≡ empty_block block.old.size block.old.slots side.One 2 }
    ensures made { Makes words.old words.new fuse.old fuse.new (init_steps words.old.kept block.old.size block.old.slots) (is_ok result) }
    ensures second { OnOk result (block.new ≡ empty_block block.old.size block.old.slots side.Zero 3) }
{
    write_spelled(words, fuse, block, &None)?;
    block.side = Side::Zero;
    block.seq = SECOND_SEQ;
    write_spelled(words, fuse, block, &None)
}
