//! The effect of a change on an index block and on the list of labels, in memory.
ghost use Rattle.std.specs.Prelude.{◌≡◌, ◌<◌, ◌≤◌, length, IfSome};
ghost use Rattle.std.specs.Option.{option_copied};
ghost use Rattle.label_area.specs.Change.{next_block, slot_of_put};
ghost use Rattle.label_area.specs.Replace.{least_free, placed, with_new, without_old, IsInside};

use crate::fault::ChangeRefused;
use crate::list::LabelList;
use label_codec::Label;
use label_index::{FreeList, IndexBlock, Side};
use nvd_words::seq_next;

/// Returns the place of the first free slot.
fn first_free(slots: &[bool]) -> Option<usize>
    ensures value { result ≡ least_free slots.now }
    ensures bound { IfSome result (λ slot. slot < length slots.now) }
{
    slots.iter().position(|free| *free)
}

/// Returns the least free slot.
fn least_free(free: &FreeList) -> Option<u32>
    requires { length free.now ≤ 4096 }
    ensures { result ≡ least_free free.now }
{
    first_free(free.as_slice()).map(|slot| slot as u32)
}

/// Returns the label to put, if there is one, with the number of the least free slot.
pub(crate) fn placed(free: &FreeList, put: Option<&Label>) -> Result<Option<Label>, ChangeRefused>
    requires { length free.now ≤ 4096 }
    ensures { result ≡ placed free.now (option_copied put.entry) }
{
    let Some(label) = put else {
        return Ok(None);
    };
    match least_free(free) {
        Some(slot) => Ok(Some(Label { slot, ..*label })),
        None => Err(ChangeRefused::NoSlot),
    }
}

/// Returns the slot of the label to put, if there is one.
pub(crate) fn slot_of(put: &Option<Label>) -> Option<u32>
    ensures { result ≡ slot_of_put put.now }
{
    match put {
        Some(label) => Some(label.slot),
        None => None,
    }
}

/// Turns a block into the one that a change writes: that of the other side, with the next Seq and
/// with two slots changed.
pub(crate) fn turn(block: &mut IndexBlock, out: Option<u32>, put: &Option<Label>)
    requires low { 1 ≤ block.old.seq }
    requires high { block.old.seq ≤ 3 }
    requires inside { IsInside (length block.old.free) out put.now }
    ensures { block.new ≡ next_block block.old out put.now }
{
    block.side = match block.side {
        Side::Zero => Side::One,
        Side::One => Side::Zero,
    };
    block.seq = seq_next(block.seq);
    if let Some(label) = put {
        block.free.set(label.slot, false);
    }
    if let Some(out) = out {
        block.free.set(out, true);
    }
}

/// Changes the labels of two slots.
pub(crate) fn relabel(labels: &mut LabelList, out: Option<u32>, put: &Option<Label>)
    requires { IsInside (length labels.old) out put.now }
    ensures { labels.new ≡ without_old out (with_new put.now labels.old) }
{
    if let Some(label) = put {
        labels.set(label.slot, Some(*label));
    }
    if let Some(out) = out {
        labels.set(out, None);
    }
}
