//! An open label area and its labels.
ghost use Rattle.std.specs.Prelude.{◌≡◌, ◌*◌, ◌≤◌, ℕ, Bool, true, false, not, Some, Err, length, option_copied, count_by, slice_index_or};
ghost use Rattle.nvd_words.specs.Checks.{Answers};
ghost use Rattle.label_index.specs.Area.{IsAreaSize};
ghost use Rattle.cut_words.specs.Words.{settled};
ghost use Rattle.label_area.specs.Change.{slot_of_put, IsFreeSlot};
ghost use Rattle.cut_words.specs.WordBytes.{bytes_of};
ghost use Rattle.label_area.specs.Area.{block_in};
ghost use Rattle.label_area.specs.Initialise.{InitLeaves, blank, fuse_left, init_count, initialised};
ghost use Rattle.label_area.specs.Opened.{IsReady, opened};
ghost use Rattle.label_area.specs.Replace.{change_answer, replace_answer, Changes, IsChanged, IsUsedSlot};
ghost use Rattle.label_codec.specs.Writable.{IsSound};
ghost use Rattle.label_codec.specs.declared.label.Label.{Label};

use crate::change::write_spelled;
use crate::fault::{AreaFault, AreaRefused, ChangeRefused};
use crate::initial::{blank_of_words, write_both};
use crate::list::LabelList;
use crate::next::{placed, relabel, slot_of, turn};
use crate::read::{Shown, shown_by_words};
use cut_words::{CutWords, Fuse, PowerCut};
use label_codec::Label;
use label_index::{IndexBlock, Side};
use std::alloc::Global;
use std::marker::Model;

/// One module's label area: its words, its current index block, and its labels by slot.
///
/// [`open_area`] makes it from words none of which is pending. If power is cut during a change, the
/// area is **stopped**: only a crash decides what its words show, and the only calls left are
/// [`LabelArea::is_stopped`] and [`LabelArea::into_words`].
#[derive(Debug, Drop)]
pub struct LabelArea {
    words: CutWords,
    block: IndexBlock,
    labels: LabelList,
    stopped: bool,
}

impl Model for LabelArea {
    ghost use Rattle.label_area.specs.State.{AreaState};

    ghost Value = { AreaState };

    ghost use Rattle.label_area.specs.Opened.{IsStoppedOrReady};

    ghost view = { λ area. record { words = area.words; block = area.block; labels = area.labels; stopped = area.stopped } };

    ghost invariant = { λ area. IsStoppedOrReady (record { words = area.words; block = area.block; labels = area.labels; stopped = area.stopped }) };
}

/// Opens a module's label area (UEFI 2.10, section 13.19).
///
/// None of the words may be pending, and the area's size must be a multiple of 256 from 1,024 to
/// 1,048,576 bytes. The words are the area's bytes, eight a word, the low byte first. A refusal
/// returns the words unchanged:
///
/// 1. `Unsupported`: no index block is valid, and one was refused for its version; it is that of
///    the first such side.
/// 2. `NoIndex`: no index block is valid, and none was refused for its version.
/// 3. `OutOfMemory`: no memory for the area's bytes, its list of free slots or its labels.
pub fn open_area(alloc: Global, words: CutWords) -> Result<LabelArea, AreaRefused>
    requires settled { words ≡ settled words.kept }
    requires size { IsAreaSize (8 * length words.kept) }
    ensures { Answers (record { words = words; fault = AreaFault.OutOfMemory }) result (opened words.kept) }
{
    match shown_by_words(alloc, &words) {
        Ok(Shown { block, labels }) => Ok(LabelArea {
            words,
            block,
            labels,
            stopped: false,
        }),
        Err(fault) => Err(AreaRefused { words, fault }),
    }
}

/// Initialises a module's label area that has no index block: writes the block of side One with
/// sequence number 2, and then that of side Zero with 3, with all slots free (UEFI 2.10, section
/// 13.19; the order is this project's rule). The area gets as many slots as fit.
///
/// None of the words may be pending, and the area's size must be as for [`open_area`]. Each block
/// takes two steps for each of its words and two more, so both together take 132 if a block has 256
/// bytes. All refusals but the last leave the words and the fuse unchanged:
///
/// 1. `Unsupported`: no index block is valid, and one was refused for its version.
/// 2. `AlreadyInitialised`: an index block is valid; the number is that of the current one.
/// 3. `OutOfMemory`: no memory for the area's bytes, its list of free slots or its labels.
/// 4. `PowerCut`: fewer steps were left than the two blocks need, and all of them were made. After
///    a crash [`open_area`] refuses the area as `NoIndex` until the first block is complete; from
///    then on it opens as an empty area. If only one step of a block is missing, the chooser
///    decides (`IsInitCut`).
pub fn init_area(alloc: Global, words: CutWords, fuse: &mut Fuse) -> Result<LabelArea, AreaRefused>
    requires settled { words ≡ settled words.kept }
    requires size { IsAreaSize (8 * length words.kept) }
    ensures answer { Answers (record { words = words; fault = AreaFault.OutOfMemory }) result (initialised words.kept fuse.old) }
    ensures spent { fuse.new ≡ fuse_left result fuse.old (init_count (length words.kept)) }
    ensures whole { InitLeaves (length words.kept) fuse.old result }
{
    match blank_of_words(alloc, &words) {
        Ok(shown) => initialise(words, shown, fuse),
        Err(fault) => Err(AreaRefused { words, fault }),
    }
}

/// Writes both blocks of an area that has none. The first block and the list of labels are in
/// memory.
fn initialise(mut words: CutWords, shown: Shown, fuse: &mut Fuse) -> Result<LabelArea, AreaRefused>
    requires settled { words ≡ settled words.kept }
    requires size { IsAreaSize (8 * length words.kept) }
    requires none { block_in (bytes_of words.kept) ≡ Err AreaFault.NoIndex }
    requires first { shown ≡ blank (length words.kept) }
    ensures answer { result ≡ initialised words.kept fuse.old }
    ensures spent { fuse.new ≡ fuse_left result fuse.old (init_count (length words.kept)) }
    ensures whole { InitLeaves (length words.kept) fuse.old result }
{
    let Shown { mut block, labels } = shown;
    match write_both(&mut words, fuse, &mut block) {
        Ok(()) => Ok(LabelArea {
            words,
            block,
            labels,
            stopped: false,
        }),
        Err(PowerCut) => Err(AreaRefused {
            words,
            fault: AreaFault::PowerCut,
        }),
    }
}

impl LabelArea {
    /// Returns the label of each slot: `None` for a free slot, or a used one without a valid label.
    /// There are as many as the current block has slots, at most 4,096. The area must not be
    /// stopped.
    pub fn labels(&self) -> &[Option<Label>]
        requires { self.now.stopped ≡ false }
        ensures listed { result.now ≡ self.now.labels }
        ensures each { length result.now ≡ length self.now.block.free }
        ensures few { length result.now ≤ 4096 }
    {
        self.labels.as_slice()
    }

    /// Returns how many slots are free. The area must not be stopped.
    pub fn free_slots(&self) -> u32
        requires { self.now.stopped ≡ false }
        ensures { result ≡ count_by (λ free. free) self.now.block.free }
    {
        self.block.free.count() as u32
    }

    /// Returns the sequence number of the current index block, 1 to 3. The area must not be
    /// stopped.
    pub fn seq(&self) -> u32
        requires { self.now.stopped ≡ false }
        ensures { result ≡ self.now.block.seq }
    {
        self.block.seq
    }

    /// Returns the side of the current index block. The area must not be stopped.
    pub fn side(&self) -> Side
        requires { self.now.stopped ≡ false }
        ensures { result ≡ self.now.block.side }
    {
        self.block.side
    }

    /// Returns whether a slot is used, false for a slot that the area doesn't have. The area must
    /// not be stopped.
    pub fn is_used(&self, slot: u32) -> bool
        requires { self.now.stopped ≡ false }
        ensures { result ≡ not (slice_index_or self.now.block.free slot true) }
    {
        self.block.free.as_slice().get(slot as usize) == Some(&false)
    }

    /// Changes the labels of at most two slots in one change (UEFI 2.10, section 13.19; the order
    /// of its steps is this project's rule). It frees slot `out`, and puts a label into the least
    /// free slot, with that slot's number. It returns the label's slot, or `None` if no label is
    /// put.
    ///
    /// Slot `out` must be used, the label's name must have no zero byte, its sizes must not be odd,
    /// and the area must not be stopped. With neither of the two, the current block is written
    /// again with the next sequence number. A label takes 64 steps, and the block two for each of
    /// its words and two more: 66 if an index block has 256 bytes. Refusals:
    ///
    /// 1. `NoSlot`: there is a label to put, and no slot is free. Nothing has changed.
    /// 2. `PowerCut`: fewer steps were left than the change needs. All of them were made, and the
    ///    area is stopped. After a crash the words show the block and the labels from before the
    ///    change. If only one step was missing, they may show those after it, as the chooser
    ///    decides (`IsCut`).
    pub fn replace(
        &mut self,
        fuse: &mut Fuse,
        out: Option<u32>,
        put: Option<&Label>,
    ) -> Result<Option<u32>, ChangeRefused>
        requires running { self.old.stopped ≡ false }
        requires used { (slot : ℕ) → out ≡ Some slot → IsUsedSlot self.old.block.free slot }
        requires sound { (label : Label) → option_copied put ≡ Some label → IsSound label }
        ensures answer { result ≡ replace_answer self.old.block fuse.old (option_copied put.entry) }
        ensures refused { result ≡ Err ChangeRefused.NoSlot → (self.new ≡ self.old) × (fuse.new ≡ fuse.old) }
        ensures change { Changes self.old self.new fuse.old fuse.new out (option_copied put.entry) }
    {
        let put = placed(&self.block.free, put)?;
        self.change(fuse, out, &put)
    }

    /// Makes the change; the label to put has the number of its slot, which is free.
    fn change(
        &mut self,
        fuse: &mut Fuse,
        out: Option<u32>,
        put: &Option<Label>,
    ) -> Result<Option<u32>, ChangeRefused>
        requires running { self.old.stopped ≡ false }
        requires used { (slot : ℕ) → out ≡ Some slot → IsUsedSlot self.old.block.free slot }
        requires free { IsFreeSlot self.old.block.free (slot_of_put put.now) }
        requires sound { (label : Label) → put.now ≡ Some label → IsSound label }
        ensures answer { result ≡ change_answer self.old.block fuse.old put.now }
        ensures change { IsChanged self.old self.new fuse.old fuse.new out put.now }
    {
        turn(&mut self.block, out, put);
        match write_spelled(&mut self.words, fuse, &self.block, put) {
            Ok(()) => {
                relabel(&mut self.labels, out, put);
                Ok(slot_of(put))
            }
            Err(PowerCut) => {
                self.stopped = true;
                Err(ChangeRefused::PowerCut)
            }
        }
    }

    /// Returns whether power was cut during a change. If not, no word is pending, and the words
    /// show the current block and the labels (`IsReady`).
    pub fn is_stopped(&self) -> bool
        ensures flag { result ≡ self.now.stopped }
        ensures ready { result ≡ false → IsReady self.now }
    {
        self.stopped
    }

    /// Returns the area's words. None is pending, unless the area is stopped.
    pub fn into_words(self) -> CutWords
        ensures { result ≡ self.words }
    {
        self.words
    }
}
