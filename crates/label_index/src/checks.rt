//! The checks of an index block, one function each, in the order in which the reader calls them.
ghost use Rattle.std.specs.Prelude.{◌≡◌, ◌+◌, ◌/◌, ◌%◌, ◌^◌, ◌≤◌, IsTrue, length};
ghost use Rattle.std.specs.Int.{w32};
ghost use Rattle.nvd_words.specs.Bytes.{number_at};
ghost use Rattle.label_index.specs.Index.{has_signature, sequence_of, has_version, has_offsets, has_slots, has_checksum};

use crate::index::Side;
use crate::layout::{
    CHECKSUM_AT, LABEL_OFFSET_AT, LABEL_SIZE, LABEL_SIZE_AT, MAJOR_AT, MINOR_AT, MY_OFFSET_AT,
    MY_SIZE_AT, OTHER_OFFSET_AT, SEQ_AT, SIGNATURE, SLOTS_AT,
};
use nvd_words::{fletcher64_without, u16_at, u32_at, word_at};

/// Returns whether Sig is that of an index block.
#[tactic(auto, unfolding(crate::specs::Index::has_signature))]
pub(crate) fn has_signature(block: &[u8]) -> bool
    requires { 16 ≤ length block.now }
    ensures { result ≡ has_signature block.now }
{
    &block[..SIGNATURE.len()] == SIGNATURE.as_slice()
}

/// Returns the sequence number, the low two bits of Seq. It is 0 if the block is closed.
#[tactic(auto, unfolding(crate::specs::Index::sequence_of))]
pub(crate) fn sequence_of_block(block: &[u8]) -> u32
    requires { 24 ≤ length block.now }
    ensures { result ≡ sequence_of block.now }
{
    u32_at(block, SEQ_AT) % 4
}

/// Returns whether the version is 1.2.
#[tactic(auto, unfolding(crate::specs::Index::has_version))]
pub(crate) fn has_version(block: &[u8]) -> bool
    requires { 64 ≤ length block.now }
    ensures { result ≡ has_version block.now }
{
    u16_at(block, MAJOR_AT) == 1 && u16_at(block, MINOR_AT) == 2
}

/// Returns whether MyOff, MySize, OtherOff and LabelOff are those of a side, for blocks of this
/// size.
#[tactic(auto, unfolding(crate::specs::Index::has_offsets))]
pub(crate) fn has_offsets(block: &[u8], side: Side, size: u64) -> bool
    requires len { 56 ≤ length block.now }
    requires small { size ≤ 2 ^ 20 }
    ensures { result ≡ has_offsets size side block.now }
{
    word_at(block, MY_OFFSET_AT) == side.place(size)
        && word_at(block, MY_SIZE_AT) == size
        && word_at(block, OTHER_OFFSET_AT) == side.other_place(size)
        && word_at(block, LABEL_OFFSET_AT) == 2 * size
}

/// Returns whether labels have 256 bytes, there is a slot, the slots' bits fit the block, and the
/// slots fit the area.
#[tactic(auto, unfolding(crate::specs::Index::has_slots))]
pub(crate) fn has_slots(block: &[u8], size: u64, area: u64) -> bool
    requires len { 72 ≤ length block.now }
    requires small { size ≤ 2 ^ 20 }
    ensures test { result ≡ has_slots area size block.now }
    ensures fits { IsTrue result → 72 + (number_at w32 block.now 56 + 7) / 8 ≤ size }
{
    let slots = u64::from(u32_at(block, SLOTS_AT));
    block[LABEL_SIZE_AT] == LABEL_SIZE
        && 1 <= slots
        && 72 + slots.div_ceil(8) <= size
        && 2 * size + 256 * slots <= area
}

/// Returns whether Checksum is correct.
#[tactic(auto, unfolding(crate::specs::Index::has_checksum))]
pub(crate) fn has_checksum(block: &[u8]) -> bool
    requires len { 72 ≤ length block.now }
    requires whole { length block.now % 4 ≡ 0 }
    ensures { result ≡ has_checksum block.now }
{
    word_at(block, CHECKSUM_AT) == fletcher64_without(block, CHECKSUM_AT)
}
