ghost use Rattle.std.specs.Prelude.{◌≡◌, ◌+◌, ◌*◌, ◌/◌, ◌%◌, ◌^◌, ◌≤◌, length, take, drop};
ghost use Rattle.std.specs.Int.{w16, w32};
ghost use Rattle.nvd_words.specs.Bytes.{number_at};
ghost use Rattle.nvd_words.specs.Checks.{Answers};
ghost use Rattle.label_index.specs.Area.{IsAreaSize};
ghost use Rattle.label_index.specs.Index.{index_reading, block_reading, index_of, place_of};

use crate::area::area_index_size;
use crate::checks::{
    has_checksum, has_offsets, has_signature, has_slots, has_version, sequence_of_block,
};
use crate::free::FreeList;
use crate::index::{IndexBlock, IndexFault, Side};
use crate::layout::{MAJOR_AT, MINOR_AT, MY_SIZE_AT, SLOTS_AT};
use nvd_words::{u16_at, u32_at, word_at};
use std::alloc::Global;

/// Reads the index block of a side from a whole label area (UEFI 2.10, section 13.19).
///
/// The area's size must be a multiple of 256 from 1,024 to 1,048,576 bytes. The call returns `Ok`
/// with a record exactly if the side's bytes encode it, else the first failing check, in the order
/// of [`IndexFault`]. Flags, the high bits of Seq and the bits of Free from NSlot on are ignored.
/// It is this project's rule to check Sequence before Version: a block that a crash left closed is
/// never taken for another version.
pub fn read_index(alloc: Global, bytes: &[u8], side: Side) -> Result<IndexBlock, IndexFault>
    requires { IsAreaSize (length bytes.now) }
    ensures { Answers IndexFault.OutOfMemory result (index_reading bytes.now side) }
{
    let area = bytes.len() as u64;
    let size = area_index_size(area);
    read_block(
        alloc,
        block_of_side(bytes, side, size as usize),
        side,
        size,
        area,
    )
}

/// Returns the bytes of a side, for blocks of this size.
fn block_of_side(area: &[u8], side: Side, size: usize) -> &[u8]
    requires { 2 * size ≤ length area.now }
    ensures bytes { result.now ≡ take size (drop (place_of size side) area.now) }
    ensures len { length result.now ≡ size }
{
    let place = side.place(size as u64) as usize;
    &area[place..place + size]
}

/// Reads the block of a side, of `size` bytes in an area of `area` bytes.
#[tactic(auto, using(nvd_words::proofs::Checks::checks))]
fn read_block(
    alloc: Global,
    block: &[u8],
    side: Side,
    size: u64,
    area: u64,
) -> Result<IndexBlock, IndexFault>
    requires size { length block.now ≡ size }
    requires enough { 256 ≤ size }
    requires whole { size % 4 ≡ 0 }
    requires small { size ≤ 2 ^ 20 }
    ensures { Answers IndexFault.OutOfMemory result (block_reading area size side block.now) }
{
    if !has_signature(block) {
        return Err(IndexFault::Signature);
    }
    if sequence_of_block(block) == 0 {
        return Err(IndexFault::Sequence);
    }
    if !has_version(block) {
        return Err(version_fault(block));
    }
    if !has_offsets(block, side, size) {
        return Err(IndexFault::Offsets);
    }
    if !has_slots(block, size, area) {
        return Err(IndexFault::Slots);
    }
    if !has_checksum(block) {
        return Err(IndexFault::Checksum);
    }
    record_of(alloc, block, side)
}

/// Returns the fault of a block of another version.
fn version_fault(block: &[u8]) -> IndexFault
    requires { 64 ≤ length block.now }
    ensures { result ≡ IndexFault.Version (number_at w16 block.now 60) (number_at w16 block.now 62) }
{
    IndexFault::Version {
        major: u16_at(block, MAJOR_AT),
        minor: u16_at(block, MINOR_AT),
    }
}

/// Returns the record of a block that passed all checks.
#[tactic(auto, unfolding(crate::specs::Index::index_of))]
fn record_of(alloc: Global, block: &[u8], side: Side) -> Result<IndexBlock, IndexFault>
    requires len { 72 ≤ length block.now }
    requires slots { 72 + (number_at w32 block.now 56 + 7) / 8 ≤ length block.now }
    ensures { Answers IndexFault.OutOfMemory result (Ok (index_of side block.now)) }
{
    let slots = u32_at(block, SLOTS_AT);
    match FreeList::read(alloc, block, slots) {
        Ok(free) => Ok(IndexBlock {
            side,
            seq: sequence_of_block(block),
            size: word_at(block, MY_SIZE_AT),
            slots,
            free,
        }),
        Err(_) => Err(IndexFault::OutOfMemory),
    }
}
