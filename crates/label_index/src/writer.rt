ghost use Rattle.std.specs.Prelude.{◌≡◌, ◌≤◌, length};
ghost use Rattle.label_index.specs.Valid.{IsWritable};
ghost use Rattle.label_index.specs.Laws.{ReadsBack};
ghost use Rattle.label_index.specs.Spelling.{spelling_of, head_of};

use crate::index::IndexBlock;
use crate::layout::{
    CHECKSUM_AT, FLAGS_AT, FREE_AT, LABEL_OFFSET_AT, LABEL_SIZE, LABEL_SIZE_AT, MAJOR_AT, MINOR_AT,
    MY_OFFSET_AT, MY_SIZE_AT, OTHER_OFFSET_AT, SEQ_AT, SIGNATURE, SLOTS_AT,
};
use nvd_words::fletcher64;

/// Writes an index block: the canonical encoding of a record (UEFI 2.10, section 13.19).
///
/// `into` must have the block's size, and the record must fit some label area: `seq` is 1 to 3,
/// `size` is that area's index size, the slots fit, and `free` has an entry for each. Flags, the
/// high bits of Seq and the bits of Free from NSlot on are written as zero, whatever was there
/// before. The block reads back as the record ([`crate::spelling_reads_back`]).
pub fn write_index(into: &mut [u8], block: &IndexBlock)
    requires len { length into.old ≡ block.now.size }
    requires writable { IsWritable block.now }
    ensures spelled { into.new ≡ spelling_of block.now }
    ensures read { ReadsBack into.new block.now }
{
    into[..CHECKSUM_AT].copy_from_slice(&head_bytes(block));
    into[CHECKSUM_AT..FREE_AT].copy_from_slice(&[0; 8]);
    block.free.write(&mut into[FREE_AT..]);
    let sum = fletcher64(into);
    into[CHECKSUM_AT..FREE_AT].copy_from_slice(&sum.to_le_bytes());
}

/// Returns the bytes of a block before its Checksum.
fn head_bytes(block: &IndexBlock) -> [u8; 64]
    requires { block.now.size ≤ 1048576 }
    ensures { result ≡ head_of block.now }
{
    let mut head = [0; 64];
    let my_offset = block.side.place(block.size);
    let other_offset = block.side.other_place(block.size);
    head[..FLAGS_AT].copy_from_slice(SIGNATURE);
    head[LABEL_SIZE_AT] = LABEL_SIZE;
    head[SEQ_AT..MY_OFFSET_AT].copy_from_slice(&block.seq.to_le_bytes());
    head[MY_OFFSET_AT..MY_SIZE_AT].copy_from_slice(&my_offset.to_le_bytes());
    head[MY_SIZE_AT..OTHER_OFFSET_AT].copy_from_slice(&block.size.to_le_bytes());
    head[OTHER_OFFSET_AT..LABEL_OFFSET_AT].copy_from_slice(&other_offset.to_le_bytes());
    head[LABEL_OFFSET_AT..SLOTS_AT].copy_from_slice(&(2 * block.size).to_le_bytes());
    head[SLOTS_AT..MAJOR_AT].copy_from_slice(&block.slots.to_le_bytes());
    head[MAJOR_AT..MINOR_AT].copy_from_slice(&1u16.to_le_bytes());
    head[MINOR_AT..].copy_from_slice(&2u16.to_le_bytes());
    head
}
