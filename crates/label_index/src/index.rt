ghost use Rattle.std.specs.Prelude.{◌≡◌};
ghost use Rattle.label_index.specs.Index.{place_of, other_place_of};

use crate::free::FreeList;

/// One of the two index blocks of a label area.
#[derive(Clone, Copy, Debug, PartialEq, Eq)]
pub enum Side {
    /// The block at offset 0.
    Zero,
    /// The block after the first one, at the higher offset.
    One,
}

/// The content of a valid index block (UEFI 2.10, section 13.19, EFI_NVDIMM_LABEL_INDEX_BLOCK).
#[derive(Debug, Drop)]
pub struct IndexBlock {
    /// Which of the two blocks it is; MyOff (8 bytes at 24) and OtherOff (8 bytes at 40) follow from it and `size`.
    pub side: Side,
    /// The sequence number, 1 to 3: the low two bits of Seq (4 bytes at 20).
    pub seq: u32,
    /// The block's size in bytes: MySize (8 bytes at 32). LabelOff (8 bytes at 48) is twice this.
    pub size: u64,
    /// The number of label slots in the area: NSlot (4 bytes at 56).
    pub slots: u32,
    /// Whether each slot is free: Free (a bit a slot, from byte 72 on).
    pub free: FreeList,
}

/// Why a side of a label area has no valid index block: the first failing check, in this order.
#[derive(Clone, Copy, Debug, PartialEq, Eq)]
pub enum IndexFault {
    /// Sig isn't `NAMESPACE_INDEX` and a zero byte.
    Signature,
    /// The low two bits of Seq are 0: the block was never written, or a crash left it closed.
    Sequence,
    /// Major and Minor aren't 1 and 2.
    Version {
        /// The Major field.
        major: u16,
        /// The Minor field.
        minor: u16,
    },
    /// MyOff, MySize, OtherOff or LabelOff isn't that of this side in an area of this size.
    Offsets,
    /// LabelSize isn't 1, NSlot is 0, or the slots pass the block's bits or the area's end.
    Slots,
    /// Checksum isn't correct.
    Checksum,
    /// No memory for the list of free slots. It says nothing about the block.
    OutOfMemory,
}

impl Side {
    /// Returns the offset of this side's block, for blocks of this size.
    pub(crate) fn place(self, size: u64) -> u64
        ensures { result ≡ place_of size self }
    {
        match self {
            Side::Zero => 0,
            Side::One => size,
        }
    }

    /// Returns the offset of the other side's block, for blocks of this size.
    pub(crate) fn other_place(self, size: u64) -> u64
        ensures { result ≡ other_place_of size self }
    {
        match self {
            Side::Zero => size,
            Side::One => 0,
        }
    }
}
