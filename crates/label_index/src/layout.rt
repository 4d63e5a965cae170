//! The offsets of an index block's fields, in bytes from the block's start: UEFI 2.10, section
//! 13.19, EFI_NVDIMM_LABEL_INDEX_BLOCK. Numbers have their low byte first.
//!
//! ```text
//!  0                16     19         20    24     32      40        48
//! | Sig              | Flags | LabelSize | Seq | MyOff | MySize | OtherOff |
//! 48         56      60      62      64         72
//! | LabelOff | NSlot | Major | Minor | Checksum | Free .. up to MySize    |
//! ```

/// Sig at 0, 16 bytes: `NAMESPACE_INDEX` and a zero byte.
pub(crate) const SIGNATURE: &[u8; 16] = b"NAMESPACE_INDEX\0";

/// Flags at 16, 3 bytes: ignored when read, zero when written.
pub(crate) const FLAGS_AT: usize = 16;

/// LabelSize, 1 byte: a label has `128 << LabelSize` bytes.
pub(crate) const LABEL_SIZE_AT: usize = 19;

/// LabelSize of labels of 256 bytes, the only size in version 1.2.
pub(crate) const LABEL_SIZE: u8 = 1;

/// Seq, 4 bytes: the sequence number in the low two bits; the others are ignored when read, zero
/// when written.
pub(crate) const SEQ_AT: usize = 20;

/// MyOff, 8 bytes: the offset of this block in the area.
pub(crate) const MY_OFFSET_AT: usize = 24;

/// MySize, 8 bytes: the size of this block.
pub(crate) const MY_SIZE_AT: usize = 32;

/// OtherOff, 8 bytes: the offset of the other block in the area.
pub(crate) const OTHER_OFFSET_AT: usize = 40;

/// LabelOff, 8 bytes: the offset of slot 0 in the area.
pub(crate) const LABEL_OFFSET_AT: usize = 48;

/// NSlot, 4 bytes: the number of label slots.
pub(crate) const SLOTS_AT: usize = 56;

/// Major, 2 bytes: 1.
pub(crate) const MAJOR_AT: usize = 60;

/// Minor, 2 bytes: 2.
pub(crate) const MINOR_AT: usize = 62;

/// Checksum, 8 bytes: Fletcher64 of the MySize bytes with this field as zero.
pub(crate) const CHECKSUM_AT: usize = 64;

/// Free, up to MySize: slot n is bit n mod 8, the low bit first, of byte n / 8; 1 is free. Bits
/// from NSlot on are ignored when read, zero when written.
pub(crate) const FREE_AT: usize = 72;
