use crate::name::Name;
use uuid::Uuid;

/// The label of one module's part of a namespace (UEFI 2.10, section 13.19, EFI_NVDIMM_LABEL).
#[derive(Clone, Copy, Debug)]
pub struct Label {
    /// The namespace's UUID: Uuid, 16 bytes at 0, in the order of the text (RFC 9562).
    pub uuid: Uuid,
    /// The namespace's name: Name, 64 bytes at 16, the bytes before the first zero.
    pub name: Name,
    /// Flags, 4 bytes at 80: ROLABEL 1, LOCAL 2, UPDATING 8. All bits are kept.
    pub flags: u32,
    /// The number of labels in the namespace's set: NLabel, 2 bytes at 84.
    pub count: u16,
    /// Which of them this is, from 0: Position, 2 bytes at 86.
    pub position: u16,
    /// The interleave set's cookie: SetCookie, 8 bytes at 88.
    pub cookie: u64,
    /// The sector size in bytes: LbaSize, 8 bytes at 96.
    pub lba: u64,
    /// The first device address of the part on this module: Dpa, 8 bytes at 104.
    pub dpa: u64,
    /// The size of the part on this module, in bytes: RawSize, 8 bytes at 112.
    pub raw: u64,
    /// The number of the slot that the label is in: Slot, 4 bytes at 120.
    pub slot: u32,
    /// Alignment, 1 byte at 124: kept and not used.
    pub align: u8,
    /// The type of the range: TypeGuid, 16 bytes at 128, in GUID order.
    pub kind: Uuid,
    /// The abstraction over the range: AddressAbstractionGuid, 16 bytes at 144, in GUID order.
    pub abstraction: Uuid,
    /// SPALocationCookie, 8 bytes at 160: kept and not checked (this project's rule).
    pub spa_cookie: u64,
}

/// The size that makes a label's sizes odd.
#[derive(Clone, Copy, Debug, PartialEq, Eq)]
pub enum SizeField {
    /// Dpa isn't a multiple of 4,096.
    Dpa,
    /// Dpa is one, but RawSize isn't, or is 0, or Dpa plus RawSize is above 2^63.
    RawSize,
}

/// Why a slot has no valid label: the first failing check, in this order.
#[derive(Clone, Copy, Debug, PartialEq, Eq)]
pub enum LabelFault {
    /// Checksum isn't correct.
    Checksum,
    /// The Slot field isn't the slot's number.
    Slot {
        /// The Slot field.
        said: u32,
    },
    /// Dpa or RawSize isn't allowed.
    OddSize {
        /// Which of the two.
        field: SizeField,
    },
}
