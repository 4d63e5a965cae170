//! The offsets of a label's fields, in bytes from the slot's start: UEFI 2.10, section 13.19,
//! EFI_NVDIMM_LABEL. Numbers have their low byte first.

/// The size of a label, in bytes.
pub(crate) const LABEL_BYTES: usize = 256;

/// Uuid, 16 bytes in the order of the text.
pub(crate) const UUID_AT: usize = 0;

/// Name, 64 bytes: the name, padded with zeros.
pub(crate) const NAME_AT: usize = 16;

/// Flags, 4 bytes: ROLABEL 1, LOCAL 2, UPDATING 8.
pub(crate) const FLAGS_AT: usize = 80;

/// NLabel, 2 bytes: the number of labels in the namespace's set.
pub(crate) const COUNT_AT: usize = 84;

/// Position, 2 bytes: which of the set's labels this is.
pub(crate) const POSITION_AT: usize = 86;

/// SetCookie, 8 bytes: the interleave set's cookie.
pub(crate) const COOKIE_AT: usize = 88;

/// LbaSize, 8 bytes: the sector size.
pub(crate) const LBA_AT: usize = 96;

/// Dpa, 8 bytes: the first device address of the part on this module.
pub(crate) const DPA_AT: usize = 104;

/// RawSize, 8 bytes: the size of the part on this module, in bytes.
pub(crate) const RAW_AT: usize = 112;

/// Slot, 4 bytes: the number of the slot that the label is in.
pub(crate) const SLOT_AT: usize = 120;

/// Alignment, 1 byte. Three reserved bytes follow: ignored when read, zero when written.
pub(crate) const ALIGN_AT: usize = 124;

/// TypeGuid, 16 bytes in GUID order.
pub(crate) const KIND_AT: usize = 128;

/// AddressAbstractionGuid, 16 bytes in GUID order.
pub(crate) const ABSTRACTION_AT: usize = 144;

/// SPALocationCookie, 8 bytes.
pub(crate) const SPA_COOKIE_AT: usize = 160;

/// Eighty reserved bytes: ignored when read, zero when written.
pub(crate) const RESERVED_AT: usize = 168;

/// Checksum, 8 bytes: Fletcher64 of the 256 bytes with this field as zero.
pub(crate) const CHECKSUM_AT: usize = 248;
