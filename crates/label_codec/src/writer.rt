ghost use Rattle.std.specs.Prelude.{◌≡◌, ◌++◌, replicate, Ok};
ghost use Rattle.label_codec.specs.Label.{spelling_of, fields_of, label_reading};
ghost use Rattle.label_codec.specs.Writable.{IsSound, IsWritable};

use crate::known::know_writable;
use crate::label::Label;
use crate::layout::{
    ABSTRACTION_AT, ALIGN_AT, CHECKSUM_AT, COOKIE_AT, COUNT_AT, DPA_AT, FLAGS_AT, KIND_AT,
    LABEL_BYTES, LBA_AT, NAME_AT, POSITION_AT, RAW_AT, RESERVED_AT, SLOT_AT, SPA_COOKIE_AT,
    UUID_AT,
};
use nvd_words::{fletcher64, guid_bytes};

/// Writes a label into a slot, in its canonical encoding (UEFI 2.10, section 13.19).
///
/// The name must have no zero byte, and the sizes must not be odd ([`crate::odd_size`]). All
/// reserved bytes and the bytes after the name are written as zero, whatever was there before. The
/// slot reads back as the label, in the slot that the label names ([`crate::spelling_reads_back`]).
pub fn write_label(into: &mut [u8; 256], label: &Label)
    requires { IsSound label.now }
    ensures spelled { into.new ≡ spelling_of label.now }
    ensures read { label_reading into.new label.now.slot ≡ Ok label.now }
    ensures writable { IsWritable label.now }
{
    know_writable(label);
    *into = fixed_fields(label);
    into[UUID_AT..NAME_AT].copy_from_slice(label.uuid.as_bytes());
    into[NAME_AT..FLAGS_AT].copy_from_slice(&label.name.field());
    let sum = fletcher64(into);
    into[CHECKSUM_AT..].copy_from_slice(&sum.to_le_bytes());
}

/// Returns a label's bytes with Uuid, Name and Checksum still zero.
fn fixed_fields(label: &Label) -> [u8; 256]
    ensures { result ≡ replicate 80 0 ++ (fields_of label.now ++ replicate 8 0) }
{
    let mut bytes = [0; LABEL_BYTES];
    bytes[FLAGS_AT..COUNT_AT].copy_from_slice(&label.flags.to_le_bytes());
    bytes[COUNT_AT..POSITION_AT].copy_from_slice(&label.count.to_le_bytes());
    bytes[POSITION_AT..COOKIE_AT].copy_from_slice(&label.position.to_le_bytes());
    bytes[COOKIE_AT..LBA_AT].copy_from_slice(&label.cookie.to_le_bytes());
    bytes[LBA_AT..DPA_AT].copy_from_slice(&label.lba.to_le_bytes());
    bytes[DPA_AT..RAW_AT].copy_from_slice(&label.dpa.to_le_bytes());
    bytes[RAW_AT..SLOT_AT].copy_from_slice(&label.raw.to_le_bytes());
    bytes[SLOT_AT..ALIGN_AT].copy_from_slice(&label.slot.to_le_bytes());
    bytes[ALIGN_AT] = label.align;
    bytes[KIND_AT..ABSTRACTION_AT].copy_from_slice(&guid_bytes(&label.kind));
    bytes[ABSTRACTION_AT..SPA_COOKIE_AT].copy_from_slice(&guid_bytes(&label.abstraction));
    bytes[SPA_COOKIE_AT..RESERVED_AT].copy_from_slice(&label.spa_cookie.to_le_bytes());
    bytes
}
