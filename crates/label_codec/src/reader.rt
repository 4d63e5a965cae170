ghost use Rattle.std.specs.Prelude.{◌≡◌, ◌+◌, ◌≤◌, length};
ghost use Rattle.label_codec.specs.Label.{label_of, label_reading, has_checksum, bytes_at};
ghost use Rattle.label_codec.specs.Sizes.{size_fault_of};

use crate::label::{Label, LabelFault, SizeField};
use crate::layout::{
    ABSTRACTION_AT, ALIGN_AT, CHECKSUM_AT, COOKIE_AT, COUNT_AT, DPA_AT, FLAGS_AT, KIND_AT, LBA_AT,
    POSITION_AT, RAW_AT, SLOT_AT, SPA_COOKIE_AT, UUID_AT,
};
use crate::name::Name;
use nvd_words::{fletcher64_without, guid_read, u16_at, u32_at, word_at};
use uuid::Uuid;

/// Dpa and RawSize are multiples of this, in bytes.
const SIZE_UNIT: u64 = 4096;

/// Reads the label in slot `slot` (UEFI 2.10, section 13.19).
///
/// It returns `Ok` with a label exactly if the bytes encode it in that slot, else the first failing
/// check, in the order of [`LabelFault`]. Reserved bytes, and the bytes after a name's zero, matter
/// only to the checksum.
#[tactic(auto, using(nvd_words::proofs::Checks::faults))]
pub fn read_label(bytes: &[u8; 256], slot: u32) -> Result<Label, LabelFault>
    ensures { result ≡ label_reading bytes.now slot }
{
    if !has_checksum(bytes) {
        return Err(LabelFault::Checksum);
    }
    let said = u32_at(bytes, SLOT_AT);
    if said != slot {
        return Err(LabelFault::Slot { said });
    }
    if let Some(field) = odd_size(word_at(bytes, DPA_AT), word_at(bytes, RAW_AT)) {
        return Err(LabelFault::OddSize { field });
    }
    Ok(fields_of(bytes))
}

/// Returns which of a first device address and a size no label may have, if there is one.
///
/// Both must be multiples of 4,096, the size at least one byte, and their sum at most 2^63. This is
/// this project's rule. The sum can't wrap.
#[tactic(auto, unfolding(crate::specs::Sizes::size_fault_of))]
pub fn odd_size(dpa: u64, raw: u64) -> Option<SizeField>
    ensures { result ≡ size_fault_of dpa raw }
{
    if dpa % SIZE_UNIT != 0 {
        return Some(SizeField::Dpa);
    }
    if raw % SIZE_UNIT != 0 || raw == 0 || u128::from(dpa) + u128::from(raw) > 1 << 63 {
        return Some(SizeField::RawSize);
    }
    None
}

/// Returns whether Checksum is correct.
#[tactic(auto, unfolding(crate::specs::Label::has_checksum))]
fn has_checksum(bytes: &[u8; 256]) -> bool
    ensures { result ≡ has_checksum bytes.now }
{
    word_at(bytes, CHECKSUM_AT) == fletcher64_without(bytes, CHECKSUM_AT)
}

/// Returns the sixteen bytes at an offset.
fn sixteen_at(bytes: &[u8; 256], at: usize) -> [u8; 16]
    requires { at + 16 ≤ 256 }
    ensures { result ≡ bytes_at bytes.now at 16 }
{
    let mut sixteen = [0; 16];
    sixteen.copy_from_slice(&bytes[at..at + 16]);
    sixteen
}

/// Returns the label in a slot's fields.
#[tactic(auto, unfolding(crate::specs::Label::label_of))]
fn fields_of(bytes: &[u8; 256]) -> Label
    ensures { result ≡ label_of bytes.now }
{
    Label {
        uuid: Uuid::from_bytes(sixteen_at(bytes, UUID_AT)),
        name: Name::read(bytes),
        flags: u32_at(bytes, FLAGS_AT),
        count: u16_at(bytes, COUNT_AT),
        position: u16_at(bytes, POSITION_AT),
        cookie: word_at(bytes, COOKIE_AT),
        lba: word_at(bytes, LBA_AT),
        dpa: word_at(bytes, DPA_AT),
        raw: word_at(bytes, RAW_AT),
        slot: u32_at(bytes, SLOT_AT),
        align: bytes[ALIGN_AT],
        kind: guid_read(&sixteen_at(bytes, KIND_AT)),
        abstraction: guid_read(&sixteen_at(bytes, ABSTRACTION_AT)),
        spa_cookie: word_at(bytes, SPA_COOKIE_AT),
    }
}
