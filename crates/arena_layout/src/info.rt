ghost use Rattle.std.specs.Prelude.{◌≡◌, ◌+◌, ◌^◌, ◌<◌, ◌≤◌, IfOk};
ghost use Rattle.std.specs.Int.{w16, w32, w64};
ghost use Rattle.nvd_words.specs.Bytes.{number_at};
ghost use Rattle.arena_layout.specs.Info.{bytes_at, layout_of, info_of, info_reading, IsReading, IsArenaOf};
ghost use Rattle.arena_layout.specs.Spelling.{spelling_of, HasZeros};

use crate::checks::{has_checksum, has_error, has_parent, has_signature, is_version, layout_fault};
use crate::layout::{Layout, LayoutField};
use nvd_words::{u16_at, u32_at, word_at};
use uuid::Uuid;

/// The content of an info block. The fields of the layout are at [`Layout`]; these are the others
/// of the 4,096 bytes:
///
/// | offset | field |
/// |---|---|
/// | 0 | Sig: `BTT_ARENA_INFO` and two zero bytes |
/// | 16 | the fields below and those of the layout |
/// | 76 | InfoSize u32: 4,096 |
/// | 120 | 3,968 unused bytes, ignored by reads and written as zero |
/// | 4088 | Checksum u64: Fletcher64 over the block with this field as zero |
#[derive(Clone, Copy, Debug, PartialEq, Eq)]
pub struct Info {
    /// Uuid, 16 bytes at byte 16 in RFC 9562 order: the arena's own.
    pub uuid: Uuid,
    /// ParentUuid, 16 bytes at 32 in RFC 9562 order: the namespace's.
    pub parent: Uuid,
    /// Flags, u32 at 48. Bit 0 is the error state, which is refused; the other bits are ignored, so
    /// this is 0.
    pub flags: u32,
    /// Major, u16 at 52.
    pub major: u16,
    /// Minor, u16 at 54.
    pub minor: u16,
    /// NextOff, u64 at 80: the offset of the next arena, 0 if there is none.
    pub next: u64,
    pub layout: Layout,
}

/// Why 4,096 bytes aren't an info block of a namespace.
#[derive(Clone, Copy, Debug, PartialEq, Eq)]
pub enum InfoFault {
    /// The first 16 bytes aren't the signature.
    Signature,
    /// The Checksum field isn't the checksum of the bytes.
    Checksum,
    /// This version isn't supported.
    Version { major: u16, minor: u16 },
    /// ParentUuid isn't the namespace's UUID.
    Parent,
    /// Bit 0 of Flags is set: the arena is in the error state.
    ErrorState,
    /// The layout relation fails; this is its first failing part.
    Layout { field: LayoutField },
}

/// Returns the sixteen bytes at an offset.
fn sixteen_at(bytes: &[u8; 4096], at: usize) -> [u8; 16]
    requires { at + 16 ≤ 4096 }
    ensures { result ≡ bytes_at bytes.now at 16 }
{
    let mut sixteen = [0; 16];
    sixteen.copy_from_slice(&bytes[at..at + 16]);
    sixteen
}

#[tactic(auto, unfolding(crate::specs::Info::layout_of))]
fn layout_in(bytes: &[u8; 4096]) -> Layout
    requires { number_at w64 bytes.now 112 + 4096 < 2 ^ 64 }
    ensures { result ≡ layout_of bytes.now }
{
    Layout {
        size: word_at(bytes, 112) + 4096,
        sector: u32_at(bytes, 56),
        inner: u32_at(bytes, 64),
        external: u32_at(bytes, 60),
        internal: u32_at(bytes, 68),
        lanes: u32_at(bytes, 72),
        data_off: word_at(bytes, 88),
        map_off: word_at(bytes, 96),
        flog_off: word_at(bytes, 104),
        info_off: word_at(bytes, 112),
    }
}

#[tactic(auto, unfolding(crate::specs::Info::info_of))]
fn info_in(bytes: &[u8; 4096]) -> Info
    requires { number_at w64 bytes.now 112 + 4096 < 2 ^ 64 }
    ensures { result ≡ info_of bytes.now }
{
    Info {
        uuid: Uuid::from_bytes(sixteen_at(bytes, 16)),
        parent: Uuid::from_bytes(sixteen_at(bytes, 32)),
        flags: u32_at(bytes, 48) % 2,
        major: u16_at(bytes, 52),
        minor: u16_at(bytes, 54),
        next: word_at(bytes, 80),
        layout: layout_in(bytes),
    }
}

#[tactic(auto, using(nvd_words::proofs::Checks::faults))]
fn read_checked(bytes: &[u8; 4096], parent: &Uuid, rest: u64) -> Result<Info, InfoFault>
    ensures { result ≡ info_reading bytes.now parent.now rest }
{
    if !has_signature(bytes) {
        return Err(InfoFault::Signature);
    }
    if !has_checksum(bytes) {
        return Err(InfoFault::Checksum);
    }
    let (major, minor) = (u16_at(bytes, 52), u16_at(bytes, 54));
    if !is_version(major, minor) {
        return Err(InfoFault::Version { major, minor });
    }
    if !has_parent(bytes, parent) {
        return Err(InfoFault::Parent);
    }
    if has_error(bytes) {
        return Err(InfoFault::ErrorState);
    }
    if let Some(field) = layout_fault(bytes, rest) {
        return Err(InfoFault::Layout { field });
    }
    Ok(info_in(bytes))
}

/// Reads the info block of an arena in the namespace with the UUID `parent`.
///
/// `rest` is the number of bytes from the arena's first byte to the namespace's end. The call
/// refuses with the first of Signature, Checksum, Version, Parent, ErrorState, and Layout with its
/// first failing field. Sums of offsets don't wrap, not even near 2^64.
pub fn read_info(bytes: &[u8; 4096], parent: &Uuid, rest: u64) -> Result<Info, InfoFault>
    ensures info { result ≡ info_reading bytes.now parent.now rest }
    ensures stands { IsReading bytes.now parent.now rest result }
    ensures sound { IfOk result (IsArenaOf parent.now rest) }
    ensures one_spelling { IfOk result (λ info. HasZeros bytes.now → bytes.now ≡ spelling_of info) }
{
    read_checked(bytes, parent, rest)
}
