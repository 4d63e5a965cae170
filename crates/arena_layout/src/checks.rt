ghost use Rattle.std.specs.Prelude.{◌≡◌, ◌+◌, ◌*◌, ◌^◌, ◌<◌, ◌≤◌, nat_le, IsTrue, IsNone};
ghost use Rattle.std.specs.Int.{w64};
ghost use Rattle.nvd_words.specs.Bytes.{number_at};
ghost use Rattle.arena_layout.specs.Layout.{has_sector, has_inner, has_lanes, has_blocks, has_pages, has_order, has_size, has_next};
ghost use Rattle.arena_layout.specs.Info.{has_signature, has_checksum, is_version, has_parent, has_error, has_areas, layout_of, layout_fault_of};

use crate::layout::LayoutField;
use crate::planning::is_sector;
use nvd_words::{fletcher64_without, u32_at, word_at};
use uuid::Uuid;

pub(crate) const SIGNATURE: &[u8; 16] = b"BTT_ARENA_INFO\0\0";

#[tactic(auto, unfolding(crate::specs::Info::has_signature))]
pub(crate) fn has_signature(bytes: &[u8; 4096]) -> bool
    ensures { result ≡ has_signature bytes.now }
{
    &bytes[..16] == SIGNATURE.as_slice()
}

#[tactic(auto, unfolding(crate::specs::Info::has_checksum))]
pub(crate) fn has_checksum(bytes: &[u8; 4096]) -> bool
    ensures { result ≡ has_checksum bytes.now }
{
    word_at(bytes, 4088) == fletcher64_without(bytes, 4088)
}

/// Returns whether this version is supported, for reading and writing: 2.0, or 1.1 of older drivers.
/// No other code decides it.
#[tactic(auto, unfolding(crate::specs::Info::is_version))]
pub(crate) fn is_version(major: u16, minor: u16) -> bool
    ensures { result ≡ is_version major minor }
{
    (major == 2 && minor == 0) || (major == 1 && minor == 1)
}

#[tactic(auto, unfolding(crate::specs::Info::has_parent))]
pub(crate) fn has_parent(bytes: &[u8; 4096], parent: &Uuid) -> bool
    ensures { result ≡ has_parent bytes.now parent.now }
{
    &bytes[32..48] == parent.as_bytes().as_slice()
}

#[tactic(auto, unfolding(crate::specs::Info::has_error))]
pub(crate) fn has_error(bytes: &[u8; 4096]) -> bool
    ensures { result ≡ has_error bytes.now }
{
    u32_at(bytes, 48) % 2 == 1
}

#[tactic(auto, unfolding(crate::specs::Layout::has_sector, crate::specs::Info::layout_of))]
fn has_sector(bytes: &[u8; 4096]) -> bool
    ensures test { result ≡ has_sector (layout_of bytes.now) }
{
    is_sector(u32_at(bytes, 56))
}

#[tactic(auto, unfolding(crate::specs::Layout::has_inner, crate::specs::Info::layout_of))]
fn has_inner(bytes: &[u8; 4096]) -> bool
    ensures { result ≡ has_inner (layout_of bytes.now) }
{
    let inner = u32_at(bytes, 64);
    inner % 64 == 0 && u32_at(bytes, 56) <= inner
}

#[tactic(auto, unfolding(crate::specs::Layout::has_lanes, crate::specs::Info::layout_of))]
fn has_lanes(bytes: &[u8; 4096]) -> bool
    ensures { result ≡ has_lanes (layout_of bytes.now) }
{
    let lanes = u32_at(bytes, 72);
    1 <= lanes && lanes <= 256
}

#[tactic(auto, unfolding(crate::specs::Layout::has_blocks, crate::specs::Info::layout_of))]
fn has_blocks(bytes: &[u8; 4096]) -> bool
    ensures { result ≡ has_blocks (layout_of bytes.now) }
{
    let external = u64::from(u32_at(bytes, 60));
    let internal = u64::from(u32_at(bytes, 68));
    1 <= external && internal == external + u64::from(u32_at(bytes, 72)) && internal <= 1 << 30
}

#[tactic(auto, unfolding(crate::specs::Layout::has_pages, crate::specs::Info::layout_of))]
fn has_pages(bytes: &[u8; 4096]) -> bool
    ensures { result ≡ has_pages (layout_of bytes.now) }
{
    word_at(bytes, 88) % 4096 == 0
        && word_at(bytes, 96) % 4096 == 0
        && word_at(bytes, 104) % 4096 == 0
        && word_at(bytes, 112) % 4096 == 0
}

/// Returns the size of the blocks, in bytes.
fn data_size(internal: u32, inner: u32) -> u64
    ensures { result ≡ internal * inner }
{
    u64::from(internal) * u64::from(inner)
}

/// Returns whether an area ends at or before the next one's offset.
fn is_before(place: u64, size: u64, next: u64) -> bool
    ensures { result ≡ nat_le (place + size) next }
{
    u128::from(place) + u128::from(size) <= u128::from(next)
}

#[tactic(auto, unfolding(crate::specs::Layout::has_order, crate::specs::Info::layout_of))]
fn has_order(bytes: &[u8; 4096]) -> bool
    ensures { result ≡ has_order (layout_of bytes.now) }
{
    let (data_off, map_off) = (word_at(bytes, 88), word_at(bytes, 96));
    let (flog_off, info_off) = (word_at(bytes, 104), word_at(bytes, 112));
    4096 <= data_off
        && is_before(
            data_off,
            data_size(u32_at(bytes, 68), u32_at(bytes, 64)),
            map_off,
        )
        && is_before(map_off, 4 * u64::from(u32_at(bytes, 60)), flog_off)
        && is_before(flog_off, 64 * u64::from(u32_at(bytes, 72)), info_off)
}

#[tactic(auto, unfolding(crate::specs::Info::has_areas))]
fn has_areas(bytes: &[u8; 4096]) -> bool
    ensures { result ≡ has_areas bytes.now }
{
    u32_at(bytes, 76) == 4096 && has_pages(bytes) && has_order(bytes)
}

#[tactic(auto, unfolding(crate::specs::Layout::has_size, crate::specs::Info::layout_of))]
fn has_size(bytes: &[u8; 4096], rest: u64) -> bool
    ensures test { result ≡ has_size (layout_of bytes.now) rest }
    ensures small { IsTrue result → number_at w64 bytes.now 112 + 4096 < 2 ^ 64 }
{
    let size = u128::from(word_at(bytes, 112)) + 4096;
    16 << 20 <= size && size <= 512 << 30 && size <= u128::from(rest)
}

#[tactic(auto, unfolding(crate::specs::Layout::has_next, crate::specs::Info::layout_of))]
fn has_next(bytes: &[u8; 4096], rest: u64) -> bool
    ensures { result ≡ has_next (layout_of bytes.now) (number_at w64 bytes.now 80) rest }
{
    let next = word_at(bytes, 80);
    next == 0 || (u128::from(next) == u128::from(word_at(bytes, 112)) + 4096 && next < rest)
}

/// Returns the first part of the layout relation that fails.
#[tactic(auto, using(crate::proofs::First::firsts), unfolding(crate::specs::Info::layout_fault_of))]
pub(crate) fn layout_fault(bytes: &[u8; 4096], rest: u64) -> Option<LayoutField>
    ensures fault { result ≡ layout_fault_of bytes.now rest }
    ensures small { IsNone result → number_at w64 bytes.now 112 + 4096 < 2 ^ 64 }
{
    if !has_sector(bytes) {
        return Some(LayoutField::Sector);
    }
    if !has_inner(bytes) {
        return Some(LayoutField::Inner);
    }
    if !has_lanes(bytes) {
        return Some(LayoutField::Free);
    }
    if !has_blocks(bytes) {
        return Some(LayoutField::Blocks);
    }
    if !has_areas(bytes) {
        return Some(LayoutField::Areas);
    }
    if !has_size(bytes, rest) {
        return Some(LayoutField::Size);
    }
    if !has_next(bytes, rest) {
        return Some(LayoutField::Next);
    }
    None
}
