ghost use Rattle.std.specs.Prelude.{◌≡◌, ℕ, ◌+◌, ◌^◌, ◌<◌, ◌≤◌, ◌++◌, length, take, drop, replicate, Ok};
ghost use Rattle.std.specs.Int.{w16, w32, w64, to_le_bytes};
ghost use Rattle.arena_layout.specs.Info.{signature, IsInfo, ReadsBack};
ghost use Rattle.arena_layout.specs.Spelling.{counts_of, places_of, spelling_of, HasWidths};

use crate::checks::SIGNATURE;
use crate::info::Info;
use crate::layout::Layout;
use nvd_words::fletcher64;
use uuid::Uuid;

/// Stores bytes at an offset.
fn put(into: &mut [u8; 4096], at: usize, bytes: &[u8])
    requires { at + length bytes.now ≤ 4096 }
    ensures front { take (at + length bytes.now) into.new ≡ take at into.old ++ bytes.now }
    ensures back { (n : ℕ) → at + length bytes.now ≤ n → drop n into.new ≡ drop n into.old }
{
    into[at..at + bytes.len()].copy_from_slice(bytes);
}

fn put_uuid(into: &mut [u8; 4096], at: usize, uuid: &Uuid)
    requires { at + 16 ≤ 4096 }
    ensures len { length uuid.now ≡ 16 }
    ensures front { take (at + 16) into.new ≡ take at into.old ++ uuid.now }
    ensures back { (n : ℕ) → at + 16 ≤ n → drop n into.new ≡ drop n into.old }
{
    put(into, at, uuid.as_bytes());
}

fn put_u16(into: &mut [u8; 4096], at: usize, value: u16)
    requires { at + 2 ≤ 4096 }
    ensures front { take (at + 2) into.new ≡ take at into.old ++ to_le_bytes w16 value }
    ensures back { (n : ℕ) → at + 2 ≤ n → drop n into.new ≡ drop n into.old }
{
    put(into, at, &value.to_le_bytes());
}

fn put_u32(into: &mut [u8; 4096], at: usize, value: u32)
    requires { at + 4 ≤ 4096 }
    ensures fits { value < 2 ^ 32 }
    ensures front { take (at + 4) into.new ≡ take at into.old ++ to_le_bytes w32 value }
    ensures back { (n : ℕ) → at + 4 ≤ n → drop n into.new ≡ drop n into.old }
{
    put(into, at, &value.to_le_bytes());
}

fn put_u64(into: &mut [u8; 4096], at: usize, value: u64)
    requires { at + 8 ≤ 4096 }
    ensures front { take (at + 8) into.new ≡ take at into.old ++ to_le_bytes w64 value }
    ensures back { (n : ℕ) → at + 8 ≤ n → drop n into.new ≡ drop n into.old }
{
    put(into, at, &value.to_le_bytes());
}

/// Writes bytes 0 to 55: Sig, Uuid, ParentUuid, Flags and the version.
fn put_names(into: &mut [u8; 4096], info: &Info)
    ensures uuid_len { length info.now.uuid ≡ 16 }
    ensures parent_len { length info.now.parent ≡ 16 }
    ensures front { take 56 into.new ≡ signature ++ (info.now.uuid ++ (info.now.parent ++ (to_le_bytes w32 info.now.flags ++ (to_le_bytes w16 info.now.major ++ to_le_bytes w16 info.now.minor)))) }
    ensures back { (n : ℕ) → 56 ≤ n → drop n into.new ≡ drop n into.old }
{
    put(into, 0, SIGNATURE);
    put_uuid(into, 16, &info.uuid);
    put_uuid(into, 32, &info.parent);
    put_u32(into, 48, info.flags);
    put_u16(into, 52, info.major);
    put_u16(into, 54, info.minor);
}

/// Writes bytes 56 to 79: sizes and counts, and InfoSize.
fn put_counts(into: &mut [u8; 4096], layout: &Layout)
    ensures fits { layout.now.inner < 2 ^ 32 }
    ensures front { take 80 into.new ≡ take 56 into.old ++ counts_of layout.now }
    ensures back { (n : ℕ) → 80 ≤ n → drop n into.new ≡ drop n into.old }
{
    put_u32(into, 56, layout.sector);
    put_u32(into, 60, layout.external);
    put_u32(into, 64, layout.inner);
    put_u32(into, 68, layout.internal);
    put_u32(into, 72, layout.lanes);
    put_u32(into, 76, 4096);
}

/// Writes bytes 80 to 119: NextOff and the offsets of the areas.
fn put_places(into: &mut [u8; 4096], next: u64, layout: &Layout)
    ensures front { take 120 into.new ≡ take 80 into.old ++ places_of next layout.now }
    ensures back { (n : ℕ) → 120 ≤ n → drop n into.new ≡ drop n into.old }
{
    put_u64(into, 80, next);
    put_u64(into, 88, layout.data_off);
    put_u64(into, 96, layout.map_off);
    put_u64(into, 104, layout.flog_off);
    put_u64(into, 112, layout.info_off);
}

/// Writes all bytes.
fn spell(into: &mut [u8; 4096], info: &Info)
    ensures fits { HasWidths info.now }
    ensures spelling { into.new ≡ spelling_of info.now }
{
    *into = [0; 4096];
    put_names(into, info);
    put_counts(into, &info.layout);
    put_places(into, info.next, &info.layout);
    let sum = fletcher64(into);
    put_u64(into, 4088, sum);
}

/// Writes an info block. The unused bytes are zero, and the checksum is correct.
///
/// The layout relation must hold, `flags` must be 0, the version must be one that
/// [`read_info`](crate::read_info) accepts, and `next` must be 0 or the arena's size.
pub fn write_info(into: &mut [u8; 4096], info: &Info)
    requires { IsInfo info.now }
    ensures spelling { into.new ≡ spelling_of info.now }
    ensures reads_back { ReadsBack into.new info.now }
{
    spell(into, info);
}
