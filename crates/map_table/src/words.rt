ghost use Rattle.std.specs.Prelude.{◌≡◌, ◌≢◌, ℕ, ◌%◌, ◌^◌, ◌<◌};
ghost use Rattle.map_table.specs.Entry.{entry_of, normal_of, zero_of, entry_in, with_entry};

use crate::kinds::{Kind, MapEntry};

/// Bits 0 to 29 are the block's number.
const BLOCK: u32 = (1 << 30) - 1;
/// Bit 30, Error.
const ERROR: u32 = 1 << 30;
/// Bit 31, Zero.
const ZERO: u32 = 1 << 31;
/// A normal entry has both flags.
const NORMAL: u32 = ZERO | ERROR;

/// Decodes the entry of a sector. The low bits of an initial entry are ignored.
#[inline]
#[tactic(auto, unfolding(crate::specs::Entry::entry_of))]
pub fn entry(word: u32, sector: u32) -> MapEntry
    ensures { result ≡ entry_of word sector }
{
    let block = word & BLOCK;
    match word >> 30 {
        0 => MapEntry {
            kind: Kind::Initial,
            block: sector,
        },
        1 => MapEntry {
            kind: Kind::Bad,
            block,
        },
        2 => MapEntry {
            kind: Kind::Zero,
            block,
        },
        _ => MapEntry {
            kind: Kind::Normal,
            block,
        },
    }
}

/// Returns the normal entry of a block. The block must be below 2^30.
#[inline]
pub fn normal(block: u32) -> u32
    requires { block < 2 ^ 30 }
    ensures word { result ≡ normal_of block }
    ensures reads_back { (sector : ℕ) → entry_of result sector ≡ record { kind = Kind.Normal; block = block } }
{
    NORMAL + block
}

/// Returns the entry of a block that reads as zeros, as in a new arena. The block must be below
/// 2^30.
#[inline]
pub fn zero(block: u32) -> u32
    requires { block < 2 ^ 30 }
    ensures word { result ≡ zero_of block }
    ensures reads_back { (sector : ℕ) → entry_of result sector ≡ record { kind = Kind.Zero; block = block } }
{
    ZERO + block
}

/// Returns a sector's entry from its map word, the word sector / 2.
#[inline]
#[tactic(auto, unfolding(crate::specs::Entry::entry_in))]
pub fn entry_in(word: u64, sector: u32) -> u32
    ensures { result ≡ entry_in word sector }
{
    if sector % 2 == 0 {
        (word & 0xffff_ffff) as u32
    } else {
        (word >> 32) as u32
    }
}

#[inline]
#[tactic(auto, unfolding(crate::specs::Entry::with_entry))]
fn replaced(word: u64, sector: u32, entry: u32) -> u64
    ensures { result ≡ with_entry word sector entry }
{
    if sector % 2 == 0 {
        (word >> 32) << 32 | u64::from(entry)
    } else {
        u64::from(entry) << 32 | word & 0xffff_ffff
    }
}

/// Returns the map word with a new entry for a sector; the other sector's entry is unchanged.
#[inline]
pub fn with_entry(word: u64, sector: u32, entry: u32) -> u64
    ensures word { result ≡ with_entry word sector entry }
    ensures put { entry_in result sector ≡ entry }
    ensures other { (other : ℕ) → other % 2 ≢ sector % 2 → entry_in result other ≡ entry_in word other }
{
    replaced(word, sector, entry)
}
