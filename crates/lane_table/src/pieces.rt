//! What the code knows of a lane, and the words that it stores.
ghost use Rattle.std.specs.Prelude.{◌≡◌, ◌^◌, ◌<◌, ◌≤◌};
ghost use Rattle.map_table.specs.Entry.{entry_in, with_entry};
ghost use Rattle.lane_core.specs.Areas.{block_in, next_seq, normal, word_a, word_b};

use map_table::{entry, entry_in, normal, with_entry};
use nvd_words::seq_next;

/// What the code knows of its lane: `IsMine` of specs/Conditions.antt ties it to the view.
#[derive(Clone, Copy, Debug, PartialEq, Eq)]
pub struct Mine {
    pub number: u32,
    /// The free block.
    pub block: u32,
    /// The side of the current half.
    pub side: u32,
    /// The sequence number of the current half.
    pub seq: u32,
}

/// The block of a sector's entry in its map word.
#[inline]
#[tactic(auto, unfolding(lane_core::specs::Areas::block_in))]
pub fn looked_in(word: u64, sector: u32) -> u32
    ensures { result ≡ block_in (entry_in word sector) sector }
{
    entry(entry_in(word, sector), sector).block
}

/// Word A of a half: Lba and OldMap.
#[inline]
#[tactic(auto, unfolding(lane_core::specs::Areas::word_a))]
pub fn log_word_a(sector: u32, old: u32) -> u64
    ensures { result ≡ word_a sector old }
{
    u64::from(sector) + (u64::from(old) << 32)
}

/// The sequence number after this one.
#[inline]
#[tactic(auto, unfolding(lane_core::specs::Areas::next_seq))]
pub fn seq_after(seq: u32) -> u32
    requires written { 1 ≤ seq }
    requires ring { seq ≤ 3 }
    ensures { result ≡ next_seq seq }
{
    seq_next(seq)
}

/// Word B of a half: NewMap and Seq.
#[inline]
#[tactic(auto, unfolding(lane_core::specs::Areas::word_b))]
pub fn log_word_b(block: u32, seq: u32) -> u64
    ensures { result ≡ word_b block seq }
{
    u64::from(block) + (u64::from(seq) << 32)
}

/// The map word with a normal entry of the block for the sector.
#[inline]
#[tactic(auto, unfolding(lane_core::specs::Areas::normal))]
pub fn switched_word(word: u64, sector: u32, block: u32) -> u64
    requires { block < 2 ^ 30 }
    ensures { result ≡ with_entry word sector (normal block) }
{
    with_entry(word, sector, normal(block))
}
