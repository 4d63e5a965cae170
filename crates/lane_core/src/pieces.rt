//! The words that lanes store, and the block that they look at.
ghost use Rattle.std.specs.Prelude.{◌≡◌, ◌<◌, ◌^◌, ◌≤◌};
ghost use Rattle.map_table.specs.Entry.{with_entry};
ghost use Rattle.lane_core.specs.Areas.{next_seq, normal, word_a, word_b};
ghost use Rattle.lane_core.specs.Lines.{looked_now};

use crate::now::LaneNow;
use map_table::{entry, entry_in};
use nvd_words::seq_next;

/// Word A of a half: Lba and OldMap.
#[inline]
#[tactic(auto, unfolding(crate::specs::Areas::word_a))]
pub fn word_a(lba: u32, old: u32) -> u64
    ensures { result ≡ word_a lba old }
{
    u64::from(lba) + (u64::from(old) << 32)
}

/// Word B of a half: NewMap and Seq.
#[inline]
#[tactic(auto, unfolding(crate::specs::Areas::word_b))]
pub fn word_b(new: u32, seq: u32) -> u64
    ensures { result ≡ word_b new seq }
{
    u64::from(new) + (u64::from(seq) << 32)
}

/// The next sequence number.
#[inline]
#[tactic(auto, unfolding(crate::specs::Areas::next_seq))]
pub fn next_of(seq: u32) -> u32
    requires low { 1 ≤ seq }
    requires high { seq ≤ 3 }
    ensures { result ≡ next_seq seq }
{
    seq_next(seq)
}

/// The block of the sector's entry in the map word that the lane loaded.
#[inline]
#[tactic(auto, unfolding(crate::specs::Areas::block_in))]
pub fn looked(mine: &LaneNow) -> u32
    ensures { result ≡ looked_now mine.now }
{
    entry(entry_in(mine.loaded, mine.sector), mine.sector).block
}

/// The map word that the lane loaded, with the sector's new normal entry.
#[inline]
#[tactic(auto, unfolding(crate::specs::Areas::normal))]
pub fn switched(mine: &LaneNow) -> u64
    requires { mine.now.block < 2 ^ 30 }
    ensures { result ≡ with_entry mine.now.loaded mine.now.sector (normal mine.now.block) }
{
    map_table::with_entry(mine.loaded, mine.sector, map_table::normal(mine.block))
}
