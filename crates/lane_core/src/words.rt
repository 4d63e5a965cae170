//! The places of words in a row.
ghost use Rattle.std.specs.Prelude.{◌≡◌, ◌<◌, ◌^◌, ◌%◌, ◌/◌};
ghost use Rattle.lane_core.specs.Machine.{lock_of};
ghost use Rattle.lane_core.specs.Places.{geometry, reader_place, reader_words, word_of, SeenData, SeenMap, SeenA, Reader, Lock};

use crate::shape::Shape;

/// Word `k` of a block.
#[inline]
pub fn data_word(shape: &Shape, block: u32, k: u32) -> u64
    requires { word_of shape.now (SeenData block k) < 2 ^ 60 }
    ensures { result ≡ word_of shape.now (SeenData block k) }
{
    shape.data_at + u64::from(block) * shape.inner + u64::from(k)
}

/// The map word of a sector.
#[inline]
pub fn map_word(shape: &Shape, sector: u32) -> u64
    requires { word_of shape.now (SeenMap (sector / 2)) < 2 ^ 60 }
    ensures { result ≡ word_of shape.now (SeenMap (sector / 2)) }
{
    shape.map_at + u64::from(sector / 2)
}

/// Word A of the half at a side of a lane's group. Word B stands behind it.
#[inline]
pub fn log_word(shape: &Shape, lane: u32, side: u32) -> u64
    requires word { word_of shape.now (SeenA lane side) < 2 ^ 60 }
    ensures { result ≡ word_of shape.now (SeenA lane side) }
{
    shape.log_at + 8 * u64::from(lane) + 2 * u64::from(side)
}

/// Words of the reader table of this many lanes: 256 for each group of up to 256 lanes, and a gap of
/// 512 words, or 4 KiB. The gap is for speed alone: so the locks, which lanes store while others
/// scan the table, stand in another page. Without it, a write beside three other lanes was measured
/// to take a third longer, most likely because the processor loads lines ahead of a scan.
#[inline]
pub fn reader_words(lanes: u32) -> u64
    ensures { result ≡ reader_words lanes }
{
    256 * ((u64::from(lanes) + 255) / 256) + 512
}

/// Which word of the reader table is a lane's. Any 32 lanes with neighbouring numbers have theirs
/// in 32 lines of cache of 8 words: such lanes run at once, and the store of one would take the
/// line from the others.
#[inline]
pub fn reader_place(lane: u32) -> u64
    ensures { result ≡ reader_place lane }
{
    // A scan does this for each lane. Of a byte, the sum is one rotation.
    let low = (lane % 256) as u8;
    256 * u64::from(lane / 256) + u64::from(8 * (low % 32) + low / 32)
}

/// The reader word of a lane.
#[inline]
pub fn reader_word(shape: &Shape, lane: u32) -> u64
    requires { word_of shape.now (Reader lane) < 2 ^ 60 }
    ensures { result ≡ word_of shape.now (Reader lane) }
{
    2 * shape.total + reader_place(lane)
}

/// The lock of a sector's map word.
#[inline]
#[tactic(auto, unfolding(crate::specs::Machine::lock_of))]
pub fn lock_word(shape: &Shape, sector: u32) -> u64
    requires lanes { 0 < shape.now.lanes }
    requires word { word_of shape.now (Lock (lock_of (geometry shape.now) sector)) < 2 ^ 60 }
    ensures { result ≡ word_of shape.now (Lock (lock_of (geometry shape.now) sector)) }
{
    2 * shape.total + reader_words(shape.lanes) + u64::from(sector / 2 % shape.lanes)
}
