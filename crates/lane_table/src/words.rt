//! The places of words in a table: `word_of` of lane_core's specs/Places.antt.
ghost use Rattle.std.specs.Prelude.{◌≡◌, ◌+◌, ◌<◌, ◌^◌, ◌%◌, ◌/◌};
ghost use Rattle.lane_core.specs.Machine.{lock_of};
ghost use Rattle.lane_core.specs.Places.{geometry, word_of, SeenData, SeenMap, SeenA, Reader, Lock};

use lane_core::{Shape, reader_place, reader_words};

/// The first word of a block.
#[inline]
pub fn block_word(shape: &Shape, block: u32) -> usize
    requires { word_of shape.now (SeenData block 0) < 2 ^ 60 }
    ensures { result ≡ word_of shape.now (SeenData block 0) }
{
    (shape.data_at + u64::from(block) * shape.inner) as usize
}

/// The map word of a sector.
#[inline]
pub fn map_word(shape: &Shape, sector: u32) -> usize
    requires { word_of shape.now (SeenMap (sector / 2)) < 2 ^ 60 }
    ensures { result ≡ word_of shape.now (SeenMap (sector / 2)) }
{
    (shape.map_at + u64::from(sector / 2)) as usize
}

/// Word A of the half at a side of a lane's log group. Word B stands behind it.
#[inline]
pub fn log_word(shape: &Shape, lane: u32, side: u32) -> usize
    requires { word_of shape.now (SeenA lane side) < 2 ^ 60 }
    ensures { result ≡ word_of shape.now (SeenA lane side) }
{
    (shape.log_at + 8 * u64::from(lane) + 2 * u64::from(side)) as usize
}

/// The kept word of a word of the arena.
#[inline]
pub fn kept(shape: &Shape, at: usize) -> usize
    requires { shape.now.total + at < 2 ^ 60 }
    ensures { result ≡ shape.now.total + at }
{
    shape.total as usize + at
}

/// The reader word of a lane.
#[inline]
pub fn reader_word(shape: &Shape, lane: u32) -> usize
    requires { word_of shape.now (Reader lane) < 2 ^ 60 }
    ensures { result ≡ word_of shape.now (Reader lane) }
{
    (2 * shape.total + reader_place(lane)) as usize
}

/// The lock of a sector's map word.
#[inline]
#[tactic(auto, unfolding(lane_core::specs::Machine::lock_of))]
pub fn lock_word(shape: &Shape, sector: u32) -> usize
    requires lanes { 0 < shape.now.lanes }
    requires word { word_of shape.now (Lock (lock_of (geometry shape.now) sector)) < 2 ^ 60 }
    ensures { result ≡ word_of shape.now (Lock (lock_of (geometry shape.now) sector)) }
{
    (2 * shape.total + reader_words(shape.lanes) + u64::from(sector / 2 % shape.lanes)) as usize
}
