//! The map of an arena: which block holds a sector.
//!
//! An arena has `external` sectors and a few more blocks, `internal` in all. The map has an entry
//! of 32 bits for each sector; each block that no entry names is a lane's free block. A write fills
//! a free block and then switches one entry, so a sector has its old bytes or its new ones.
//!
//! ```text
//!   bit  31      30      29 .. 0
//!      +-------+-------+-------------+
//!      | Zero  | Error | block       |      both flags: normal; none: initial, the block has the sector's own number
//!      +-------+-------+-------------+
//!
//!   a map word of 64 bits:   bits 63 .. 32          bits 31 .. 0
//!                          +----------------------+----------------------+
//!                          | entry of sector 2k+1 | entry of sector 2k   |
//!                          +----------------------+----------------------+
//! ```
//!
//! `specs/Entry.antt` defines the meaning of an entry (`entry_of`) and how two entries share a word
//! (`entry_in`, `with_entry`). `specs/Blocks.antt` defines `NamesEachOnce`, that the map and the
//! lanes name each block exactly once, and `block_check`, the result of [`check_blocks`].
//!
//! Sources: UEFI 2.10, section 6.2, BTT Map Entry. It is this project's rule that a sector with an
//! initial entry has the bytes of its block.
#![tactic(auto)]

mod check;
mod counts;
mod kinds;
mod words;

pub use check::{BlockFault, check_blocks};
pub use counts::Counts;
pub use kinds::{Kind, MapEntry};
pub use words::{entry, entry_in, normal, with_entry, zero};
