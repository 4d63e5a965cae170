//! The log of an arena, the Flog, in which a lane records the move that it is about to make in the
//! map.
//!
//! A write never overwrites a sector's current block. Its lane owns a free block, fills it, records
//! the move here, and then switches the map entry. After a crash the record tells whether the map
//! may still name the old block.
//!
//! Each lane has a group of eight 64-bit words (64 bytes) with two halves. The next record always
//! overwrites the older half, so one half stays intact whatever a crash does to the other:
//!
//! ```text
//!   word   0                  1                  2                  3                  4 .. 7
//!        +------------------+------------------+------------------+------------------+---------+
//!        | Lba     OldMap   | NewMap     Seq   | Lba     OldMap   | NewMap     Seq   |  zero   |
//!        +------------------+------------------+------------------+------------------+---------+
//!          side 0                                side 1                                padding
//! ```
//!
//! Seq runs 1, 2, 3, 1; 0 is a half that was never written. The **current** half is the newer one
//! (`is_newer` of nvd_words). It records a move: sector Lba had block OldMap and gets block NewMap.
//!
//! `specs/Group.antt` has the definitions. `group_reading` decodes eight words, or returns the
//! first check that they fail. `half_of` and `words_of_half` decode and encode a half, and are
//! inverses (`PacksBack`, and `reads_back` of [`half_words`]). `BecomesCurrent` says that a half
//! made by [`next_half`] is the group's current half once it has overwritten the other one.
//!
//! Sources: UEFI 2.10, section 6.2, BTT Flog; Linux, Documentation/driver-api/nvdimm/btt.rst, for
//! groups of 64 bytes.
#![tactic(auto)]

mod group;
mod half;

pub use group::{FlogFault, Group, next_half, read_group};
pub use half::{Half, half_words};
