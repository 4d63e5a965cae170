//! Says what can still be read of an arena of a Block Translation Table whose map or log is
//! damaged.
//!
//! Opening an arena stops at the first rule that fails, and a repair leaves everything that would
//! have to be guessed. A rescue reads what is sure. A sector has the bytes of the block that its
//! entry names, unless one of these holds:
//!
//! ```text
//!   loss       why the sector is lost
//!   BadMap     its map word is bad, so its entry isn't known
//!   Range      its entry names a block that doesn't exist
//!   Twice      another entry or a lane names its block too
//!   Marked     its entry says that the sector is bad
//!   BadData    a word of its bytes is bad
//! ```
//!
//! - Only known entries name blocks: those whose map word isn't bad.
//! - The caller says which lanes count. It leaves out each one whose group is refused or has a bad
//!   word. The pending moves of the others are made first.
//! - The block of a sector that reads as zeros is checked too. If it is out of range or named
//!   twice, the entry is damaged, and its kind isn't sure.
//! - A lost sector gets the entry of a sector of zeros, so all sectors can be read. The list of
//!   losses says which ones have no bytes of their own.
//!
//! Some damage can't be seen: two entries with each other's blocks, or an entry with its own block
//! and another kind.
//!
//! [`rescue_map`] does this for an arena. `specs/Rescue.antt` defines the losses (`losses_of`) and
//! the map with which all sectors are read (`rescued_map`).
//!
//! `specs/Laws.antt` says what a rescue is worth:
//!
//! - Of a sound arena only the sectors that the map marks as bad are lost
//!   ([`sound_maps_lose_nothing`]).
//! - If one entry is damaged, its sector is lost or names its own block, unless another map word is
//!   bad ([`one_entry_rescues_no_other`]). At most one other sector is lost by it: the one whose
//!   block the damaged entry names ([`one_entry_loses_two`]).
//! - If each block is named once and no move is pending, nothing more is lost without some of the
//!   lanes ([`damaged_log_loses_nothing`]).
//!
//! Sources: UEFI 2.10, sections 6.2 and 6.3. Which sectors are lost is this project's rule.
#![tactic(auto)]

mod bad;
mod law;
mod loss;
mod map;
mod named;

pub use law::{
    damaged_log_loses_nothing, one_entry_loses_two, one_entry_rescues_no_other,
    sound_maps_lose_nothing,
};
pub use loss::Loss;
pub use map::{MapRescue, rescue_map};
