//! One write on an arena that nobody else uses, straight into the arena's words.
//!
//! Lane 0 makes it through the log, as a driver does. Nobody looks on meanwhile, so only what is
//! left at the end counts: three runs of words change, in the list that the arena has:
//!
//! ```text
//! free block of lane 0  ◄── the value
//! its log, other half   ◄── the move: the sector, its block, the free block, the next number
//! map, the sector's     ◄── the normal entry of the free block
//! ```
//!
//! So the log has a new current half, whose move is made. The sector's old block is now the lane's
//! free one. All other blocks, entries and halves stay. `lone_words` of `specs/Lone.antt` says which
//! words stand after it.
//!
//! The algorithm is that of Linux's BTT document and of UEFI 2.10, section 6.3.
#![tactic(auto)]

mod alone;

pub use alone::write_alone;
