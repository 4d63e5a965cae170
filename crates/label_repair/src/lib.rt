//! Writes a damaged index block of a label area again, from the other one.
//!
//! A label area begins with two index blocks, and of two valid ones the newer is current. If one
//! side is valid and the other one is damaged, nothing of the labels is lost, but the area has no
//! second block to fall back on. A **repair** writes the damaged one again:
//!
//! ```text
//!   one side          other side                  repair
//!   valid             valid                       none
//!   valid             refused, not as Sequence    the other side is written
//!   valid             refused as Sequence         none: it is closed, as a change leaves it
//!   refused           refused                     none: there is nothing to write it from
//! ```
//!
//! The block that is written has the sequence number before the current one's, and the same Free
//! list and sizes (`older_block` of `specs/Repair.antt`). So the current block stays current.
//!
//! - [`repair_area`] repairs the words of an area, and returns what it wrote (`repair_in`,
//!   `repaired_words` of `specs/Repair.antt`).
//! - `specs/Laws.antt` says what a repair is worth. The side that is written is read as that block
//!   ([`repair_is_read`]). The area shows the same block and labels ([`repair_keeps_labels`]). A
//!   second repair finds nothing ([`repair_is_once`]). No word outside the block changes
//!   ([`repair_stays_inside`]).
//!
//! Sources: UEFI 2.10, section 13.19. What is repaired is this project's rule.
#![tactic(auto)]

mod law;
mod read;
mod repair;
mod write;

pub use law::{repair_is_once, repair_is_read, repair_keeps_labels, repair_stays_inside};
pub use repair::{IndexRepair, repair_area};
