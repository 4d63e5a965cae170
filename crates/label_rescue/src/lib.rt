//! Finding a sector namespace some of whose labels are missing (UEFI 2.10, section 13.19).
//!
//! Each module of an interleave set holds one label of a namespace. If the label area of a module
//! is lost, the namespace isn't complete, though all its sectors are there. All labels of a
//! namespace have the same address, relative to the start of their mapping, and the same size. So
//! one label is enough to know where the whole namespace lies:
//!
//! ```text
//!   module 0   label of U   mapping from 0x10000   Dpa 0x14000   ┐ offset 0x4000 in each mapping
//!   module 1   missing      mapping from 0x20000                 ┘ so 0x24000 on module 1
//! ```
//!
//! [`find_rescued`] returns the place of such a namespace, and the modules without a label. The
//! namespace must be complete, or missing labels must be the first rule that its labels break
//! (crate `label_set`). So all other rules hold of the labels that are there, but names aren't
//! compared. If a label of another UUID reserves some of a missing label's bytes, it isn't known
//! whose they are, and the namespace is refused.
//!
//! ```text
//! no label has the UUID                                   NoSuch
//! another rule is broken, or all labels are UPDATING      NotComplete
//! not of sectors                                          NotSector
//! another UUID's label in a missing label's place         NotComplete
//! else                                                    RescueFound
//! ```
//!
//! | what | definition |
//! |---|---|
//! | which namespaces | `is_rescuable` of `specs/Rescue.antt` |
//! | the modules without a label | `missing_of` |
//! | a missing label's place is another's | `is_taken_on` |
//! | the answer | `rescued_of` |
//! | a complete namespace is found as before | `CompleteIsFound` of `specs/Laws.antt` |
//! | if it loses labels, its place is the same | `LostLabelsLeaveThePlace` |
#![tactic(auto)]

mod law;
mod missing;
mod rescued;
mod taken;

pub use law::{complete_is_found, lost_labels_leave_the_place};
pub use rescued::{RescueFound, find_rescued};
