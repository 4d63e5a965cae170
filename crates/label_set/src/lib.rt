//! Whether the labels of one UUID make up a namespace (UEFI 2.10, section 13.19).
//!
//! Each module that has a part of a namespace holds one label of it. So the labels of one UUID must
//! be judged together, with the interleave set that they name:
//!
//! ```text
//!   module 0, slot 3   "a"  position 0 of 2  cookie C  Dpa 0x1000  RawSize 4 MiB
//!   module 1, slot 0   "a"  position 1 of 2  cookie C  Dpa 0x1000  RawSize 4 MiB     complete
//! ```
//!
//! After a crash only some of the modules may have a label; a module may come from another machine;
//! a label may be damaged. [`status`] decides which of these it is. The first rule that applies
//! decides; `specs/Status.antt` lists them (`status_of`). The labels are complete only if no
//! earlier rule applies. [`broken_rules`] lists what every rule finds.
#![tactic(auto)]

mod agreeing;
mod deciding;
mod least;
mod placed;
mod rules;

pub use agreeing::some_local;
pub use deciding::{broken_rules, status};
pub use placed::{Field, Placed, SetStatus, Why};
pub use rules::{is_outside, relative_address};
