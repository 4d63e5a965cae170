//! Every fault of an image set's objects, and what can be read of the set in spite of them.
//!
//! `image_set::load` stops at the first fault, so a set with one is unusable. A command that lists
//! what is wrong with a set needs all faults, and the objects that are readable all the same.
//! [`read_objects`] returns both:
//!
//! ```text
//! mark ── table ──┬─► a fault: NoTable, since no module is known
//!                 └─► Table: the modules' objects ──┬─► an outline of those without a fault
//!                                                   └─► the faults of the others
//! ```
//!
//! Each object has at most one fault, and no fault hides that of another object:
//!
//! ```text
//! labels     size    not a multiple of 256 from 1,024 bytes to 1 MiB
//! contents   missing, or
//!            size    not a positive multiple of 4,096, or above 16 TiB with those before, or
//!            size    a mapping of the table passes their end
//! bad        size    not a multiple of 16, or above 64 KiB
//! ```
//!
//! The limits are those of image_set, and its definitions state each fault here too. So a set whose
//! table is read has no fault exactly if `image_set::load` loads it, and the fault that `load` gives
//! is among those here ([`faults_decide_loading`]).
//!
//! The definitions are in `specs/`: `Objects.antt` the table (`table_reading`), the faults
//! (`object_faults`) and the objects without one; `Read.antt` what is read of a set; `Laws.antt`
//! the laws; `Found.antt` the faults by the lengths of objects, for this crate's proofs.
#![tactic(auto)]

mod bytes;
mod fault;
mod faults;
mod found;
mod law;
mod mapped;
mod objects;
mod reading;
mod table;

pub use fault::ReadStop;
pub use law::faults_decide_loading;
pub use objects::{ObjectsRead, SetRead, read_objects};
