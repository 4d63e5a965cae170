//! The command `check` of `nvdimm_shell` on a whole image set: everything that is wrong with it, a
//! line each.
//!
//! ```text
//! image source ──► objects ──► faults of objects
//!                     └─► table, label areas, bad ranges ──► regions ─► index blocks, slots ─► namespaces ─► records
//!                                  └─► registry ──► arenas of each complete sector namespace
//! ```
//!
//! Other commands refuse a set with the first fault that they meet. This one goes on wherever the
//! rest doesn't depend on it. A line is a `fault`, or a `notice`: something that a user should
//! know, which no rule forbids. The last line is `sound`, or `broken N` with the number of faults.
//!
//! A **repair** of a whole set writes a damaged index block of a label area again, from the other
//! block of that area. It saves the repaired set, and prints what it repaired and then what `check`
//! prints of that set.
//!
//! | what | definition |
//! |---|---|
//! | the faults of objects, and what can be read | `object_faults`, `labels_there`, `bad_there` of `set_objects` |
//! | the lines of objects, regions, label areas and bad ranges | `specs/Text.antt` |
//! | the lines of namespaces | `namespace_lines` of `specs/Namespaces.antt` |
//! | the lines of arenas | `arenas_text` of `shell_check` |
//! | the whole | `set_check_outcome` of `specs/Whole.antt` |
//! | a repaired set, and its text | `repaired_set`, `repair_text` of `specs/Repair.antt` |
//! | what a repair comes to | `SetRepairComes` of `specs/Repair.antt` |
//! | what a repair is worth | `specs/Laws.antt` |
//!
//! The order and the texts are this project's rules over UEFI 2.10, section 13.19 and chapter 6,
//! and ACPI 6.5, section 5.2.25.
#![tactic(auto)]

mod areas;
mod command;
mod copies;
mod law;
mod namespaces;
mod objects;
mod repair;
mod repair_command;
mod text;

pub use command::set_check_answer;
pub use law::{lines_are_loaded, repair_is_checked};
pub use repair_command::set_repair_answer;
