//! The namespaces after a crash in a command, and after recovery.
//!
//! A command on a namespace is a list of label changes, module by module (`namespace_map`). A crash
//! interrupts the list at any point. The status rules, which judge the labels of one UUID together,
//! decide what remains. The laws of this crate say that these rules never mistake an interrupted
//! command for anything else:
//!
//! ```text
//!            before      after a crash                                               after
//! create     nothing     unfinished, some parts | complete, pending                  the entry
//! delete     the entry   the entry, pending | unfinished, some parts                 nothing
//! rename     the entry   the entry, pending, under the old name | under the new one  the entry, renamed
//! ```
//!
//! They are laws about definitions: they hold for any code that makes the changes in this order.
//! `specs/Left.antt` of `namespace_map` has their premises about interleave sets and labels
//! (`AreRegions`, `LabelsAreRead`), and defines an entry during a command (`IsPartOf`, `IsPending`).
//!
//! - [`create_is_cut`], [`delete_is_cut`], [`rename_is_cut`]: the command's own entry after a crash
//!   (`specs/Laws.antt`).
//! - [`commands_leave_others`], [`commands_keep_entries_apart`]: every other entry is as before,
//!   and no two entries overlap (`specs/Apart.antt`).
//! - [`commands_are_their_changes`]: the complete command is its step on the map
//!   (`specs/Whole.antt`).
//! - [`cuts_recover_to_either`]: after a crash, recovery leads to the map before or after the
//!   command (`specs/Recovered.antt`).
//!
//! # Recovery
//!
//! Recovery finishes the commands that a crash interrupted: it removes the labels of **unfinished**
//! entries, and rewrites the labels of **pending** ones without UPDATING, under the entry's name. A
//! label on a module without a free slot can't be rewritten and stays as it is. `namespace_map`
//! defines recovery twice: as a step on the map of entries, `after_recovery`, and as a list of label
//! changes, `recovery_changes`, for many UUIDs one after another. [`recovery_is_its_changes`] says
//! that both agree, for any number of entries of any status (`RecoveryAgrees` of
//! `specs/Recovery.antt`).
//!
//! Power may be cut during recovery too. [`cut_recovery_resumes`] says that recovery can be run
//! again with the same result (`RecoveryResumes` of `specs/Cuts.antt`): after each single change an
//! unfinished entry is still unfinished, or gone, and a complete one is complete under the same
//! name.
//!
//! # The interleave sets of a table
//!
//! A table with overlapping mappings of one module into two regions is refused (Alias; ACPI 6.5,
//! section 5.2.25.2). So in a table that is read, the interleave sets of the regions share no byte
//! of a module, and a label's extent, which lies inside one mapping, belongs to one region:
//!
//! ```text
//!   module 0  | region 0's mapping |   ..   | region 1's mapping |
//!   module 1  | region 0's mapping |   ..   | region 2's mapping |
//! ```
//!
//! The laws about commands require this (`AreRegions` of `namespace_map`); [`tables_give_regions`]
//! proves it for each table that is read (`TablesGiveRegions` of `specs/Regions.antt`).
#![tactic(auto)]

mod agreeing;
mod changing;
mod creating;
mod recovering;
mod settling;
mod table_sets;

pub use agreeing::{
    commands_are_their_changes, commands_keep_entries_apart, commands_leave_others,
};
pub use changing::{delete_is_cut, rename_is_cut};
pub use creating::create_is_cut;
pub use recovering::cuts_recover_to_either;
pub use settling::{cut_recovery_resumes, recovery_is_its_changes};
pub use table_sets::tables_give_regions;
