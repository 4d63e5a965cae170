//! The outcome of a command of `nvdimm_shell`, and the texts that all commands share.
//!
//! A command that only prints makes a [`Report`] from the loaded set: how it ends, and the bytes of
//! its text. It knows no source, no sink and no exit status:
//!
//! ```text
//! ending   Done      Usage   Image                 Refused            PowerCut
//! text     ..        usage   image OBJECT FAULT    refused REFUSAL    cut N
//! ```
//!
//! `specs/Outcome.antt` defines the outcome of a command, as contracts see it (`Outcome`,
//! `status_of`, `exit_status_of`); `specs/Saved.antt` the sets that are saved (`IsSaving`);
//! `specs/Texts.antt` the texts of names, UUIDs and modes; `specs/LoadFaults.antt` the texts for a
//! set that isn't loaded; `specs/Cut.antt` the text for a power cut. All are this project's rules.
//!
//! # Listings
//!
//! The commands of `nvdimm_shell` that only print: `labels`, `nfit` and `list`.
//!
//! ```text
//! outline ─────► table ──────────────────────► nfit: modules, regions with their sets or faults
//!            └─► label area of a module ─────► labels: the current block, the used slots
//!            └─► all label areas ─► registry ► list: a namespace for each UUID, with its extents
//! ```
//!
//! They work on an outline, a set that was loaded without its contents. Each has a handler that
//! makes a report from the outline. Its only clause is the command's outcome, whatever the contents
//! are: `labels_outcome` of `specs/Labels.antt`, `nfit_outcome` of `specs/Nfit.antt`,
//! `list_outcome` of `specs/List.antt`. The lines are this project's; their values are those of
//! UEFI 2.10, section 13.19, and ACPI 6.5, section 5.2.25.
//!
//! # Sectors
//!
//! The commands that read the sectors of a namespace, `info` and `read`, are those of crate `shell_sectors`. What they print is
//! defined here:
//!
//! ```text
//! set ──► sets and labels ──► namespace ──► all of its arenas ──► info: a line for each
//!               │                  │                │          └─► read: one sector, or Range
//!           image region ..    refused NoSuch   image arena UUID K FAULT
//!           image labels ..    refused ..
//! ```
//!
//! Both share the definition `on_sectors` of `specs/Sectors.antt`: the order of faults and
//! refusals, up to the arenas. `info_outcome` and `read_outcome` add what each command does with
//! the arenas. `specs/Faults.antt` has the texts for an arena that violates the format, and those of
//! all refusals of commands on namespaces (`refusal_text`). Pending moves are completed only in
//! memory, and no image set is written. All are this project's rules over UEFI 2.10, chapter 6.
#![tactic(auto)]

mod labels;
mod list;
mod load_faults;
mod nfit;
mod outcome;
mod power;
mod refusals;
mod sector_faults;
mod status;
mod texts;

pub use labels::{fault_answer, labels_answer, missing_answer};
pub use list::{list_answer, open_fault_answer, open_fault_text, why_text};
pub use load_faults::{load_answer, load_fault_text};
pub use nfit::{nfit_answer, set_fault_text};
pub use outcome::{Report, done_answer, image_answer, printed_answer, usage_answer};
pub use power::{Power, cut_line, fuse_of, steps_of};
pub use refusals::{
    held_answer, is_too_large, op_refused_answer, range_answer, refusal_text, refused_answer,
};
pub use sector_faults::{arena_answer, flog_text, info_fault_text};
pub use status::{Ending, RunStop, Status};
pub use texts::{label_fault_text, mode_text, name_text};
