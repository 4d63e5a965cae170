//! The namespaces of an image set (UEFI 2.10, section 13.19).
//!
//! No module lists the namespaces. Each module's labels say which of its parts belong to which
//! namespace, by UUID; the labels of one UUID on all modules make up a namespace:
//!
//! ```text
//!   module 0   slot 0  U "a" position 0      slot 1  V "log" position 0      slot 2  -
//!   module 1   slot 0  -                     slot 1  U "a" position 1        slot 2  V "log" position 1
//!
//!   U   "a"    region 0   extents on modules 0 and 1   complete
//!   V   "log"  region 0   extents on modules 0 and 1   complete
//! ```
//!
//! So the namespaces are a map with one **entry** for each UUID that a valid label names: its name,
//! region, mode, LbaSize, extents and status. `specs/Namespaces.antt` defines it: `entry_at` is the
//! entry of a UUID, `entries_of` the map, a list of entries in ascending order of UUIDs, and
//! `Namespaces` the map with the state of the areas. A law says that the list is a map from UUIDs
//! ([`entries_are_a_map`]). A caller sees an entry as a [`Namespace`] (`namespace_of`).
//!
//! - The labels of one UUID are ordered by module and slot. The **first** of them, in the least
//!   slot of the least module, determines the entry's mode and LbaSize.
//! - The **region** of an entry is the first one whose mapping contains the whole extent of the
//!   first label. If there is none, the status is Local if a label has LOCAL, otherwise it names
//!   the least module that has a label.
//! - The **status** of an entry with a region is that of its labels with the region's interleave
//!   set (`label_set`). Each label reserves its extent, whatever the status.
//!
//! The mode is [`label_codec::Mode`], from the two GUIDs of the first label.
//!
//! # Commands on the map
//!
//! A command on a namespace is a list of **changes**, each of one module's label. Only a single
//! change is atomic under a power loss. Bit 3 of a label's Flags, UPDATING, shows how far an
//! interrupted command came:
//!
//! ```text
//! create on modules 0 and 1        the state after a crash
//!   put on 0, UPDATING             no label .. then one, which is updating: unfinished
//!   put on 1, UPDATING             .. then both: complete and pending
//!   put on 0 again, without it     complete and pending
//!   put on 1 again, without it     complete
//! ```
//!
//! A delete goes the other way: it sets UPDATING on each label, and then removes each. A rename
//! writes the new name with UPDATING on each label, and then clears UPDATING. So recovery knows
//! what to do: it removes what is **unfinished**, and settles what is **pending** under the name of
//! its status (`after_recovery`, `recovery_changes`). On one module a single change suffices. A delete
//! or rename of a pending entry with two or more labels settles it first: from labels that differ, a
//! second crash could leave what no rule can judge.
//!
//! A command is defined twice: as a step on the map of entries, and as its list of changes.
//! `namespace_laws` proves that both agree, and which states are possible after a crash in each
//! command.
//!
//! - `specs/Commands.antt` has the reasons for a refusal in order (`refusal_of`), the effect of a
//!   command on the map (`done`, `step`), and recovery (`after_recovery`).
//! - `specs/Changes.antt` has the label changes of a command and of recovery (`changes_of`,
//!   `recovery_changes`).
//! - `specs/Areas.antt` has one change, a list of changes, their steps, and the areas after a crash
//!   that follows some of the steps (`changed_areas`, `all_changed`, `steps_of_all`, `after_steps`,
//!   `IsLeftBy`).
//! - With all steps, all changes are made: [`all_steps_make_all_changes`]. A crash during changes
//!   of one UUID leaves every other entry unchanged: [`cut_leaves_others`]
//!   (`specs/CommandLaws.antt`).
#![tactic(auto)]

mod command_laws;
mod commands;
mod laws;
mod listed;
mod refused;

pub use command_laws::{all_steps_make_all_changes, cut_leaves_others};
pub use commands::{Command, CreateSpec, Make, Named};
pub use laws::entries_are_a_map;
pub use listed::Namespace;
pub use refused::OpRefused;
