//! The label areas of all modules of an image set (UEFI 2.10, section 13.19).
//!
//! Each module may have a label area. How much of it could be read decides its kind:
//!
//! ```text
//!   module 0   Ready     current block, labels by slot      its labels count
//!   module 1   Refused   no valid index block               kept as it was read
//!   module 2   Absent
//! ```
//!
//! Areas are listed by module number. Their labels are those of all ready areas, by module and then by slot (`labels_of`
//! of `specs/Areas.antt`); [`gathered`] returns them.
//!
//! # Label changes
//!
//! A command on namespaces is a list of label **changes** (`namespace_map`): on one module the label of a UUID goes, and a
//! label comes. This crate makes the changes in the modules' areas, and states what becomes of all areas:
//!
//! ```text
//! fuse lasts       the areas show what the change makes of what they showed; the next change may follow
//! power is cut     each area's words are old or new, word by word; opened again, they show the state after a crash that
//!                  many steps into the changes (`IsLeftBy`)
//! ```
//!
//! The list of all stores and flushes of the changes (`all_steps`) fixes the areas' words to the byte: after all of them
//! (`all_rows`), and after the first N (`words_after`). It follows from the first words and the changes alone.
//!
//! A definition sees of an area the size of its index blocks and its slots (`area_seen`). Of a row of values it sees what
//! the row would be opened as (`area_shown`). The two agree if no change is under way.
//!
//! | promise | call | definition |
//! |---|---|---|
//! | what a list of changes makes of the areas and of a fuse | [`change_label`] | `Went` of `specs/Went.antt` |
//! | the words of all areas after so many stores and flushes, and no others | the same | `words_after`, `all_rows` of `specs/Steps.antt` |
//! | the same for a list of changes, each of which can be made when its turn comes | [`make_changes`] | `CanMake` of `specs/Went.antt` |
//! | the areas' words after a crash | [`into_words`] | `words_of`, `AreLeft` of `specs/Seen.antt` |
//! | an area opens as its words show it | [`open_areas`] | `opened_as` of `specs/Opening.antt` |
//! | no change; one list after another; a crash in the first of two | - | `went_none`, `went_both`, `went_cut` of `proofs/Went.antt` |
//! | a ready area shows its labels, and each label names its slot | - | `seen_labels`, `seen_read` of `proofs/Seen.antt` |
//!
//! # Labels by namespace
//!
//! A namespace is what the labels of one UUID make (`namespace_map`). Labels stand by module and slot, so they are sorted
//! first:
//!
//! ```text
//!   by module and slot          by UUID, module and slot
//!   module 0  slot 0  V         U  module 0  slot 1   ┐ the group of U
//!   module 0  slot 1  U         U  module 1  slot 0   ┘
//!   module 1  slot 0  U         V  module 0  slot 0   ┐ the group of V
//!   module 1  slot 2  V         V  module 1  slot 2   ┘
//! ```
//!
//! [`LabelGroups`] is that list (`AreGrouped` of `specs/Groups.antt`). Each UUID keeps its labels in their order
//! (`HasGroupsOf`), so the namespaces that they make are the same (`entries_of`). It is made once, with room for a label in
//! each slot, and updated in that room without memory.
//!
//! - [`LabelGroups::group`] finds the labels of a UUID by binary search.
//! - [`LabelGroups::group_from`] walks over the UUIDs, rising (`IsNextGroup`).
//! - [`region_of`], [`status_in`], [`shown_name`] and [`namespace_with`] say what the labels of a UUID make, each by the
//!   definition of its name in `namespace_map`.
//!
//! A label lies in the first region whose mapping has the whole of its extent. [`Regions`] holds the interleave sets of all
//! regions, and for each module the regions that have a mapping of it, so a label is compared with those alone.
//!
//! # Finding a namespace
//!
//! [`find`] looks for a namespace whose sectors are to be read:
//!
//! ```text
//! no label has the UUID        NoSuch
//! no complete namespace        NotComplete      unfinished, local or incomplete
//! not of sectors               NotSector        its mode is raw, of another version, or unknown
//! else                         Found            region, offset and size in each mapping, mode
//! ```
//!
//! `specs/Finding.antt` defines this (`found_of`), and says that a found namespace lies in its region's set in whole units
//! (`LiesInSet`).
//!
//! # Refusals
//!
//! The map of namespaces and the room in the label areas decide whether a command is refused (`refusal_of` of
//! `namespace_map`). The functions here decide it from the open label areas and the labels by UUID:
//!
//! ```text
//! create   BadName  NoRegion  ModuleLabels  Exists  BadSize  NoSlot (it needs two)  NoSpace
//! delete            NoSuch  NotComplete  ReadOnlyLabel  NoSlot (it needs one, with two modules or more)
//! rename   BadName  NoSuch  NotComplete  ReadOnlyLabel  NoSlot (it needs one)
//! ```
//!
//! The first reason in this order is returned, with the least module. `shown` of `specs/Refusals.antt` is the map that the
//! areas show, in which no namespace is claimed.
//!
//! - [`create_offset`] returns the refusal of a create (`create_refusal`), or the new namespace's offset on each module: the
//!   least multiple of the unit at which it meets no label's extent (`new_offset`).
//! - [`delete_refusal`] and [`rename_refusal`] take no memory.
#![tactic(auto)]

mod area;
mod change;
mod changes;
mod creating;
mod entries;
mod filling;
mod found;
mod gather;
mod group_labels;
mod groups;
mod modules;
mod open;
mod regions;
mod words;

pub use area::Area;
pub use change::change_label;
pub use changes::{Change, make_changes};
pub use creating::create_offset;
pub use entries::{delete_refusal, rename_refusal};
pub use filling::slots_in;
pub use found::{Found, find, first_arena};
pub use gather::gathered;
pub use group_labels::{
    add_namespace, extent_of, extents_of, namespace_with, number_of, region_of, shown_name,
    status_in,
};
pub use groups::LabelGroups;
pub use open::open_areas;
pub use regions::Regions;
pub use words::into_words;
