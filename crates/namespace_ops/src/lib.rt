//! The registry of namespaces.
//!
//! A [`Registry`] has the label areas of an image set, and carries out commands on the namespaces that they make. It counts
//! who uses a namespace, and keeps a journal, so that many sessions can share it.
//!
//! # Commands
//!
//! A command is a list of label changes, each of one module (`namespace_map`). The whole list is planned before the first
//! change is made, in room that `open_all` allocates:
//!
//! ```text
//! labels by UUID ──► the labels of a UUID, by position ──► a list of changes ──► made under a fuse, step by step
//! ```
//!
//! A create of a sector namespace formats its arena first, and the same fuse counts these steps. A [`Formatter`] either writes
//! the arena's words (`sector_namespaces`) or counts them alone ([`Counted`]); who copies contents writes them while copying:
//!
//! ```text
//! find the place ──► plan the changes ──► format the arena ──► put the labels
//! a crash leaves                        no label            unfinished, pending, or complete
//! ```
//!
//! # Recovery
//!
//! Bit 3 of a label's Flags, UPDATING, tells which way an interrupted command has to go. In a first round every
//! **unfinished** namespace, rising by UUID, loses its labels: some are missing, and all that are there have UPDATING. In a
//! second round every complete one that is **pending**, rising, has each label with UPDATING rewritten under its name and
//! without it, on each module with a free slot. Both rounds are lists of changes, planned on the areas that they find.
//!
//! # Claims and the journal
//!
//! - A **claim** of a namespace is held by whoever has its sectors open. A claimed namespace isn't deleted.
//! - The **journal** has one entry for each call with a tag: the tag, the command and the reply.
//!
//! Replayed on the namespaces with which the registry began (its **opening**), the journal gives those of now:
//!
//! ```text
//! opening ──► entry 0 ──► entry 1 ──► .. ──► the namespaces of now       until power is cut
//! opening ──► entry 0 ──► .. ──► those from which the cut command began ──► the state after a crash in its changes
//! ```
//!
//! Once power was cut, every later call answers `PowerCut` and changes nothing but the journal. `reserve` makes the room of
//! the journal session by session, so a session with room needs no other's.
//!
//! | promise | call | definition |
//! |---|---|---|
//! | the sets and areas, or the first fault | [`Registry::open_all`] | `registry_opening` of `specs/Opening.antt` |
//! | recovery's changes are made, cut or not; the namespaces after it | [`Registry::recover`] | `recovery_changes`, `after_recovery` of `namespace_map`; `Went` of `namespace_areas` |
//! | the reply, and what becomes of namespaces, label areas and claims | the calls with a tag | `Answered` of `specs/Counted.antt`; `refusal_of`, `done` of `namespace_map` |
//! | what becomes of the modules' contents, or how much of the format is made | [`Registry::create`] | `Formats` of `specs/Counted.antt` |
//! | the journal has this entry more, and the tag's session has room for one less | the calls with a tag | `Entered` of `specs/Registered.antt` |
//! | the journal replays; the state after a power loss | [`Registry::journal`] | `IsJournaled`, `WasCut`, `WasCutFirst` of `specs/Registered.antt`, `Gives` of `specs/Replay.antt` |
//! | which call a power cut after N steps hits | [`cuts_pass_the_fuse`] | `steps_of` of `specs/Steps.antt` |
#![tactic(auto)]

mod calls;
mod changing;
mod claims;
mod commands;
mod counted;
mod creating;
mod formatter;
mod journal;
mod journal_room;
mod label_store;
mod law;
mod listing;
mod making;
mod names;
mod reading;
mod recovering;
mod registry;
mod removing;
mod room;
mod sectors;
mod settling;
mod turns;

pub use formatter::{Begun, Counted, Formatter};
pub use journal::JournalEntry;
pub use law::{cuts_pass_the_fuse, journals_spend_their_steps};
pub use names::named;
pub use namespace_areas::Area;
pub use nvd_words::Tag;
pub use registry::{OpenFault, Registry, check_overlap, sets_of};
