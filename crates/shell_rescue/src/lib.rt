//! The command `rescue` of `nvdimm_shell`: all bytes of a sector namespace that can still be read.
//!
//! ```text
//! outline ── open_outline ──► labels ──► namespace ──┐
//!                                                    ▼
//! image source ──► info block or its backup ──► lanes that count ──► map, moves made ──► lost sectors
//!       │                                                                   │                 │
//!       │                                                              the entries        the list,
//!       ▼                                                                   ▼             with --lost
//! blocks of the sectors ────────────────────────────────────────► bytes, a lost sector as zeros
//! ```
//!
//! Other commands refuse an arena with the first rule that it breaks, though nearly all of its
//! sectors may be there. `rescue` prints each sector of which it is sure which block it has (crate
//! `arena_rescue`), and zeros in place of the others. `--lost` lists those, and what the rest stands
//! on: a backup in place of the first info block, lanes whose group is refused, bad words, and the
//! pending moves that were made. Nothing is guessed and nothing is written.
//!
//! The namespace is found by the labels that are there, so some of its modules may have none
//! (crate `label_rescue`). Then `--lost` names these modules first.
//!
//! | what | definition |
//! |---|---|
//! | the namespace, some of whose labels may be missing | `rescued_in` of `specs/Found.antt` |
//! | which lanes count | `counted_groups` of `specs/Rescue.antt` |
//! | which sectors are lost | `losses_of` of `arena_rescue` |
//! | the bytes | `rescued_bytes` of `specs/Rescue.antt` |
//! | the list | `missing_lines`, `lost_text` of `specs/Lost.antt` |
//! | what the command comes to | `rescue_outcome` of `specs/Comes.antt` |
//!
//! Which info block is used, and how the chain of arenas goes on, is as for `check` (crates
//! `arena_check`, `shell_check`). The order of refusals and the texts are this project's rules over
//! UEFI 2.10, chapter 6.
#![tactic(auto)]

mod arena;
mod chain;
mod command;
mod extent;
mod law;
mod log;
mod lost;
mod print;
mod text;

pub use command::rescue_answer;
pub use law::{
    sound_list_ends_as_export, sound_list_is_marks, sound_rescue_ends_as_export,
    sound_rescue_is_export,
};
