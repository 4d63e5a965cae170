//! The bytes, the arenas and the sectors of a namespace whose contents stay in an image source.
//!
//! ```text
//! labels ──► where the namespace lies (power_cut::SetExtent)
//!                      │
//! image source ────────┴──► read_extent ──► read_arenas_from ──► ArenaRead .. ──► read_cell
//!                           bytes, by       info blocks, logs    all arenas,      one sector's
//!                           place           and maps             in order         block
//! ```
//!
//! A source has the contents of all modules (`nvd_media::ImageSource`). Nothing is in memory here but what a caller asks for: of
//! the arenas their info blocks, lanes and maps, of a sector its own bytes. Nothing is written. Pending moves are applied to
//! the maps in memory, so a sector's block is the one that it has once its moves are made. `move_runs` says which bytes of the
//! namespace make them there: for each move the four bytes of its sector's map entry.
//!
//! For lanes that work on all words of an arena, `load_arenas` reads the words of the arenas that were found, and opens them in
//! memory. It trusts nothing that was read before: the words are decoded again, so the states are sound whatever the source
//! answers. `words_run` makes a row of words the run of bytes that puts it into the namespace.
//!
//! ```text
//! ArenaRead .. ──► load_arenas ──► Chain ──► lanes work, power is cut ──► words_run ──► NewBytes::Runs
//! image source ──────▲  words up to the end of the last arena
//! ```
//!
//! A source may reveal what it holds, or not (a directory doesn't). What depends on the contents is said of the contents that
//! it reveals (`Reveals`). What callers need whatever the source reveals, as that an arena lies in the namespace, is said
//! without it.
//!
//! | what | definition |
//! |---|---|
//! | what a source reveals | `Reveals`, `HasEnds` of `specs/Source.antt` |
//! | a namespace's bytes and words | `bytes_by`, `words_by` of `specs/Source.antt` |
//! | all arenas in its words | `AreAll` of `namespace_bytes` |
//! | the arenas are sound and lie in it | `AreSized` of `namespace_bytes`, `AreWithin` of `specs/Source.antt` |
//! | a sector's cell | `contents_of` of `arena_open` |
//! | arenas whose words are in memory | `state_at` of `arena_open`, by `front_opens` of `proofs/LoadedArenas.antt` |
//! | the runs of pending moves | `move_runs` of `specs/Moves.antt` |
//! | the namespace's bytes once they are made | `HaveMoves` of `specs/Moves.antt`, by `moves_are_made` of `proofs/MadeMoves.antt` |
//!
//! The formats are those of UEFI 2.10, section 6.2 (BTT data structures); the places those of ACPI 6.5, section 5.2.25.4.
#![tactic(auto)]

mod arena_read;
mod arenas;
mod cell;
mod extent;
mod loading;
mod moves;
mod rows;

pub use arena_read::{ArenaRead, into_arenas};
pub use arenas::{groups_of, log_group, read_arenas_from, read_map};
pub use cell::{arena_at, locate, read_cell, sectors_of_all};
pub use extent::read_extent;
pub use loading::load_arenas;
pub use moves::{entry_run, move_runs};
pub use rows::words_run;
