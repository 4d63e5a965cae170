//! Commands on the sectors of a namespace: `info` and `read`, which only print, and `write`, which saves an image set.
//!
//! # Printing
//!
//! ```text
//! outline ── open_outline ──► labels ──► namespace ──┐
//!                                                    ▼                       ┌─► info: a line for each arena
//! image source ──────────────────────────► read_arenas_from ──► all arenas ──┴─► read: one sector (read_cell), or Range
//! ```
//!
//! The set was loaded without its contents (`image_set::Outline`). Of these only the arenas' info blocks, logs and maps are read,
//! and for `read` the sector's own bytes (crate `namespace_words`). Pending moves are made in the maps in memory.
//!
//! | what | definition |
//! |---|---|
//! | what the labels say, whatever the contents are | `IsOpenOutline` of `specs/Opening.antt` |
//! | what is printed, with the contents that the source reveals | `PrintsFrom` of `specs/Opening.antt` |
//! | which fault or refusal comes first, and the lines | `info_outcome`, `read_outcome` of `shell_reports` |
//!
//! # Writing
//!
//! ```text
//! outline ── open_outline ──► labels ──► namespace ──┐
//!                                                    ▼
//! image source ──────────────────────────► read_arenas_from ──► all arenas ──► Range, Length
//!                                                                   │
//!                     move_runs: the pending moves of all ◄─────────┤
//!     push_write: the value, the log's half, the map entry ◄────────┘ the sector's arena
//!                                    │
//!                                    ▼
//! saved set ◄── put in while contents are copied ◄── NewBytes::Runs
//! ```
//!
//! A write goes through the log of the sector's arena, as a driver makes it: the value lies in the free block of lane 0, the log names the move,
//! and the map has it (`lane_alone`). No power is cut in it, so its end alone counts: the runs of bytes that it changes. They are put in while the
//! contents are copied from the source (crate `namespace_bytes`). In memory are the arenas' maps and the value.
//!
//! | what | definition |
//! |---|---|
//! | which refusal comes first | `OnSet` of `specs/Found.antt`, `write_refusal` of `specs/Write.antt` |
//! | what `write` comes to, with the contents that the source reveals | `WritesFrom` of `specs/Writing.antt` |
//! | the runs of a write | `lone_runs` of `specs/LoneRuns.antt`; of pending moves, `move_runs` of `namespace_words` |
//! | the namespace's words after a write | `HasSector` of `specs/Write.antt` |
//! | the set that is saved | `SavesNamespace` of `specs/Found.antt`, `SavesPatched` of `specs/Patched.antt` |
//!
//! # Steps for other commands
//!
//! Each begins by `open_outline`. `import` saves by `patched_answer`, `replay` by `SectorPlace::save`.
//!
//! Labels, the firmware's table and bad ranges are saved as read. The order of refusals and the texts
//! are this project's rules over UEFI 2.10, chapter 6.
#![tactic(auto)]

mod asking;
mod info;
mod lone;
mod opening;
mod patching;
mod read;
mod value;
mod write;

pub use info::info_answer;
pub use opening::{OutlineOpened, open_outline};
pub use patching::{patched_answer, printed_patched, set_of, unopened_answer};
pub use read::read_answer;
pub use write::{SectorPlace, place_in, unfound_answer, write_answer};
