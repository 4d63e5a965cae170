//! The command `check` of `nvdimm_shell`: everything that is wrong with the arenas of a sector namespace.
//!
//! ```text
//! outline ── open_outline ──► labels ──► namespace ──┐
//!                                                    ▼
//! image source ────────────► info blocks, logs, maps, arena by arena ──► findings ──► a line for each
//! bad ranges of the modules ───────────────────────────▲                                  │
//!                                                                                         ▼
//! saved set ◄── the set as it was loaded, or repaired                           sound, or broken N
//! ```
//!
//! Other commands refuse an arena with the first rule that it breaks. `check` lists all of them (crate `arena_check`), and goes on with the
//! next arena if the info block, or else its backup, says where that is. So an arena that breaks the format is no fault of the image here.
//! Of the contents only the arenas' info blocks, logs and maps are read. Pending moves are made in the map in memory.
//!
//! Another function, `check_arenas`, lists the findings of all sector namespaces of a set, for a
//! command that checks all of the set. It saves nothing.
//!
//! A set is saved as it was loaded. With `--repair` its arenas are repaired in it, as far as nothing has to be guessed (crate
//! `arena_repair`): while the contents are copied, runs of bytes are put into them, for each arena at most a page and a map.
//!
//! | what | definition |
//! |---|---|
//! | the findings of an arena | `report_of` of `arena_check` |
//! | which words are bad | `bad_words` of `bad_ranges` |
//! | all arenas, in order | `reports_of` of `arena_repair` |
//! | the words of an arena after a repair | `repaired_words` of `arena_repair` |
//! | those of the namespace | `AreRepaired` of `arena_repair` |
//! | the lines | `check_text` of `specs/Text.antt` |
//! | what the command comes to | `CheckComes` of `specs/Comes.antt` |
//! | the lines of all namespaces, and how many findings these are | `arenas_text` and `arenas_count` of `specs/All.antt` |
//!
//! The order of refusals and the texts are this project's rules over UEFI 2.10, chapter 6.
#![tactic(auto)]

mod all;
mod arena;
mod chain;
mod command;
mod extent;
mod log;
mod pages;
mod repair;
mod saving;
mod text;

pub use all::{ArenaLines, check_arenas};
pub use command::check_answer;
pub use log::flog_findings;
pub use pages::read_source;
pub use text::{push_last_line, push_lines};
