//! The command `replay`: the lanes of an arena take their steps by a schedule, and then power is cut.
//!
//! A driver that gets the order of its stores wrong fails only if two lanes meet in a certain way, or
//! if power is lost at a certain step. A schedule states this way, so that it can be run:
//!
//! ```text
//! outline ──► namespace ──► its one arena, read from the image source   refused Arenas N, TooLarge BYTES
//!                                   │                                   and its pending moves made
//!                                   ▼
//!              line by line: lane 1 begins to write, makes 138 steps, ..       text
//!                                   │
//!                                   ▼
//!              power is cut: a chooser decides for each word that wasn't flushed
//!                                   │
//! saved set ◄── contents are copied, and the arena's words put in
//! ```
//!
//! | promise of [`replay_answer`] | definition |
//! |---|---|
//! | each refusal, in its order; else the text of the lines, and what is saved | `ReplayComes` |
//! | the arena's words are those that the cut leaves; every other word is as loaded | `HasReplayed` |
//! | the history of the calls is legal, and has each answer once | `ReplayStands` of `lane_replay` |
//! | the saved arena opens; a sector is as the history ends, or as one write in flight | `ReopensIn` |
//!
//! All of it holds with the contents that the source has, as far as it reveals them (`ReplaysFrom`).
//!
//! Definitions are in `specs/Replay.antt`. `namespace_words` reads and loads the arena, `lane_replay`
//! plays the lines, `lane_core` makes the steps and the cut, and `shell_sectors` finds the namespace
//! and saves the set. Schedules and texts are this
//! project's own.
#![tactic(auto)]

mod opening;
mod playing;
mod replay;
mod schedule;

pub use replay::replay_answer;
pub use schedule::Schedule;
