//! Scripts of sessions, and schedules of lanes.
//!
//! A script says what each session calls, and after how many steps power is cut:
//!
//! ```text
//! labelcut 520                                     power is cut after 520 steps on labels
//! session 0                                        the first session
//! cut 391                                          .. cuts power after 391 of its own steps
//! open 11111111-1111-4111-8111-111111111111        .. opens a namespace
//! write 9 fill:11                                  .. and writes its sector 9
//! ```
//!
//! A schedule says which lane of an arena does what and steps how often, so that a race can be
//! written down and run:
//!
//! ```text
//! call 1 write 9 fill:11      lane 1 begins to write sector 9
//! step 1 138                  .. and makes 138 steps
//! call 0 read 9               lane 0 begins to read it
//! ```
//!
//! - **Lines** end with LF; the last one may end without it (`lines_in` in `specs/Lines.antt`).
//! - **Fields** are separated by one blank. They are read from left to right, and the first that
//!   isn't of its kind decides (`specs/Fields.antt`).
//! - **A text** is read exactly if each of its lines is in the grammar and within the limits. Else
//!   the first line that isn't decides (`specs/Script.antt`, `specs/Schedule.antt`).
//! - **A load** is a script that [`make_load`] makes from a number (`specs/Load.antt`).
//! - **A value** is printed as it is written in a script; a cell that was read has a line
//!   (`specs/Texts.antt`).
//!
//! These rules are this project's own.
#![tactic(auto)]

mod fault;
mod fields;
mod lines;
mod load;
mod payload;
mod reading;
mod schedule;
mod schedule_lines;
mod script;
mod sessions;
mod texts;
mod verbs;
mod words;

pub use fault::{LineKind, ScriptFault, ScriptLimit};
pub use load::make_load;
pub use payload::Payload;
pub use reading::read_replay;
pub use schedule::{Replay, ReplayLine};
pub use schedule_lines::{LinesLeft, ReplayLines};
pub use script::{Line, Order, Script, SessionLines};
pub use sessions::read_script;
pub use texts::{add_bad, add_cell, add_words};
pub use words::{is_printable, value_in};
