//! Whole sessions of a script: orders to the registry, and calls on sectors of the namespaces that it names, by many sessions at once.
//!
//! A session makes its calls one after another, and has a line for each reply:
//!
//! ```text
//!   session 0   open A -> Done    write 9 -> Done     rename A -> Op(Busy)   close -> Done
//!   session 1   open A -> Done    read 9 -> Value     read 99 -> Range
//! ```
//!
//! An order is one turn at the registry (`registry_service`). A call on a sector runs on a lane of its arena (`lane_calls`), beside
//! the calls of other sessions. What holds at the end is the **account**
//! (`Accounts` of `session_account`): the answered calls of a session stand in the journal and in the histories, each once, in
//! their order, with their replies. Only its last call may be cut; if it is an order or a write, it stands or doesn't.
//!
//! **Power.** A call is answered `Cut` if power is off. A session with a `cut` line makes only so many steps, and switches power off
//! when they are spent. If the steps on labels end (`labelcut`), the session in whose
//! order they do so switches it off.
//!
//! **Arenas.** The arenas of all namespaces stand in one row, namespace after namespace (`number_at` of `specs/Namespaces.antt`):
//!
//! ```text
//!   namespace   A          B     C
//!   arena       0  1  2    0     0  1
//!   number      0  1  2    3     4  5
//! ```
//!
//! | call | promise | definition |
//! |---|---|---|
//! | [`of_namespaces`] | the service is made, and each session is ready | `IsMade` of `specs/Made.antt`, `AreRunnersReady` |
//! | [`run_sessions`] | each session has come to its end, whatever the threads did | `AreEnded` of `specs/Runners.antt` |
//! | the same | a session that itself switched power off has a `cut` line, and lanes made exactly so many steps for it | `IsSpent` of `specs/Runners.antt` |
//! | [`close`] | the accounts hold, the journal and the histories are legal, and they say what a power cut leaves | `HasServed` of `specs/Ran.antt` |
//! | [`ArenaEnd::leave`] | power is cut: the chooser is asked for exactly the words that have two values | `IsAtCut` of `specs/Ends.antt` |
#![tactic(auto)]

mod arena_end;
mod ending;
mod finding;
mod in_threads;
mod laying;
mod lines;
mod namespaces;
mod resting;
mod runner;
mod running;
mod seats;
mod service;

pub use arena_end::ArenaEnd;
pub use ending::{Ran, close};
pub use namespaces::ServedNamespace;
pub use runner::Runner;
pub use running::run_sessions;
pub use service::{Service, of_namespaces};
