//! The commands `serve` and `load`: sessions open namespaces, read and write sectors, and create, rename and delete namespaces, at the
//! same time; and power fails where the script says.
//!
//! ```text
//! outline ──► labels recovered ──► namespaces of the `open` lines      image region ..
//!                                    │
//! image source ──────────────────────┴──► their arenas, pending moves made      image arena UUID K FAULT, refused TooLarge BYTES
//!                                           │
//!              session 0   open, write, read, ..        ok, ok, ok fill:11      │ calls on sectors take the steps of a lane,
//!              session 1   rename, open, cut            ok, ok, cut             │ commands go one by one
//!                                           │
//!                                           ▼
//!                                   power is cut: a chooser decides for each unflushed word
//!                                           │
//! saved set ◄── label areas ◄───────────────┤
//!           ◄── contents are copied ◄───────┘ the arenas' words are put in
//! ```
//!
//! | promise of [`serve_answer`] and [`load_answer`] | field of `Serves` |
//! |---|---|
//! | commands on labels are one journal, cut after the steps that `labelcut` states | `commands` |
//! | each arena has one history, legal from its contents | `legal` |
//! | the replies are those of the sessions' calls, which stand once and in order | `accounts` |
//! | label areas are those of the journal's end, or those after the cut in one command; no two namespaces meet | `labels`, `disjoint` |
//! | recovered, they have the namespaces of the journal's end, or those from before or after the command that was cut | `recover` |
//! | each sector is as its history ends, or as one write that was cut | `survive` |
//! | contents outside the served arenas are as they were | `beside` |
//! | each unflushed word is as the chooser picks, which is begun once | `chosen` |
//! | label areas hold the words that the commands stored and flushed, as far as `labelcut` lasted, and no other | `hold` of `chosen` |
//!
//! Definitions are in `specs/Serving.antt` and `specs/Chosen.antt`, and the order of refusals in `specs/Serve.antt` and
//! `specs/Load.antt`. `session_service` runs the sessions, `served_namespaces` opens their namespaces and makes the patch with their arenas,
//! `session_account` defines journals and accounts, and `session_texts` the line of a reply. Scripts and texts are this project's own.
#![tactic(auto)]

mod cutting;
mod law;
mod load;
mod opening;
mod recovered;
mod saving;
mod scripts;
mod serve;
mod serving;
mod texts;

pub use law::{empty_serves, load_ends_due, serve_ends_due};
pub use load::{Load, load_answer};
pub use serve::serve_answer;
pub use serving::Running;
