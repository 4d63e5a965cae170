//! A run of the program over the outside's traits: words, a script, an image set, and what is printed and saved.
//!
//! ```text
//!  words ──► command                                        words, commands, command_words
//!  script ──► schedule     of `replay`; of `serve` sessions, of `import` bytes  scripts, session_script
//!  image set ──► lines ──► text, status                     top
//!      │   labels, nfit, list, info, read; export, which prints piece by piece
//!      │
//!      ├──► a changed set, or its state after a crash ──► image set
//!      │       init, create, delete, rename, write, check, replay, import, serve, load
//!      └──► the first object that is missing or outside its limits
//! ```
//!
//! [`run`] does the work, so its contract says all of it; `nvdimm_shell` gives it directories and the standard streams.
//!
//! Sessions may wait for one another, so `run` has the bound `Wait`, under which a body that never returns meets any clause. Only `serve`
//! and `load` start sessions ([`has_sessions`]). All other commands go through [`carry_out`], which has the same clauses without that bound: so
//! each of them returns.
//!
//! A command is an entry of the table in `specs/Commands.antt`, a case of `Comes` in `specs/Run.antt`, and a handler that
//! makes an answer from the set, which was loaded without its contents. A command with a script reads it to its end
//! before anything is loaded (`OnScript`); its handler gets what was read. `export` alone gets the text sink (`streams`), since its
//! text may be as long as the contents. Commands on sectors get the image source, from which they read the arenas of
//! sector namespaces, `read` the sector, and `export` all bytes (`OnSource`).
//! Loading, faults of reading and writing and running out of memory are handled once, for all commands, by `OnLoaded`, by
//! `Ends` and in `top`. Commands that write a set copy the contents as they save (`copies`).
#![tactic(auto)]

mod commands;
mod laws;
mod scripts;
mod sessions;
mod top;
mod words;

pub use laws::{init_leaves_whole, status_is_due};
pub use top::{carry_out, has_sessions, run};
pub use words::{CommandLine, command_from};
