//! The words after a command's name.
//!
//! A command is described once, by a list of [`Argument`]s. Code and contracts know nothing else of
//! it:
//!
//! ```text
//! [MODULE: Place, cut: Optional, evict: Optional]        0 --cut 5      --evict=7 0
//!
//!  list of arguments ──► a command of clap ──► parse(words) ──► Parsed ──► value, number
//!      Argument             specs/App.antt      what clap's own             by the argument's
//!                                               definition takes            name
//! ```
//!
//! - **Grammar**: words are accepted exactly if clap's own definition has no fault for them
//!   (`parsed` in `specs/Parsed.antt`). So options come in any order, at most once, as `--x v` or
//!   as `--x=v`. A value that begins with `-` must come after `--x=`, or at its place after the
//!   word `--`. `--help`, `-h`, `--version` and `-V` are words like others.
//! - **Numbers**: decimal digits without sign or leading zero (`specs/Numbers.antt`).
//!
//! Every list of arguments makes a command that clap's contracts describe exactly
//! (`proofs/Simple.antt`), so a new command needs no proof here.
#![tactic(auto)]

mod argument;
mod numbers;
mod uuids;
mod values;

pub use argument::{Argument, Form};
pub use numbers::{number_from, number_in};
pub use uuids::uuid_from;
pub use values::{Parsed, WordsFault, parse};
