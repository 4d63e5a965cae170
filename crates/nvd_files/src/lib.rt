//! Image sets in directories, and the standard streams: the trusted edge of the program.
//!
//! A directory with an image set has a file for each object of `nvd_media`:
//!
//! ```text
//! IN/nfit.bin  IN/labels-0.bin  IN/contents-0.bin  IN/badranges-0.bin  ..  IN/complete
//!    Nfit         Labels(0)        Contents(0)        BadRanges(0)           Mark
//! ```
//!
//! `specs/Files.antt` defines the file names (`file_name_of`). [`DirSource`] reads such a directory
//! and [`DirSink`] makes one; [`StdText`] reads standard input and writes standard output. They are
//! a few lines over std and reveal no bytes to a proof: what is proved is that a call fails only if
//! its count of failures rises. Only the program's `main` uses this crate; all other code is
//! generic over the traits of `nvd_media`.
//!
//! # When data is on the disk
//!
//! A set is finished in this order, so a name never reaches the disk before the data it names:
//!
//! ```text
//! each object's file ──► OUT ──► the directory above OUT ──► OUT/complete ──► OUT ──► `finish` returns Ok
//! ```
//!
//! Each arrow waits for the system's sync call on what is to its left.
#![tactic(auto)]

mod dir_sink;
mod dir_source;
mod object_file;
mod paths;
mod std_text;

pub use dir_sink::DirSink;
pub use dir_source::DirSource;
pub use paths::file_name;
pub use std_text::StdText;
