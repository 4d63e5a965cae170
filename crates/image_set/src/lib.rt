//! Image sets: the data of some NVDIMMs, read from a source into memory.
//!
//! An **image set** has a firmware table and, for each module that the table names, a label area,
//! contents and a list of bad ranges. Module m is the one whose device handle is the m-th in the
//! table. [`load`] returns the set, or the first fault, in this order:
//!
//! ```text
//! mark ── table ── module 0: labels, contents, bad ranges ── module 1: .. ── mappings
//!
//!         there?   labels    a multiple of 256 from 1,024 bytes to 1 MiB, or absent
//!         1 MiB?   contents  there, a positive multiple of 4,096; 16 TiB with those before
//!         read?    bad       a multiple of 16, at most 64 KiB, or absent
//! ```
//!
//! The mappings come last, region by region: a mapping that passes the end of its module's contents
//! is a fault of the contents' size. Sums don't wrap.
//!
//! The call asks for all lengths first, and then reads all bytes in large pieces, directly into the
//! words it returns ([`cut_words::CutWords`], none pending). So a set that is refused costs no
//! memory, and after that only the source and memory can fail.
//!
//! [`save`] writes a set: the table, each module's objects in the same order, and the mark last, so
//! an incomplete set is never taken for a complete one. It converts words to bytes piece by piece,
//! without a second copy.
//!
//! A command that only changes label areas needs no contents in memory. [`load_outline`] makes the
//! same checks and returns the set without its contents, but with their sizes. The command takes
//! one area out ([`Outline::take_area`]) and puts the changed one back ([`Outline::leave_area`]),
//! or does both with all areas ([`OutlineRest::leave_areas`]). [`OutlineLeft::save`] then writes
//! the objects, and copies the contents from the source to the sink, 256 KiB at a time:
//!
//! ```text
//! source ── mark, table, sizes, labels, bad ranges ──► outline ──► after the command ──► sink
//!    └──────────────────────────── contents ─────────────────────────────────────────────►
//! ```
//!
//! If the source fails during the copy, the set isn't finished, as if the sink had failed.
//!
//! A command may also change contents while they are copied ([`OutlineLeft::save_patched`]). A
//! [`Patch`] says the new value of each byte by its place and its old value, and it changes each
//! piece before it is written. A piece that it replaces as a whole isn't read.
//!
//! The definitions are in `specs/`: `Limits.antt` the limits; `Load.antt` the contents of an image
//! set, or its first fault (`loading`); `Sound.antt` what holds of a loaded set even if the source
//! reveals nothing (`IsSound`); `Sizes.antt` the sizes of the objects; `Save.antt` the objects that
//! are saved; `Changed.antt` a set with another label area; `Outline.antt` an outline, and copying
//! it; `Patches.antt` contents that are changed byte by byte. All limits and the order are this project's rules.
#![tactic(auto)]

mod area;
mod changing;
mod copying;
mod fault;
mod limits;
mod loading;
mod mapped;
mod outline;
mod patch;
mod pieces;
mod reading;
mod saving;
mod sizes;
mod writing;

pub use changing::{OutlineLeft, OutlineRest, SetLeft};
pub use fault::{CopyFault, LoadFault, SaveFault};
pub use loading::{Loaded, load};
pub use outline::{Outline, load_outline};
pub use patch::{NoPatch, Patch};
pub use saving::save;
