//! The words of a namespace that its modules report as bad.
//!
//! A module finds ranges of its device addresses that it can't read (ACPI 6.5, section 9.20.7,
//! Address Range Scrub). An image set keeps them as an optional object for each module, a list of
//! *records* of 16 bytes, both numbers little-endian:
//!
//! ```text
//! offset   0             8
//!          | start: u64  | length: u64 |     the addresses start .. start + length
//! ```
//!
//! Both are whole numbers, so their sum doesn't wrap. A record of length 0 has no effect, nor has
//! the part of a record past the module's contents. The objects are in order of module numbers.
//!
//! Word i of a namespace lies at eight addresses of one module (`power_cut`). It is *bad* if a
//! record of that module has at least one of them: `bad_words` of `specs/Bad.antt`.
//!
//! ```text
//! words     |   7   |   8   |   9   |   10  |    of a namespace, contiguous in module 1
//! records       --       -----------------       of module 1: words 7, 8, 9 and 10 are bad
//! ```
//!
//! [`BadExtent`] answers which words of a namespace are bad, and is a [`arena_check::BadWords`].
//! For many words it goes from one *run* to the next, of words that are contiguous in a module, and
//! makes one binary search for each run.
//!
//! For this it keeps a *table* for each module: a row for each record that isn't empty, sorted by
//! start, with the greatest end of the records up to it. Neither starts nor ends fall, so a record
//! has a byte from `from` on, below `to`, exactly if the last row that starts below `to` ends past
//! `from`. `Tells` of `specs/Table.antt` says that a table has bytes where the records have some.
#![tactic(auto)]

mod extent;
mod ranges;
mod table;

pub use extent::BadExtent;
