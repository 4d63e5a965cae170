//! The space of an interleave set: the extents that labels reserve, and the free space between
//! them.
//!
//! A label reserves an *extent* of its module: a number of bytes from a device address on (UEFI
//! 2.10, section 13.19, Dpa and RawSize). The UUID of its labels is the *owner* of an extent.
//! Extents of different owners on one module must not overlap. A new namespace needs the same
//! number of bytes on each module of its set, at the same offset from the starts of the mappings:
//!
//! ```text
//! module 0   |aaaaaaaabbbb    xxxx        |   a, b, c: extents of three owners
//! module 1   |aaaaaaaa    ccccxxxx        |   x: the first fit, free on both at the same offset
//! ```
//!
//! - [`Space::of`] takes the extents, or names the first two of different owners that overlap
//!   (`overlap_of`, `specs/Space.antt`).
//! - [`Space::first_fit`] returns the least offset that fits (`IsFirstFit`).
//!
//! Both sort the extents by module and start, and record at each place the greatest end of the
//! extents of its module up to it (`Reach`). So one binary search finds what overlaps a range, and
//! extents of one owner may overlap each other.
#![tactic(auto)]

mod extent;
mod fitting;
mod order;
mod reach;
mod space;

pub use extent::{Extent, SpaceFault};
pub use space::Space;
