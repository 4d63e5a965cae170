//! The info block of a Block Translation Table arena, and the layout of the arena's areas.
//!
//! A namespace of mode sector is divided into independent arenas. The first 4,096 bytes of an arena
//! are the info block, the last 4,096 bytes a backup of it:
//!
//! ```text
//!   0        DataOff                      MapOff           FlogOff          InfoOff
//!   +--------+----------------------------+----------------+----------------+--------+
//!   | info   | internal blocks            | map            | log (Flog)     | backup |
//!   +--------+----------------------------+----------------+----------------+--------+
//!     4,096    internal * inner bytes       4 * external     64 * lanes       4,096
//! ```
//!
//! - A **sector** (external block) has `sector` bytes; a **block** (internal) has `inner` bytes, a
//!   multiple of 64.
//! - There are as many more blocks than sectors as there are **lanes**: each lane owns one free
//!   block.
//! - Offsets count from the arena's first byte. Opening reads only the first info block (this
//!   project's rule).
//!
//! The definitions are in `specs/`. `IsLayout` relates the offsets, with sums that don't wrap.
//! `StandsFor` says which 4,096 bytes encode an [`Info`]: [`read_info`] returns Ok exactly for
//! those, else the first failing check of `info_reading`. `spelling_of` is the encoding that
//! [`write_info`] writes. It reads back as its info, and any readable bytes with zeros in the
//! ignored places are the encoding of their info. `plan_of` is the layout of a new arena, by
//! Linux's rule. It is an `IsLayout` for each size, sector size and lane count that [`plan`]
//! accepts.
//!
//! Sources: UEFI 2.10, section 6.2, BTT Info Block; for new arenas Linux, drivers/nvdimm/btt.c,
//! alloc_arena.
#![tactic(auto)]

mod checks;
mod info;
mod layout;
mod planning;
mod write;

pub use info::{Info, InfoFault, read_info};
pub use layout::{Layout, LayoutFault, LayoutField};
pub use planning::plan;
pub use write::write_info;
