//! The command `export` of `nvdimm_shell`: all bytes of a namespace on the text sink.
//!
//! ```text
//! outline ── open_outline ──► labels ──► namespace ──┬─► raw ───────────────────────────────────────────────┐
//!                 │                          │       └─► sectors ── read_arenas_from ──► arenas ──► sectors ─┤
//!       image region ..            refused NoSuch           image arena UUID K FAULT ◄──┤                    │
//!       image labels ..            refused ..               refused BadSector N ◄───────┘                    ▼
//! image source ────────────────────────────────────────────────────────────────────── read_extent ──► pieces of bytes
//! ```
//!
//! The other commands make a report, and its text is printed at the end. The text of this one is as long as the namespace,
//! so its bytes are read from the source and printed piece by piece, 256 KiB or as many sectors as fit there at a time. One piece
//! is in memory, and of the arenas the logs and the maps.
//!
//! `export_outcome` of `specs/Export.antt` says which text is due. A refusal is found before the first byte is printed, and
//! so is out of memory: the piece is allocated first. Bad sectors are found by the arenas' map entries alone, so each
//! sector is read once, and a zero one not at all. If the source fails later, the status says so, and what was printed is a front of
//! the text. `IsPrinted` of `specs/Printing.antt` says how much of the text was printed. All are this project's rules over UEFI 2.10,
//! chapter 6, and ACPI 6.5, section 5.2.25.4.
#![tactic(auto)]

mod bad;
mod blocks;
mod export;
mod pieces;
mod place;
mod raw;
mod sectors;

pub use blocks::ArenaPlace;
pub use export::export_answer;
pub use pieces::{PIECE, PrintStop, print_bytes, print_made, print_report, status_after};
pub use place::{find_place, is_sector};
pub use sectors::add_entry;
