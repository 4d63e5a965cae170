//! The new bytes of namespaces, raw or of sectors, put into the contents of their modules while these are copied.
//!
//! ```text
//! bytes ──┬── raw ────────────────────────► NewBytes ──► NamespacePatch ──┬──► SetPatch ──► each piece of a module's contents
//!         └── sectors ──► SectorBytes ────────▲ ▲        others, if any ──┘
//! arenas ─────────────────────┘                 │
//! runs of bytes ────────────────────────────────┘
//! ```
//!
//! Crate `shell_export` says what the bytes of a namespace are: those of a raw one by place, those of one of sectors sector by
//! sector, in order. `read_arenas` reads the arenas of a namespace of sectors. `first_bad` finds its first bad sector by the map
//! entries alone.
//!
//! **Pieces.** Contents are copied from one set to another in pieces (`image_set::Patch`), and `SetPatch` changes each piece, one
//! namespace after another. So neither the contents nor the namespaces' words are in memory. `NewBytes` says what a byte becomes,
//! from its number in the namespace and its old value. So each piece is done by itself, in any order.
//!
//! ```text
//! bytes           | line 0 | line 1 | line 2 | line 3 |
//! module 0   .. b |   0    |   2    | b ..                  b: bytes beside the namespace stay
//! module 1   .. b |   1    |   3    | b ..
//! ```
//!
//! **Sectors.** A write goes through the log of its arena, so that a power loss leaves the old sector or the new one. Here all
//! sectors of a namespace change while the set is copied, and the copy is no set before all of it is there. So no log is needed:
//! the bytes of each sector go into the block that the map names, and the sector's map entry becomes a normal one of this
//! block. It is the block of the map with all pending moves made. Hence the new map has these moves, and none is pending.
//!
//! ```text
//!                 before                               after
//! map entry       zero, bad, initial or normal: b      normal: b
//! block b         old bytes                            the sector's bytes
//! log             may have a pending move              as it was; no move is pending
//! ```
//!
//! The map names blocks by sector, and contents are copied in the order of their blocks. So `SectorBytes` has a table of the
//! sector of each block.
//!
//! ```text
//! arena           | info | block 0 | block 1 | .. | map            | log | info |
//! becomes         |      | sector's bytes         | normal entries |     |      |
//! ```
//!
//! **Runs.** A command that changes little of a namespace gives runs of bytes: a map entry, a half of the log, the bytes of a
//! sector. They are put there one after another, so a later run may change a byte of an earlier one.
//!
//! | what | definition |
//! |---|---|
//! | a byte of a module's contents, patched | `byte_patched` of `specs/Patching.antt` |
//! | a byte after the patches of several namespaces | `all_patched` of `specs/Patching.antt` |
//! | a byte of a namespace of sectors, patched | `sector_byte` of `specs/SectorBytes.antt` |
//! | a byte of a namespace after runs of bytes | `runs_byte` of `specs/Runs.antt` |
//! | the words of its sectors, put one sector after another | `put_links` of `specs/Putting.antt` |
//! | what its words are afterwards | `HasContents` of `specs/Contents.antt` |
//! | its first bad sector | `first_bad` of `specs/Bad.antt` |
//!
//! `sector_words` and `sector_contents` of `proofs/SectorChain.antt` prove that the second, fourth and fifth agree. `whole_run` and
//! `entry_put` of `proofs/RunWords.antt` say which words a run changes.
//! All are this project's rules over UEFI 2.10, section 6.2 (BTT data structures).
#![tactic(auto)]

mod bad;
mod block_owners;
mod new_bytes;
mod patch;
mod reading;
mod runs;
mod sector_bytes;

pub use bad::first_bad;
pub use new_bytes::NewBytes;
pub use patch::{NamespacePatch, SetPatch};
pub use reading::{ArenaAt, read_arenas, size_of_all};
pub use runs::Run;
pub use sector_bytes::SectorBytes;
