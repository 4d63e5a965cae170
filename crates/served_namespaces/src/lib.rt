//! Several sector namespaces of an image set are opened at once, and their arenas are put back.
//!
//! ```text
//! UUIDs ── find_each ──► places
//!                          │
//! image source ──┬─► read_each ──► info blocks, logs, maps ──► read_bytes: how many bytes the arenas have
//!                │                          │
//!                └──────────────────► load_each ──► arenas of each namespace, pending moves made ──► sessions
//!                                                                                                        │ words of
//!                                                                                                        ▼ each arena
//!                     contents are copied ◄── SetPatch ◄───────────────────────────────────────────── patch_of
//! ```
//!
//! Contents stay in the source. Nothing is stored there, so all namespaces are read from the same contents. No two of them share an
//! address of a module, so the words that are put into one are no words of another:
//!
//! ```text
//! module 0  | a a a a | b b b b | . . . |      extents of namespaces a and b
//! module 1  | a a a a | b b b b | . . . |
//! ```
//!
//! | promise | call | definition |
//! |---|---|---|
//! | each UUID once | [`first_ones`] | `firsts` of `specs/Opening.antt` |
//! | the namespaces that are found, in order; no two share an address | [`find_each`] | `found_each` of `specs/Opening.antt`, `AreDisjoint` of `specs/Places.antt` |
//! | their arenas, or the first namespace with an arena that breaks the format | [`read_each`] | `opened_each` of `specs/Opening.antt`, `IsReadIn` of `specs/Reading.antt` |
//! | how many bytes these have | [`read_bytes`] | `opened_bytes` of `specs/Reading.antt` |
//! | the same arenas in memory | [`load_each`] | `opened_all`, `AreHeld` of `specs/Reading.antt` |
//! | each opens again with the words that are put; no other word changes | [`patch_of`] | `AreLeft` of `specs/Serving.antt` |
//! | what may be claimed is found | [`claimable_is_found`] | `ClaimableIsFound` of `specs/Laws.antt` |
#![tactic(auto)]

mod finding;
mod law;
mod loading;
mod places;
mod putting;
mod reading;
mod sets;

pub use finding::{find_each, first_ones};
pub use law::claimable_is_found;
pub use loading::load_each;
pub use places::{FoundNamespace, NotOpened, OpenedNamespace, ReadNamespace};
pub use putting::patch_of;
pub use reading::{read_bytes, read_each};
