//! The sectors of a namespace in an image set.
//!
//! A complete sector namespace lies at the same place of each mapping of its region's set. Its words, those of the region in
//! order, are spread over the contents of the set's modules, and hold its arenas:
//!
//! ```text
//! labels  ── find ──>  region, offset, raw
//! contents of module 0  | line 0 | line 2 | ..  ┐
//! contents of module 1  | line 1 | line 3 | ..  ┘──>  words 0, 1, 2, ..  ──>  arena 0, arena 1, ..
//! ```
//!
//! `view_words` of `specs/View.antt` defines these words, and `opened_view` the arenas in them. [`open_sectors`] opens the
//! arenas in place, without a copy. `served_namespaces` opens them to change some, and [`put_words`] puts their words back
//! (`specs/Changing.antt`).
//!
//! [`format_sectors`] writes the arena of a new namespace into its words, before any label names it. It stores and flushes
//! word after word, and each store and each flush is one step of the fuse:
//!
//! ```text
//! map | log | backup info block | info block
//! ```
//!
//! | definition of `specs/Creation.antt` | says |
//! |---|---|
//! | `has_sectors`, `layout_for`, `arena_steps` | whether a namespace has sectors, its arena's layout, the steps of the format |
//! | `CanLie`, `place_in` | which places a namespace can have, and the place that it gets |
//! | `IsFormatted`, `IsFormattedIn` | the words after the format, whole or cut |
#![tactic(auto)]

mod changing;
mod formatting;
mod law;
mod view;

pub use changing::{OpenArenas, one_arena_changes, put_words, start_of};
pub use formatting::format_sectors;
pub use law::loaded_sets_are_usable;
pub use view::open_sectors;
