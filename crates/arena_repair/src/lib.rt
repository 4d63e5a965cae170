//! Repairs one arena of a Block Translation Table, as far as nothing has to be guessed.
//!
//! ```text
//!   finding            repair
//!   Info               if the page is damaged, the backup is written over it
//!   Backup, Unequal    the first info block is written over the backup
//!   (pending moves)    are made, if the blocks have no finding
//!   BadData            the sector's map entry becomes Error, with its block kept
//!   all others         none: which of two values is right can't be known
//! ```
//!
//! - An arena of which no info block can be used is left as it is.
//! - A first info block of another version, parent or layout, or in the error state, is no damage:
//!   someone wrote it so.
//! - Bad words of a free block, of the log or of the map stay. `BadMeta` names the latter.
//!
//! A check and a repair read the same: [`check_map`] returns the findings of a map, and its entries
//! after a repair. [`page_repair`] says which page is written over which. The caller puts them into
//! the namespace's bytes. [`split_report`] says which findings are answered. `specs/Repair.antt`
//! defines the words after a repair (`repaired_words`).
//!
//! `specs/Laws.antt` says what a repair is worth. A second check has the findings of the first one
//! without those that are repaired, and no new one ([`repair_mends`]). No sector but those with
//! BadData has another cell ([`repair_keeps_cells`]). A sector whose entry names a block that
//! doesn't exist has no cell; its entry stays. No word behind the arena changes
//! ([`repair_stays_inside`]), so all arenas of a namespace can be repaired, one after another
//! (`specs/Chain.antt`, [`repair_mends_all`]).
//!
//! Sources: UEFI 2.10, sections 6.2 and 6.3. Which findings are repaired is this project's rule.
#![tactic(auto)]

mod law;
mod map;
mod page;
mod split;

pub use law::{
    repair_keeps_cells, repair_mends, repair_mends_all, repair_stays_inside, repaired_arenas_open,
};
pub use map::{MapCheck, check_map};
pub use page::{PageCopy, page_repair};
pub use split::{Split, split_report};
