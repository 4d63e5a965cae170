//! Says everything that is wrong with one arena of a Block Translation Table.
//!
//! Opening an arena stops at the first rule that fails. A check goes on, and lists each finding:
//!
//! ```text
//!   part                    findings                                       by
//!   first info block        Info                                           used_info
//!   backup                  Backup, Unequal                                backup_finding
//!   log                     Flog for each lane                             read_group of flog
//!   map and free blocks     Range, Twice, Missing                          block_findings
//!   blocks of sectors       BadData for each sector                        data_findings
//!   info, map, log, backup  BadMeta for each word                          meta_findings
//! ```
//!
//! - If the first info block is refused, the backup may take its place. An arena's end isn't known
//!   then, so the backup is taken only if it is the namespace's last page and says so itself
//!   ([`used_info`]).
//! - Blocks and sectors are checked only if all lanes' groups are accepted, since the lanes say
//!   which blocks are free. Pending moves are made first, as opening makes them: a sector's bytes
//!   are those of its block afterwards.
//! - Sectors are checked only if there is no finding of blocks. Otherwise it isn't sure which
//!   sector a block's bytes belong to.
//! - A bad word of a free block, or of a sector that reads as zeros or as bad, is no finding. No
//!   reader looks at it.
//!
//! Callers read the parts of an arena piece by piece, so no function takes a whole arena.
//! `specs/Check.antt` defines the whole (`report_of`), by the definitions that opening has; so a
//! check and an opening can't mean different arenas. [`BadWords`] says which words are bad.
//!
//! `specs/Laws.antt` relates findings and opening. An arena opens exactly if its report has a size
//! and its findings are all Backup, Unequal, BadData or BadMeta ([`clean_arenas_open`],
//! [`open_arenas_are_clean`]).
//!
//! Sources: UEFI 2.10, sections 6.2 and 6.3. It is this project's rule that all violations are
//! listed, and in which order.
#![tactic(auto)]

mod bad;
mod blocks;
mod data;
mod finding;
mod info;
mod law;
mod meta;

pub use bad::BadWords;
pub use blocks::block_findings;
pub use data::{data_findings, is_bad_data};
pub use finding::{Finding, Report};
pub use info::{InfoSource, backup_finding, used_info};
pub use law::{
    clean_arenas_open, missing_is_never_alone, no_findings_name_each_once,
    one_entry_keeps_its_block, open_arenas_are_clean,
};
pub use meta::meta_findings;
