//! A module's label area as a whole: its current index block and the contents of its slots.
//!
//! ```text
//! 0            s             2s      2s + 256                      2s + 256 n
//! | block of   | block of    | slot  | slot  | ..     | slot      | unused ..
//! | side Zero  | side One    | 0     | 1     |        | n - 1     |
//! ```
//!
//! Both blocks list the free slots; the **current** one decides. If neither is valid, the area is
//! refused: as *unsupported* if a block was refused for its version, since other software may read
//! it, otherwise as an area without an index. A slot that the current block lists as free is empty,
//! whatever its bytes are: a removed label, or one that a crash left half written. A used slot
//! holds a label, or bytes that aren't a valid label.
//!
//! # Changing labels
//!
//! A change frees a slot, puts a label into a free one, or both. After a crash the area is as
//! before the change or as after it, because of the order of the writes:
//!
//! ```text
//! the label's words        stored, then flushed    into a free slot: nobody reads them yet
//! the other block's Seq    0, stored and flushed   that side is closed: nobody reads it
//! its other words          stored, then flushed    nobody reads them yet
//! its Seq, the next one    stored and flushed      from here on this side is current
//! ```
//!
//! All is flushed between two lines. Within a line the stores may reach the medium in any order;
//! only the last line makes the change visible. Without the second line, a crash could leave new
//! words of the other block under its old Seq, and only the checksum would keep a reader from
//! taking them. With it, no promise depends on a checksum.
//!
//! - [`current_block`] returns the current block, or why there is none, and [`read_slot`] the label
//!   in a slot (`block_in`, `slots_in` of `specs/Area.antt`).
//! - [`open_area`] opens an area, or refuses it (`opened`, `IsReady` of `specs/Opened.antt`).
//!   [`LabelArea::labels`], [`LabelArea::free_slots`], [`LabelArea::seq`], [`LabelArea::side`] and
//!   [`LabelArea::is_used`] read it (`AreaState` of `specs/State.antt`).
//! - [`LabelArea::replace`] makes one change; its contract states the result, the steps, and the
//!   area after a crash (`replace_answer`, `IsChanged`, `Reopens` of `specs/Replace.antt`).
//! - [`init_area`] writes the first two blocks, with the same promises (`initialised` of
//!   `specs/Initialise.antt`, `IsInitCut` of `specs/Init.antt`).
//! - [`write_change`] and [`write_block`] make the steps of a change in any row of words
//!   (`specs/Writing.antt`).
//! - A crash never splits a change, whatever code makes it: [`replace_is_whole`] (`ReplaceIsWhole`
//!   of `specs/Whole.antt`; `next_block`, `words_after`, `replace_steps` of `specs/Change.antt`).
//!   The same holds for the first two blocks: [`init_is_whole`] (`InitIsWhole` of
//!   `specs/Init.antt`).
#![tactic(auto)]

mod area;
mod change;
mod fault;
mod initial;
mod labels;
mod law;
mod list;
mod next;
mod read;
mod spell;

pub use area::{current_block, read_slot};
pub use change::{write_block, write_change};
pub use fault::{AreaFault, AreaRefused, ChangeRefused};
pub use labels::{LabelArea, init_area, open_area};
pub use law::{init_is_whole, replace_is_whole};
