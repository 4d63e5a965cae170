//! The words of a namespace that is spread over modules, and an image set after a crash.
//!
//! **A namespace's words.** A namespace on an interleave set has the same extent in each mapping:
//! `raw` bytes from the relative address `offset` on. Its words are those of the region from byte
//! `ways * offset` on, in order; the set defines at which word of which module each of them lies
//! (ACPI 6.5, section 5.2.25.4). With two modules and two lines of a stripe in each:
//!
//! ```text
//! region    | line 0 | line 1 | line 2 | line 3 | ..      offset = one line, raw = one line:
//! module 0  | line 0 | line 2 | ..                        the words of lines 2 and 3,
//! module 1  | line 1 | line 3 | ..                        which lie in both modules
//! ```
//!
//! [`SetExtent`] is where a namespace lies, and tells the place of each of its bytes and words.
//! [`SetWords`] is such a row of words. `specs/Namespace.antt` defines its words (`words_of`, by
//! the formula of the places), where they lie (`IsOver`), and the modules' other words
//! (`beside_of`); both together are all words (`AreAll`).
//!
//! A call that is generic over rows of words ([`cut_words::WordSpace`]) promises that it doesn't
//! change what lies beside the row. For [`SetWords`], that is the modules' other words and the
//! namespace's place (`beside_and_place` of `specs/Placed.antt`). So after the call the row lies
//! where it was ([`beside_tells_the_place`]), and the modules' words are those of the namespace
//! there and those beside it ([`words_and_beside_are_all`]).
//!
//! **After a crash.** The parts of an image set that a power loss may change are the label areas
//! and the contents of its modules, each a row of words ([`cut_words::CutWords`]). Each word has,
//! independently, its kept value or the one stored since. A chooser decides, and is asked in this
//! order:
//!
//! ```text
//! label area of module 0, 1, ..  ──  contents of module 0, 1, ..
//!
//!     words 0, 1, 2, ..  of each, ascending; only the pending ones
//! ```
//!
//! `specs/Left.antt` defines the order of the questions and the effect of each answer
//! (`LeavesAll`), and what holds of the images whatever the answers are (`IsLeftOfAll`). Both are
//! this project's rules.
//!
//! The words of an open arena are held apart from the contents, and their holder decides what they
//! are after a crash. They are passed in as an [`ArenaLeft`] and put at their places in the
//! contents (`with_arenas`), here in runs of two words over two modules:
//!
//! ```text
//! arena     |  0  1 |  2  3 |                     places: module 1 word 0, module 0 word 2
//! module 0  |  .  . | [2][3]| .  .                a dot is a word of the contents after the crash
//! module 1  | [0][1]|  .  . | .  .
//! ```
#![tactic(auto)]

mod extent;
mod leaving;
mod namespace;
mod placing;

pub use extent::SetExtent;
pub use leaving::{ArenaLeft, Images, Place, leave_all};
pub use namespace::{SetWords, beside_tells_the_place, reach_ends, words_and_beside_are_all};
