//! The arena of a new namespace, formatted while contents are copied.
//!
//! A format stores and flushes one word after another, in this order, and each store and each flush is one step of a fuse:
//!
//! ```text
//! map | log | backup info block | info block
//! ```
//!
//! Here no word is stored. The steps are counted elsewhere, and while the contents are copied the words are put in that the
//! counted steps would have written. After n steps n / 2 words are written. If n is odd the next word is stored and not
//! flushed, so a crash leaves its old or its new value, and a chooser decides:
//!
//! ```text
//! n steps ──► words_left ──► so many words ──► format_patch ──► the patch of the contents that are copied
//!                 │
//!            the chooser, if a word is pending
//! ```
//!
//! | what | definition |
//! |---|---|
//! | how many words are written, and which is pending | `words_left`, `is_pending`, `place_of_write` of `specs/Format.antt` |
//! | the question to the chooser | `AsksFor` of `specs/Cut.antt` |
//! | the contents, patched | `HasFirst` of `specs/Cut.antt` |
//! | what is left of the words that the format makes | `FormatIsLeft` of `specs/Cut.antt` |
//!
//! The largest law is `format_left` of `proofs/Cut.antt`: the patched contents are what is left of the words of all modules
//! that the steps under the fuse make, as the chooser decides.
#![tactic(auto)]

mod area_words;
mod patch;

pub use patch::{format_patch, words_left};
