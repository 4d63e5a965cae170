//! The model of persistent memory: words that a power loss may change. Every promise about a crash
//! rests on it.
//!
//! Persistent memory is a row of 64-bit words. Each word has a **kept** (flushed) value, which
//! survives a crash, and at most one value **stored** since, which may or may not reach the medium:
//!
//! ```text
//!              a load returns    after a crash
//! kept k             k                k
//! kept k, stored v   v                k or v, independently for each word
//!
//! store v:  k      ──►  k, stored v          keep:  k, stored v  ──►  v
//! ```
//!
//! A word with a stored value is **pending**, even if that value equals the kept one. `keep` is the
//! flush of one word. Software controls what survives by flushing one word before it stores the
//! next: a flushed value survives any crash, a pending one may or may not.
//!
//! - [`WordSpace`] is any such row of words. A [`Fuse`] counts the steps that are made before power
//!   is cut; a step is a store or a flush.
//! - [`CutWords`] is a row in memory. [`CutWords::leave`] returns its words after a crash, as a
//!   chooser decides.
//!
//! # Changing many words at once
//!
//! A crash decides for each word independently, so words that are stored together may be torn. A
//! change that must show completely or not at all is **guarded** by one word, which a reader looks
//! at first:
//!
//! ```text
//! words that nobody reads yet    stored, then flushed
//! the guard, closed              stored and flushed     a reader now skips the words it guards
//! the words that it guards       stored, then flushed
//! the guard, open                stored and flushed     now the whole change shows
//! ```
//!
//! Consider a change without the second line: a crash during the third leaves some guarded words
//! new under a guard that is still open. Or a change that doesn't flush before the next line: the
//! guard may reach the medium before the words it guards. `specs/Guarded.antt` defines the states
//! after a crash (`IsWhole`), and [`guarded_change_is_whole`] proves that there are no others.
//! After the change no word is pending ([`guarded_change_settles`]), so another change may follow.
//!
//! [`store_from`], [`keep_from`], [`write_word`] and [`write_from`] make such steps in any row of
//! words.
//!
//! This is the project's own model of the persistence domain. `specs/Words.antt` defines it
//! (`Words`, `stepped`, `IsLeft`); `specs/Fuses.antt` what steps under a fuse do to words
//! (`Makes`); `specs/Leaving.antt` the words after a crash that a chooser decides (`LeavesFrom`);
//! `specs/Groups.antt` and `specs/Runs.antt` the lists of steps; and `specs/WordBytes.antt` the
//! bytes of words.
#![tactic(auto)]

mod fuse;
mod law;
mod runs;
mod space;
mod values;
mod words;

pub use fuse::{Fuse, PowerCut};
pub use law::{guarded_change_is_whole, guarded_change_settles};
pub use runs::{keep_from, store_from, write_from, write_word};
pub use space::WordSpace;
pub use words::CutWords;
