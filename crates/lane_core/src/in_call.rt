use crate::history::Act;
use nvd_words::Tag;

/// A lane that is in a call, as the call's session knows it (`specs/Sessions.antt`).
///
/// Only contracts use it: no code makes a value of it. It is a Rust type because `Parted` of
/// turn_lock, the part that a lock tells a caller, must be one, and a session's part of a core has
/// its calls.
#[derive(Debug, Drop)]
pub struct InCall {
    pub lane: u32,
    pub tag: Tag,
    pub sector: u32,
    /// What the call will still do to the sector: a write stores its words, until its map word is
    /// stored. Else nothing.
    pub act: Option<Act>,
    /// The least number of steps that the lane has made for the call.
    pub steps: u64,
    /// Whether a write stands: from `Switched` on.
    pub entered: bool,
}
