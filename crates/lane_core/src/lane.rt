use crate::history::Entry;
use crate::phase::Phase;
use flog::Half;
use nvd_words::{Items, Tag};

/// What a lane knows: its own state between two steps, as `specs/Machine.antt` defines it.
///
/// No code makes a value of it. For a table that lanes share, it is what a lane's owner knows.
#[derive(Debug, Drop)]
pub struct Lane {
    /// Its free block, which it fills. Once the map word is stored, it is the block that the sector
    /// had.
    pub block: u32,
    /// The side of its log group that has the current half: 0 or 1.
    pub side: u32,
    /// The current half.
    pub half: Half,
    pub phase: Phase,
    /// The call that it is in, and its sector. A write has both from `Locked` on, a read from
    /// `Called` on.
    pub tag: Tag,
    pub sector: u32,
    /// A write's words, as many as were stored.
    pub words: Items<u64>,
    /// The map word that it loaded last.
    pub loaded: u64,
    /// A read's words, as many as were loaded.
    pub got: Items<u64>,
    /// The calls that it answered, and a write whose map word was stored.
    pub log: Items<Entry>,
}
