//! How calls on lanes end.
use crate::lanes::{Lane, Staged, Stopped};
use arena_open::CellKind;

/// How a try to stage ends.
#[derive(Drop)]
pub enum StageOutcome {
    /// The free block has the words, seen and kept.
    Staged(Staged),
    /// Lane `reader` reads the free block `block`: this call's scan found one more than `block` in
    /// its reader word.
    Tracked { lane: Lane, reader: u32, block: u32 },
    /// The fuse was spent.
    Cut(Stopped),
}

/// How a try to commit ends.
#[derive(Drop)]
pub enum CommitOutcome {
    /// The write stands in the history, and the lane is idle.
    Done(Lane),
    /// Another lane has the lock of the map word: the only exchange found one more than `holder`.
    MapBusy { staged: Staged, holder: u32 },
    /// The fuse was spent.
    Cut(Stopped),
}

/// How a try to read ends.
#[derive(Drop)]
pub enum ReadOutcome {
    /// The read stands in the history, and the lane is idle. The sector's words are in the room for
    /// them, if it isn't bad.
    Got { lane: Lane, kind: CellKind },
    /// A write moved the sector meanwhile. The two loads of the map word found these two different
    /// entries. The lane is idle, and its reader word is clear.
    Moved { lane: Lane, first: u32, then: u32 },
    /// The fuse was spent.
    Cut(Stopped),
}
