use arena_open::Cell;
use nvd_words::{Items, Tag};

/// What a call did to a sector.
#[derive(Debug, Drop)]
pub enum Act {
    /// It was read as this cell.
    Read(Cell),
    /// These words were written.
    Write(Items<u64>),
}

/// One call in the history of an arena.
#[derive(Debug, Drop)]
pub struct Entry {
    /// The lane that made the call.
    pub lane: u32,
    /// The session's call.
    pub tag: Tag,
    /// Which of the arena's sectors.
    pub sector: u32,
    pub act: Act,
}
