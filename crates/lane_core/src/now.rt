use crate::buffer::Buffer;
use crate::phase::Phase;
use flog::Half;
use nvd_words::Tag;

/// A lane of a core.
#[derive(Debug, Drop)]
pub struct LaneNow {
    /// Its free block. Once the map word is stored, it is the block that the sector had.
    pub block: u32,
    /// The side of its log group that has the current half: 0 or 1.
    pub side: u32,
    /// The current half.
    pub half: Half,
    pub phase: Phase,
    /// The call that it is in, and its sector: of a write from `Locked` on, of a read from `Called`
    /// on.
    pub tag: Tag,
    pub sector: u32,
    /// The map word that it loaded last.
    pub loaded: u64,
    /// A write's words, all of them from the beginning. A read's words as it loads them, with zeros
    /// behind them.
    pub words: Buffer,
    /// The room for the cell of a read's entry.
    pub cell: Buffer,
    /// The write that it is in, up to `Staged`.
    pub next: Tag,
    pub next_sector: u32,
}
