/// How far a lane is in its call. Each step takes it to the next phase.
///
/// A write goes from `Scanning` (with one lane from `Staging`) to `Kept`, a read from `Called` to
/// `Reading`.
#[derive(Clone, Copy, Debug, PartialEq, Eq)]
pub enum Phase {
    /// No call.
    Idle,
    /// A write looks at the reader word of the other lane of this number, so that nobody reads its
    /// free block.
    Scanning(u32),
    /// It stores word `k` of its free block, or keeps word `k - E`. A sector has E words.
    Staging(u32),
    /// All words are kept. It tries the lock of its map word.
    Staged,
    /// It has the lock and loads the map word.
    Locked,
    /// It stores word A (Lba, OldMap) of the half that isn't current.
    Known,
    /// It keeps word A.
    LogAStored,
    /// It stores word B (NewMap, Seq) of that half.
    LogA,
    /// It keeps word B. From then on that half is current.
    LogBStored,
    /// It stores the map word. With that the write stands in the history.
    Logged,
    /// It keeps the map word.
    Switched,
    /// It gives the lock back. Then the old block is its free block.
    Kept,
    /// A read loads the map word.
    Called,
    /// It publishes the block in its reader word.
    Looking,
    /// It loads the map word again. If its sector's entry is the same, the read stands in the
    /// history.
    Published,
    /// The entry changed: it clears its reader word and begins again.
    Moved,
    /// It loads word `k` of the block, and clears its reader word after the last.
    Reading(u32),
}
