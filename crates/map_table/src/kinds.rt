/// What a sector's entry says about its bytes.
#[derive(Clone, Copy, Debug, PartialEq, Eq)]
pub enum Kind {
    /// Neither flag: never written. The block has the sector's own number, and the sector has its
    /// bytes.
    Initial,
    /// Zero alone: reads return zeros.
    Zero,
    /// Error alone: reads fail, and a write clears it.
    Bad,
    /// Both flags: the sector has the block's bytes.
    Normal,
}

/// What an entry means.
#[derive(Clone, Copy, Debug, PartialEq, Eq)]
pub struct MapEntry {
    pub kind: Kind,
    /// The sector's block, whatever the kind.
    pub block: u32,
}
