/// A sector of which nothing can be read, and why: the first reason that holds, in this order.
#[derive(Clone, Copy, Debug, PartialEq, Eq)]
pub enum Loss {
    /// The word of the map that has the sector's entry is bad.
    BadMap { sector: u32 },
    /// The sector's entry names a block that doesn't exist.
    Range { sector: u32, block: u32 },
    /// The block that the sector's entry names is named more than once, by entries whose words
    /// aren't bad and by lanes.
    Twice { sector: u32, block: u32 },
    /// The sector's entry says itself that the sector is bad.
    Marked { sector: u32 },
    /// A word of the sector's bytes is bad.
    BadData { sector: u32 },
}
