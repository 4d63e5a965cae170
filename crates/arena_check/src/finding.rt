use arena_layout::InfoFault;
use flog::FlogFault;
use nvd_words::Items;

/// A rule that an arena violates.
#[derive(Clone, Copy, Debug, PartialEq, Eq)]
pub enum Finding {
    /// The first info block is refused.
    Info { fault: InfoFault },
    /// The first info block is used, and its backup is refused.
    Backup { fault: InfoFault },
    /// The backup is accepted, but its 4,096 bytes aren't those of the first info block.
    Unequal,
    /// A lane's group is refused.
    Flog { lane: u32, fault: FlogFault },
    /// An entry or a lane names a block that doesn't exist.
    Range { block: u32 },
    /// The entries and the lanes name this block more than once.
    Twice { block: u32 },
    /// No entry and no lane names this block.
    Missing { block: u32 },
    /// A word of this sector's bytes is bad.
    BadData { sector: u32 },
    /// This word of the namespace is bad, and belongs to the info block, the map, the log or the
    /// backup.
    BadMeta { word: u64 },
}

/// The result of a check of one arena.
#[derive(Debug, Drop)]
pub struct Report {
    /// In the order in which the rules are checked.
    pub findings: Items<Finding>,
    /// The arena's size in bytes, if an info block can be used.
    pub size: Option<u64>,
}
