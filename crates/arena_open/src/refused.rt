use arena_layout::InfoFault;
use flog::FlogFault;
use map_table::BlockFault;

/// Why an arena isn't opened.
#[derive(Clone, Copy, Debug, PartialEq, Eq)]
pub enum OpenRefused {
    /// The first info block isn't valid for an arena of this namespace.
    Info(InfoFault),
    /// A lane's log group violates the format; it is the least such lane.
    Flog { lane: u32, fault: FlogFault },
    /// The blocks of the map, with the pending moves applied, and the lanes' free ones aren't each
    /// named once.
    Block(BlockFault),
    /// Power was cut while the pending moves were completed.
    PowerCut,
    /// No memory for the map, the lanes, the check or the words.
    OutOfMemory,
}
