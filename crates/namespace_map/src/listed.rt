use label_codec::{Mode, Name};
use label_set::SetStatus;
use nvd_words::Items;
use region_space::Extent;
use uuid::Uuid;

/// A namespace as its labels describe it, whatever their status.
#[derive(Debug, Drop)]
pub struct Namespace {
    /// The UUID of its labels.
    pub uuid: Uuid,
    /// The name in its status. If the status has none, it is that of the first label, in the least
    /// slot of the least module.
    pub name: Name,
    /// The number of the region whose mapping contains its first label's extent.
    pub region: Option<u32>,
    /// How it is accessed, from its first label's two GUIDs.
    pub mode: Mode,
    /// Its first label's LbaSize, in bytes.
    pub lba: u64,
    /// The extent of each of its labels, ordered by module and slot.
    pub extents: Items<Extent>,
    /// The status of its labels, with its region's interleave set.
    pub status: SetStatus,
    /// How many claims it has.
    pub claims: u32,
}
