/// Why a command on namespaces is refused. If several modules qualify, the least is named.
#[derive(Clone, Copy, Debug, PartialEq, Eq)]
pub enum OpRefused {
    /// No label has the UUID.
    NoSuch,
    /// A label has the UUID.
    Exists,
    /// There is no region with this number.
    NoRegion { region: u32 },
    /// There is no offset at which the namespace fits on each module of the region.
    NoSpace { wanted: u64 },
    /// The module's label area has too few free slots: create needs two, other commands one.
    NoSlot { module: u32 },
    /// The namespace has this many claims.
    Busy { claims: u32 },
    /// The namespace isn't complete.
    NotComplete,
    /// The namespace's mode isn't sector.
    NotSector,
    /// The size is 0, or not a multiple of the unit for each module of the region, or no arena can
    /// be planned for it.
    BadSize { bytes: u64 },
    /// The text, of this many bytes, isn't a valid name.
    BadName { bytes: u64 },
    /// The label area of this module of the region isn't ready.
    ModuleLabels { module: u32 },
    /// The module's label of the namespace has ROLABEL.
    ReadOnlyLabel { module: u32 },
    /// Power was cut before the command's last step, or before the command.
    PowerCut,
    /// Memory ran out. Nothing has changed.
    OutOfMemory,
}
