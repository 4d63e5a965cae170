/// The layout of an arena's areas. Offsets are in bytes from the arena's first byte, where its info
/// block begins.
#[derive(Clone, Copy, Debug, PartialEq, Eq)]
pub struct Layout {
    /// The arena's size in bytes: `info_off` plus 4,096. From 16 MiB to 512 GiB.
    pub size: u64,
    /// ExternalLbaSize, u32 at byte 56: the size of a sector in bytes.
    pub sector: u32,
    /// InternalLbaSize, u32 at 64: the size of a block in bytes, a multiple of 64.
    pub inner: u32,
    /// ExternalNLba, u32 at 60: the number of sectors.
    pub external: u32,
    /// InternalNLba, u32 at 68: the number of blocks, at most 2^30.
    pub internal: u32,
    /// NFree, u32 at 72: the number of lanes, each with a free block; 1 to 256.
    pub lanes: u32,
    /// DataOff, u64 at 88: the first block.
    pub data_off: u64,
    /// MapOff, u64 at 96: the map, 4 bytes a sector.
    pub map_off: u64,
    /// FlogOff, u64 at 104: the log, 64 bytes a lane.
    pub flog_off: u64,
    /// InfoOff, u64 at 112: the backup of the info block.
    pub info_off: u64,
}

/// Why no arena can be planned.
#[derive(Clone, Copy, Debug, PartialEq, Eq)]
pub enum LayoutFault {
    /// The sector size isn't 512, 520, 528, 4096, 4104, 4160 or 4224 bytes.
    Sector { bytes: u32 },
    /// The number of lanes isn't 1 to 256.
    Free { count: u32 },
    /// The size is below 16 MiB.
    TooSmall { size: u64 },
    /// The size is above 512 GiB.
    TooLarge { size: u64 },
}

/// The part of the layout relation that an info block violates.
#[derive(Clone, Copy, Debug, PartialEq, Eq)]
pub enum LayoutField {
    /// ExternalLbaSize isn't one of the seven sector sizes.
    Sector,
    /// InternalLbaSize isn't a multiple of 64, or is less than the sector size.
    Inner,
    /// NFree isn't 1 to 256.
    Free,
    /// There is no sector, or InternalNLba isn't ExternalNLba plus NFree, or is above 2^30.
    Blocks,
    /// InfoSize isn't 4,096, an offset isn't a multiple of 4,096, or an area doesn't end before the
    /// next one begins.
    Areas,
    /// The arena's size isn't 16 MiB to 512 GiB, or passes the namespace's end.
    Size,
    /// NextOff is neither 0 nor the arena's end, or the namespace ends there.
    Next,
}
