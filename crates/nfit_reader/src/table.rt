ghost use Rattle.std.specs.Prelude.{◌≡◌, IfOk};

use crate::shared::Shared;
use nvd_words::Items;
use std::alloc::AllocError;

/// The firmware's description of its NVDIMMs: the modules, and the regions that they make up.
#[derive(Debug, Drop)]
pub struct Nfit {
    /// The device handle of each module. A module's number is the place of its handle here, which
    /// is the order of first appearance in the region mapping structures.
    pub modules: Items<u32>,
    /// The persistent-memory ranges with at least one mapping, in the order of the table. A
    /// region's number is its place here.
    pub regions: Items<Region>,
}

/// A persistent-memory range with at least one mapping.
#[derive(Debug, Drop)]
pub struct Region {
    /// SPA Range Structure Index of the range.
    pub index: u16,
    /// System Physical Address Range Base, in bytes.
    pub base: u64,
    /// System Physical Address Range Length, in bytes.
    pub length: u64,
    /// The parts of modules that lie in the region, in the order of the table.
    pub mappings: Items<Mapping>,
}

/// The part of a module that lies in a region.
#[derive(Debug, Drop)]
pub struct Mapping {
    /// The module's number.
    pub module: u32,
    /// NVDIMM Region Size: the bytes of the module that lie in the region.
    pub size: u64,
    /// Region Offset, in bytes from the region's base.
    pub offset: u64,
    /// NVDIMM Physical Address Region Base: the device address of the first of these bytes.
    pub start: u64,
    /// Interleave Ways: how many modules share the region.
    pub ways: u16,
    /// The lines of the interleave structure that the mapping names; `None` for index 0.
    pub lines: Option<Lines>,
    /// The module's identity, from the mapping's control region.
    pub identity: Identity,
}

/// The lines of an interleave structure.
#[derive(Debug, Drop)]
pub struct Lines {
    /// Line Size, in bytes.
    pub size: u32,
    /// Line Offset of each line described, in units of the line size.
    /// The mappings that name the structure share the list.
    pub offsets: Shared<u32>,
}

impl Lines {
    /// Returns the same lines for one more mapping, without a copy. It returns `AllocError` if the
    /// list has too many owners to count.
    pub fn share(&self) -> Result<Lines, AllocError>
        ensures { IfOk result (λ lines. lines ≡ self.now) }
    {
        Ok(Lines {
            size: self.size,
            offsets: self.offsets.share()?,
        })
    }
}

/// A module's identity in its control region, each number as the table has it.
#[derive(Clone, Copy, Debug, PartialEq, Eq)]
pub struct Identity {
    /// Vendor ID.
    pub vendor: u16,
    /// Manufacturing Date.
    pub date: u16,
    /// Manufacturing Location.
    pub location: u8,
    /// Serial Number.
    pub serial: u32,
}

/// The first fault of a table, in the order of the checks.
#[derive(Clone, Copy, Debug, PartialEq, Eq)]
pub enum NfitFault {
    /// The first four bytes aren't `NFIT`.
    Signature,
    /// The Length field exceeds the bytes given, or is less than the 40 of the header.
    Length { said: u32, had: u64 },
    /// The bytes up to Length have this sum modulo 256 instead of 0.
    Checksum { sum: u8 },
    /// No complete structure begins at this byte: fewer than four bytes are left, or its Length is
    /// less than its type needs or passes the table's end, or it is an interleave structure with no
    /// lines.
    Structure { at: u64 },
    /// Two structures of the same type (0 range, 2 interleave, 4 control region) have this index.
    TwiceIndex { kind: u16, index: u16 },
    /// A mapping names a structure of this type and index, which isn't in the table.
    MissingIndex { kind: u16, index: u16 },
    /// There are more than 64 modules.
    TooLarge { modules: u32 },
    /// Mappings of one module into the regions `a` and `b` share bytes of the module.
    Alias { module: u32, a: u32, b: u32 },
    /// Memory ran out.
    OutOfMemory,
}

impl From<AllocError> for NfitFault {
    ghost use Rattle.nfit_reader.specs.declared.table.NfitFault.TheVariants.{OutOfMemory};

    ghost from_gives = { λ _ fault. fault ≡ OutOfMemory };

    fn from(_error: AllocError) -> NfitFault {
        NfitFault::OutOfMemory
    }
}
