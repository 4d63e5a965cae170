ghost use Rattle.std.specs.Prelude.{◌≡◌};
ghost use Rattle.region_space.specs.Space.{clash};
ghost use Rattle.region_space.specs.Reach.{end_of};

use std::alloc::AllocError;
use uuid::Uuid;

/// The bytes of one module that a label reserves.
#[derive(Clone, Copy, Debug, PartialEq, Eq)]
pub struct Extent {
    /// The label's UUID.
    pub owner: Uuid,
    /// The number of the module.
    pub module: u32,
    /// The device address of the first byte.
    pub start: u64,
    /// The size in bytes; `start` plus `length` may exceed 2^64.
    pub length: u64,
}

/// Why extents are refused.
#[derive(Clone, Copy, Debug, PartialEq, Eq)]
pub enum SpaceFault {
    /// An extent of `a` and a later one of `b` overlap on one module. Of all such pairs it is the
    /// one whose first extent comes first, and among those the one whose second does.
    Overlap { a: Uuid, b: Uuid },
    /// Memory ran out.
    OutOfMemory,
}

impl Extent {
    /// Returns the address after its last byte.
    pub(crate) fn end(&self) -> u128
        ensures { result ≡ end_of self.now }
    {
        u128::from(self.start) + u128::from(self.length)
    }

    /// Returns whether it overlaps an extent of another owner on the same module.
    pub(crate) fn clashes(&self, other: &Extent) -> bool
        ensures { result ≡ clash self.now other.now }
    {
        self.owner != other.owner
            && self.module == other.module
            && u128::from(self.start) < other.end()
            && u128::from(other.start) < self.end()
    }
}

impl From<AllocError> for SpaceFault {
    ghost use Rattle.region_space.specs.declared.extent.SpaceFault.TheVariants.{OutOfMemory};

    ghost from_gives = { λ _ fault. fault ≡ OutOfMemory };

    fn from(_error: AllocError) -> SpaceFault {
        SpaceFault::OutOfMemory
    }
}
