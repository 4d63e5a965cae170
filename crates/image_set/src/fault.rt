use nfit_reader::NfitFault;
use nvd_media::{Failed, Object};
use std::alloc::AllocError;

/// Why an image set isn't loaded.
#[derive(Clone, Copy, Debug, PartialEq, Eq)]
pub enum LoadFault {
    /// The source failed.
    ReadFault,
    /// The mark, the firmware's table or a module's contents are missing.
    Missing {
        /// The missing object.
        object: Object,
    },
    /// The size of an object is outside its limits, or contents end before one of their mappings
    /// does.
    Size {
        /// The object.
        object: Object,
        /// Its length in bytes.
        bytes: u64,
    },
    /// The firmware's table is refused. The fault is never `NfitFault::OutOfMemory`.
    Nfit(NfitFault),
    /// Memory ran out.
    OutOfMemory,
}

impl From<Failed> for LoadFault {
    ghost use Rattle.std.specs.Prelude.{◌≡◌};
    ghost use Rattle.image_set.specs.declared.fault.LoadFault.TheVariants.{ReadFault};

    ghost from_gives = { λ _ fault. fault ≡ ReadFault };

    fn from(_error: Failed) -> LoadFault {
        LoadFault::ReadFault
    }
}

impl From<AllocError> for LoadFault {
    ghost use Rattle.std.specs.Prelude.{◌≡◌};
    ghost use Rattle.image_set.specs.declared.fault.LoadFault.TheVariants.{OutOfMemory};

    ghost from_gives = { λ _ fault. fault ≡ OutOfMemory };

    fn from(_error: AllocError) -> LoadFault {
        LoadFault::OutOfMemory
    }
}

/// Why reading stopped before all bytes were read.
#[derive(Clone, Copy, Debug, PartialEq, Eq)]
pub(crate) enum Stop {
    /// The source failed.
    ReadFault,
    /// Memory ran out.
    OutOfMemory,
}

impl From<Failed> for Stop {
    ghost use Rattle.std.specs.Prelude.{◌≡◌};
    ghost use Rattle.image_set.specs.declared.fault.Stop.TheVariants.{ReadFault};

    ghost from_gives = { λ _ stop. stop ≡ ReadFault };

    fn from(_error: Failed) -> Stop {
        Stop::ReadFault
    }
}

impl From<AllocError> for Stop {
    ghost use Rattle.std.specs.Prelude.{◌≡◌};
    ghost use Rattle.image_set.specs.declared.fault.Stop.TheVariants.{OutOfMemory};

    ghost from_gives = { λ _ stop. stop ≡ OutOfMemory };

    fn from(_error: AllocError) -> Stop {
        Stop::OutOfMemory
    }
}

impl From<Stop> for LoadFault {
    ghost use Rattle.std.specs.Prelude.{◌≡◌};
    ghost use Rattle.image_set.specs.Load.{fault_of};

    ghost from_gives = { λ stop fault. fault ≡ fault_of stop };

    fn from(stop: Stop) -> LoadFault {
        match stop {
            Stop::ReadFault => LoadFault::ReadFault,
            Stop::OutOfMemory => LoadFault::OutOfMemory,
        }
    }
}

/// Why an image set isn't saved.
#[derive(Clone, Copy, Debug, PartialEq, Eq)]
pub enum SaveFault {
    /// The sink failed: the set isn't finished.
    WriteFault,
    /// Memory ran out. The sink is unchanged.
    OutOfMemory,
}

impl From<Failed> for SaveFault {
    ghost use Rattle.std.specs.Prelude.{◌≡◌};
    ghost use Rattle.image_set.specs.declared.fault.SaveFault.TheVariants.{WriteFault};

    ghost from_gives = { λ _ fault. fault ≡ WriteFault };

    fn from(_error: Failed) -> SaveFault {
        SaveFault::WriteFault
    }
}

impl From<AllocError> for SaveFault {
    ghost use Rattle.std.specs.Prelude.{◌≡◌};
    ghost use Rattle.image_set.specs.declared.fault.SaveFault.TheVariants.{OutOfMemory};

    ghost from_gives = { λ _ fault. fault ≡ OutOfMemory };

    fn from(_error: AllocError) -> SaveFault {
        SaveFault::OutOfMemory
    }
}

/// Why an image set isn't copied.
#[derive(Clone, Copy, Debug, PartialEq, Eq)]
pub enum CopyFault {
    /// The source failed: the set isn't finished.
    ReadFault,
    /// The sink failed: the set isn't finished.
    WriteFault,
    /// Memory ran out. The sink is unchanged.
    OutOfMemory,
}

/// Why copying stopped. `?` converts only a sink's failure to it.
#[derive(Clone, Copy, Debug, PartialEq, Eq)]
pub(crate) enum CopyStop {
    /// The source failed.
    ReadFault,
    /// The sink failed.
    WriteFault,
}

impl From<Failed> for CopyStop {
    ghost use Rattle.std.specs.Prelude.{◌≡◌};
    ghost use Rattle.image_set.specs.declared.fault.CopyStop.TheVariants.{WriteFault};

    ghost from_gives = { λ _ stop. stop ≡ WriteFault };

    fn from(_error: Failed) -> CopyStop {
        CopyStop::WriteFault
    }
}

impl From<Failed> for CopyFault {
    ghost use Rattle.std.specs.Prelude.{◌≡◌};
    ghost use Rattle.image_set.specs.declared.fault.CopyFault.TheVariants.{WriteFault};

    ghost from_gives = { λ _ fault. fault ≡ WriteFault };

    fn from(_error: Failed) -> CopyFault {
        CopyFault::WriteFault
    }
}

impl From<AllocError> for CopyFault {
    ghost use Rattle.std.specs.Prelude.{◌≡◌};
    ghost use Rattle.image_set.specs.declared.fault.CopyFault.TheVariants.{OutOfMemory};

    ghost from_gives = { λ _ fault. fault ≡ OutOfMemory };

    fn from(_error: AllocError) -> CopyFault {
        CopyFault::OutOfMemory
    }
}

impl From<CopyStop> for CopyFault {
    ghost use Rattle.std.specs.Prelude.{◌≡◌};
    ghost use Rattle.image_set.specs.Copying.{copy_fault_of};

    ghost from_gives = { λ stop fault. fault ≡ copy_fault_of stop };

    fn from(stop: CopyStop) -> CopyFault {
        match stop {
            CopyStop::ReadFault => CopyFault::ReadFault,
            CopyStop::WriteFault => CopyFault::WriteFault,
        }
    }
}
