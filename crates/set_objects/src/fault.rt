use image_set::LoadFault;
use nvd_media::Failed;
use std::alloc::AllocError;

/// Why reading stopped.
#[derive(Clone, Copy, Debug, PartialEq, Eq)]
pub enum ReadStop {
    /// The source failed.
    ReadFault,
    /// Memory ran out.
    OutOfMemory,
}

impl From<Failed> for ReadStop {
    ghost use Rattle.std.specs.Prelude.{◌≡◌};
    ghost use Rattle.set_objects.specs.declared.fault.ReadStop.TheVariants.{ReadFault};

    ghost from_gives = { λ _ stop. stop ≡ ReadFault };

    fn from(_error: Failed) -> ReadStop {
        ReadStop::ReadFault
    }
}

impl From<AllocError> for ReadStop {
    ghost use Rattle.std.specs.Prelude.{◌≡◌};
    ghost use Rattle.set_objects.specs.declared.fault.ReadStop.TheVariants.{OutOfMemory};

    ghost from_gives = { λ _ stop. stop ≡ OutOfMemory };

    fn from(_error: AllocError) -> ReadStop {
        ReadStop::OutOfMemory
    }
}

impl From<ReadStop> for LoadFault {
    ghost use Rattle.std.specs.Prelude.{◌≡◌};
    ghost use Rattle.set_objects.specs.Table.{fault_of};

    ghost from_gives = { λ stop fault. fault ≡ fault_of stop };

    fn from(stop: ReadStop) -> LoadFault {
        match stop {
            ReadStop::ReadFault => LoadFault::ReadFault,
            ReadStop::OutOfMemory => LoadFault::OutOfMemory,
        }
    }
}
