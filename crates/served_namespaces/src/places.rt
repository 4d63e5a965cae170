ghost use Rattle.std.specs.Prelude.{◌≡◌};

use arena_open::{ArenaState, ChainRefused};
use namespace_areas::Found;
use namespace_words::ArenaRead;
use nvd_words::Items;
use std::alloc::AllocError;
use uuid::Uuid;

/// A complete sector namespace.
#[derive(Clone, Copy, Debug, PartialEq, Eq)]
pub struct FoundNamespace {
    pub uuid: Uuid,
    pub found: Found,
}

/// A namespace whose arenas were read.
#[derive(Debug, Drop)]
pub struct ReadNamespace {
    pub place: FoundNamespace,
    /// Its arenas, in order.
    pub arenas: Items<ArenaRead>,
}

/// A namespace whose arenas are opened.
#[derive(Debug, Drop)]
pub struct OpenedNamespace {
    pub place: FoundNamespace,
    /// Its arenas, in order.
    pub states: Items<ArenaState>,
}

/// Why namespaces aren't opened.
#[derive(Clone, Copy, Debug, PartialEq, Eq)]
pub enum NotOpened {
    /// An arena of the namespace of this UUID breaks the format: the first such namespace, and
    /// its first such arena.
    Broken { uuid: Uuid, fault: ChainRefused },
    /// Memory ran out.
    OutOfMemory,
}

impl From<AllocError> for NotOpened {
    ghost use Rattle.served_namespaces.specs.declared.places.NotOpened.TheVariants.{OutOfMemory};

    ghost from_gives = { λ _ fault. fault ≡ OutOfMemory };

    fn from(_error: AllocError) -> NotOpened {
        NotOpened::OutOfMemory
    }
}
