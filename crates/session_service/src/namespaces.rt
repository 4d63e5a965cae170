//! The namespaces that sessions may open.
use arena_layout::Layout;
use arena_open::ArenaState;
use uuid::Uuid;

/// A namespace that sessions may open: the arenas that it was opened as, in order.
#[derive(Drop)]
pub struct ServedNamespace {
    pub uuid: Uuid,
    pub arenas: Vec<ArenaState>,
}

/// Where the arenas of a namespace stand among all arenas, and their layouts.
#[derive(Drop)]
pub struct NamespaceArenas {
    pub(crate) uuid: Uuid,
    /// The number of its first arena.
    pub(crate) first: usize,
    pub(crate) arenas: Vec<Layout>,
}
