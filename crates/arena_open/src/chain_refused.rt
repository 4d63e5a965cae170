use crate::OpenRefused;

/// Why the arenas of a namespace aren't opened.
#[derive(Clone, Copy, Debug, PartialEq, Eq)]
pub struct ChainRefused {
    /// The first arena that isn't opened, by its number in the chain, from 0.
    pub arena: u32,
    /// Why it isn't.
    pub fault: OpenRefused,
}
