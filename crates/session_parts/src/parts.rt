use lane_core::{Act, InCall};
use std::collections::LinkedList;

/// One call of a session that stands in an arena's history, without its lane. Contracts alone use it.
pub struct Stand {
    /// The number of the call among the session's calls, from 0 on.
    pub call: u32,
    /// Which of the arena's sectors.
    pub sector: u32,
    pub act: Act,
}

/// A session's part of an arena. Contracts alone use it, and no code makes a value of it.
pub struct CorePart {
    /// Its calls that stand, oldest first, without a read that isn't answered.
    pub stands: LinkedList<Stand>,
    /// Its writes in flight.
    pub calls: LinkedList<InCall>,
}
