//! The queue.
ghost use Rattle.std.specs.Prelude.{◌≡◌};
ghost use Rattle.crossbeam_queue.specs.Passes.{ruled_capacity};

use crate::bio::Bio;
use ticket_queue::{TicketPass, TicketQueue};

/// A queue of operations, which has room for `depth` of them. Threads may share it.
#[derive(Drop)]
pub struct BioQueue {
    pub(crate) queue: TicketQueue<Bio>,
    pub(crate) depth: u32,
    /// How many sectors the arena has, and how many words a sector.
    pub(crate) sectors: u32,
    pub(crate) width: usize,
    ghost depth_is: { ruled_capacity queue ≡ depth },
}

/// What closes the queue: the pass of all parties that are yet to be made. It stays in one thread.
#[derive(Drop)]
pub struct BioCloser {
    pub(crate) maker: TicketPass<Bio>,
}
