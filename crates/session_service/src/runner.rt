//! A session that makes its calls.
use lane_calls::Session;
use registry_service::ServedRegistry;
use turn_lock::TurnPass;
use uuid::Uuid;

/// A session, its pass of the registry, and the lines of its replies.
#[derive(Drop)]
pub struct Runner {
    pub(crate) session: Session,
    pub(crate) orders: TurnPass<ServedRegistry>,
    /// The namespace that it has open.
    pub(crate) held: Option<Uuid>,
    /// A line for each reply, in order.
    pub(crate) text: Vec<u8>,
    /// Memory ran out in a call. It makes no call more.
    pub(crate) refused: bool,
    /// The words of its last read. The next read takes the list over, so that it needs no memory.
    pub(crate) words: Vec<u64>,
}
