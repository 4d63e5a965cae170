//! The registry of namespaces for many sessions at once: it stands behind one lock with the fuse of
//! its commands' steps, and each order of a session is one turn.
//!
//! ```text
//!   session 0   ask power  enter  check  command  leave  -> its reply
//!   session 1   . . . . . . . . . . . . . . . . . . . .  ask power  enter  check  command  leave  -> its reply
//! ```
//!
//! - An **order** opens or closes a namespace for its session, or creates, deletes or renames one.
//!   A session has at most one open: what is open is claimed, and a claimed namespace isn't
//!   deleted.
//! - A session knows its **part** of the registry: its own entries of the journal, its room for
//!   more, and what it has open. Whatever others order, its part is as its own orders left it.
//! - The **fuse** (`labelcut` of a script) counts the steps of all commands. In the command with
//!   which it ends, power is cut: that session switches power off for all, at the pool of lanes
//!   (`lane_pool`). From then on the registry answers every call so.
//! - If memory runs out in an order, nothing has changed: no entry counts for it, and it has no
//!   reply.
//!
//! | call | promise | definition |
//! |---|---|---|
//! | [`lock_registry`] | each session begins with no entry and nothing open | `fresh` of `specs/Served.antt`, law [`begins_empty`] |
//! | [`order`] | a reply has its entry and an entry its reply; it is refused exactly by its checks | `IsOrdered` of `specs/Parts.antt` |
//! | the same | a cut order stands or doesn't; power is off, and if it stands, its session switched it off on the side of the labels, after the steps of the fuse | `IsCutShort` of `specs/Switch.antt` |
//! | [`give_back`] | at a session's end its claim is given back | `GivesBack` of `specs/Parts.antt` |
//! | [`close_registry`] | all orders are one journal from what the registry began with, cut by its fuse alone; its areas are what that leaves, and hold the words that were stored and flushed | `IsJournal`, `AreLeft`, `AreasHold` of `session_account` |
//!
//! The laws [`orders_answer`], [`orders_stop`], [`cuts_have_cause`] and [`open_goes_on`] make these
//! promises steps of a session's account.
#![tactic(auto)]

mod asking;
mod law;
mod locking;
mod orders;
mod served;
mod turns;

pub use law::{begins_empty, cuts_have_cause, open_goes_on, orders_answer, orders_stop};
pub use locking::{close_registry, lock_registry};
pub use orders::order;
pub use served::{Began, OrdersPart, ServedRegistry};
pub use turns::give_back;
