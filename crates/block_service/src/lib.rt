//! Operations of several submitters on one arena, played through a bounded queue.
//!
//! Each submitter has a **desk** with a worker of its own (`bio_queue`). A desk submits its jobs in
//! order; its worker makes operations of any desk.
//!
//! ```text
//!   jobs of desk 0 ── submit ──► │      queue      │ ──► worker 0 ── session 0 ──┐
//!   jobs of desk 1 ── submit ──► │ b │ a │ .. │    │ ──► worker 1 ── session 1 ──┴─► arena
//! ```
//!
//! | what [`serve_operations`] does | with |
//! |---|---|
//! | makes the arena's sectors, with a session for each desk, which never cuts power | `make_sectors` of `lane_sessions` |
//! | makes the queue, and a desk for each list of jobs | `BioQueue::of` and `Desk::new` of `bio_queue` |
//! | runs the desks in threads, until each has come to its end | `run_desks` |
//! | closes the queue, and asks whether all was done | `close_desks` |
//! | takes back each session's set of lanes, and closes the arena | `rest` of `lane_calls`, `close_sectors` |
//!
//! It answers only if all jobs are completed:
//!
//! | promise | clause |
//! |---|---|
//! | job n of desk s is completed exactly once, as operation n of submitter s, and nothing else is | `served`, field `once` of `AreServed` (specs/Served.antt) |
//! | its reply fits, and its note is an answer of its own callback to that reply | `served`, field `each` |
//! | the operations of row w were completed by worker w, those of each desk in the order in which they were submitted | `served`, fields `by` and `rises` |
//! | the arena has one legal history, in which the entries of session w are exactly the operations of row w, in order; nothing is in flight | `arena`, `IsArenaLeft` of lane_sessions' specs/Left.antt |
//!
//! The one refusal is out of memory. Then all is dropped.
//!
//! No clause says that the call returns, or that threads run at the same time.
#![tactic(auto)]

mod beginning;
mod ending;
mod running;
mod seating;
mod service;

pub use ending::BlocksServed;
pub use service::serve_operations;
