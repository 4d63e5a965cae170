//! A bounded queue of block operations with stored completions. Submitters put operations in, each
//! with a callback; workers take them out, make them over lanes, and call the callback once.
//!
//! # Terms
//!
//! - **Operation** (`Op`): a read of a sector, or a write of a sector's words. Its **reply** is the
//!   cell that was read, or that the words were written.
//! - **Completion** (`Completion`): a callback that may be called on every reply that fits the
//!   operation. What it answers is the operation's **note**.
//! - **Bio** (`Bio`): an operation with its completion, its submitter, and its number among the
//!   submitter's operations, from 0 on.
//! - **Worker** (`Worker`): a session of the arena (`lane_calls`) that makes operations, one at a
//!   time. Each is one call of the session.
//! - **Accepted**: a submitter's pass has the operation among those that it put. **Taken**: a
//!   worker's pass has it among those that it took (`put_in`, `taken_in` of ticket_queue's
//!   specs/Parties.antt).
//!
//! # An operation's way
//!
//! ```text
//!   submitter s                 queue               worker w
//!   submit ── number n ──► │ b │ a │ .. │ ──► take ── call on a lane ── callback ── completed
//!      │                                       │         │
//!      └─ full: it comes back                  │         └─ power is off: it is cut
//!                                              └─ empty: the worker rests
//! ```
//!
//! Submitters and workers are the parties of one `ticket_queue`: submitter s is party s, worker w is
//! party S + w, if there are S submitters. So at the end all is known: each accepted operation was
//! completed, or was cut, or is left, and only one of these.
//!
//! What the queue holds has no clause of its own, and the rule never looks into an operation. What
//! is known of one goes with it by its type: that its completion was made for it (`made_for` of
//! `Bio`), and that the callback may be called on every reply that fits (`ready` of `Completion`).
//! That it fits the arena can't go that way. So a worker tests it again; `close` shows, by what the
//! submitters know of all that they put, that the test never failed.
//!
//! # The promises
//!
//! | call | promise | clause |
//! |---|---|---|
//! | [`Completion::of`], [`Completion::complete`] | the callback is called on one reply that fits, and the answer is one that it promises | `ready`, the result of `complete` |
//! | [`BioQueue::of`] | submitter k is party k, worker k has session k and is the party behind them; nobody did anything | `passes`, `tickets`, `sessions` |
//! | [`new_session_may_make`] | a session of `make_sectors` that never cuts power may make all calls of its limit | `MayMake` of specs/Serving.antt |
//! | [`Submitter::submit`] | the operation is accepted under the next number; or it comes back, nothing changed, and the queue was full at one moment of the call | `number`, `accepted`, `unchanged`, `full` |
//! | [`Worker::serve_one`] | the operation at the front is completed: one call more of the session stands in the arena's history, and the note is an answer of its callback to the reply | `done`, `may`, `served` |
//! | the same | nothing was taken, and the queue was empty at one moment of the call; the worker keeps no lanes | `empty`, `rests` |
//! | the same | power is off, as the worker was told; the operation is kept, nothing of it stands, and its callback isn't called | `off`, `told` |
//! | [`Worker::serve_one`], [`Worker::pause`] | the calls of the worker's session are still what it completed, it may make more up to the same limit, and it didn't switch power off | `works`, `IsAtWork` of specs/Serving.antt |
//! | [`Worker::reserve`], [`Worker::reserve_one`] | there is room for so many calls more, or for one | `more`, `spare` |
//! | [`run_desks`] | in threads: each desk submits its jobs in order, the n-th job under its n-th number; the passes, the workers' calls and what they completed stay accounted for | `desks`, `since`, `AreSubmitted` of specs/Lists.antt |
//! | [`close_desks`] | the queue's account, by desks | `account`, `done` |
//! | [`BioQueue::close`] | of each submitter each accepted number stands exactly once in what was taken and what is left, as the very operation that was submitted; each worker's numbers of it rise, and each number that is left is above them | `account`, `IsAccount` of ticket_queue's specs/Account.antt |
//! | the same | each operation that a worker took is completed, with a reply that fits and a note that its callback promises, but for the last one, if power cut it | `done`, `IsDone` of specs/Served.antt |
//!
//! The calls of a worker's session are exactly its completed operations, in order (`MayMake`,
//! `HasMade` of specs/Serving.antt): with `close_sectors` of `lane_sessions` they are the entries of
//! that session in the arena's one legal history.
//!
//! # Threads
//!
//! A **desk** ([`Desk`]) is a submitter, a worker and the jobs that are to be submitted. [`run_desks`]
//! runs many of them at one queue, each in one thread. A desk submits its next job; if the queue is
//! full, or no job is left, its worker serves the operation at the front, of any desk. It comes to its
//! end when it has no job left and finds the queue empty ([`DeskEnd`]). All it submitted was taken
//! then, since the queue keeps order.
//!
//! What a step of a desk keeps names its callbacks. The closure that a thread runs can't name one, so
//! the loop and the threads are generic in a trait (`Shift`, src/shift.rt), whose `may` and `since`
//! [`Desk`] gives.
//!
//! The maker of the passes can't be shared by threads, since it isn't `Sync`. So [`BioCloser`] has it,
//! apart from the queue, and one thread keeps it until the queue is closed.
//!
//! A worker keeps its set of lanes for up to 64 calls, also while a callback runs. So a callback
//! must not wait for another worker.
//!
//! No clause says that a wait ends, or that an operation is ever taken.
#![tactic(auto)]

mod bio;
mod closing;
mod completion;
mod desk;
mod ending;
mod laws;
mod op;
mod opening;
mod performing;
mod queue;
mod running;
mod shift;
mod stepping;
mod submitter;
mod worker;

pub use bio::{Bio, Completed, Full, OneTurn};
pub use closing::{BioClosed, BioOpen};
pub use completion::{Callback, Completion};
pub use desk::{Desk, DeskEnd, Job};
pub use ending::close_desks;
pub use laws::new_session_may_make;
pub use op::{Op, OpKind, OpReply};
pub use opening::{BioOpened, BioRefused};
pub use queue::{BioCloser, BioQueue};
pub use running::run_desks;
pub use submitter::Submitter;
pub use worker::Worker;
