//! Clients of the turn lock. They show that its contract suffices.
//!
//! Each module is a small client of `turn_lock`, proved from its public contract alone: whatever
//! the threads do, the result is a fact about what each caller did. All of them have one structure,
//! which a larger client can copy.
//!
//! 1. The value behind the lock holds, as an invariant of its type, what is true of all callers
//!    together.
//! 2. Its part for a caller is what this caller did: its own entries of a journal, its turns left.
//! 3. One function makes one turn: `enter`, a change, `leave`. Its contract says how the part
//!    changes.
//! 4. A session makes many turns, and its loop's invariant says what the part is by then.
//! 5. When the threads have ended, `close` returns a value whose parts the passes know.
//!
//! - `tally`, `counting` share a count of turns. At the end every turn was counted, once.
//! - `register`, `turns`, `script` share a register with a journal of its calls. A single thread
//!   could have made the journal (`is_legal`), and the entries of each caller are its calls, in
//!   order, with its replies (`AreOwnEntries`).
//! - `order`, `orders`, `session`, `seats`, `shelf` share many such registers, with a lock around
//!   each. The same holds for each of them (`AreOwnEntriesAt`).
//! - `desk`, `switch`, `power` share a switch that any caller may turn off. If a caller was told that it is
//!   off, some caller turned it off (`OneTold`, `OneStopped`).
//!
//! No caller allocates while it has the turn: room for all calls is reserved at the start, and a
//! caller's part says how much of it the caller has left.
#![tactic(auto)]

mod counting;
mod desk;
mod order;
mod orders;
mod power;
mod register;
mod script;
mod seats;
mod session;
mod shelf;
mod switch;
mod tally;
mod turns;

pub use counting::{count_turns, take_turns};
pub use desk::{Desk, Mine};
pub use order::ShelfOrder;
pub use power::{go_off, is_off};
pub use register::{Register, RegisterCall, RegisterEntry};
pub use script::{Ran, run_scripts};
pub use shelf::{ShelfRan, run_shelf};
pub use switch::{ask_in_turn, finish, stop_in_turn, wait_for_off};
pub use tally::Tally;
pub use turns::make_in_turn;
