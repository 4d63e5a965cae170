//! A lock around a value of which each caller knows its own part.
//!
//! Under a `Mutex`, a caller knows of the value only the type's invariant; what it left there in an
//! earlier turn is forgotten. Here it isn't. Whatever the others did in between, the caller's pass
//! knows the caller's part of the value.
//!
//! # Terms
//!
//! - **Caller**: one of those who share the value, named by a number below `callers`.
//! - **Part** of the value for a number: plain data that `Parted` defines, in contracts alone. It
//!   never exists at run time.
//! - **Turn**: from `enter`, which hands the value out, to `leave`, which puts one back. One caller
//!   at a time has the turn.
//! - **Pass** (`TurnPass`): the right of one caller to take turns. It knows the caller's part.
//!   While its caller has the turn it is inside, and also knows the value that was handed out.
//!
//! A caller that has the turn may change the value, but not the parts of the others: `leave`
//! requires that. So no turn of another caller changes what a pass knows.
//!
//! # The table
//!
//! The lock is a table (of the crate `atomic_table`) of which one word and one slot are used:
//!
//! ```text
//!     word     slot        who has the value
//!     0        the value   no one: the turn is free
//!     q + 1    empty       caller q
//! ```
//!
//! Around them lie 15 words and 7 slots that no step touches. So they share no cache line of 64 bytes
//! with anything else, and threads that work beside the lock don't slow its callers down.
//!
//! Each pass is a seat at this table. A seat has a view, what it knows (`Role`). A rule (`Turning`
//! of specs/Turns.antt) ties the word, the slot and all views together: a caller's view has its
//! part of the one value, wherever the value is. Only five kinds of step are made at the table, and
//! each preserves the rule (`proofs/Keeps.antt`).
//!
//! | kind | word | when |
//! |---|---|---|
//! | SplitSeat | unchanged | `of`: the next pass is made |
//! | TurnTake | 0 becomes `q + 1` by a compare-and-exchange | `enter`: the value comes out of the slot |
//! | TurnFree | 0 is stored | `leave`: the value is in the slot again |
//! | KeeperComes | unchanged | `close`: a seat that collects what the passes know |
//! | JoinSeat | unchanged | `close`: one pass is handed in |
//!
//! A caller that finds the turn taken spins for a while and then sleeps. A release wakes one
//! sleeper; if there is none, it makes no system call. A `Bell` beside the table counts the
//! sleepers. No proof rests on it.
//!
//! # The promises
//!
//! The terms are defined in specs/Passes.antt and specs/Turns.antt. `Knows x p`: the pass p knows
//! its part of x. `AreFresh lock x ps`: pass q of ps is that of caller q, outside, and knows its
//! part of x. `KeepsOthers part q x y`: y has the part of x for every caller but q. `HasEach n ps`:
//! for each number below n, the pass with this number is among ps.
//!
//! - `Turn::of`: the passes `AreFresh`, for the value given.
//! - `enter`: the pass `Knows` the value that comes out (clause `part`).
//! - `leave`: requires `KeepsOthers` of the value that goes in, and the pass `Knows` it.
//! - `close`: every pass `Knows` the value that comes out (`callers`). For a number that isn't a
//!   caller's, the part is that of the first value (`strangers`).
#![tactic(auto)]

mod bell;
mod dealing;
mod freeing;
mod gathering;
mod kinds;
mod parted;
mod pass;
mod steps;
mod table;
mod turn;
mod waiting;

pub use parted::Parted;
pub use pass::TurnPass;
pub use turn::Turn;
