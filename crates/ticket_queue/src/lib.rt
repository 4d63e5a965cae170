//! A bounded queue that several parties share. Each party knows what it put and what it took. At
//! the end their lists fit together: each item that was put was taken exactly once, or is left.
//!
//! A shared queue by itself promises no such thing. Its clauses can't name what the queue holds,
//! since another thread may change it at any moment. So a party that took an item doesn't know
//! whose it is, and one that put an item doesn't know whether it ever comes out.
//!
//! # Terms
//!
//! - **Party**: one of those who share the queue, with a number from 0 on. A party may put and
//!   take.
//! - **Ticket** (`Ticket`): an item, with the number of the party that put it.
//! - **Hand** (`Hand`): what one party put, and what it took, each in order. It stands in contracts
//!   alone and never exists at run time.
//! - **Pass** (`TicketPass`): the right of one party to put and to take. It knows the party's hand.
//!   Only calls with this pass change what it knows.
//! - **Order of taking**: a list of the tickets that were taken, each with the party that took it.
//!
//! # The rule
//!
//! There is one order of taking. The tickets in it, and then those that the queue holds, are what
//! was put, in order. Say that party 0 put a, b and c, party 1 put x, and party 2 took two:
//!
//! ```text
//!                taken, in order       in the queue
//!                (2, a)   (2, x)   |   b   c
//!                    ▲                     ▲
//!                first put              last put
//!
//!   party        0         1         2
//!   has put      a b c     x         -
//!   has taken    -         -         a x
//! ```
//!
//! Each hand is one party's part of this: the tickets of party k in the whole row are what it put,
//! and those that it took stand in the order with its number (`IsSo` of specs/Law.antt). The rule
//! (`Holds` of specs/Law.antt) says so of all passes at once. Each of the kinds of step below
//! preserves it, whatever the others do (proofs/Keeps.antt).
//!
//! The items may be of any type: the rule never looks into one.
//!
//! # Making and closing
//!
//! The **maker** is the pass of all parties that are yet to be made. Making party k's pass cuts
//! party k off it. At the end all passes are handed in to the maker. Then it has the hands of *all*
//! parties, so no other pass has one, and nobody else can put or take. So from the first ticket
//! that it takes out, it is **sure** of the rest: it knows all that the queue still holds.
//!
//! | step | what the pass has before | and after |
//! |---|---|---|
//! | party k's pass is made | the hands of all from k on | those from k + 1 on; the new pass has k's |
//! | a party puts a ticket | its hand | its hand, with one ticket more put |
//! | a party takes a ticket | its hand | its hand, with one ticket more taken |
//! | a pass is handed in | any hands | these, and those of the other pass |
//! | the first ticket left is taken out | the hands of all parties | it is sure of the rest |
//! | the next one is taken out | it is sure of it and the rest | it is sure of the rest |
//!
//! # The promises
//!
//! | call | promise | definition |
//! |---|---|---|
//! | [`new_queue`] | the queue has room for `depth` tickets, and the maker has all parties, which did nothing | `all_from` of specs/Law.antt |
//! | [`deal`] | pass k is party k's, which did nothing; all later parties stay with the maker | `AreNew` of specs/Parties.antt |
//! | [`put`] | the party put this ticket; or the ticket comes back, nothing changed, and the queue was full at one moment of the call | `with_put`, `Learned` of specs/Law.antt |
//! | [`take`] | the party took the ticket that comes out; or nothing changed, and the queue was empty at one moment of the call | `with_taken`, `Learned` of specs/Law.antt |
//! | [`finish`] | what comes out is what is left, and there is one order in which all else was taken | `IsOrder` of specs/Parties.antt |
//! | [`order_gives_account`] | if each party numbers its tickets 0, 1, 2 and so on, each number is there exactly once, in what was taken or in what is left; the tickets of one party come to each taker in order, and before those that are left | `IsAccount` of specs/Account.antt |
//! | [`order_is_of_puts`] | each ticket that was taken, or is left, was put by its party. So what holds of all that was put holds of these | `IsOnlyWhatWasPut` of specs/Account.antt |
//!
//! No clause says that a wait ends, or that an item is ever taken.
#![tactic(auto)]

mod account;
mod dealing;
mod draining;
mod ends;
mod law;
mod making;
mod ticket;

pub use account::{order_gives_account, order_is_of_puts};
pub use dealing::{deal, finish};
pub use ends::{TicketPass, TicketQueue, put, take};
pub use law::Law;
pub use making::new_queue;
pub use ticket::{Hand, Ticket, View};
