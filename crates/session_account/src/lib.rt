//! The account of sessions: what each session asked and was told, held against what stands in the registry's journal and in the
//! arenas' histories.
//!
//! Sessions run a script at the same time. Each opens namespaces, reads and writes their sectors, and gives orders to the registry.
//! Of a run the definitions keep three things: each session's **replies**, the registry's **journal**, and one **history** of each arena.
//! The **account** (`Account` of `specs/Account.antt`) says how they belong together:
//!
//! ```text
//!   script    session 0: open A, write 9, close        session 1: open A, read 9
//!   replies              ok      ok       ok                      ok      11 11 ..
//!   journal   claim A (0), claim A (1), unclaim A (0), unclaim A (1)
//!   history   write 9 (0), read 9 = 11 11 .. (1)
//! ```
//!
//! - Each answered call stands exactly once, with its reply, and a session's calls stand in their order (`InJournal`, `InHistory`).
//! - A call is refused exactly if its check says so (`ChecksExactly`).
//! - Only a session's last reply may be that power was cut. Such a call may stand or not, and the cut has a cause (`CutHasCause`).
//! - Nothing stands of a session that there isn't.
//!
//! After a power cut each sector is as its history ends, or as one write that was cut would have left it (`Survives`).
//!
//! | promise | law |
//! |---|---|
//! | closed locks and sessions that are done imply the accounts | [`accounts_follow`] |
//! | what may survive of a core survives by the accounts | [`survival_follows`] |
//! | a session begins, goes on by an answered call, stops at a cut, or ends | [`begins_so`], [`goes_on`], [`stops_so`], [`ends_so`] |
//! | a call on a sector stands in its arena alone, and a write stands as the same if it was answered or cut | [`stands_here`], [`writes_same`], [`call_ends`], [`call_stops`] |
//! | what the registry promises of a call makes an entry of the journal, until power is cut and after | [`answers_make_entries`], [`on_grows`], [`on_is_journal`], [`off_is_journal`] |
//! | a cut in a journal changes no namespace but the command's own, which is in a state of its table | [`journals_leave_others`] |
//! | the label areas that a journal left recover to the namespaces of its end, or to those from before or after the command that was cut | [`journals_recover`] |
//! | claims are the namespaces that sessions have open | [`claim_opens`], [`unclaim_closes`], [`open_is_claimed`], [`open_follows`] |
//!
//! These rules are this project's own.
#![tactic(auto)]

mod law;
mod reply;

pub use law::{
    accounts_follow, answers_make_entries, begins_so, call_ends, call_stops, claim_opens,
    claimable_before, ends_so, entries_keep, goes_on, journals_leave_others, journals_recover,
    made_grows, off_is_journal, on_grows, on_is_journal, open_follows, open_is_claimed,
    stands_here, stops_so, survival_follows, unclaim_closes, writes_same,
};
pub use reply::Reply;
