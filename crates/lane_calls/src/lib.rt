//! A session's calls on the sectors of arenas. A call uses a lane, tries until it is answered, power
//! is off, or the session's steps are spent, and then puts the lane back.
//!
//! All sessions share [`Sectors`]: the arenas, and a pool of sets that have one lane of each arena
//! (`lane_pool`). A session has a pass of each arena (`lane_table`). The lane that makes its call holds
//! the pass meanwhile and, as its fuse, the steps that the session may still make:
//!
//! ```text
//!   have a set ── lend the lane the pass ── tries ─┬─ answered: the pass goes back; the session
//!                                                  │  keeps the set, or gives it back
//!                                                  └─ cut: the lane keeps the pass, and the pool,
//!                                                     for which power is off then, the set
//! ```
//!
//! A turn at the pool costs more than a read if others want one, too. So a session keeps its set for
//! [`KEPT_CALLS`] calls, and has two turns in that many calls. With a kept set it doesn't
//! ask whether power is off, unless a try is refused: it is told at the latest 64 calls later. A
//! session that keeps a set while it does nothing keeps others waiting: it has to [`rest`].
//!
//! A try can be refused: another lane reads the free block, has the map word's lock, or moved the
//! sector meanwhile. Then the session asks whether power is off, and tries again if it isn't:
//!
//! ```text
//!   idle ── stage ──► staged ── commit ──► idle, the write stands
//!            │ └─ tracked: power? ─┐ │ └─ busy: power? ─┐
//!            │ ◄──────── on ───────┘ │ ◄────── on ──────┘
//!            └──────────── off, or no step left: the lane stays as it is, with the pass
//! ```
//!
//! What a whole call does:
//!
//! | call | promise | clause |
//! |---|---|---|
//! | [`write`], [`read`] | an answered call is one entry more of the session in that arena: the call's, with the words that were written or the cell that was read. Nothing else that the session knows of arenas changes | `done`, `Called` of specs/Calls.antt |
//! | both | the steps that went off the session's are exactly those that lanes counted for it; for a write that was answered, at least those of one staging and one commit | `paid` and `enough` of `Called` |
//! | both | a read that was cut left nothing; a write that was cut left nothing, is in flight, or stands. The session paid the steps up to its log entry if it is in flight, and up to its map entry if it stands | `cut`, `IsStopped` of specs/Calls.antt |
//! | [`write`] | one that was cut, and didn't switch power off, left nothing | `off` |
//! | both | who was cut was told that power is off. It switched power off only if its steps were spent, and not if it had been told | `told`, `StopsWhenSpent` of specs/Calls.antt |
//! | both | an answered call is one of those that the session may make, and nothing that it knows of the power changes | `spent`, `SpendsOne` of specs/Calls.antt |
//! | [`rest`] | the session keeps no set, and may ask for the power. It may make as many calls as before, and all else stays | `rests`, `can_ask`, `Rests` of specs/Calls.antt |
//! | all | a session has each pass in hand, or the lane of its call that was cut has it, in the set that it handed to the pool, whose other lanes are idle | `Know` of specs/Sessions.antt |
//!
//! What it does on its lane:
//!
//! | call | promise | clause |
//! |---|---|---|
//! | [`write_on_lane`], [`read_until`] | the pass has one entry more, the call's, with the words that were written or the cell that was read | `done`, `got` |
//! | all | the steps that went off the fuse are exactly those that the pass counted, those of refused tries too | `Pays` of specs/Lanes.antt |
//! | all | if power is off, the pass has no entry more and no write is in flight; the session was told by whom | `off` |
//! | all | a call is cut only with its fuse spent. A read leaves nothing then; a write left nothing, is in flight, or stands, with the steps paid that it takes to get there | `cut`, `IsCutIn` of specs/Lanes.antt |
//! | all | while it isn't told that power is off, nothing that the session knows of the pool changes | `done`, `got`, `cut` |
//!
//! No clause says that a wait ends, nor that a try is ever not refused.
#![tactic(auto)]

mod beginning;
mod calls;
mod ending;
mod on_lane;
mod parts;
mod reading;
mod session;
mod staging;
mod waiting;
mod writing;

pub use calls::{Heard, Wrote, read, write};
pub use ending::rest;
pub use on_lane::{WriteEnd, write_on_lane};
pub use parts::ArenaPart;
pub use reading::{Looked, read_until};
pub use session::{Caller, KEPT_CALLS, Kept, Sectors, Session};
pub use staging::{StagedOrNot, stage_until};
pub use waiting::Waiting;
pub use writing::{Committed, commit_until};
