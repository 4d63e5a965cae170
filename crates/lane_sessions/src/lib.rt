//! The arenas of sessions over lanes: how they are made, and what is known when they are closed.
//!
//! The sessions of `serve` and `load` run on it.
//!
//! # Making
//!
//! Each opened arena gets a table of its lanes (`lane_table`). Lane i of each arena goes into set i
//! of the pool (`lane_pool`). There are no more sets than the arena with the fewest lanes has lanes;
//! the lanes that no set has stay aside until the arenas are closed. Lane 0 of each arena makes a
//! pass for each session:
//!
//! ```text
//!               arena 0    arena 1    arena 2
//!   set 0       lane 0     lane 0     lane 0
//!   set 1       lane 1     lane 1     lane 1
//!   aside       lane 2                lanes 2, 3
//!   session q   pass q     pass q     pass q
//! ```
//!
//! | call | promise | clause |
//! |---|---|---|
//! | [`make_sectors`] | the arenas are those of the opened states, in order | `arenas` |
//! | the same | place j of set i is lane i of arena j, and each lane is in a set or aside | `sets`, `AreSets` of specs/Sets.antt |
//! | the same | there are as many sets as workers, or as the arena with the fewest lanes has, if these are fewer; and at least one | `count`, `some` |
//! | the same | nobody did anything at the pool | `pool` |
//! | the same | session q has its number, its steps and a pass of each arena; it knows that it did nothing there, keeps no set, and may make as many calls as its limit says | `sessions`, `IsNewSession` of specs/Making.antt |
//! | the same | each lane of a set has room for all calls of all sessions, so no call takes memory | `room`, `IsReady` of lane_pool's specs/Sets.antt |
//!
//! # Closing
//!
//! Each session has to rest: it keeps no set of lanes (`lane_calls`). Between two calls it has its
//! pass of each arena in hand, but for the arena in which its last call was cut: there the stopped
//! lane has it. Closing takes every lane and every pass back. The lanes of an arena come from the
//! sets of the pool, lane i from set i, and from those that were left aside. Lane 0 carries the
//! passes that are in hand into the arena's `close` (`lane_table`):
//!
//! ```text
//!   set 0    set 1    aside          session 0    session 1    session 2
//!   lane 0   lane 1   lane 2         pass 0       pass 1       - (lane 1 has it)
//!     ▲                                 │            │
//!     └─────────────────────────────────┴────────────┘
//! ```
//!
//! | promise of [`close_arena`], and for each arena of [`close_sectors`] | clause |
//! |---|---|
//! | one legal history has of each session exactly the entries that it knows, in order, each once | `IsArenaLeft`, fields `legal` and `own`, of specs/Left.antt |
//! | the writes in flight are exactly those that the sessions know | `own` |
//! | nothing is of another session | `none`, `flying` |
//! | as many words are seen as are kept | `same` |
//! | after a power cut, in which each word is the kept one or the seen one, the words open again; each sector has its cell at the history's end or that of a write in flight | `reopens` |
//!
//! [`close_sectors`] says besides that power is off only if a session switched it off that nobody had
//! told so, and that a session was told no other `PowerOff` than the one that is left (`IsOffBy` of specs/Ending.antt).
//!
//! No clause counts a session's steps: a closed arena doesn't tell them.
#![tactic(auto)]

mod arenas;
mod closing;
mod ending;
mod making;
mod places;
mod rows;
mod seating;

pub use closing::close_arena;
pub use ending::{Ended, close_sectors};
pub use making::{Made, SessionLimits, make_sectors};
