//! What a session knows of an arena that others use too: its own calls that stand, and its writes in flight.
//!
//! Sessions share an arena. Each makes one call at a time, and its calls are numbered from 0 on (`Tag`). Whatever others do in between,
//! the session's **part** of the arena changes by its own calls alone:
//!
//! ```text
//!   session 1   call 0 ─────────────── answered    call 1 ──── answered
//!                        \              /  its part grows by one entry
//!   session 0      call 0 ── answered     call 1 ─── answered
//! ```
//!
//! The definitions are in `specs/Parts.antt`. Who keeps them stands in the crates above: `lane_calls` says what a call does to its
//! session's part, `lane_sessions` that the parts are those of the closed arena's history, and `session_account` how they belong to
//! replies.
#![tactic(auto)]

mod parts;

pub use parts::{CorePart, Stand};
