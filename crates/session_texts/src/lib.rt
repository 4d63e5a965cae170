//! The lines of the replies to sessions.
//!
//! A reply has one line. It is made as soon as the session has the reply, in the session's own thread, so that
//! neither the values of all reads are kept nor one thread makes all lines.
//!
//! | call | promise | definition |
//! |---|---|---|
//! | [`add_reply`] | the text has the reply's line more | `reply_text` of `specs/Texts.antt` |
#![tactic(auto)]

mod lines;

pub use lines::add_reply;
