//! Tests of sessions over lanes.
//!
//! The contracts say what each call does. Here stands a whole run: sessions are made, write and
//! read, one of them cuts power, and all is closed. [`put`], [`get`] and [`pause`] show that a call
//! ensures all that the next one asks for.
#![tactic(auto)]

mod calls;
#[cfg(test)]
mod tests;
#[cfg(test)]
mod words;

pub use calls::{get, pause, put};
