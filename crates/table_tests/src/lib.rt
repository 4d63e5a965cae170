//! Tests of lanes on words that they share.
//!
//! The contracts say what each call does. Here stand whole calls, the races that a pause brings about, and a read beside
//! writes in threads.
#![tactic(auto)]

#[cfg(test)]
mod client;
#[cfg(test)]
mod tests;
#[cfg(test)]
mod words;
