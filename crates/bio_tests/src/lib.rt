//! Tests of `bio_queue` on an arena of 16 MiB: what no clause says. A submission to a queue with
//! room succeeds, each accepted operation is completed, and threads share a queue.
#![tactic(auto)]

#[cfg(test)]
mod arena;
#[cfg(test)]
mod parties;
#[cfg(test)]
mod tests;
#[cfg(test)]
mod words;
