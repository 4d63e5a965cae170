//! Tests of `ticket_queue`: what no clause says. A put into a queue with room succeeds, a take from
//! one that holds a ticket too, each wait ends, and threads share a queue.
#![tactic(auto)]

#[cfg(test)]
mod tests;
