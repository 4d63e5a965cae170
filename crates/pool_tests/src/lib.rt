//! Tests of `lane_pool`: what no clause says of its threads. Sets go from one to another, each wait
//! ends, and once one caller switches power off each is told.
#![tactic(auto)]

#[cfg(test)]
mod tests;
