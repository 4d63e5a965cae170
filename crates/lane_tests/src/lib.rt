//! Tests of lanes: of a core, whose lanes step by a stated schedule, and of schedules that are read and played.
//!
//! The contracts say what every step does and what every power cut leaves. Here stand whole calls with their numbers of
//! steps, and the races that the algorithm's scan, its second look at the map and its order of stores are for.
#![tactic(auto)]

#[cfg(test)]
mod core_tests;
#[cfg(test)]
mod replay_tests;
