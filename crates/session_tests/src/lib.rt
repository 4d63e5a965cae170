//! Tests of `run` with sessions in threads: a call is held back while another is made, which no clause says to be possible.
#![tactic(auto)]

#[cfg(test)]
mod gate_tests;
#[cfg(test)]
mod gates;
#[cfg(test)]
mod world;
