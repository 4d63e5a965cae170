//! Tests of words that lose power, and of label areas, arenas and chains in them.
//!
//! The contracts state every state after a crash, and every refusal. These tests compare whole rows
//! of words before and after a few crashes, and call each public function once.
#![tactic(auto)]

#[cfg(test)]
mod arena_tests;
#[cfg(test)]
mod label_area_tests;
#[cfg(test)]
mod word_tests;
