//! Tests of the formats: the flog, the map and the info block of an arena, index blocks and labels,
//! and the firmware's table.
//!
//! The contracts state every result and refusal. These tests use bytes that Linux and QEMU wrote,
//! and call each public function once.
#![tactic(auto)]

#[cfg(test)]
mod arena_tests;
#[cfg(test)]
mod label_tests;
#[cfg(test)]
mod table_tests;
