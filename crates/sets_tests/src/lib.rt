//! Tests of interleave sets, of the space in a region, of a namespace's words on a set, and of
//! image sets and the faults of their objects.
//!
//! The contracts state every result and refusal. These tests use a set that Linux accepted and sets
//! computed by hand, and let each call on the outside fail in turn.
#![tactic(auto)]

#[cfg(test)]
mod image_tests;
#[cfg(test)]
mod object_tests;
#[cfg(test)]
mod power_cut_tests;
#[cfg(test)]
mod region_tests;
#[cfg(test)]
mod tables;
