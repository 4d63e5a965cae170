//! Tests of image sets in directories.
//!
//! No clause states what a directory holds. These tests write sets into the current directory and
//! read them back.
#![tactic(auto)]

#[cfg(test)]
mod tests;
