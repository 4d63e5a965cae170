//! Tests of `shell_run` over image sets in memory: calls on the outside that fail in turn, and what `init` and `check` save. What is
//! compared as text alone is a row of `tests/rows`, run on the proved program.
#![tactic(auto)]

#[cfg(test)]
mod check_tests;
#[cfg(test)]
mod fault_tests;
#[cfg(test)]
mod init_tests;
#[cfg(test)]
mod tables;
#[cfg(test)]
mod world;
