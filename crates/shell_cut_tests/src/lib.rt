//! Tests of `shell_run` over image sets in memory: every cut of each command that changes something, with both choosers
//! that always answer the same.
#![tactic(auto)]

#[cfg(test)]
mod command_cuts;
#[cfg(test)]
mod init_cuts;
#[cfg(test)]
mod tables;
#[cfg(test)]
mod world;
