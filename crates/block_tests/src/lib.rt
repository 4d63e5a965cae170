//! Tests of `block_service` on an arena of 16 MiB: what no clause says. The call returns, in threads
//! too, and all jobs are completed.
#![tactic(auto)]

#[cfg(test)]
mod jobs;
#[cfg(test)]
mod tests;
#[cfg(test)]
mod words;
