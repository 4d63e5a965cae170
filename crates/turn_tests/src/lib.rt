//! Tests of `turn_lock` and `turn_callers`: facts about threads that no clause states, and one call
//! of each public function.
#![tactic(auto)]

#[cfg(test)]
mod caller_tests;
#[cfg(test)]
mod lock_tests;
