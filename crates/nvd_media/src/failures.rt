ghost use Rattle.std.specs.Prelude.{◌≡◌, ◌≤◌, ◌↔◌, ◌+◌, ◌-◌, ◌^◌, IsErr, Contains, min};
ghost use Rattle.nvd_media.specs.Causes.{HasCause, Rose};

use crate::traits::Failed;

/// Says which calls of an object in memory fail, by their numbers from 0, and counts those that
/// did.
#[derive(Drop)]
pub struct Failures {
    failing: Vec<u64>,
    calls: u64,
    pub faults: u64,
}

impl Failures {
    /// Makes calls with these numbers fail. No call was made yet.
    pub fn new(failing: Vec<u64>) -> Failures
        ensures { result ≡ record { failing = failing; calls = 0; faults = 0 } }
    {
        Failures {
            failing,
            calls: 0,
            faults: 0,
        }
    }

    /// Counts a call. It returns `Failed` exactly if the call's number is among the failing ones.
    pub fn next_call(&mut self) -> Result<(), Failed>
        ensures cause { HasCause self.old.faults self.new.faults result }
        ensures chosen { IsErr result ↔ Contains self.old.failing.items self.old.calls }
        ensures counted { self.new.calls ≡ min (self.old.calls + 1) (2 ^ 64 - 1) }
        ensures same { self.new.failing ≡ self.old.failing }
    {
        let call = self.calls;
        self.calls = self.calls.saturating_add(1);
        if self.failing.contains(&call) {
            return Err(self.fail());
        }
        Ok(())
    }

    /// Counts a failure.
    pub fn fail(&mut self) -> Failed
        ensures later { self.old.faults ≤ self.new.faults }
        ensures rose { Rose self.old.faults self.new.faults }
        ensures calls { self.new.calls ≡ self.old.calls }
        ensures same { self.new.failing ≡ self.old.failing }
    {
        self.faults = self.faults.saturating_add(1);
        Failed
    }
}
