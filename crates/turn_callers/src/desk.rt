//! The object behind the lock: a power switch that any caller may turn off.
ghost use Rattle.std.specs.Prelude.{◌≡◌, true, false, IfOk, replicate};
ghost use Rattle.turn_callers.specs.Power.{any_of, told_only};

use std::alloc::{AllocError, Global};
use turn_lock::Parted;

/// A caller's part of the desk: whether it stopped the power, and whether it was told that power is
/// off. It never exists at run time.
pub struct Mine {
    /// Whether the desk has a place for the caller.
    pub placed: bool,
    pub stopped: bool,
    pub told: bool,
}

/// A power switch, with what each caller did and was told. Power is off exactly if a caller stopped
/// it, and a caller was told so only if it is off.
///
/// This fact is about several callers, so it can't be in a part. It is a test over the lists of all
/// callers, an invariant of the type.
#[derive(Drop)]
pub struct Desk {
    off: bool,
    // For each caller, whether it stopped the power, and whether it was told that power is off.
    stopped: Vec<bool>,
    told: Vec<bool>,
    ghost stopped_by_one: { off ≡ any_of stopped.items },
    ghost told_when_off: { told_only off told.items ≡ true },
}

impl Parted for Desk {
    ghost use Rattle.turn_callers.specs.Power.{mine_at};

    type Part = Mine;

    ghost part = { λ d q. mine_at d.stopped.items d.told.items q };
}

impl Desk {
    ghost use Rattle.std.specs.Prelude.{◌≡◌, ◌≢◌, ◌<◌, ◌≤◌, true, false, length, Some, None, IfOk, IfSome, IsTrue, slice_set, replicate};

    /// A desk with a place for each caller. Power is on.
    pub fn new(alloc: Global, callers: u32) -> Result<Desk, AllocError>
        ensures { IfOk result (λ d. (d.stopped.items ≡ replicate callers false) × (d.told.items ≡ replicate callers false)) }
    {
        Ok(Desk {
            off: false,
            stopped: silent(alloc, callers)?,
            told: silent(alloc, callers)?,
        })
    }

    /// Switches power off for caller `q`. It returns false, and nothing changes, if there is no
    /// place for the caller.
    pub fn stop(&mut self, q: usize) -> bool
        ensures yes { IsTrue result → (q < length self.old.stopped.items) × (self.new.stopped.items ≡ slice_set self.old.stopped.items q true) }
        ensures no { result ≡ false → self.new.stopped.items ≡ self.old.stopped.items }
        ensures told { self.new.told.items ≡ self.old.told.items }
        ensures refused { result ≡ false → length self.old.stopped.items ≤ q }
    {
        if q >= self.stopped.len() {
            return false;
        }
        self.stopped[q] = true;
        self.off = true;
        true
    }

    /// Returns whether power is off, and records that caller `q` was told so. It returns `None`,
    /// and nothing changes, if there is no place for the caller.
    pub fn ask(&mut self, q: usize) -> Option<bool>
        ensures stopped { self.new.stopped.items ≡ self.old.stopped.items }
        ensures yes { result ≡ Some true → (q < length self.old.told.items) × (self.new.told.items ≡ slice_set self.old.told.items q true) }
        ensures no { result ≢ Some true → self.new.told.items ≡ self.old.told.items }
        ensures answer { IfSome result (λ off. off ≡ any_of self.old.stopped.items) }
        ensures refused { result ≡ None → length self.old.told.items ≤ q }
    {
        if q >= self.told.len() {
            return None;
        }
        if self.off {
            self.told[q] = true;
        }
        Some(self.off)
    }
}

// No caller has done anything or been told anything yet.
fn silent(alloc: Global, callers: u32) -> Result<Vec<bool>, AllocError>
    ensures { IfOk result (λ v. v.items ≡ replicate callers false) }
{
    vec![in alloc; false; callers as usize]
}
