//! Counting turns: the least that callers can share.
ghost use Rattle.std.specs.Prelude.{◌≡◌, ◌+◌, sum};

use std::alloc::{AllocError, Global};
use turn_lock::Parted;

/// A caller's part of a tally: how many turns it has left, and how many there are in all. It never
/// exists at run time.
///
/// What all callers share may be in a part if it never changes.
pub struct Quota {
    pub left: u64,
    pub all: u64,
}

/// Counts the turns that were taken.
#[derive(Drop)]
pub struct Tally {
    turns: u64,
    // How often the turn went from one caller to another.
    changes: u64,
    last: usize,
    // The turns that each caller has left, and the number of all turns at the start.
    left: Vec<u64>,
    all: u64,
    ghost counted: { turns + sum left.items ≡ all },
}

impl Parted for Tally {
    ghost use Rattle.turn_callers.specs.Counts.{quota_at};

    type Part = Quota;

    ghost part = { λ t q. quota_at t.left.items t.all q };
}

impl Tally {
    ghost use Rattle.std.specs.Prelude.{◌≡◌, ◌+◌, ◌*◌, ◌-◌, ◌^◌, ◌<◌, ◌==◌, if◌then◌else◌, min, IfOk, replicate, slice_index, slice_set};

    /// Makes a tally of no turns yet, with `each` turns left to each caller.
    pub fn new(alloc: Global, callers: u32, each: u64) -> Result<Tally, AllocError>
        requires { callers * each < 2 ^ 64 }
        ensures left { IfOk result (λ t. t.left.items ≡ replicate callers each) }
        ensures all { IfOk result (λ t. t.all ≡ callers * each) }
    {
        let all = u64::from(callers) * each;
        Ok(Tally {
            turns: 0,
            changes: 0,
            last: 0,
            left: vec![in alloc; each; callers as usize]?,
            all,
        })
    }

    /// Counts a turn of a caller that has one left.
    pub fn count(&mut self, by: usize)
        requires { 0 < slice_index self.old.left.items by }
        ensures left { self.new.left.items ≡ slice_set self.old.left.items by (slice_index self.old.left.items by - 1) }
        ensures all { self.new.all ≡ self.old.all }
        ensures last { self.new.last ≡ by }
        ensures changes { self.new.changes ≡ (if self.old.last == by then self.old.changes else min (self.old.changes + 1) (2 ^ 64 - 1)) }
    {
        let left = self.left[by] - 1;
        self.left[by] = left;
        self.turns += 1;
        if self.last != by {
            self.last = by;
            self.changes = self.changes.saturating_add(1);
        }
    }

    /// Returns how many turns were taken.
    pub fn turns(&self) -> u64
        ensures { result ≡ self.now.turns }
    {
        self.turns
    }

    /// Returns how often the turn went from one caller to another.
    pub fn changes(&self) -> u64
        ensures { result ≡ self.now.changes }
    {
        self.changes
    }
}
