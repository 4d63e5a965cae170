ghost use Rattle.std.specs.Prelude.{◌≡◌, ◌<◌, ◌≤◌, ◌+◌, ◌-◌, ◌++◌, max, vec_len, length, slice_index, slice_set, replicate, IfOk};
ghost use Rattle.std.specs.Vec.{vec_capacity};

use std::alloc::{AllocError, Global};
use std::marker::Model;

/// A row of numbers that are 0 until they are set. Contracts see it as a list.
///
/// It reserves the room for all of them at the start, so setting one needs no memory. The room past
/// the last number that was set is never touched, and the system commits no page for it.
#[derive(Debug, Drop)]
pub struct Values {
    /// The numbers up to the last one that was set.
    front: Vec<u64>,
    count: usize,
}

impl Model for Values {
    ghost use Rattle.std.specs.Prelude.{◌≤◌, ◌-◌, ◌++◌, ℕ, List, vec_len, replicate};
    ghost use Rattle.std.specs.Vec.{vec_capacity};

    ghost Value = { List ℕ };

    ghost view = { λ values. values.front.items ++ replicate (values.count - vec_len values.front) 0 };

    ghost invariant = { λ values. (vec_len values.front ≤ values.count) × (values.count ≤ vec_capacity values.front) };
}

/// Appends zeros up to place `i`, for which there is room.
fn reach(front: &mut Vec<u64>, i: usize)
    requires { i < vec_capacity front.old }
    ensures items { front.new.items ≡ front.old.items ++ replicate (vec_len front.new - vec_len front.old) 0 }
    ensures len { vec_len front.new ≡ max (vec_len front.old) (i + 1) }
    ensures room { vec_capacity front.old ≤ vec_capacity front.new }
{
    while front.len() <= i {
        front.push_reserved(0);
    }
}

impl Values {
    /// Makes `count` zeros. It fails only if memory runs out.
    pub fn new(alloc: Global, count: usize) -> Result<Values, AllocError>
        ensures { IfOk result (λ values. values ≡ replicate count 0) }
    {
        let front = Vec::with_capacity(alloc, count)?;
        Ok(Values { front, count })
    }

    /// Returns the number at a place.
    pub fn get(&self, i: usize) -> u64
        requires { i < length self.now }
        ensures { result ≡ slice_index self.now i }
    {
        self.front.get(i).copied().unwrap_or(0)
    }

    /// Sets the number at a place.
    pub fn set(&mut self, i: usize, value: u64)
        requires { i < length self.old }
        ensures { self.new ≡ slice_set self.old i value }
    {
        reach(&mut self.front, i);
        self.front[i] = value;
    }
}
