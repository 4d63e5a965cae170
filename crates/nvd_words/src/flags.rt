ghost use Rattle.std.specs.Prelude.{◌≡◌, ◌<◌, ◌*◌, ◌≤◌, ◌+◌, IfOk, true, false, length, slice_index_or, slice_set, replicate};

use std::alloc::{AllocError, Global};
use std::marker::Model;

/// The number of flags in a word.
const BITS: usize = 64;

/// A row of flags, one bit each. Contracts see it as a list of Booleans.
///
/// Flag i is bit i mod 64 of word i / 64.
#[derive(Debug, Drop)]
pub struct Flags {
    words: Vec<u64>,
    count: usize,
}

impl Model for Flags {
    ghost use Rattle.std.specs.Prelude.{◌≤◌, ◌*◌, List, Bool, length};
    ghost use Rattle.nvd_words.specs.Bits.{flags_of};

    ghost Value = { List Bool };

    ghost view = { λ flags. flags_of flags.words.items flags.count };

    ghost invariant = { λ flags. flags.count ≤ 64 * length flags.words.items };
}

impl Flags {
    /// Makes `count` flags, none of them set. It fails only if memory runs out.
    pub fn new(alloc: Global, count: usize) -> Result<Flags, AllocError>
        ensures { IfOk result (λ flags. flags ≡ replicate count false) }
    {
        let words = vec![in alloc; 0; count.div_ceil(BITS)]?;
        Ok(Flags { words, count })
    }

    /// The number of flags.
    #[inline]
    pub fn len(&self) -> usize
        ensures { result ≡ length self.now }
    {
        self.count
    }

    /// Returns whether flag `i` is set. `i` must be less than the number of flags.
    #[inline]
    pub fn get(&self, i: usize) -> bool
        requires { i < length self.now }
        ensures { result ≡ slice_index_or self.now i false }
    {
        (self.words[i / BITS] >> (i % BITS)) & 1 == 1
    }

    /// Sets flag `i`, and no other. `i` must be less than the number of flags.
    #[inline]
    pub fn set(&mut self, i: usize)
        requires { i < length self.old }
        ensures { self.new ≡ slice_set self.old i true }
    {
        self.words[i / BITS] |= 1 << (i % BITS);
    }

    /// Clears flag `i`, and no other. `i` must be less than the number of flags.
    #[inline]
    pub fn clear(&mut self, i: usize)
        requires { i < length self.old }
        ensures { self.new ≡ slice_set self.old i false }
    {
        self.words[i / BITS] &= !(1 << (i % BITS));
    }
}
