ghost use Rattle.std.specs.Prelude.{◌≡◌, ◌+◌, ◌<◌, IfOk, IfSome, length, replicate, nat_lt, position, slice_set, slice_index, min};

use nvd_words::Flags;
use std::alloc::{AllocError, Global};
use std::marker::Model;

/// How often each block was named. Contracts see a list of counts; 2 stands for every count above
/// 1.
///
/// It takes two bits for each block, in two rows. The second row is rarely touched, so the counts
/// of millions of blocks in random order stay in the processor's cache.
#[derive(Drop)]
pub struct Counts {
    named: Flags,
    again: Flags,
}

/// Returns the place of the first set flag.
fn first_flag(flags: &Flags) -> Option<usize>
    ensures first { result ≡ position (λ flag. flag) flags.now }
    ensures inside { IfSome result (λ place. place < length flags.now) }
{
    for place in 0..flags.len() {
        if flags.get(place) {
            return Some(place);
        }
    }
    None
}

impl Model for Counts {
    ghost use Rattle.std.specs.Prelude.{◌≡◌, List, ℕ, length};
    ghost use Rattle.map_table.specs.Times.{counts_of};

    ghost Value = { List ℕ };

    ghost view = { λ counts. counts_of counts.named counts.again };

    ghost invariant = { λ counts. length counts.again ≡ length counts.named };
}

impl Counts {
    /// Makes `blocks` counts, all of them 0. It fails only if memory runs out.
    pub fn new(alloc: Global, blocks: usize) -> Result<Counts, AllocError>
        ensures { IfOk result (λ counts. counts ≡ replicate blocks 0) }
    {
        let named = Flags::new(alloc, blocks)?;
        let again = Flags::new(alloc, blocks)?;
        Ok(Counts { named, again })
    }

    /// The number of blocks.
    #[inline]
    pub fn len(&self) -> usize
        ensures { result ≡ length self.now }
    {
        self.named.len()
    }

    /// Counts a block once more. A count of 2 stays 2.
    #[inline]
    pub fn add(&mut self, block: usize)
        requires { block < length self.old }
        ensures { self.new ≡ slice_set self.old block (min 2 (slice_index self.old block + 1)) }
    {
        if self.named.get(block) {
            self.again.set(block);
        } else {
            self.named.set(block);
        }
    }

    /// How often a block was named, 2 at most.
    #[inline]
    pub fn times(&self, block: usize) -> u32
        requires { block < length self.now }
        ensures { result ≡ slice_index self.now block }
    {
        if self.again.get(block) {
            2
        } else if self.named.get(block) {
            1
        } else {
            0
        }
    }

    /// Returns the least block with a count of 2.
    pub fn least_twice(&self) -> Option<usize>
        ensures block { result ≡ position (nat_lt 1) self.now }
        ensures inside { IfSome result (λ block. block < length self.now) }
    {
        first_flag(&self.again)
    }
}
