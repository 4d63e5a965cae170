ghost use Rattle.std.specs.Prelude.{◌≡◌, ◌<◌, IfOk, if◌then◌else◌, Some, None, [], length, slice_index_or, is_some};
ghost use Rattle.cut_words.specs.Words.{settled, IsLeft};
ghost use Rattle.cut_words.specs.Leaving.{LeavesOne, LeavesFrom};

use crate::fuse::{Fuse, PowerCut};
use crate::space::WordSpace;
use crate::values::Values;
use nvd_media::Chooser;
use nvd_words::Flags;
use std::alloc::{AllocError, Global};
use std::marker::Model;

/// A row of words in memory. Contracts see the kept value of each word, and the value stored since.
///
/// For each word it takes two words and a bit. The second ones past the last stored word are never
/// touched.
#[derive(Debug, Drop)]
pub struct CutWords {
    kept: Vec<u64>,
    /// The value stored since the last flush, if the word is pending.
    stored: Values,
    pending: Flags,
}

impl Model for CutWords {
    ghost use Rattle.std.specs.Prelude.{◌≡◌, length};
    ghost use Rattle.cut_words.specs.Words.{Words};
    ghost use Rattle.cut_words.specs.Pending.{options_of};

    ghost Value = { Words };

    ghost view = { λ words. record { kept = words.kept.items; stored = options_of words.pending words.stored } };

    ghost invariant = { λ words. (length words.stored ≡ length words.kept.items) × (length words.pending ≡ length words.kept.items) };
}

/// Returns the value of one word after a crash.
fn leave_one<C: Chooser>(choose: &mut C, word: u64, kept: u64, stored: u64, pending: bool) -> u64
    ensures { LeavesOne C.picks word kept (if pending then Some stored else None) result choose.old choose.new }
{
    if pending && choose.pick(word) {
        stored
    } else {
        kept
    }
}

impl CutWords {
    /// Makes words with these kept values, none of them pending. It fails only if memory runs out.
    pub fn new(alloc: Global, words: Vec<u64>) -> Result<CutWords, AllocError>
        ensures { IfOk result (λ made. made ≡ settled words.items) }
    {
        let stored = Values::new(alloc, words.len())?;
        let pending = Flags::new(alloc, words.len())?;
        Ok(CutWords {
            kept: words,
            stored,
            pending,
        })
    }

    /// Returns whether a word was stored since its last flush, even with an equal value. The word
    /// must exist.
    pub fn pending(&self, i: u64) -> bool
        requires { i < length self.now.kept }
        ensures { result ≡ is_some (slice_index_or self.now.stored i None) }
    {
        self.pending.get(i as usize)
    }

    /// Returns the words after a crash. It asks the chooser once for each pending word, in
    /// ascending order, whether the stored value survives or the kept one.
    pub fn leave<C: Chooser>(self, choose: &mut C) -> Vec<u64>
        ensures asked { LeavesFrom C.picks 0 self.kept self.stored result.items choose.old choose.new }
        ensures left { IsLeft self result.items }
    {
        let CutWords {
            mut kept,
            stored,
            pending,
        } = self;
        for i in 0..kept.len() {
            kept[i] = leave_one(choose, i as u64, kept[i], stored.get(i), pending.get(i));
        }
        kept
    }
}

impl WordSpace for CutWords {
    ghost words = { λ words. words };

    ghost beside = { λ _. [] };

    fn count(&self) -> u64 {
        self.kept.len() as u64
    }

    fn load(&self, i: u64) -> u64 {
        let i = i as usize;
        if self.pending.get(i) {
            self.stored.get(i)
        } else {
            self.kept[i]
        }
    }

    fn load_from(&self, first: u64, into: &mut [u64]) {
        let first = first as usize;
        into.copy_from_slice(&self.kept[first..first + into.len()]);
    }

    fn store(&mut self, fuse: &mut Fuse, i: u64, v: u64) -> Result<(), PowerCut> {
        fuse.spend()?;
        self.stored.set(i as usize, v);
        self.pending.set(i as usize);
        Ok(())
    }

    fn keep(&mut self, fuse: &mut Fuse, i: u64) -> Result<(), PowerCut> {
        fuse.spend()?;
        let i = i as usize;
        if self.pending.get(i) {
            self.kept[i] = self.stored.get(i);
            self.pending.clear(i);
        }
        Ok(())
    }
}
