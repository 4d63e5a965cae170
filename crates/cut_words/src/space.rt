ghost use Rattle.std.specs.Prelude.{◌≡◌, ◌+◌, ◌<◌, ◌≤◌, ℕ, List, [], ◌∷◌, None, drop, length, slice_index_or, is_ok, take};
ghost use Rattle.cut_words.specs.Words.{AreFlushed, Words, store, keep, seen_at};
ghost use Rattle.cut_words.specs.Fuses.{Makes};

use crate::fuse::{Fuse, PowerCut};

/// A row of words that are stored and flushed one at a time.
pub trait WordSpace {
    /// The kept value of each word, and the value stored since.
    ghost words: { Self → Words };

    /// The other words of the same medium. No step touches them.
    ghost beside: { Self → List Words };

    /// Returns the number of words.
    fn count(&self) -> u64
        ensures { result ≡ length (words self.now).kept };

    /// Returns the stored value of a word, or its kept value if it isn't pending. The word must
    /// exist.
    fn load(&self, i: u64) -> u64
        requires { i < length (words self.now).kept }
        ensures { result ≡ seen_at (words self.now) i };

    /// Loads the words from `first` on, as many as `into` has. They must exist, and none of them may
    /// be pending. It copies runs of words, so it is faster than one [`load`](Self::load) a word.
    fn load_from(&self, first: u64, into: &mut [u64])
        requires inside { first + length into.old ≤ length (words self.now).kept }
        requires flushed { AreFlushed (words self.now) first (length into.old) }
        ensures { into.new ≡ take (length into.old) (drop first (words self.now).kept) };

    /// Stores a value into a word: one step. The word must exist and must not be pending.
    /// `PowerCut` means that no step was left; then nothing changed.
    fn store(&mut self, fuse: &mut Fuse, i: u64, v: u64) -> Result<(), PowerCut>
        requires inside { i < length (words self.old).kept }
        requires settled { slice_index_or (words self.old).stored i None ≡ None }
        ensures made { Makes (words self.old) (words self.new) fuse.old fuse.new (store i v ∷ []) (is_ok result) }
        ensures beside { beside self.new ≡ beside self.old };

    /// Flushes a word: one step. The value that a load returns becomes its kept value, and the word
    /// is no longer pending. `PowerCut` means that no step was left; then nothing changed.
    fn keep(&mut self, fuse: &mut Fuse, i: u64) -> Result<(), PowerCut>
        requires { i < length (words self.old).kept }
        ensures made { Makes (words self.old) (words self.new) fuse.old fuse.new (keep i ∷ []) (is_ok result) }
        ensures beside { beside self.new ≡ beside self.old };
}
