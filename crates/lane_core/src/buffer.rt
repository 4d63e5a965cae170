ghost use Rattle.std.specs.Prelude.{◌≡◌, ◌<◌, [], length, replicate, slice_index, slice_set, IfOk};

use nvd_words::Items;
use std::alloc::{AllocError, Global};
use std::marker::Model;
use std::mem;

/// The words of one sector, or none.
#[derive(Debug, Drop)]
pub struct Buffer {
    words: Vec<u64>,
}

impl Model for Buffer {
    ghost use Rattle.std.specs.Prelude.{List, ℕ};

    ghost Value = { List ℕ };

    ghost view = { λ buffer. buffer.words.items };
}

impl Buffer {
    /// No words.
    pub fn none(alloc: Global) -> Buffer
        ensures { result ≡ [] }
    {
        Buffer {
            words: Vec::new(alloc),
        }
    }

    /// This many zeros.
    pub fn zeros(alloc: Global, count: usize) -> Result<Buffer, AllocError>
        ensures { IfOk result (λ buffer. buffer ≡ replicate count 0) }
    {
        let words = vec![in alloc; 0; count]?;
        Ok(Buffer { words })
    }

    /// These words.
    pub fn from_vec(words: Vec<u64>) -> Buffer
        ensures { result ≡ words.items }
    {
        Buffer { words }
    }

    /// The words as a list. Takes no memory.
    pub fn into_items(self) -> Items<u64>
        ensures { result ≡ self }
    {
        Items::from_vec(self.words)
    }

    /// Word `k`.
    #[inline]
    pub fn get(&self, k: u32) -> u64
        requires { k < length self.now }
        ensures { result ≡ slice_index self.now k }
    {
        self.words[k as usize]
    }

    /// Sets word `k`.
    #[inline]
    pub fn set(&mut self, k: u32, value: u64)
        requires { k < length self.old }
        ensures { self.new ≡ slice_set self.old k value }
    {
        self.words[k as usize] = value;
    }

    /// Copies these words here, as many as it has.
    #[inline]
    pub fn copy_from(&mut self, words: &[u64])
        requires { length words.now ≡ length self.old }
        ensures { self.new ≡ words.now }
    {
        self.words.copy_from_slice(words);
    }

    /// Sets all words to 0.
    pub fn clear(&mut self)
        ensures { self.new ≡ replicate (length self.old) 0 }
    {
        self.words.fill(0);
    }

    /// Takes the words out, and leaves none.
    pub fn take(&mut self, alloc: Global) -> Items<u64>
        ensures words { result ≡ self.old }
        ensures none { self.new ≡ [] }
    {
        mem::replace(self, Buffer::none(alloc)).into_items()
    }
}
