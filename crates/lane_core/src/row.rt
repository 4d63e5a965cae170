ghost use Rattle.std.specs.Prelude.{◌≡◌, ◌<◌, ◌+◌, ◌^◌, ◌++◌, length, replicate, slice_index, take, drop, if◌then◌else◌, Some, None, ◌*◌, ◌≤◌, IfOk};
ghost use Rattle.cut_words.specs.Leaving.{LeavesFrom, LeavesOne};
ghost use Rattle.lane_core.specs.Rows.{kept_in, new_row, put_in, stored_in, words_in};

use crate::arena_words::ArenaWords;
use crate::words::reader_words;
use nvd_media::Chooser;
use nvd_words::Flags;
use std::alloc::{AllocError, Global};
use std::marker::Model;

/// The words of an arena as a load returns them, the same words as they are kept, and behind these
/// the reader table and the map locks. For each word of the arena it knows whether the word was
/// stored since its last keep.
#[derive(Debug, Drop)]
pub struct Row {
    words: Vec<u64>,
    pending: Flags,
}

impl Model for Row {
    ghost use Rattle.std.specs.Prelude.{◌≤◌, ◌*◌, length};
    ghost use Rattle.lane_core.specs.Rows.{RowWords};

    ghost Value = { RowWords };

    ghost view = { λ row. record { words = row.words.items; pending = row.pending } };

    ghost invariant = { λ row. 2 * length row.pending ≤ length row.words.items };
}

/// One word after a power cut.
fn leave_one<C: Chooser>(choose: &mut C, word: u64, kept: u64, stored: u64, pending: bool) -> u64
    ensures { LeavesOne C.picks word kept (if pending then Some stored else None) result choose.old choose.new }
{
    if pending && choose.pick(word) {
        stored
    } else {
        kept
    }
}

impl Row {
    /// The row of an arena's words and of this many lanes. No word was stored since its last keep.
    pub fn new(alloc: Global, words: &[u64], lanes: u32) -> Result<Row, AllocError>
        ensures { IfOk result (λ row. row ≡ new_row words.now lanes) }
    {
        let count = words.len();
        let free = (reader_words(lanes) + u64::from(lanes)) as usize;
        let pending = Flags::new(alloc, count)?;
        let tables = vec![in alloc; 0; free]?;
        let mut row = Vec::new(alloc);
        row.extend_from_slice(words)?;
        row.extend_from_slice(words)?;
        row.extend_from_slice(&tables)?;
        Ok(Row {
            words: row,
            pending,
        })
    }

    /// The word at a place.
    #[inline]
    pub fn load(&self, at: u64) -> u64
        requires there { at < length self.now.words }
        ensures { result ≡ slice_index self.now.words at }
    {
        self.words[at as usize]
    }

    /// Sets a reader word or a lock.
    #[inline]
    pub fn put(&mut self, at: u64, value: u64)
        requires there { at < length self.old.words }
        ensures { self.new ≡ put_in self.old at value }
    {
        self.words[at as usize] = value;
    }

    /// Stores a word of the arena.
    #[inline]
    pub fn store(&mut self, at: u64, value: u64)
        requires there { at < length self.old.pending }
        ensures { self.new ≡ stored_in self.old at value }
    {
        self.words[at as usize] = value;
        self.pending.set(at as usize);
    }

    /// Keeps a word of the arena.
    #[inline]
    pub fn keep(&mut self, at: u64)
        requires there { at < length self.old.pending }
        ensures { self.new ≡ kept_in self.old at }
    {
        let at = at as usize;
        let kept = self.pending.len() + at;
        self.words[kept] = self.words[at];
        self.pending.clear(at);
    }

    /// This many words from a place on.
    #[inline]
    pub fn slice(&self, at: u64, count: u32) -> &[u64]
        requires there { at + count < length self.now.words }
        ensures words { result.now ≡ take count (drop at self.now.words) }
        ensures count { length result.now ≡ count }
    {
        let first = at as usize;
        &self.words[first..first + count as usize]
    }

    /// The arena's words after a power cut. The chooser is asked once for each word that was stored
    /// since its last keep, in rising order, and says which value survives: the stored one or the
    /// kept one.
    pub fn leave<C: Chooser>(self, choose: &mut C) -> Vec<u64>
        requires size { 2 * length self.pending ≤ length self.words }
        ensures asked { LeavesFrom C.picks 0 (words_in self).kept (words_in self).stored result.items choose.old choose.new }
    {
        let Row { mut words, pending } = self;
        let count = pending.len();
        for i in 0..count {
            let kept = words[count + i];
            words[i] = leave_one(choose, i as u64, kept, words[i], pending.get(i));
        }
        words.truncate(count);
        words
    }

    /// The arena's words, seen and kept. It takes memory for the kept ones.
    pub fn into_words(self) -> Result<ArenaWords, AllocError>
        requires size { 2 * length self.pending ≤ length self.words }
        ensures seen { IfOk result (λ made. made.seen.items ≡ take (length self.pending) self.words) }
        ensures kept { IfOk result (λ made. made.kept.items ≡ (words_in self).kept) }
    {
        let Row { words, pending } = self;
        let count = pending.len();
        let mut seen = words;
        let mut kept = seen.split_off(count)?;
        kept.truncate(count);
        Ok(ArenaWords { seen, kept })
    }
}
