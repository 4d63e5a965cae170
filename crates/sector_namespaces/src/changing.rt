//! One of the arenas of a sector namespace that are open was changed, and its words are put back.
ghost use Rattle.std.specs.Prelude.{◌≡◌, ◌+◌, ◌^◌, ◌<◌, ◌≤◌, length, slice_set, take};
ghost use Rattle.cut_words.specs.WordBytes.{put_at};
ghost use Rattle.cut_words.specs.Words.{settled};
ghost use Rattle.arena_open.specs.Writes.{IsSettled};
ghost use Rattle.sector_namespaces.specs.Changing.{OneArenaChanges, start_of};

use arena_open::{ArenaState, Chain};
use cut_words::{Fuse, WordSpace, write_word};
use power_cut::SetWords;

/// The words of a sector namespace, spread over the modules, and its arenas.
#[derive(Drop)]
pub struct OpenArenas<'a> {
    pub words: SetWords<'a>,
    pub chain: Chain,
}

/// Returns at which word of the namespace arena `k` begins, which must exist.
///
/// The arenas must be those of a namespace of at most 2^52 words, so that no sum overflows.
pub fn start_of(arenas: &[ArenaState], k: usize) -> u64
    requires there { k < length arenas.now }
    requires few { start_of arenas.now ≤ 2 ^ 52 }
    ensures { result ≡ start_of (take k arenas.now) }
{
    let mut at = 0;
    for i in 0..k {
        at += arenas[i].info.next / 8;
    }
    at
}

/// Puts a word, if another one is there. Power isn't cut.
fn put_word<W: WordSpace>(space: &mut W, at: u64, word: u64)
    requires inside { at < length (W.words space.old).kept }
    requires settled { IsSettled (W.words space.old) }
    ensures put { W.words space.new ≡ settled (slice_set (W.words space.old).kept at word) }
    ensures beside { W.beside space.new ≡ W.beside space.old }
{
    if space.load(at) == word {
        return;
    }
    let mut fuse = Fuse::none();
    let _all = write_word(space, &mut fuse, at, word);
}

/// Puts words at a place of a namespace's words. Each one that differs from what is there is stored
/// and flushed.
///
/// The words must fit there, and none in the space may be pending. The space has fewer than 2^60.
pub fn put_words<W: WordSpace>(space: &mut W, first: u64, words: &[u64])
    requires inside { first + length words.now ≤ length (W.words space.old).kept }
    requires small { length (W.words space.old).kept < 2 ^ 60 }
    requires settled { IsSettled (W.words space.old) }
    ensures put { W.words space.new ≡ settled (put_at (W.words space.old).kept first words.now) }
    ensures beside { W.beside space.new ≡ W.beside space.old }
{
    for i in 0..words.len() {
        put_word(space, first + i as u64, words[i]);
    }
}

/// A law: if only the words of one arena of a namespace change, and they open as an arena with the
/// same info, then only this arena changes.
#[tactic(auto, using(crate::proofs::Chains::one_arena_changes))]
pub fn one_arena_changes()
    ensures { OneArenaChanges }
{}
