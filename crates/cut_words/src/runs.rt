ghost use Rattle.std.specs.Prelude.{◌≡◌, ◌+◌, ◌^◌, ◌<◌, ◌≤◌, None, length, slice_index_or, is_ok};
ghost use Rattle.cut_words.specs.Fuses.{Makes};
ghost use Rattle.cut_words.specs.Groups.{written};
ghost use Rattle.cut_words.specs.Runs.{NonePending, keeps_from, run_steps, stores_from};

use crate::fuse::{Fuse, PowerCut};
use crate::space::WordSpace;

/// Stores these values into the words from `base` on, none of which is pending. Each store is a
/// step.
///
/// It returns `PowerCut` exactly if fewer steps are left. Then it has made as many as there were.
pub fn store_from<W: WordSpace>(
    words: &mut W,
    fuse: &mut Fuse,
    base: u64,
    values: &[u64],
) -> Result<(), PowerCut>
    requires inside { base + length values.now ≤ length (W.words words.old).kept }
    requires small { length (W.words words.old).kept < 2 ^ 60 }
    requires settled { NonePending (W.words words.old) base (length values.now) }
    ensures made { Makes (W.words words.old) (W.words words.new) fuse.old fuse.new (stores_from base values.now) (is_ok result) }
    ensures count { length (W.words words.new).kept ≡ length (W.words words.old).kept }
    ensures beside { W.beside words.new ≡ W.beside words.old }
{
    let mut place = base;
    let mut index = 0;
    while index < values.len() {
        words.store(fuse, place, values[index])?;
        place += 1;
        index += 1;
    }
    Ok(())
}

/// Flushes `count` words from `base` on. Each flush is a step.
///
/// It returns `PowerCut` exactly if fewer steps are left. Then it has made as many as there were.
pub fn keep_from<W: WordSpace>(
    words: &mut W,
    fuse: &mut Fuse,
    base: u64,
    count: u64,
) -> Result<(), PowerCut>
    requires inside { base + count ≤ length (W.words words.old).kept }
    requires small { length (W.words words.old).kept < 2 ^ 60 }
    ensures made { Makes (W.words words.old) (W.words words.new) fuse.old fuse.new (keeps_from base count) (is_ok result) }
    ensures count { length (W.words words.new).kept ≡ length (W.words words.old).kept }
    ensures beside { W.beside words.new ≡ W.beside words.old }
{
    let mut place = base;
    while place < base + count {
        words.keep(fuse, place)?;
        place += 1;
    }
    Ok(())
}

/// Stores a value into a word that isn't pending, and flushes it: two steps.
///
/// It returns `PowerCut` exactly if fewer steps are left. Then it has made as many as there were.
pub fn write_word<W: WordSpace>(
    words: &mut W,
    fuse: &mut Fuse,
    i: u64,
    v: u64,
) -> Result<(), PowerCut>
    requires inside { i < length (W.words words.old).kept }
    requires settled { slice_index_or (W.words words.old).stored i None ≡ None }
    ensures made { Makes (W.words words.old) (W.words words.new) fuse.old fuse.new (written i v) (is_ok result) }
    ensures count { length (W.words words.new).kept ≡ length (W.words words.old).kept }
    ensures beside { W.beside words.new ≡ W.beside words.old }
{
    words.store(fuse, i, v)?;
    words.keep(fuse, i)
}

/// Stores these values into the words from `base` on, none of which is pending, and then flushes
/// them: two steps for each word.
///
/// It returns `PowerCut` exactly if fewer steps are left. Then it has made as many as there were.
#[tactic(auto, using(crate::proofs::Making::making))]
pub fn write_from<W: WordSpace>(
    words: &mut W,
    fuse: &mut Fuse,
    base: u64,
    values: &[u64],
) -> Result<(), PowerCut>
    requires inside { base + length values.now ≤ length (W.words words.old).kept }
    requires small { length (W.words words.old).kept < 2 ^ 60 }
    requires settled { NonePending (W.words words.old) base (length values.now) }
    ensures made { Makes (W.words words.old) (W.words words.new) fuse.old fuse.new (run_steps base values.now) (is_ok result) }
    ensures count { length (W.words words.new).kept ≡ length (W.words words.old).kept }
    ensures beside { W.beside words.new ≡ W.beside words.old }
{
    store_from(words, fuse, base, values)?;
    keep_from(words, fuse, base, values.len() as u64)
}
