ghost use Rattle.std.specs.Prelude.{◌≡◌, ◌+◌, ◌/◌, ◌^◌, ◌<◌, ◌≤◌, ◌++◌, length, is_ok, Some};
ghost use Rattle.cut_words.specs.Fuses.{Makes};
ghost use Rattle.cut_words.specs.Runs.{NonePending, run_steps};
ghost use Rattle.label_codec.specs.declared.label.Label.{Label};
ghost use Rattle.label_codec.specs.Writable.{IsWritable};
ghost use Rattle.label_index.specs.Index.{place_of};
ghost use Rattle.label_area.specs.Writing.{CanChange, CanWrite, IsWholeAfter, SettlesAfter, block_steps_from, others_keeps, others_steps, others_stores, writing_steps};

use crate::spell::{block_words, label_words};
use cut_words::{
    CutWords, Fuse, PowerCut, WordSpace, keep_from, store_from, write_from, write_word,
};
use label_codec::Label;
use label_index::{IndexBlock, Side};

/// The word of an index block with Seq in its high half: the word at offset 16.
const SEQ_WORD: usize = 2;

/// The word after it.
const AFTER_SEQ: usize = 3;

/// 2^32: a word modulo this has Seq 0, so its block is closed.
const CLOSED: u64 = 1 << 32;

/// Stores the words of a block, except the one with Seq, from `base` on.
fn store_others<W: WordSpace>(
    words: &mut W,
    fuse: &mut Fuse,
    base: u64,
    block: &[u64],
) -> Result<(), PowerCut>
    requires inside { base + length block.now ≤ length (W.words words.old).kept }
    requires small { length (W.words words.old).kept < 2 ^ 60 }
    requires enough { 3 ≤ length block.now }
    requires settled { NonePending (W.words words.old) base (length block.now) }
    ensures made { Makes (W.words words.old) (W.words words.new) fuse.old fuse.new (others_stores base block.now) (is_ok result) }
    ensures count { length (W.words words.new).kept ≡ length (W.words words.old).kept }
    ensures beside { W.beside words.new ≡ W.beside words.old }
{
    store_from(words, fuse, base, &block[..SEQ_WORD])?;
    store_from(words, fuse, base + 3, &block[AFTER_SEQ..])
}

/// Flushes these words of a block of `count` words.
fn keep_others<W: WordSpace>(
    words: &mut W,
    fuse: &mut Fuse,
    base: u64,
    count: u64,
) -> Result<(), PowerCut>
    requires inside { base + count ≤ length (W.words words.old).kept }
    requires small { length (W.words words.old).kept < 2 ^ 60 }
    requires enough { 3 ≤ count }
    ensures made { Makes (W.words words.old) (W.words words.new) fuse.old fuse.new (others_keeps base count) (is_ok result) }
    ensures count { length (W.words words.new).kept ≡ length (W.words words.old).kept }
    ensures beside { W.beside words.new ≡ W.beside words.old }
{
    keep_from(words, fuse, base, 2)?;
    keep_from(words, fuse, base + 3, count - 3)
}

/// Writes the words of a block, except the one with Seq.
fn write_others<W: WordSpace>(
    words: &mut W,
    fuse: &mut Fuse,
    base: u64,
    block: &[u64],
) -> Result<(), PowerCut>
    requires inside { base + length block.now ≤ length (W.words words.old).kept }
    requires small { length (W.words words.old).kept < 2 ^ 60 }
    requires enough { 3 ≤ length block.now }
    requires settled { NonePending (W.words words.old) base (length block.now) }
    ensures made { Makes (W.words words.old) (W.words words.new) fuse.old fuse.new (others_steps base block.now) (is_ok result) }
    ensures count { length (W.words words.new).kept ≡ length (W.words words.old).kept }
    ensures beside { W.beside words.new ≡ W.beside words.old }
{
    store_others(words, fuse, base, block)?;
    keep_others(words, fuse, base, block.len() as u64)
}

/// Writes the words of an index block: the word with Seq closed, the other words, and then the word
/// with Seq.
///
/// None of the words may be pending. It returns `PowerCut` exactly if fewer steps are left than two
/// for each word and two more. Then it has made as many as there were.
pub fn write_block<W: WordSpace>(
    words: &mut W,
    fuse: &mut Fuse,
    base: u64,
    block: &[u64],
) -> Result<(), PowerCut>
    requires inside { base + length block.now ≤ length (W.words words.old).kept }
    requires small { length (W.words words.old).kept < 2 ^ 60 }
    requires enough { 3 ≤ length block.now }
    requires settled { NonePending (W.words words.old) base (length block.now) }
    ensures made { Makes (W.words words.old) (W.words words.new) fuse.old fuse.new (block_steps_from base block.now) (is_ok result) }
    ensures count { length (W.words words.new).kept ≡ length (W.words words.old).kept }
    ensures beside { W.beside words.new ≡ W.beside words.old }
{
    write_word(words, fuse, base + 2, block[SEQ_WORD] % CLOSED)?;
    write_others(words, fuse, base, block)?;
    write_word(words, fuse, base + 2, block[SEQ_WORD])
}

/// Writes the label's words, then those of the block.
fn write_steps<W: WordSpace>(
    words: &mut W,
    fuse: &mut Fuse,
    label_at: u64,
    label: &[u64],
    block_at: u64,
    block: &[u64],
) -> Result<(), PowerCut>
    requires change { CanChange (W.words words.old) label_at label.now block_at block.now }
    ensures made { Makes (W.words words.old) (W.words words.new) fuse.old fuse.new (run_steps label_at label.now ++ block_steps_from block_at block.now) (is_ok result) }
    ensures count { length (W.words words.new).kept ≡ length (W.words words.old).kept }
    ensures beside { W.beside words.new ≡ W.beside words.old }
{
    write_from(words, fuse, label_at, label)?;
    write_block(words, fuse, block_at, block)
}

/// Makes one change of a label area: writes a label's words, if there are any, and then the words
/// of the other side's block.
///
/// The words must be those of the canonical encodings, at their places, and none of them may be
/// pending. It returns `PowerCut` exactly if fewer steps are left than the change needs. In any
/// case, the words after a crash show the area before the change or after it; after `Ok` they show
/// only the area after it (`IsWholeAfter`). There the block is the current block's successor, with
/// one slot freed, and the label's slot, which was free, taken. After `Ok` no word is pending, so
/// another change may follow (`SettlesAfter`).
pub fn write_change<W: WordSpace>(
    words: &mut W,
    fuse: &mut Fuse,
    label_at: u64,
    label: &[u64],
    block_at: u64,
    block: &[u64],
) -> Result<(), PowerCut>
    requires change { CanChange (W.words words.old) label_at label.now block_at block.now }
    ensures made { Makes (W.words words.old) (W.words words.new) fuse.old fuse.new (run_steps label_at label.now ++ block_steps_from block_at block.now) (is_ok result) }
    ensures whole { IsWholeAfter (W.words words.old) (W.words words.new) label_at label.now block_at block.now (is_ok result) }
    ensures settles { SettlesAfter (W.words words.old) (W.words words.new) label_at label.now block_at block.now (is_ok result) }
    ensures count { length (W.words words.new).kept ≡ length (W.words words.old).kept }
    ensures beside { W.beside words.new ≡ W.beside words.old }
{
    write_steps(words, fuse, label_at, label, block_at, block)
}

/// Returns the first word of a block.
fn block_at(block: &IndexBlock) -> u64
    ensures { result ≡ place_of block.now.size block.now.side / 8 }
{
    match block.side {
        Side::Zero => 0,
        Side::One => block.size / 8,
    }
}

/// Writes a block, and before it a label into its slot, if there is one.
///
/// No word may be pending, the block must be one of the area, and the label's slot must lie inside
/// the area. It returns `PowerCut` exactly if fewer steps are left than two for each word of the
/// block, two more, and 64 for a label. Then it has made as many as there were.
pub(crate) fn write_spelled(
    words: &mut CutWords,
    fuse: &mut Fuse,
    block: &IndexBlock,
    put: &Option<Label>,
) -> Result<(), PowerCut>
    requires { CanWrite words.old block.now put.now }
    ensures made { Makes words.old words.new fuse.old fuse.new (writing_steps words.old.kept block.now put.now) (is_ok result) }
    ensures writable { (label : Label) → put.now ≡ Some label → IsWritable label }
{
    let spelled = block_words(block);
    let spelled = &spelled[..block.size as usize / 8];
    let at = block_at(block);
    match put {
        None => write_change(words, fuse, 0, &[], at, spelled),
        Some(label) => {
            let label_at = block.size / 4 + 32 * u64::from(label.slot);
            write_change(words, fuse, label_at, &label_words(label), at, spelled)
        }
    }
}
