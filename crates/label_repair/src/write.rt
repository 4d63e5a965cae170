//! Writing an index block alone, without a label.
ghost use Rattle.std.specs.Prelude.{◌≡◌, ◌*◌, ◌/◌, ◌%◌, ◌≤◌, length, take, None};
ghost use Rattle.cut_words.specs.Words.{settled};
ghost use Rattle.cut_words.specs.WordBytes.{words_in};
ghost use Rattle.label_index.specs.Index.{place_of};
ghost use Rattle.label_index.specs.Valid.{IsWritable};
ghost use Rattle.label_index.specs.Spelling.{spelling_of};
ghost use Rattle.label_area.specs.Change.{with_block};
ghost use Rattle.label_area.specs.Writing.{CanWrite};

use cut_words::{CutWords, Fuse};
use label_area::write_block;
use label_index::{IndexBlock, Side, write_index};
use nvd_words::word_at;

/// The most words of an index block: that of an area of 1,048,576 bytes, with a bit for each of at
/// most 4,096 slots.
const BLOCK_WORDS: usize = 96;

/// The most bytes of an index block.
const BLOCK_BYTES: usize = 768;

/// Fills words from bytes, eight bytes a word, the low byte first.
fn fill_words(into: &mut [u64], bytes: &[u8])
    requires { length bytes.now ≡ 8 * length into.old }
    ensures { into.new ≡ words_in bytes.now }
{
    for at in 0..into.len() {
        into[at] = word_at(bytes, 8 * at);
    }
}

/// Returns a block's encoding, padded with zeros.
fn block_bytes(block: &IndexBlock) -> [u8; BLOCK_BYTES]
    requires writable { IsWritable block.now }
    requires small { block.now.size ≤ 768 }
    ensures { take block.now.size result ≡ spelling_of block.now }
{
    let mut bytes = [0; BLOCK_BYTES];
    write_index(&mut bytes[..block.size as usize], block);
    bytes
}

/// Returns the words of a block's encoding, padded with zeros.
fn block_words(block: &IndexBlock) -> [u64; BLOCK_WORDS]
    requires writable { IsWritable block.now }
    requires small { block.now.size ≤ 768 }
    requires whole { block.now.size % 8 ≡ 0 }
    ensures { take (block.now.size / 8) result ≡ words_in (spelling_of block.now) }
{
    let size = block.size as usize;
    let bytes = block_bytes(block);
    let mut words = [0; BLOCK_WORDS];
    fill_words(&mut words[..size / 8], &bytes[..size]);
    words
}

/// Returns the first word of a block.
fn block_at(block: &IndexBlock) -> u64
    ensures { result ≡ place_of block.now.size block.now.side / 8 }
{
    match block.side {
        Side::Zero => 0,
        Side::One => block.size / 8,
    }
}

/// Writes an index block on its side, in the order of a change: its word with Seq closed, the other
/// words, and then its word with Seq. Power isn't cut.
///
/// No word may be pending, and the block must be one of the area.
pub(crate) fn write_alone(words: &mut CutWords, block: &IndexBlock)
    requires { CanWrite words.old block.now None }
    ensures { words.new ≡ settled (with_block block.now words.old.kept) }
{
    let spelled = block_words(block);
    let spelled = &spelled[..block.size as usize / 8];
    let mut fuse = Fuse::none();
    let _all = write_block(words, &mut fuse, block_at(block), spelled);
}
