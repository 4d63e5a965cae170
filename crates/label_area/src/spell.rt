//! The canonical encodings of index blocks and labels, as words.
ghost use Rattle.std.specs.Prelude.{◌≡◌, ◌*◌, ◌/◌, ◌%◌, ◌≤◌, length, take};
ghost use Rattle.cut_words.specs.WordBytes.{words_in};
ghost use Rattle.label_codec.specs.Writable.{IsSound, IsWritable as IsWritableLabel};
ghost use Rattle.label_codec.specs.Label.{spelling_of as label_spelling};
ghost use Rattle.label_index.specs.Valid.{IsWritable};
ghost use Rattle.label_index.specs.Spelling.{spelling_of as block_spelling};

use label_codec::{Label, write_label};
use label_index::{IndexBlock, write_index};
use nvd_words::word_at;

/// The words of a label.
const LABEL_WORDS: usize = 32;

/// The bytes of a label.
const LABEL_BYTES: usize = 256;

/// The most words of an index block: that of an area of 1,048,576 bytes, with a bit for each of at
/// most 4,096 slots.
const BLOCK_WORDS: usize = 96;

/// The most bytes of an index block.
const BLOCK_BYTES: usize = 768;

/// Fills words from bytes, eight bytes a word, the low byte first.
fn fill_words(into: &mut [u64], bytes: &[u8])
    requires { length bytes.now ≡ 8 * length into.old }
    ensures { into.new ≡ words_in bytes.now }
{
    for at in 0..into.len() {
        into[at] = word_at(bytes, 8 * at);
    }
}

/// Returns a block's encoding, padded with zeros.
fn block_bytes(block: &IndexBlock) -> [u8; BLOCK_BYTES]
    requires writable { IsWritable block.now }
    requires small { block.now.size ≤ 768 }
    ensures { take block.now.size result ≡ block_spelling block.now }
{
    let mut bytes = [0; BLOCK_BYTES];
    write_index(&mut bytes[..block.size as usize], block);
    bytes
}

/// Returns the words of a block's encoding, padded with zeros. The block must be one of a label
/// area.
pub(crate) fn block_words(block: &IndexBlock) -> [u64; BLOCK_WORDS]
    requires writable { IsWritable block.now }
    requires small { block.now.size ≤ 768 }
    requires whole { block.now.size % 8 ≡ 0 }
    ensures { take (block.now.size / 8) result ≡ words_in (block_spelling block.now) }
{
    let size = block.size as usize;
    let bytes = block_bytes(block);
    let mut words = [0; BLOCK_WORDS];
    fill_words(&mut words[..size / 8], &bytes[..size]);
    words
}

/// Returns the words of a label's encoding. The name must have no zero byte, and the sizes must not
/// be odd.
pub(crate) fn label_words(label: &Label) -> [u64; LABEL_WORDS]
    requires { IsSound label.now }
    ensures spelled { result ≡ words_in (label_spelling label.now) }
    ensures writable { IsWritableLabel label.now }
{
    let mut bytes = [0; LABEL_BYTES];
    write_label(&mut bytes, label);
    let mut words = [0; LABEL_WORDS];
    fill_words(&mut words, &bytes);
    words
}
