//! Reading both sides of a label area.
ghost use Rattle.std.specs.Prelude.{◌≡◌, ◌≢◌, ◌*◌, ◌≤◌, length, Err, IfOk};
ghost use Rattle.cut_words.specs.Words.{settled};
ghost use Rattle.cut_words.specs.WordBytes.{bytes_of};
ghost use Rattle.label_index.specs.Area.{IsAreaSize};
ghost use Rattle.label_index.specs.Index.{index_reading};

use cut_words::{CutWords, WordSpace};
use label_index::{IndexBlock, IndexFault, Side, read_index};
use std::alloc::{AllocError, Global};

/// A side's index block, or why it is refused.
pub(crate) type Reading = Result<IndexBlock, IndexFault>;

/// Returns the bytes of words, none of which is pending.
pub(crate) fn bytes_of_words(alloc: Global, words: &CutWords) -> Result<Vec<u8>, AllocError>
    requires { words.now ≡ settled words.now.kept }
    ensures { IfOk result (λ bytes. bytes.items ≡ bytes_of words.now.kept) }
{
    let mut bytes = Vec::new(alloc);
    for i in 0..words.count() {
        bytes.extend_from_slice(&words.load(i).to_le_bytes())?;
    }
    Ok(bytes)
}

/// Reads a side of an area. Out of memory is no finding about it.
pub(crate) fn read_side(alloc: Global, area: &[u8], side: Side) -> Result<Reading, AllocError>
    requires { IsAreaSize (length area.now) }
    ensures read { IfOk result (λ read. read ≡ index_reading area.now side) }
    ensures seq { IfOk result (λ read. IfOk read (λ block. 1 ≤ block.seq)) }
    ensures finding { IfOk result (λ read. read ≢ Err IndexFault.OutOfMemory) }
{
    let read = read_index(alloc, area, side);
    if let Err(IndexFault::OutOfMemory) = read {
        return Err(AllocError);
    }
    Ok(read)
}
