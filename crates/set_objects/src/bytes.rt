//! Reading the bytes of objects, all of which are small here.
ghost use Rattle.std.specs.Prelude.{◌≡◌, ◌*◌, ◌%◌, ◌≤◌, length, vec_len, IfOk};
ghost use Rattle.std.specs.Option.{ForSome};
ghost use Rattle.nvd_media.specs.Causes.{LeavesSource};
ghost use Rattle.nvd_media.specs.Images.{bytes_of as bytes_in};
ghost use Rattle.cut_words.specs.WordBytes.{bytes_of};
ghost use Rattle.image_set.specs.Load.{bytes_kept};
ghost use Rattle.image_set.specs.Sound.{AreWords, IsSettled, size_of};

use crate::fault::ReadStop;
use cut_words::CutWords;
use nvd_media::{ImageSource, Object};
use std::alloc::{AllocError, Global};

/// The size of a word, in bytes.
const WORD: usize = 8;

/// Reads an object of `bytes` bytes.
pub(crate) fn read_bytes<S: ImageSource>(
    alloc: Global,
    images: &mut S,
    object: Object,
    bytes: u64,
) -> Result<Vec<u8>, ReadStop>
    requires { ForSome (S.held images.old) (λ set. length (bytes_in set object) ≡ bytes) }
    ensures told { ForSome (S.held images.old)
        (λ set. IfOk result (λ read. read.items ≡ bytes_in set object)) }
    ensures count { IfOk result (λ read. vec_len read ≡ bytes) }
    ensures source { LeavesSource (S.held images.old) (S.held images.new)
        (S.faults images.old) (S.faults images.new) result ReadStop.ReadFault }
{
    let mut read = vec![in alloc; 0; bytes as usize]?;
    images.read(object, 0, &mut read)?;
    Ok(read)
}

/// Returns the words of some bytes, the low byte first.
fn words_of(alloc: Global, bytes: &[u8]) -> Result<Vec<u64>, AllocError>
    requires { length bytes.now % 8 ≡ 0 }
    ensures bytes { IfOk result (λ words. bytes_of words.items ≡ bytes.now) }
    ensures count { IfOk result (λ words. 8 * vec_len words ≡ length bytes.now) }
{
    let mut words = Vec::with_capacity(alloc, bytes.len() / WORD)?;
    let mut rest = bytes;
    while let Some((word, more)) = rest.split_first_chunk::<WORD>() {
        words.push(u64::from_le_bytes(*word))?;
        rest = more;
    }
    Ok(words)
}

/// States the bound of the words' type as a clause. It does nothing at run time.
fn know_words(words: &[u64])
    ensures { AreWords words.now }
{
    if let Some(word) = words.first() {
        prove!(*word <= u64::MAX);
    }
}

/// Reads an object of `bytes` bytes as words, none of them pending.
pub(crate) fn read_words<S: ImageSource>(
    alloc: Global,
    images: &mut S,
    object: Object,
    bytes: u64,
) -> Result<CutWords, ReadStop>
    requires whole { bytes % 8 ≡ 0 }
    requires there { ForSome (S.held images.old) (λ set. length (bytes_in set object) ≡ bytes) }
    ensures told { ForSome (S.held images.old)
        (λ set. IfOk result (λ words. bytes_kept words ≡ bytes_in set object)) }
    ensures count { IfOk result (λ words. size_of words ≡ bytes) }
    ensures settled { IfOk result IsSettled }
    ensures source { LeavesSource (S.held images.old) (S.held images.new)
        (S.faults images.old) (S.faults images.new) result ReadStop.ReadFault }
{
    let read = read_bytes(alloc, images, object, bytes)?;
    let words = words_of(alloc, &read)?;
    know_words(&words);
    Ok(CutWords::new(alloc, words)?)
}
