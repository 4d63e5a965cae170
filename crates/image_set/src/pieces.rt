//! Reading the bytes of objects in large pieces.
ghost use Rattle.std.specs.Prelude.{◌≡◌, ◌++◌, ◌+◌, ◌*◌, ◌%◌, ◌<◌, ◌≤◌, length, vec_len, IfOk, OnOk};
ghost use Rattle.std.specs.Option.{ForSome};
ghost use Rattle.nvd_media.specs.Causes.{LeavesSource};
ghost use Rattle.nvd_media.specs.Images.{bytes_of as bytes_in};
ghost use Rattle.cut_words.specs.WordBytes.{bytes_of};

use crate::fault::Stop;
use nvd_media::{ImageSource, Object};
use std::alloc::{AllocError, Global};

/// How many bytes are read at a time: few calls on the source, and a buffer that fits the caches.
const PIECE: usize = 256 << 10;

/// The size of a word, in bytes.
const WORD: usize = 8;

/// Allocates the buffer for a piece.
pub(crate) fn piece_room(alloc: Global) -> Result<Vec<u8>, AllocError>
    ensures { IfOk result (λ room. vec_len room ≡ 262144) }
{
    vec![in alloc; 0; PIECE]
}

/// Appends the words of some bytes, the low byte first.
fn push_words(words: &mut Vec<u64>, piece: &[u8]) -> Result<(), AllocError>
    requires { length piece.now % 8 ≡ 0 }
    ensures bytes { OnOk result (bytes_of words.new.items ≡ bytes_of words.old.items ++ piece.now) }
    ensures count { OnOk result (8 * vec_len words.new ≡ 8 * vec_len words.old + length piece.now) }
{
    let mut rest = piece;
    while let Some((bytes, more)) = rest.split_first_chunk::<WORD>() {
        words.push(u64::from_le_bytes(*bytes))?;
        rest = more;
    }
    Ok(())
}

/// Reads an object of `bytes` bytes as words.
pub(crate) fn read_words<S: ImageSource>(
    alloc: Global,
    images: &mut S,
    object: Object,
    bytes: u64,
    room: &mut Vec<u8>,
) -> Result<Vec<u64>, Stop>
    requires room { vec_len room.old ≡ 262144 }
    requires whole { bytes % 8 ≡ 0 }
    requires there { ForSome (S.held images.old) (λ set. length (bytes_in set object) ≡ bytes) }
    ensures told { ForSome (S.held images.old)
        (λ set. IfOk result (λ words. bytes_of words.items ≡ bytes_in set object)) }
    ensures count { IfOk result (λ words. 8 * vec_len words ≡ bytes) }
    ensures room { vec_len room.new ≡ 262144 }
    ensures source { LeavesSource (S.held images.old) (S.held images.new)
        (S.faults images.old) (S.faults images.new) result Stop.ReadFault }
{
    let mut words = Vec::with_capacity(alloc, (bytes / WORD as u64) as usize)?;
    let mut at = 0;
    while at < bytes {
        let count = (bytes - at).min(PIECE as u64);
        let piece = &mut room[..count as usize];
        images.read(object, at, piece)?;
        push_words(&mut words, piece)?;
        at += count;
    }
    Ok(words)
}

/// Reads an object of `bytes` bytes at once.
pub(crate) fn read_bytes<S: ImageSource>(
    alloc: Global,
    images: &mut S,
    object: Object,
    bytes: u64,
) -> Result<Vec<u8>, Stop>
    requires { ForSome (S.held images.old) (λ set. length (bytes_in set object) ≡ bytes) }
    ensures told { ForSome (S.held images.old)
        (λ set. IfOk result (λ read. read.items ≡ bytes_in set object)) }
    ensures count { IfOk result (λ read. vec_len read ≡ bytes) }
    ensures source { LeavesSource (S.held images.old) (S.held images.new)
        (S.faults images.old) (S.faults images.new) result Stop.ReadFault }
{
    let mut read = vec![in alloc; 0; bytes as usize]?;
    images.read(object, 0, &mut read)?;
    Ok(read)
}
