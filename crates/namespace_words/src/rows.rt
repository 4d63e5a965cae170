//! The run of bytes of a row of words.
ghost use Rattle.std.specs.Prelude.{◌≡◌, ◌+◌, ◌*◌, ◌^◌, ◌≤◌, IfOk, length};
ghost use Rattle.cut_words.specs.WordBytes.{bytes_of, words_in};

use namespace_bytes::Run;
use nvd_words::Items;
use std::alloc::{AllocError, Global};

/// Appends the bytes of words to none.
fn bytes_of(alloc: Global, words: &[u64]) -> Result<Vec<u8>, AllocError>
    ensures bytes { IfOk result (λ bytes. bytes.items ≡ bytes_of words.now) }
    ensures back { IfOk result (λ bytes. words_in bytes.items ≡ words.now) }
{
    let mut bytes = Vec::with_capacity(alloc, 8 * words.len())?;
    for word in words {
        bytes.extend_from_slice(&word.to_le_bytes())?;
    }
    Ok(bytes)
}

/// Returns the run of bytes that puts words into a namespace, from its word `at` on. The words are dropped.
///
/// There must be a place for them in 2^55 bytes. It fails only if memory runs out.
pub fn words_run(alloc: Global, at: u64, words: Vec<u64>) -> Result<Run, AllocError>
    requires { at + length words.items ≤ 2 ^ 52 }
    ensures first { IfOk result (λ run. run.first ≡ 8 * at) }
    ensures long { IfOk result (λ run. length run.bytes ≡ 8 * length words.items) }
    ensures words { IfOk result (λ run. words_in run.bytes ≡ words.items) }
{
    let bytes = bytes_of(alloc, &words)?;
    Ok(Run {
        first: 8 * at,
        bytes: Items::from_vec(bytes),
    })
}
