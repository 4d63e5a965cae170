//! The words of a value.
ghost use Rattle.std.specs.Prelude.{◌≡◌, ◌*◌, ◌%◌, length, IfOk};
ghost use Rattle.cut_words.specs.WordBytes.{words_in};
ghost use Rattle.lane_replay.specs.Calls.{bytes_said};

use session_script::Payload;
use std::alloc::{AllocError, Global};

/// The bytes of a word.
const WORD: usize = 8;

/// How many bytes a value has if a sector has this many.
pub fn length_of(value: &Payload, had: u64) -> u64
    ensures { result ≡ length (bytes_said had value.now) }
{
    match value {
        Payload::Fill(_) => had,
        Payload::Hex(bytes) => bytes.len() as u64,
    }
}

/// The words of bytes, the low byte of each first.
fn words_of(alloc: Global, bytes: &[u8]) -> Result<Vec<u64>, AllocError>
    requires { length bytes.now % 8 ≡ 0 }
    ensures words { IfOk result (λ words. words.items ≡ words_in bytes.now) }
    ensures count { IfOk result (λ words. 8 * length words.items ≡ length bytes.now) }
{
    let mut words = Vec::new(alloc);
    let mut rest = bytes;
    while let Some((word, others)) = rest.split_first_chunk::<WORD>() {
        words.push(u64::from_le_bytes(*word))?;
        rest = others;
    }
    Ok(words)
}

/// The words of a value that has as many bytes as a sector.
pub fn value_words(alloc: Global, value: &Payload, had: usize) -> Result<Vec<u64>, AllocError>
    requires whole { had % 8 ≡ 0 }
    requires fits { length (bytes_said had value.now) ≡ had }
    ensures words { IfOk result (λ words. words.items ≡ words_in (bytes_said had value.now)) }
    ensures count { IfOk result (λ words. 8 * length words.items ≡ had) }
{
    match value {
        Payload::Fill(byte) => words_of(alloc, &vec![in alloc; *byte; had]?),
        Payload::Hex(bytes) => words_of(alloc, bytes.as_slice()),
    }
}
