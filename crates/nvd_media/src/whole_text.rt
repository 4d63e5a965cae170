ghost use Rattle.std.specs.Prelude.{◌≡◌, ◌≤◌, ◌<◌, ℕ, length, vec_len, IfOk, Err};
ghost use Rattle.std.specs.Option.{ForSome};
ghost use Rattle.nvd_media.specs.Causes.{Rose};

use crate::traits::TextSource;
use std::alloc::{AllocError, Global};

/// Why `read_all` failed.
#[derive(Clone, Copy, Debug, PartialEq, Eq)]
pub enum TextFault {
    /// The source failed.
    ReadFault,
    /// The text has more bytes than the limit.
    TooLong {
        /// The limit in bytes.
        limit: usize,
    },
    /// Memory ran out.
    OutOfMemory,
}

/// How many bytes one read asks for: 64 KiB, as many as a pipe of Linux holds.
const CHUNK: usize = 64 << 10;

/// Allocates the buffer for one read.
fn chunk_room(alloc: Global) -> Result<Vec<u8>, AllocError>
    ensures { IfOk result (λ room. vec_len room ≡ 65536) }
{
    vec![in alloc; 0; CHUNK]
}

/// Reads a text to its end and returns its bytes, at most `limit` of them. `limit` must be below
/// 2^40.
///
/// It returns `ReadFault` only if the source's count of failures rose in this call, and `TooLong`
/// only if the text has more than `limit` bytes. After any refusal the source is left where reading
/// stopped: the bytes read so far are lost.
pub fn read_all<T: TextSource>(
    alloc: Global,
    source: &mut T,
    limit: usize,
) -> Result<Vec<u8>, TextFault>
    requires { limit < 1099511627776 }
    ensures all { IfOk result (λ bytes. ForSome (T.left source.old) (λ left. bytes.items ≡ left)) }
    ensures within { IfOk result (λ bytes. vec_len bytes ≤ limit) }
    ensures too_long { (n : ℕ) → result ≡ Err (TextFault.TooLong n) → (n ≡ limit) × ForSome (T.left source.old) (λ left. limit < length left) }
    ensures failed { result ≡ Err TextFault.ReadFault → Rose (T.faults source.old) (T.faults source.new) }
    ensures later { T.faults source.old ≤ T.faults source.new }
{
    let mut all = Vec::new(alloc);
    let Ok(mut buffer) = chunk_room(alloc) else {
        return Err(TextFault::OutOfMemory);
    };
    while all.len() <= limit {
        let Ok(count) = source.read(&mut buffer) else {
            return Err(TextFault::ReadFault);
        };
        if count == 0 {
            return Ok(all);
        }
        if all.extend_from_slice(&buffer[..count]).is_err() {
            return Err(TextFault::OutOfMemory);
        }
    }
    Err(TextFault::TooLong { limit })
}
