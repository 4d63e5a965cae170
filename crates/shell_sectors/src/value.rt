//! The bytes of a value.
ghost use Rattle.std.specs.Prelude.{◌≡◌, IfOk, length};
ghost use Rattle.shell_sectors.specs.Value.{bytes_for};

use session_script::Payload;
use std::alloc::{AllocError, Global};

/// Returns how many bytes a value has, if it is one of a sector of `size` bytes.
pub(crate) fn length_for(size: u32, value: &Payload) -> usize
    ensures { result ≡ length (bytes_for size value.now) }
{
    match value {
        Payload::Fill(_) => size as usize,
        Payload::Hex(bytes) => bytes.len(),
    }
}

/// Returns the bytes of a value of a sector of `size` bytes.
pub(crate) fn bytes_for(alloc: Global, size: u32, value: Payload) -> Result<Vec<u8>, AllocError>
    ensures { IfOk result (λ bytes. bytes.items ≡ bytes_for size value) }
{
    match value {
        Payload::Fill(byte) => vec![in alloc; byte; size as usize],
        Payload::Hex(bytes) => Ok(bytes.into_vec()),
    }
}
