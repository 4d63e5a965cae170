//! Numbers in the bytes of a structure, each with its low byte first.

ghost use Rattle.std.specs.Prelude.{◌≡◌, ◌+◌, ◌≤◌, length};
ghost use Rattle.std.specs.Int.{w16, w32, w64};
ghost use Rattle.nvd_words.specs.Bytes.{number_at};

use byteorder::{ByteOrder, LittleEndian};

/// The number in the two bytes at offset `at`.
pub(crate) fn two_at(bytes: &[u8], at: usize) -> u16
    requires { at + 2 ≤ length bytes.now }
    ensures { result ≡ number_at w16 bytes.now at }
{
    LittleEndian::read_u16(&bytes[at..])
}

/// The number in the four bytes at offset `at`.
pub(crate) fn four_at(bytes: &[u8], at: usize) -> u32
    requires { at + 4 ≤ length bytes.now }
    ensures { result ≡ number_at w32 bytes.now at }
{
    LittleEndian::read_u32(&bytes[at..])
}

/// The number in the eight bytes at offset `at`.
pub(crate) fn eight_at(bytes: &[u8], at: usize) -> u64
    requires { at + 8 ≤ length bytes.now }
    ensures { result ≡ number_at w64 bytes.now at }
{
    LittleEndian::read_u64(&bytes[at..])
}
