ghost use Rattle.std.specs.Prelude.{◌≡◌, ◌+◌, ◌≤◌, length};
ghost use Rattle.std.specs.Int.{w16, w32, w64};
ghost use Rattle.nvd_words.specs.Bytes.{number_at};

/// Returns the little-endian number of the eight bytes at offset `at`. They must lie inside.
#[tactic(auto, unfolding(crate::specs::Bytes::number_at))]
pub fn word_at(bytes: &[u8], at: usize) -> u64
    requires { at + 8 ≤ length bytes.now }
    ensures { result ≡ number_at w64 bytes.now at }
{
    let mut word = [0; 8];
    word.copy_from_slice(&bytes[at..at + 8]);
    u64::from_le_bytes(word)
}

/// Returns the little-endian number of the four bytes at offset `at`. They must lie inside.
#[tactic(auto, unfolding(crate::specs::Bytes::number_at))]
pub fn u32_at(bytes: &[u8], at: usize) -> u32
    requires { at + 4 ≤ length bytes.now }
    ensures { result ≡ number_at w32 bytes.now at }
{
    let mut four = [0; 4];
    four.copy_from_slice(&bytes[at..at + 4]);
    u32::from_le_bytes(four)
}

/// Returns the little-endian number of the two bytes at offset `at`. They must lie inside.
#[tactic(auto, unfolding(crate::specs::Bytes::number_at))]
pub fn u16_at(bytes: &[u8], at: usize) -> u16
    requires { at + 2 ≤ length bytes.now }
    ensures { result ≡ number_at w16 bytes.now at }
{
    let mut two = [0; 2];
    two.copy_from_slice(&bytes[at..at + 2]);
    u16::from_le_bytes(two)
}
