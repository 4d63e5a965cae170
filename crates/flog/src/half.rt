ghost use Rattle.std.specs.Prelude.{◌≡◌, ◌^◌, ◌<◌, slice_index};
ghost use Rattle.flog.specs.Group.{half_of, words_of_half};

/// One half of a group, two words: the move that one write makes.
#[derive(Clone, Copy, Debug, PartialEq, Eq)]
pub struct Half {
    /// Lba, u32 at byte 0: the sector whose block is moved.
    pub lba: u32,
    /// OldMap, u32 at byte 4: the block that the sector had. Bits 30 and 31 are flags and aren't
    /// part of it.
    pub old: u32,
    /// NewMap, u32 at byte 8: the block that the sector gets. Bits 30 and 31 are flags and aren't
    /// part of it.
    pub new: u32,
    /// Seq, u32 at byte 12: 1, 2 or 3 on the ring, 0 if the half was never written.
    pub seq: u32,
}

/// The bits of OldMap and NewMap with the block's number.
const BLOCK: u32 = (1 << 30) - 1;

/// Decodes a half from its two words. The flags of OldMap and NewMap are ignored (some writers set
/// both).
#[inline]
pub(crate) fn half_of(a: u64, b: u64) -> Half
    ensures { result ≡ half_of a b }
{
    Half {
        lba: (a & 0xffff_ffff) as u32,
        old: (a >> 32) as u32 & BLOCK,
        new: (b & u64::from(BLOCK)) as u32,
        seq: (b >> 32) as u32,
    }
}

/// Encodes a half in two words, each with its first field in the low 32 bits. The flags are zero.
///
/// `old` and `new` must be block numbers below 2^30.
#[inline]
pub fn half_words(half: &Half) -> [u64; 2]
    requires old { half.now.old < 2 ^ 30 }
    requires new { half.now.new < 2 ^ 30 }
    ensures words { result ≡ words_of_half half.now }
    ensures reads_back { half_of (slice_index result 0) (slice_index result 1) ≡ half.now }
{
    [
        u64::from(half.lba) | u64::from(half.old) << 32,
        u64::from(half.new) | u64::from(half.seq) << 32,
    ]
}
