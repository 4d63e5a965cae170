ghost use Rattle.std.specs.Prelude.{◌≡◌};
ghost use Rattle.label_index.specs.Index.{current_of};

use crate::index::{IndexBlock, IndexFault, Side};
use nvd_words::seq_newer;

/// Returns the current side; `a` is the result of reading side Zero, `b` that of side One.
///
/// The valid side is current. Of two valid sides it is the newer one, by the sequence numbers 1, 2,
/// 3, 1 (UEFI 2.10, section 13.19, Seq); if both have the same number, it is side One, at the
/// higher offset. The call returns `None` exactly if neither is valid. Don't pass
/// [`IndexFault::OutOfMemory`], which says nothing about a block; it counts as invalid here.
pub fn current(
    a: &Result<IndexBlock, IndexFault>,
    b: &Result<IndexBlock, IndexFault>,
) -> Option<Side>
    ensures { result ≡ current_of a.now b.now }
{
    match (a, b) {
        (Ok(a), Ok(b)) if a.seq == b.seq || seq_newer(a.seq, b.seq) => Some(Side::One),
        (Ok(_), _) => Some(Side::Zero),
        (Err(_), Ok(_)) => Some(Side::One),
        (Err(_), Err(_)) => None,
    }
}
