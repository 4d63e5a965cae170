//! The arenas of a namespace are read, by the bad ranges of its modules.
ghost use Rattle.std.specs.Prelude.{◌≡◌, ℕ, ◌%◌, ◌^◌, ◌≤◌, All, Bool, [], IfOk, List};
ghost use Rattle.nvd_media.specs.Causes.{HasCause};
ghost use Rattle.bad_ranges.specs.Bad.{bad_words};
ghost use Rattle.power_cut.specs.Namespace.{IsLaid, raw_bytes};
ghost use Rattle.namespace_words.specs.Source.{HasEnds, Reveals, words_by};
ghost use Rattle.shell_rescue.specs.Reading.{IsReadable, IsRescued};

use crate::arena::nothing_found;
use crate::chain::{Rescued, rescue_chain};
use crate::text::push_lost;
use arena_layout::InfoFault;
use bad_ranges::BadExtent;
use nvd_media::{Failed, ImageSource};
use nvd_words::Items;
use power_cut::SetExtent;
use std::alloc::{AllocError, Global};
use uuid::Uuid;

/// What can be read of a namespace without bytes: it has no info block.
fn rescue_empty(alloc: Global, listing: bool) -> Result<Rescued, AllocError>
    ensures told { IfOk result (λ r. (bad : ℕ → Bool) (parent : List ℕ) → IsRescued listing bad [] parent r) }
    ensures none { IfOk result (λ r. r.arenas ≡ []) }
{
    let fault = InfoFault::Signature;
    let found = nothing_found(alloc, fault)?;
    let mut text = Vec::new(alloc);
    push_lost(alloc, listing, 0, &found.lost, &mut text)?;
    Ok(Rescued {
        arenas: Items::new(alloc),
        text,
        count: 1,
        refused: Some(fault),
    })
}

/// Reads the arenas of a namespace: which sectors can be read, and which can't. The lines on the
/// latter are made only if `listing` asks for them. `bad` has the bad ranges of each module.
///
/// The namespace must be whole pages; it may be empty. The call fails inside only if memory runs
/// out; `Failed` means that the source's count of failures rose.
pub(crate) fn rescue_extent<S: ImageSource>(
    alloc: Global,
    images: &mut S,
    extent: &SetExtent<'_>,
    bad: &[Option<Items<u8>>],
    uuid: &Uuid,
    listing: bool,
) -> Result<Result<Rescued, AllocError>, Failed>
    requires laid { IsLaid extent.now }
    requires pages { raw_bytes extent.now % 4096 ≡ 0 }
    requires few { raw_bytes extent.now ≤ 2 ^ 55 }
    requires there { HasEnds (S.held images.old) extent.now.set }
    ensures told { (contents : List (List ℕ)) → Reveals (S.held images.old) extent.now.set contents
        → IfOk result (λ found. IfOk found (IsRescued listing (bad_words extent.now bad.now) (words_by extent.now contents) uuid.now)) }
    ensures readable { IfOk result (λ found. IfOk found (λ r. All (IsReadable (raw_bytes extent.now)) r.arenas)) }
    ensures same { S.held images.new ≡ S.held images.old }
    ensures cause { HasCause (S.faults images.old) (S.faults images.new) result }
{
    if extent.bytes() == 0 {
        return Ok(rescue_empty(alloc, listing));
    }
    match BadExtent::of(alloc, extent, bad) {
        Ok(bad) => rescue_chain(alloc, images, extent, &bad, uuid, listing),
        Err(_) => Ok(Err(AllocError)),
    }
}
