//! The arenas of a namespace are checked, by the bad ranges of its modules.
ghost use Rattle.std.specs.Prelude.{◌≡◌, ℕ, ◌%◌, ◌^◌, ◌≤◌, Bool, [], IfOk, List, MatchBool, length};
ghost use Rattle.nvd_media.specs.Causes.{HasCause};
ghost use Rattle.bad_ranges.specs.Bad.{bad_words};
ghost use Rattle.power_cut.specs.Namespace.{IsLaid, raw_bytes};
ghost use Rattle.namespace_words.specs.Source.{HasEnds, Reveals, bytes_by, words_by};
ghost use Rattle.arena_repair.specs.Chain.{reports_of};
ghost use Rattle.shell_check.specs.Reading.{IsListed, RepairsAll};

use crate::chain::{Checked, check_chain};
use crate::text::push_report;
use arena_check::{Finding, Report};
use arena_layout::InfoFault;
use bad_ranges::BadExtent;
use nvd_media::{Failed, ImageSource};
use nvd_words::Items;
use power_cut::SetExtent;
use std::alloc::{AllocError, Global};
use uuid::Uuid;

/// The lines for a namespace without bytes, which has no info block: nothing is repaired.
fn check_empty(alloc: Global, head: &str, repair: bool) -> Result<Checked, AllocError>
    ensures lines { IfOk result (λ checked. (bad : ℕ → Bool) (parent : List ℕ) → IsListed head.now repair (reports_of bad [] parent) checked) }
    ensures few { IfOk result (λ checked. checked.count ≤ length checked.text.items) }
    ensures runs { IfOk result (λ checked. checked.runs ≡ []) }
{
    let fault = InfoFault::Signature;
    let mut findings = Items::new(alloc);
    findings.push(Finding::Info { fault })?;
    let mut text = Vec::new(alloc);
    let report = Report {
        findings,
        size: None,
    };
    let count = push_report(alloc, head, repair, 0, &report, &mut text)?;
    Ok(Checked {
        text,
        count,
        runs: Items::new(alloc),
    })
}

/// Checks the arenas of a namespace. It returns the lines of what was found, each of which begins
/// with `head`, and with `repair` the runs of bytes that repair the arenas. `bad` has the bad
/// ranges of each module.
///
/// The namespace must be whole pages; it may be empty. The call fails inside only if memory runs
/// out; `Failed` means that the source's count of failures rose.
pub(crate) fn check_extent<S: ImageSource>(
    alloc: Global,
    images: &mut S,
    extent: &SetExtent<'_>,
    bad: &[Option<Items<u8>>],
    uuid: &Uuid,
    head: &str,
    repair: bool,
) -> Result<Result<Checked, AllocError>, Failed>
    requires laid { IsLaid extent.now }
    requires pages { raw_bytes extent.now % 4096 ≡ 0 }
    requires few { raw_bytes extent.now ≤ 2 ^ 55 }
    requires there { HasEnds (S.held images.old) extent.now.set }
    ensures told { (contents : List (List ℕ)) → Reveals (S.held images.old) extent.now.set contents
        → IfOk result (λ found. IfOk found (IsListed head.now repair (reports_of (bad_words extent.now bad.now) (words_by extent.now contents) uuid.now))) }
    ensures few { IfOk result (λ found. IfOk found (λ checked. checked.count ≤ length checked.text.items)) }
    ensures repairs { (contents : List (List ℕ)) → Reveals (S.held images.old) extent.now.set contents
        → IfOk result (λ found. IfOk found (λ checked. MatchBool repair (RepairsAll (bad_words extent.now bad.now) uuid.now (bytes_by extent.now contents) checked.runs) (checked.runs ≡ []))) }
    ensures same { S.held images.new ≡ S.held images.old }
    ensures cause { HasCause (S.faults images.old) (S.faults images.new) result }
{
    if extent.bytes() == 0 {
        return Ok(check_empty(alloc, head, repair));
    }
    match BadExtent::of(alloc, extent, bad) {
        Ok(bad) => check_chain(alloc, images, extent, &bad, uuid, head, repair),
        Err(_) => Ok(Err(AllocError)),
    }
}
