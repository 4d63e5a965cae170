//! Bad words of the info block, the map, the log and the backup.
ghost use Rattle.std.specs.Prelude.{◌≡◌, ◌+◌, ◌*◌, ◌/◌, ◌^◌, ◌≤◌, ◌++◌, IfOk, OnOk};
ghost use Rattle.arena_layout.specs.Layout.{IsLayout};
ghost use Rattle.arena_check.specs.Check.{bad_meta, meta_findings};

use crate::bad::BadWords;
use crate::finding::Finding;
use arena_layout::Layout;
use nvd_words::Items;
use std::alloc::{AllocError, Global};

/// A page of 4,096 bytes in words.
const PAGE_WORDS: u64 = 512;

/// Lists the bad words among `count`, from `first` on.
fn list_words<B: BadWords>(
    findings: &mut Items<Finding>,
    bad: &B,
    first: u64,
    count: u64,
) -> Result<(), AllocError>
    requires { first + count ≤ 2 ^ 61 }
    ensures { OnOk result (findings.new ≡ findings.old ++ bad_meta (B.bad bad.now) first count) }
{
    if !bad.any_bad(first, count) {
        return Ok(());
    }
    for word in first..first + count {
        if bad.is_bad(word) {
            findings.push(Finding::BadMeta { word })?;
        }
    }
    Ok(())
}

/// Lists the bad words of a run of pages. It looks into a page only if one of its words is bad, so
/// one bad word doesn't cost a question for each word of a large map.
fn list_pages<B: BadWords>(
    findings: &mut Items<Finding>,
    bad: &B,
    first: u64,
    pages: u64,
) -> Result<(), AllocError>
    requires { first + PAGE_WORDS * pages ≤ 2 ^ 61 }
    ensures { OnOk result (findings.new ≡ findings.old ++ bad_meta (B.bad bad.now) first (PAGE_WORDS * pages)) }
{
    if !bad.any_bad(first, PAGE_WORDS * pages) {
        return Ok(());
    }
    for page in 0..pages {
        list_words(findings, bad, first + PAGE_WORDS * page, PAGE_WORDS)?;
    }
    Ok(())
}

/// Returns a BadMeta finding for each bad word of the info block, the map area, the log area and
/// the backup, rising. Words are numbered in the namespace, of which `at` is the arena's first.
///
/// The map, the log and the backup are one run of pages, from MapOff to the arena's end.
pub fn meta_findings<B: BadWords>(
    alloc: Global,
    bad: &B,
    at: u64,
    layout: &Layout,
) -> Result<Items<Finding>, AllocError>
    requires layout { IsLayout layout.now }
    requires inside { at + layout.now.size / 8 ≤ 2 ^ 61 }
    ensures { IfOk result (λ findings. findings ≡ meta_findings at (B.bad bad.now) layout.now) }
{
    let mut findings = Items::new(alloc);
    list_words(&mut findings, bad, at, PAGE_WORDS)?;
    let pages = (layout.size - layout.map_off) / 8 / PAGE_WORDS;
    list_pages(&mut findings, bad, at + layout.map_off / 8, pages)?;
    Ok(findings)
}
