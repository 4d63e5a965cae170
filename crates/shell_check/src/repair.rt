//! The runs of bytes that repair an arena.
ghost use Rattle.std.specs.Prelude.{◌≡◌, ℕ, ◌+◌, ◌-◌, ◌*◌, ◌^◌, ◌≤◌, [], ◌∷◌, ◌++◌, IfOk, IfSome, List, OnOk, drop};
ghost use Rattle.nvd_media.specs.Causes.{HasCause};
ghost use Rattle.arena_layout.specs.Layout.{IsLayout};
ghost use Rattle.power_cut.specs.Namespace.{raw_bytes};
ghost use Rattle.namespace_words.specs.Source.{HasEnds, Reveals, words_by};
ghost use Rattle.namespace_bytes.specs.declared.runs.Run.{Run as RunOf};
ghost use Rattle.shell_check.specs.Reading.{ArePageRuns, AreRepairsIf, FitsIn, IsPageRun, map_run, map_runs};

use crate::arena::{ArenaChecked, MapPut};
use crate::pages::read_page;
use arena_repair::PageCopy;
use namespace_bytes::Run;
use nvd_media::{Failed, ImageSource};
use nvd_words::Items;
use power_cut::SetExtent;
use std::alloc::{AllocError, Global};

/// Returns the run of bytes that writes a page of the arena whose first word is `at` over another one.
fn page_run<S: ImageSource>(
    alloc: Global,
    images: &mut S,
    extent: &SetExtent<'_>,
    at: u64,
    copy: PageCopy,
) -> Result<Result<Run, AllocError>, Failed>
    requires few { raw_bytes extent.now ≤ 2 ^ 55 }
    requires from { 8 * (at + copy.from) + 4096 ≤ raw_bytes extent.now }
    requires to { 8 * (at + copy.to) + 4096 ≤ raw_bytes extent.now }
    requires there { HasEnds (S.held images.old) extent.now.set }
    ensures told { (contents : List (List ℕ)) → Reveals (S.held images.old) extent.now.set contents
        → IfOk result (λ made. IfOk made (IsPageRun at (drop at (words_by extent.now contents)) copy)) }
    ensures same { S.held images.new ≡ S.held images.old }
    ensures cause { HasCause (S.faults images.old) (S.faults images.new) result }
{
    let page = read_page(images, extent, at + copy.from)?;
    match Vec::from_array(alloc, page) {
        Ok(bytes) => Ok(Ok(Run {
            first: 8 * (at + copy.to),
            bytes: Items::from_vec(bytes),
        })),
        Err(_) => Ok(Err(AllocError)),
    }
}

/// Returns the run of bytes that puts all entries into the map of the arena whose first word is `at`.
fn map_run(alloc: Global, at: u64, put: &MapPut) -> Result<Run, AllocError>
    requires layout { IsLayout put.now.layout }
    requires few { at ≤ 2 ^ 52 }
    ensures { IfOk result (λ run. run ≡ map_run at put.now.layout put.now.entries) }
{
    let mut bytes = Vec::new(alloc);
    bytes.reserve(put.entries.len().saturating_mul(4))?;
    for entry in put.entries.as_slice() {
        bytes.extend_from_slice(&entry.to_le_bytes())?;
    }
    Ok(Run {
        first: 8 * at + put.layout.map_off,
        bytes: Items::from_vec(bytes),
    })
}

/// Appends a run.
fn push_run(run: Run, runs: &mut Vec<Run>) -> Result<(), AllocError>
    ensures { OnOk result (runs.new.items ≡ runs.old.items ++ run ∷ []) }
{
    runs.push(run)?;
    Ok(())
}

/// Appends the run that puts a map into the arena whose first word is `at`, if a repair writes one.
fn push_map(
    alloc: Global,
    at: u64,
    map: &Option<MapPut>,
    runs: &mut Vec<Run>,
) -> Result<(), AllocError>
    requires layout { IfSome map.now (λ put. IsLayout put.layout) }
    requires few { at ≤ 2 ^ 52 }
    ensures { OnOk result (runs.new.items ≡ runs.old.items ++ map_runs at map.now) }
{
    match map {
        Some(put) => push_run(map_run(alloc, at, put)?, runs),
        None => Ok(()),
    }
}

/// Appends the run that writes a page of the arena whose first word is `at` over another one, if a repair writes one.
fn push_page<S: ImageSource>(
    alloc: Global,
    images: &mut S,
    extent: &SetExtent<'_>,
    at: u64,
    page: Option<PageCopy>,
    runs: &mut Vec<Run>,
) -> Result<Result<(), AllocError>, Failed>
    requires few { raw_bytes extent.now ≤ 2 ^ 55 }
    requires inside { IfSome page (λ copy. (8 * (at + copy.from) + 4096 ≤ raw_bytes extent.now) × (8 * (at + copy.to) + 4096 ≤ raw_bytes extent.now)) }
    requires there { HasEnds (S.held images.old) extent.now.set }
    ensures told { (contents : List (List ℕ)) → Reveals (S.held images.old) extent.now.set contents
        → IfOk result (λ done. OnOk done ((pages : List RunOf) × ArePageRuns at (drop at (words_by extent.now contents)) page pages × (runs.new.items ≡ runs.old.items ++ pages))) }
    ensures same { S.held images.new ≡ S.held images.old }
    ensures cause { HasCause (S.faults images.old) (S.faults images.new) result }
{
    let Some(copy) = page else {
        return Ok(Ok(()));
    };
    match page_run(alloc, images, extent, at, copy)? {
        Ok(run) => Ok(push_run(run, runs)),
        Err(_) => Ok(Err(AllocError)),
    }
}

/// Appends the runs that repair the arena whose first word is `at`, if there is a repair: a page,
/// and then its map.
pub(crate) fn push_repairs<S: ImageSource>(
    alloc: Global,
    images: &mut S,
    extent: &SetExtent<'_>,
    repair: bool,
    at: u64,
    arena: &ArenaChecked,
    runs: &mut Vec<Run>,
) -> Result<Result<(), AllocError>, Failed>
    requires few { raw_bytes extent.now ≤ 2 ^ 55 }
    requires inside { 8 * at + 4096 ≤ raw_bytes extent.now }
    requires fits { FitsIn (raw_bytes extent.now - 8 * at) arena.now }
    requires there { HasEnds (S.held images.old) extent.now.set }
    ensures told { (contents : List (List ℕ)) → Reveals (S.held images.old) extent.now.set contents
        → IfOk result (λ done. OnOk done ((made : List RunOf) × AreRepairsIf repair at (drop at (words_by extent.now contents)) arena.now.page arena.now.map made × (runs.new.items ≡ runs.old.items ++ made))) }
    ensures same { S.held images.new ≡ S.held images.old }
    ensures cause { HasCause (S.faults images.old) (S.faults images.new) result }
{
    if !repair {
        return Ok(Ok(()));
    }
    match push_page(alloc, images, extent, at, arena.page, runs)? {
        Ok(()) => Ok(push_map(alloc, at, &arena.map, runs)),
        Err(_) => Ok(Err(AllocError)),
    }
}
