//! One arena of a namespace is checked.
ghost use Rattle.std.specs.Prelude.{◌≡◌, ℕ, ◌+◌, ◌-◌, ◌*◌, ◌/◌, ◌%◌, ◌^◌, ◌≤◌, ◌++◌, [], IfOk, IfSome, List, OnOk, drop};
ghost use Rattle.std.specs.List.{cons_option};
ghost use Rattle.std.specs.Option.{option_map};
ghost use Rattle.nvd_media.specs.Causes.{HasCause};
ghost use Rattle.arena_layout.specs.Info.{IsArenaOf};
ghost use Rattle.arena_layout.specs.Layout.{IsLayout};
ghost use Rattle.arena_open.specs.Reading.{groups_in, info_bytes, map_in};
ghost use Rattle.arena_check.specs.Check.{findings_with, group_findings, in_arena, info_findings, info_used, meta_findings, source_of};
ghost use Rattle.arena_repair.specs.Repair.{map_repair};
ghost use Rattle.power_cut.specs.Namespace.{raw_bytes};
ghost use Rattle.namespace_words.specs.Source.{HasEnds, IsMapOfBytes, Reveals, bytes_by, words_by};
ghost use Rattle.shell_check.specs.Reading.{FitsIn, GoesOn, IsChecked, findings_by, map_by, put_of};

use crate::log::{LogRead, read_log};
use crate::pages::{read_backup, read_source};
use arena_check::{BadWords, Finding, InfoSource, Report, meta_findings};
use arena_layout::{Info, Layout};
use arena_repair::{MapCheck, PageCopy, check_map, page_repair};
use namespace_words::read_map;
use nvd_media::{Failed, ImageSource};
use nvd_words::Items;
use power_cut::SetExtent;
use std::alloc::{AllocError, Global};
use uuid::Uuid;

/// Reads what the info block that is used, or the first one, has against it, of the arena whose first word is `at`.
fn check_info<S: ImageSource>(
    images: &mut S,
    extent: &SetExtent<'_>,
    at: u64,
    parent: &Uuid,
    source: &InfoSource,
    first: &[u8; 4096],
) -> Result<Option<Finding>, Failed>
    requires pages { raw_bytes extent.now % 4096 ≡ 0 }
    requires few { raw_bytes extent.now ≤ 2 ^ 55 }
    requires inside { 8 * at + 4096 ≤ raw_bytes extent.now }
    requires sound { IfSome (info_used source.now) (IsArenaOf parent.now (raw_bytes extent.now - 8 * at)) }
    requires there { HasEnds (S.held images.old) extent.now.set }
    ensures told { (contents : List (List ℕ)) → Reveals (S.held images.old) extent.now.set contents → (words : List ℕ) → words ≡ drop at (words_by extent.now contents) → first.now ≡ info_bytes words
        → IfOk result (λ finding. cons_option finding [] ≡ info_findings words parent.now source.now) }
    ensures same { S.held images.new ≡ S.held images.old }
    ensures cause { HasCause (S.faults images.old) (S.faults images.new) result }
{
    match source {
        InfoSource::First { info } => read_backup(images, extent, at, parent, first, info),
        InfoSource::Last { fault, .. } | InfoSource::Neither { fault } => {
            Ok(Some(Finding::Info { fault: *fault }))
        }
    }
}

/// Checks the log and the map of an arena of this layout, whose first word is `at`.
fn check_groups<S: ImageSource, B: BadWords>(
    alloc: Global,
    images: &mut S,
    extent: &SetExtent<'_>,
    bad: &B,
    at: u64,
    layout: &Layout,
) -> Result<Result<MapCheck, AllocError>, Failed>
    requires layout { IsLayout layout.now }
    requires few { raw_bytes extent.now ≤ 2 ^ 55 }
    requires inside { 8 * at + layout.now.size ≤ raw_bytes extent.now }
    requires there { HasEnds (S.held images.old) extent.now.set }
    ensures told { (contents : List (List ℕ)) → Reveals (S.held images.old) extent.now.set contents → (words : List ℕ) → words ≡ drop at (words_by extent.now contents)
        → IfOk result (λ found. IfOk found (λ check. (check.findings ≡ group_findings layout.now (in_arena at (B.bad bad.now)) words (groups_in layout.now words))
        × (check.repair ≡ map_repair layout.now (in_arena at (B.bad bad.now)) words (groups_in layout.now words)))) }
    ensures small { (contents : List (List ℕ)) → Reveals (S.held images.old) extent.now.set contents
        → IfOk result (λ found. IfOk found (λ check. IfSome check.repair (λ _. IsMapOfBytes (bytes_by extent.now contents) at layout.now))) }
    ensures same { S.held images.new ≡ S.held images.old }
    ensures cause { HasCause (S.faults images.old) (S.faults images.new) result }
{
    match read_log(alloc, images, extent, at, layout)? {
        Ok(LogRead::Sound(groups)) => match read_map(alloc, images, extent, at, layout)? {
            Ok(entries) => Ok(check_map(alloc, layout, bad, at, groups.as_slice(), entries)),
            Err(_) => Ok(Err(AllocError)),
        },
        Ok(LogRead::Refused(findings)) => Ok(Ok(MapCheck {
            findings,
            repair: None,
        })),
        Err(_) => Ok(Err(AllocError)),
    }
}

/// Appends the findings in the groups and the map of an arena, and then its bad words.
fn push_all<B: BadWords>(
    alloc: Global,
    bad: &B,
    at: u64,
    layout: &Layout,
    in_groups: &[Finding],
    findings: &mut Vec<Finding>,
) -> Result<(), AllocError>
    requires layout { IsLayout layout.now }
    requires inside { at + layout.now.size / 8 ≤ 2 ^ 61 }
    ensures { OnOk result (findings.new.items ≡ findings.old.items ++ (in_groups.now ++ meta_findings at (B.bad bad.now) layout.now)) }
{
    findings.extend_from_slice(in_groups)?;
    let bad_words = meta_findings(alloc, bad, at, layout)?;
    findings.extend_from_slice(bad_words.as_slice())
}

/// All entries that a repair puts into the map of an arena of this layout.
#[derive(Drop)]
pub(crate) struct MapPut {
    pub layout: Layout,
    pub entries: Items<u32>,
}

/// Returns what a repair puts into the map of an arena of this layout.
fn map_put(layout: Layout, repair: Option<Items<u32>>) -> Option<MapPut>
    ensures { result ≡ option_map (put_of layout) repair }
{
    match repair {
        Some(entries) => Some(MapPut { layout, entries }),
        None => None,
    }
}

/// Appends what was found in the log and the map of an arena, and then its bad words. It returns what a repair puts into the map.
fn push_parts<B: BadWords>(
    alloc: Global,
    bad: &B,
    at: u64,
    layout: &Layout,
    check: MapCheck,
    findings: &mut Vec<Finding>,
) -> Result<Option<MapPut>, AllocError>
    requires layout { IsLayout layout.now }
    requires inside { at + layout.now.size / 8 ≤ 2 ^ 61 }
    ensures findings { OnOk result (findings.new.items ≡ findings.old.items ++ (check.findings ++ meta_findings at (B.bad bad.now) layout.now)) }
    ensures map { IfOk result (λ map. map ≡ option_map (put_of layout.now) check.repair) }
{
    push_all(alloc, bad, at, layout, check.findings.as_slice(), findings)?;
    Ok(map_put(*layout, check.repair))
}

/// Appends what was found in an arena of this layout, whose first word is `at`: in its log and its map, and then bad words. It
/// returns what a repair puts into the map.
fn check_parts<S: ImageSource, B: BadWords>(
    alloc: Global,
    images: &mut S,
    extent: &SetExtent<'_>,
    bad: &B,
    at: u64,
    layout: &Layout,
    findings: &mut Vec<Finding>,
) -> Result<Result<Option<MapPut>, AllocError>, Failed>
    requires layout { IsLayout layout.now }
    requires few { raw_bytes extent.now ≤ 2 ^ 55 }
    requires inside { 8 * at + layout.now.size ≤ raw_bytes extent.now }
    requires there { HasEnds (S.held images.old) extent.now.set }
    ensures told { (contents : List (List ℕ)) → Reveals (S.held images.old) extent.now.set contents → (words : List ℕ) → words ≡ drop at (words_by extent.now contents)
        → IfOk result (λ found. IfOk found (λ map. (findings.new.items ≡ findings.old.items ++ findings_with at (B.bad bad.now) words layout.now)
        × (map ≡ option_map (put_of layout.now) (map_repair layout.now (in_arena at (B.bad bad.now)) words (groups_in layout.now words))))) }
    ensures small { (contents : List (List ℕ)) → Reveals (S.held images.old) extent.now.set contents
        → IfOk result (λ found. IfOk found (λ map. IfSome map (λ put. IsMapOfBytes (bytes_by extent.now contents) at put.layout))) }
    ensures fits { IfOk result (λ found. IfOk found (λ map. IfSome map (λ put. IsLayout put.layout × (8 * at + put.layout.size ≤ raw_bytes extent.now)))) }
    ensures same { S.held images.new ≡ S.held images.old }
    ensures cause { HasCause (S.faults images.old) (S.faults images.new) result }
{
    match check_groups(alloc, images, extent, bad, at, layout)? {
        Ok(check) => Ok(push_parts(alloc, bad, at, layout, check, findings)),
        Err(_) => Ok(Err(AllocError)),
    }
}

/// Appends what was found in an arena, whose first word is `at`, if an info block can be used. It returns what a repair puts into
/// the map.
fn check_used<S: ImageSource, B: BadWords>(
    alloc: Global,
    images: &mut S,
    extent: &SetExtent<'_>,
    bad: &B,
    at: u64,
    used: Option<Info>,
    findings: &mut Vec<Finding>,
) -> Result<Result<Option<MapPut>, AllocError>, Failed>
    requires sound { IfSome used (λ info. IsLayout info.layout × (8 * at + info.layout.size ≤ raw_bytes extent.now)) }
    requires few { raw_bytes extent.now ≤ 2 ^ 55 }
    requires there { HasEnds (S.held images.old) extent.now.set }
    ensures told { (contents : List (List ℕ)) → Reveals (S.held images.old) extent.now.set contents → (words : List ℕ) → words ≡ drop at (words_by extent.now contents)
        → IfOk result (λ found. IfOk found (λ map. (findings.new.items ≡ findings.old.items ++ findings_by at (B.bad bad.now) words used) × (map ≡ map_by at (B.bad bad.now) words used))) }
    ensures small { (contents : List (List ℕ)) → Reveals (S.held images.old) extent.now.set contents
        → IfOk result (λ found. IfOk found (λ map. IfSome map (λ put. IsMapOfBytes (bytes_by extent.now contents) at put.layout))) }
    ensures fits { IfOk result (λ found. IfOk found (λ map. IfSome map (λ put. IsLayout put.layout × (8 * at + put.layout.size ≤ raw_bytes extent.now)))) }
    ensures same { S.held images.new ≡ S.held images.old }
    ensures cause { HasCause (S.faults images.old) (S.faults images.new) result }
{
    match used {
        Some(info) => check_parts(alloc, images, extent, bad, at, &info.layout, findings),
        None => Ok(Ok(None)),
    }
}

/// Returns a list of this finding, if there is one.
fn begin(alloc: Global, finding: Option<Finding>) -> Result<Vec<Finding>, AllocError>
    ensures { IfOk result (λ findings. findings.items ≡ cons_option finding []) }
{
    let mut findings = Vec::new(alloc);
    if let Some(finding) = finding {
        findings.push(finding)?;
    }
    Ok(findings)
}

/// Returns the report with these findings.
fn report_of(source: &InfoSource, findings: Vec<Finding>) -> Report
    ensures findings { result.findings ≡ findings.items }
    ensures size { result.size ≡ option_map (λ info. info.layout.size) (info_used source.now) }
{
    let size = match source {
        InfoSource::First { info } | InfoSource::Last { info, .. } => Some(info.layout.size),
        InfoSource::Neither { .. } => None,
    };
    Report {
        findings: Items::from_vec(findings),
        size,
    }
}

/// What a check found in an arena, and what a repair of it writes.
#[derive(Drop)]
pub(crate) struct ArenaChecked {
    pub report: Report,
    /// How many bytes after its start the next arena begins; 0 if there is none.
    pub next: u64,
    /// Which page a repair writes over which other one.
    pub page: Option<PageCopy>,
    pub map: Option<MapPut>,
}

/// Checks the arena whose first word is `at`: its info block, its log, its map, and bad words.
///
/// The 4,096 bytes from word `at` on must lie in the namespace. Nothing else of the namespace is read. It fails inside only if
/// memory runs out; `Failed` means that the source's count of failures rose.
pub(crate) fn check_arena<S: ImageSource, B: BadWords>(
    alloc: Global,
    images: &mut S,
    extent: &SetExtent<'_>,
    bad: &B,
    at: u64,
    parent: &Uuid,
) -> Result<Result<ArenaChecked, AllocError>, Failed>
    requires few { raw_bytes extent.now ≤ 2 ^ 55 }
    requires pages { raw_bytes extent.now % 4096 ≡ 0 }
    requires inside { 8 * at + 4096 ≤ raw_bytes extent.now }
    requires there { HasEnds (S.held images.old) extent.now.set }
    ensures told { (contents : List (List ℕ)) → Reveals (S.held images.old) extent.now.set contents → (words : List ℕ) → words ≡ drop at (words_by extent.now contents)
        → IfOk result (λ found. IfOk found (IsChecked at (B.bad bad.now) words parent.now)) }
    ensures small { (contents : List (List ℕ)) → Reveals (S.held images.old) extent.now.set contents
        → IfOk result (λ found. IfOk found (λ arena. IfSome arena.map (λ put. IsMapOfBytes (bytes_by extent.now contents) at put.layout))) }
    ensures sound { IfOk result (λ found. IfOk found (λ arena. GoesOn parent.now (raw_bytes extent.now - 8 * at) arena.next)) }
    ensures fits { IfOk result (λ found. IfOk found (FitsIn (raw_bytes extent.now - 8 * at))) }
    ensures same { S.held images.new ≡ S.held images.old }
    ensures cause { HasCause (S.faults images.old) (S.faults images.new) result }
{
    let (source, first) = read_source(images, extent, at, parent)?;
    let finding = check_info(images, extent, at, parent, &source, &first)?;
    let page = page_repair(&source, finding);
    let Ok(mut findings) = begin(alloc, finding) else {
        return Ok(Err(AllocError));
    };
    let used = source.used();
    let Ok(map) = check_used(alloc, images, extent, bad, at, used, &mut findings)? else {
        return Ok(Err(AllocError));
    };
    Ok(Ok(ArenaChecked {
        report: report_of(&source, findings),
        next: source.next(),
        page,
        map,
    }))
}
