//! The arenas of all sector namespaces of a set are checked.
ghost use Rattle.std.specs.Prelude.{◌≡◌, ℕ, ◌++◌, ◌+◌, ◌*◌, ◌%◌, ◌^◌, ◌≤◌, [], IfOk, Err, List, OnOk, length, map, string_bytes};
ghost use Rattle.std.specs.Option.{ForSome};
ghost use Rattle.nvd_media.specs.Causes.{Rose};
ghost use Rattle.interleave.specs.Places.{unit_of};
ghost use Rattle.interleave.specs.Sound.{span_of};
ghost use Rattle.power_cut.specs.Namespace.{over};
ghost use Rattle.image_set.specs.declared.outline.Outline.{Outline as OutlineRead};
ghost use Rattle.image_set.specs.Outline.{HasContents};
ghost use Rattle.namespace_words.specs.Source.{HasEnds, Reveals};
ghost use Rattle.sector_namespaces.specs.View.{rows_of};
ghost use Rattle.shell_sectors.specs.Opening.{IsOpenOutline};
ghost use Rattle.shell_check.specs.All.{AreOf, AreOfAll, AreReported, WithContents, head_of, named_reports, reports_over};

use crate::extent::check_extent;
use image_set::OutlineRest;
use interleave::InterleaveSet;
use namespace_areas::Found;
use namespace_map::Namespace;
use namespace_ops::Registry;
use nvd_media::{Failed, ImageSource};
use nvd_words::Items;
use power_cut::SetExtent;
use shell_reports::RunStop;
use std::alloc::{AllocError, Global};
use uuid::Uuid;

/// The lines of the findings in arenas, and how many findings these are.
#[derive(Drop)]
pub struct ArenaLines {
    /// Bytes of UTF-8: a line for each finding.
    pub text: Vec<u8>,
    pub count: u64,
}

/// There are no lines.
fn no_lines(alloc: Global) -> ArenaLines
    ensures text { result.text.items ≡ [] }
    ensures count { result.count ≡ 0 }
{
    ArenaLines {
        text: Vec::new(alloc),
        count: 0,
    }
}

/// Returns the text that begins the lines of a namespace.
fn head_of(alloc: Global, uuid: &Uuid) -> Result<String, AllocError>
    ensures { IfOk result (λ text. string_bytes text ≡ head_of uuid.now) }
{
    format!(in alloc; "fault arena {} ", uuid)
}

/// Checks the arenas of a namespace that was found in a set. `bad` has the bad ranges of each
/// module.
fn check_found<S: ImageSource>(
    alloc: Global,
    set: &InterleaveSet,
    found: &Found,
    bad: &[Option<Items<u8>>],
    uuid: &Uuid,
    images: &mut S,
) -> Result<ArenaLines, RunStop>
    requires from { found.now.offset % unit_of set.now ≡ 0 }
    requires to { found.now.raw % unit_of set.now ≡ 0 }
    requires inside { found.now.offset + found.now.raw ≤ span_of set.now }
    requires pages { length set.now * found.now.raw % 4096 ≡ 0 }
    requires few { length set.now * found.now.raw ≤ 2 ^ 55 }
    requires there { HasEnds (S.held images.old) set.now }
    ensures told { IfOk result (λ lines. (contents : List (List ℕ)) → Reveals (S.held images.old) set.now contents → AreReported uuid.now (reports_over (over set.now found.now.offset found.now.raw (rows_of contents)) bad.now uuid.now) lines) }
    ensures few { IfOk result (λ lines. lines.count ≤ length lines.text.items) }
    ensures same { S.held images.new ≡ S.held images.old }
    ensures failed { result ≡ Err RunStop.ReadFault → Rose (S.faults images.old) (S.faults images.new) }
    ensures later { S.faults images.old ≤ S.faults images.new }
{
    let Ok(head) = head_of(alloc, uuid) else {
        return Err(RunStop::OutOfMemory);
    };
    let extent = SetExtent::of(set, found.offset, found.raw);
    match check_extent(alloc, images, &extent, bad, uuid, &head, false) {
        Ok(Ok(checked)) => Ok(ArenaLines {
            text: checked.text,
            count: checked.count,
        }),
        Ok(Err(_)) => Err(RunStop::OutOfMemory),
        Err(Failed) => Err(RunStop::ReadFault),
    }
}

/// Checks the arenas of the namespace of a UUID, if it is a complete one with sectors; else there
/// are no lines.
fn check_named<S: ImageSource>(
    alloc: Global,
    registry: &Registry,
    rest: &OutlineRest,
    uuid: &Uuid,
    images: &mut S,
) -> Result<ArenaLines, RunStop>
    requires open { (outline : OutlineRead) × IsOpenOutline outline registry.now rest.now }
    requires there { ForSome (S.held images.old) (HasContents rest.now.sizes) }
    ensures told { IfOk result (λ lines. (outline : OutlineRead) → IsOpenOutline outline registry.now rest.now → WithContents (S.held images.old) outline (λ loaded. AreReported uuid.now (named_reports loaded uuid.now) lines)) }
    ensures few { IfOk result (λ lines. lines.count ≤ length lines.text.items) }
    ensures same { S.held images.new ≡ S.held images.old }
    ensures failed { result ≡ Err RunStop.ReadFault → Rose (S.faults images.old) (S.faults images.new) }
    ensures later { S.faults images.old ≤ S.faults images.new }
{
    match registry.find(uuid) {
        Ok(found) => {
            let set = registry.set(found.region);
            check_found(alloc, set, &found, rest.bad.as_slice(), uuid, images)
        }
        Err(_) => Ok(no_lines(alloc)),
    }
}

/// Appends the lines of a namespace to those of all.
fn push_lines(lines: &ArenaLines, all: &mut ArenaLines) -> Result<(), AllocError>
    requires more { lines.now.count ≤ length lines.now.text.items }
    requires few { all.old.count ≤ length all.old.text.items }
    ensures text { OnOk result (all.new.text.items ≡ all.old.text.items ++ lines.now.text.items) }
    ensures count { OnOk result (all.new.count ≡ all.old.count + lines.now.count) }
{
    all.text.extend_from_slice(&lines.text)?;
    all.count += lines.count;
    Ok(())
}

/// Checks the arenas of these namespaces, in order.
fn check_each<S: ImageSource>(
    alloc: Global,
    registry: &Registry,
    rest: &OutlineRest,
    namespaces: &[Namespace],
    images: &mut S,
) -> Result<ArenaLines, RunStop>
    requires open { (outline : OutlineRead) × IsOpenOutline outline registry.now rest.now }
    requires there { ForSome (S.held images.old) (HasContents rest.now.sizes) }
    ensures told { IfOk result (λ lines. (outline : OutlineRead) → IsOpenOutline outline registry.now rest.now → WithContents (S.held images.old) outline (λ loaded. AreOf loaded (map (λ n. n.uuid) namespaces.now) lines)) }
    ensures few { IfOk result (λ lines. lines.count ≤ length lines.text.items) }
    ensures same { S.held images.new ≡ S.held images.old }
    ensures failed { result ≡ Err RunStop.ReadFault → Rose (S.faults images.old) (S.faults images.new) }
    ensures later { S.faults images.old ≤ S.faults images.new }
{
    let mut all = no_lines(alloc);
    for namespace in namespaces {
        let lines = check_named(alloc, registry, rest, &namespace.uuid, images)?;
        let Ok(()) = push_lines(&lines, &mut all) else {
            return Err(RunStop::OutOfMemory);
        };
    }
    Ok(all)
}

/// Checks the arenas of all sector namespaces of a set that was loaded without its contents, and
/// whose labels are read. It returns a line for each finding, `fault arena UUID K FINDING`, with
/// the number `K` of the arena in its namespace, and how many findings there are.
///
/// The namespaces come in ascending order of the bytes of their UUIDs. One that isn't complete has
/// no lines, and nor has one without sectors. Of the contents only the arenas' info blocks, logs
/// and maps are read. Nothing is repaired.
///
/// `told` speaks of the contents that the source has, as far as it reveals them. `few` lets a
/// caller add `count` to others without an overflow. `failed`: `ReadFault` means that the source's
/// count of failures rose in this call. The other error is out of memory.
pub fn check_arenas<S: ImageSource>(
    alloc: Global,
    registry: &Registry,
    rest: &OutlineRest,
    images: &mut S,
) -> Result<ArenaLines, RunStop>
    requires open { (outline : OutlineRead) × IsOpenOutline outline registry.now rest.now }
    requires there { ForSome (S.held images.old) (HasContents rest.now.sizes) }
    ensures told { IfOk result (λ lines. (outline : OutlineRead) → IsOpenOutline outline registry.now rest.now → WithContents (S.held images.old) outline (λ loaded. AreOfAll loaded lines)) }
    ensures few { IfOk result (λ lines. lines.count ≤ length lines.text.items) }
    ensures same { S.held images.new ≡ S.held images.old }
    ensures failed { result ≡ Err RunStop.ReadFault → Rose (S.faults images.old) (S.faults images.new) }
    ensures later { S.faults images.old ≤ S.faults images.new }
{
    match registry.list(alloc) {
        Ok(namespaces) => check_each(alloc, registry, rest, namespaces.as_slice(), images),
        Err(_) => Err(RunStop::OutOfMemory),
    }
}
