//! A namespace is found on a set whose contents stay in the source, its arenas are read from there, and a question about them
//! is answered.
ghost use Rattle.std.specs.Prelude.{◌≡◌, ◌≢◌, ℕ, ◌+◌, ◌*◌, ◌%◌, ◌^◌, ◌≤◌, List, IfOk, Ok, Err, length};
ghost use Rattle.std.specs.Option.{ForSome};
ghost use Rattle.nvd_media.specs.Causes.{Rose};
ghost use Rattle.interleave.specs.Places.{unit_of};
ghost use Rattle.interleave.specs.Sound.{span_of};
ghost use Rattle.power_cut.specs.Namespace.{over, raw_bytes, words_of};
ghost use Rattle.image_set.specs.declared.outline.Outline.{Outline as OutlineRead};
ghost use Rattle.image_set.specs.Outline.{HasContents, IsLoadable, IsOutlined};
ghost use Rattle.namespace_bytes.specs.SectorPut.{AreSized};
ghost use Rattle.namespace_words.specs.Source.{AreWithin, HasEnds, Reveals};
ghost use Rattle.sector_namespaces.specs.View.{opened_view, rows_of};
ghost use Rattle.shell_reports.specs.Saved.{outcome_of};
ghost use Rattle.shell_reports.specs.Sectors.{on_arenas, on_sectors};
ghost use Rattle.shell_sectors.specs.Asked.{AnswersOn, asked};
ghost use Rattle.shell_sectors.specs.Opening.{IsOpenOutline, PrintsFrom};

use crate::info::lines_answer;
use crate::opening::{OutlineOpened, open_outline};
use crate::read::sector_answer;
use image_set::{Outline, OutlineRest};
use interleave::InterleaveSet;
use namespace_areas::Found;
use namespace_ops::Registry;
use namespace_words::{ArenaRead, read_arenas_from};
use nvd_media::{Failed, ImageSource};
use power_cut::SetExtent;
use shell_reports::{Report, RunStop, arena_answer, op_refused_answer};
use std::alloc::{AllocError, Global};
use uuid::Uuid;

/// The question of a command about the arenas of a namespace.
#[derive(Clone, Copy, Debug)]
pub(crate) enum Ask {
    /// The layout of each.
    Arenas,
    /// The cell of a sector of the namespace.
    Sector(u64),
}

/// Returns a report, or the stop if memory ran out.
pub(crate) fn reported(report: Result<Report, AllocError>) -> Result<Report, RunStop>
    ensures same { IfOk result (λ x. report ≡ Ok x) }
    ensures memory { result ≢ Err RunStop.ReadFault }
{
    match report {
        Ok(report) => Ok(report),
        Err(_) => Err(RunStop::OutOfMemory),
    }
}

/// Answers a question about all arenas of a namespace, which were read.
fn asked_answer<S: ImageSource>(
    alloc: Global,
    images: &mut S,
    extent: &SetExtent<'_>,
    arenas: &[ArenaRead],
    ask: Ask,
) -> Result<Report, RunStop>
    requires sized { AreSized arenas.now }
    requires within { AreWithin (raw_bytes extent.now) arenas.now }
    requires there { HasEnds (S.held images.old) extent.now.set }
    ensures told { IfOk result (AnswersOn (asked ask) (S.held images.old) extent.now arenas.now) }
    ensures same { S.held images.new ≡ S.held images.old }
    ensures failed { result ≡ Err RunStop.ReadFault → Rose (S.faults images.old) (S.faults images.new) }
    ensures later { S.faults images.old ≤ S.faults images.new }
{
    match ask {
        Ask::Arenas => reported(lines_answer(alloc, arenas)),
        Ask::Sector(sector) => sector_answer(alloc, images, extent, arenas, sector),
    }
}

/// Reads the arenas of a namespace that was found in a set, and answers a question about them.
fn found_answer<S: ImageSource>(
    alloc: Global,
    set: &InterleaveSet,
    found: &Found,
    uuid: &Uuid,
    ask: Ask,
    images: &mut S,
) -> Result<Report, RunStop>
    requires from { found.now.offset % unit_of set.now ≡ 0 }
    requires to { found.now.raw % unit_of set.now ≡ 0 }
    requires inside { found.now.offset + found.now.raw ≤ span_of set.now }
    requires pages { length set.now * found.now.raw % 4096 ≡ 0 }
    requires few { length set.now * found.now.raw ≤ 2 ^ 55 }
    requires there { HasEnds (S.held images.old) set.now }
    ensures told { IfOk result (λ answer. (contents : List (List ℕ)) → Reveals (S.held images.old) set.now contents → outcome_of answer ≡ on_arenas uuid.now (asked ask) (opened_view (words_of (over set.now found.now.offset found.now.raw (rows_of contents))).kept uuid.now)) }
    ensures same { S.held images.new ≡ S.held images.old }
    ensures failed { result ≡ Err RunStop.ReadFault → Rose (S.faults images.old) (S.faults images.new) }
    ensures later { S.faults images.old ≤ S.faults images.new }
{
    let extent = SetExtent::of(set, found.offset, found.raw);
    match read_arenas_from(alloc, images, set, found.offset, found.raw, uuid) {
        Ok(Ok(arenas)) => asked_answer(alloc, images, &extent, arenas.as_slice(), ask),
        Ok(Err(refused)) => reported(arena_answer(alloc, uuid, refused)),
        Err(Failed) => Err(RunStop::ReadFault),
    }
}

/// Finds a namespace by the labels of an outline, and answers a question about its arenas.
fn named_answer<S: ImageSource>(
    alloc: Global,
    registry: &Registry,
    rest: &OutlineRest,
    uuid: &Uuid,
    ask: Ask,
    images: &mut S,
) -> Result<Report, RunStop>
    requires open { (outline : OutlineRead) × IsOpenOutline outline registry.now rest.now }
    requires there { ForSome (S.held images.old) (HasContents rest.now.sizes) }
    ensures told { IfOk result (λ answer. (outline : OutlineRead) → IsOpenOutline outline registry.now rest.now → PrintsFrom (λ loaded. on_sectors (asked ask) loaded uuid.now) (S.held images.old) outline answer) }
    ensures same { S.held images.new ≡ S.held images.old }
    ensures failed { result ≡ Err RunStop.ReadFault → Rose (S.faults images.old) (S.faults images.new) }
    ensures later { S.faults images.old ≤ S.faults images.new }
{
    match registry.find(uuid) {
        Ok(found) => {
            let set = registry.set(found.region);
            found_answer(alloc, set, &found, uuid, ask, images)
        }
        Err(refused) => reported(op_refused_answer(alloc, refused)),
    }
}

/// Reads the labels of an outline, finds a namespace, reads its arenas from the source, and answers a question about them.
///
/// It answers, of these, the first that holds: a region isn't an interleave set; labels of two UUIDs have overlapping extents; no
/// label has the UUID; the namespace isn't complete; its mode isn't that of sectors; one of its arenas violates the format.
pub(crate) fn set_answer<S: ImageSource>(
    alloc: Global,
    uuid: &Uuid,
    outline: Outline,
    ask: Ask,
    images: &mut S,
) -> Result<Report, RunStop>
    requires sound { IsOutlined outline }
    requires loadable { IsLoadable outline }
    requires there { ForSome (S.held images.old) (HasContents outline.sizes) }
    ensures told { IfOk result (PrintsFrom (λ loaded. on_sectors (asked ask) loaded uuid.now) (S.held images.old) outline) }
    ensures same { S.held images.new ≡ S.held images.old }
    ensures failed { result ≡ Err RunStop.ReadFault → Rose (S.faults images.old) (S.faults images.new) }
    ensures later { S.faults images.old ≤ S.faults images.new }
{
    match open_outline(alloc, outline) {
        Ok(OutlineOpened::Done(registry, rest)) => {
            named_answer(alloc, &registry, &rest, uuid, ask, images)
        }
        Ok(OutlineOpened::Not(report)) => Ok(report),
        Err(_) => Err(RunStop::OutOfMemory),
    }
}
