//! The command `export`: all bytes of a namespace.
ghost use Rattle.std.specs.Prelude.{◌≡◌, ℕ, ◌+◌, ◌*◌, ◌%◌, ◌^◌, ◌≤◌, List, IfOk, Ok, Err, OnErr, length};
ghost use Rattle.std.specs.Option.{ForSome};
ghost use Rattle.nvd_media.specs.Causes.{Rose};
ghost use Rattle.image_set.specs.declared.changing.OutlineRest.{OutlineRest as OutlineKept};
ghost use Rattle.image_set.specs.declared.outline.Outline.{Outline as OutlineRead};
ghost use Rattle.image_set.specs.Outline.{HasContents, IsLoadable, IsOutlined, image_set_with};
ghost use Rattle.interleave.specs.Places.{unit_of};
ghost use Rattle.interleave.specs.Sound.{span_of};
ghost use Rattle.namespace_words.specs.Source.{HasEnds, Reveals, words_by};
ghost use Rattle.power_cut.specs.Namespace.{over, words_of};
ghost use Rattle.sector_namespaces.specs.View.{opened_view, rows_of};
ghost use Rattle.shell_reports.specs.Sectors.{on_arenas};
ghost use Rattle.shell_sectors.specs.Opening.{IsOpenOutline};
ghost use Rattle.shell_export.specs.Export.{export_outcome, sectors_outcome, words_outcome};
ghost use Rattle.shell_export.specs.Printing.{AreHeld, ExportsFrom, IsPrinted, PrintsDue};

use crate::pieces::{print_made, print_report};
use crate::place::{find_place, is_sector};
use crate::raw::raw_answer;
use crate::sectors::sectors_answer;
use image_set::Outline;
use interleave::InterleaveSet;
use namespace_areas::Found;
use namespace_ops::Registry;
use namespace_words::read_arenas_from;
use nvd_media::{Failed, ImageSource, TextSink};
use power_cut::SetExtent;
use shell_reports::{RunStop, Status, arena_answer, op_refused_answer};
use shell_sectors::{OutlineOpened, open_outline};
use std::alloc::Global;
use uuid::Uuid;

/// Reads the arenas of a namespace that was found in a set, and prints its sectors.
fn arenas_answer<S: ImageSource, O: TextSink>(
    alloc: Global,
    set: &InterleaveSet,
    found: &Found,
    uuid: &Uuid,
    zeros: bool,
    images: &mut S,
    text: &mut O,
) -> Result<Status, RunStop>
    requires from { found.now.offset % unit_of set.now ≡ 0 }
    requires to { found.now.raw % unit_of set.now ≡ 0 }
    requires inside { found.now.offset + found.now.raw ≤ span_of set.now }
    requires pages { length set.now * found.now.raw % 4096 ≡ 0 }
    requires few { length set.now * found.now.raw ≤ 2 ^ 55 }
    requires there { HasEnds (S.held images.old) set.now }
    ensures printed { IfOk result (PrintsDue (Reveals (S.held images.old) set.now) (λ contents. on_arenas uuid.now (sectors_outcome zeros) (opened_view (words_of (over set.now found.now.offset found.now.raw (rows_of contents))).kept uuid.now)) (O.written text.old) (O.written text.new) (O.kept text.old) (O.kept text.new)) }
    ensures nothing { OnErr result (O.written text.new ≡ O.written text.old) }
    ensures quiet { OnErr result (O.faults text.new ≡ O.faults text.old) }
    ensures same { S.held images.new ≡ S.held images.old }
    ensures later { S.faults images.old ≤ S.faults images.new }
    ensures before { result ≡ Err RunStop.ReadFault → Rose (S.faults images.old) (S.faults images.new) }
    ensures read { result ≡ Ok Status.ReadFault → Rose (S.faults images.old) (S.faults images.new) }
    ensures failed { result ≡ Ok Status.WriteFault → Rose (O.faults text.old) (O.faults text.new) }
{
    let extent = SetExtent::of(set, found.offset, found.raw);
    match read_arenas_from(alloc, images, set, found.offset, found.raw, uuid) {
        Ok(Ok(arenas)) => sectors_answer(alloc, images, &extent, arenas.as_slice(), zeros, text),
        Ok(Err(refused)) => print_made(arena_answer(alloc, uuid, refused), text),
        Err(Failed) => Err(RunStop::ReadFault),
    }
}

/// Prints the bytes of a namespace that was found in a set.
fn found_answer<S: ImageSource, O: TextSink>(
    alloc: Global,
    set: &InterleaveSet,
    found: &Found,
    uuid: &Uuid,
    zeros: bool,
    images: &mut S,
    text: &mut O,
) -> Result<Status, RunStop>
    requires from { found.now.offset % unit_of set.now ≡ 0 }
    requires to { found.now.raw % unit_of set.now ≡ 0 }
    requires inside { found.now.offset + found.now.raw ≤ span_of set.now }
    requires pages { length set.now * found.now.raw % 4096 ≡ 0 }
    requires few { length set.now * found.now.raw ≤ 2 ^ 55 }
    requires there { HasEnds (S.held images.old) set.now }
    ensures printed { IfOk result (PrintsDue (Reveals (S.held images.old) set.now) (λ contents. words_outcome uuid.now zeros found.now.mode (words_of (over set.now found.now.offset found.now.raw (rows_of contents))).kept) (O.written text.old) (O.written text.new) (O.kept text.old) (O.kept text.new)) }
    ensures nothing { OnErr result (O.written text.new ≡ O.written text.old) }
    ensures quiet { OnErr result (O.faults text.new ≡ O.faults text.old) }
    ensures same { S.held images.new ≡ S.held images.old }
    ensures later { S.faults images.old ≤ S.faults images.new }
    ensures before { result ≡ Err RunStop.ReadFault → Rose (S.faults images.old) (S.faults images.new) }
    ensures read { result ≡ Ok Status.ReadFault → Rose (S.faults images.old) (S.faults images.new) }
    ensures failed { result ≡ Ok Status.WriteFault → Rose (O.faults text.old) (O.faults text.new) }
{
    if is_sector(&found.mode) {
        arenas_answer(alloc, set, found, uuid, zeros, images, text)
    } else {
        let extent = SetExtent::of(set, found.offset, found.raw);
        raw_answer(alloc, images, &extent, text)
    }
}

/// Finds a namespace by the labels of an outline, and prints its bytes.
fn named_answer<S: ImageSource, O: TextSink>(
    alloc: Global,
    registry: &Registry,
    uuid: &Uuid,
    zeros: bool,
    images: &mut S,
    text: &mut O,
) -> Result<Status, RunStop>
    requires { (outline : OutlineRead) × ((rest : OutlineKept) × IsOpenOutline outline registry.now rest × ForSome (S.held images.old) (HasContents rest.sizes)) }
    ensures printed { IfOk result (λ ended. (outline : OutlineRead) (rest : OutlineKept) → IsOpenOutline outline registry.now rest → ForSome (S.held images.old) (HasContents rest.sizes)
        → PrintsDue (AreHeld (S.held images.old) (length outline.sizes)) (λ contents. export_outcome uuid.now zeros (image_set_with outline contents)) (O.written text.old) (O.written text.new) (O.kept text.old) (O.kept text.new) ended) }
    ensures nothing { OnErr result (O.written text.new ≡ O.written text.old) }
    ensures quiet { OnErr result (O.faults text.new ≡ O.faults text.old) }
    ensures same { S.held images.new ≡ S.held images.old }
    ensures later { S.faults images.old ≤ S.faults images.new }
    ensures before { result ≡ Err RunStop.ReadFault → Rose (S.faults images.old) (S.faults images.new) }
    ensures read { result ≡ Ok Status.ReadFault → Rose (S.faults images.old) (S.faults images.new) }
    ensures failed { result ≡ Ok Status.WriteFault → Rose (O.faults text.old) (O.faults text.new) }
{
    match find_place(alloc, registry, uuid) {
        Ok(Ok(found)) => {
            let set = registry.set(found.region);
            found_answer(alloc, set, &found, uuid, zeros, images, text)
        }
        Ok(Err(refused)) => print_made(op_refused_answer(alloc, refused), text),
        Err(_) => Err(RunStop::OutOfMemory),
    }
}

/// Carries out `export` on an image set that was loaded without its contents, and returns the status of the run.
///
/// It prints the bytes of a namespace: of a raw one by place, of one of sectors all sectors in order, pending moves made. Or
/// it prints a refusal, the first that holds: a region isn't an interleave set, or two UUIDs have overlapping extents; the
/// namespace isn't found; an arena violates the format; a sector is bad, unless bad ones count as zeros. No image set is
/// written.
///
/// Of the contents the arenas' info blocks, logs and maps are read before the first byte is printed, and then the bytes that are
/// printed, 256 KiB or less at a time. Nothing is read for a zero or bad sector.
///
/// - `printed`: the status is that of the outcome, and all of its text was printed. Or the status is `WriteFault`, and a front
///   of the text was. Or it is `ReadFault`, the outcome is no refusal, and a front of the text was. This speaks of the contents
///   that the source has, as far as it reveals them.
/// - `nothing`, `quiet`: if the call fails nothing was printed: memory ran out, or the source failed before the first byte.
/// - `before`, `read`, `failed`: a fault of reading or of writing comes only if the count of faults of the source or of the sink
///   rose in this call.
pub fn export_answer<S: ImageSource, O: TextSink>(
    alloc: Global,
    uuid: &Uuid,
    zeros: bool,
    outline: Outline,
    images: &mut S,
    text: &mut O,
) -> Result<Status, RunStop>
    requires sound { IsOutlined outline }
    requires loadable { IsLoadable outline }
    requires there { ForSome (S.held images.old) (HasContents outline.sizes) }
    ensures printed { IfOk result (IsPrinted (ExportsFrom uuid.now zeros (S.held images.old) outline) (O.written text.old) (O.written text.new) (O.kept text.old) (O.kept text.new)) }
    ensures nothing { OnErr result (O.written text.new ≡ O.written text.old) }
    ensures quiet { OnErr result (O.faults text.new ≡ O.faults text.old) }
    ensures same { S.held images.new ≡ S.held images.old }
    ensures later { S.faults images.old ≤ S.faults images.new }
    ensures before { result ≡ Err RunStop.ReadFault → Rose (S.faults images.old) (S.faults images.new) }
    ensures read { result ≡ Ok Status.ReadFault → Rose (S.faults images.old) (S.faults images.new) }
    ensures failed { result ≡ Ok Status.WriteFault → Rose (O.faults text.old) (O.faults text.new) }
{
    match open_outline(alloc, outline) {
        Ok(OutlineOpened::Done(registry, _rest)) => {
            named_answer(alloc, &registry, uuid, zeros, images, text)
        }
        Ok(OutlineOpened::Not(report)) => Ok(print_report(&report, text)),
        Err(_) => Err(RunStop::OutOfMemory),
    }
}
