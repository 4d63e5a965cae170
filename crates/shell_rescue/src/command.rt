//! The command `rescue`.
ghost use Rattle.std.specs.Prelude.{◌≡◌, ◌≢◌, ℕ, ◌%◌, ◌^◌, ◌≤◌, All, Bool, IfOk, Err, Ok, List, OnErr, length};
ghost use Rattle.std.specs.Option.{ForSome};
ghost use Rattle.nvd_media.specs.Causes.{Rose};
ghost use Rattle.bad_ranges.specs.Bad.{bad_words};
ghost use Rattle.image_set.specs.declared.changing.OutlineRest.{OutlineRest as OutlineKept};
ghost use Rattle.image_set.specs.declared.outline.Outline.{Outline as OutlineRead};
ghost use Rattle.image_set.specs.Outline.{HasContents, IsLoadable, IsOutlined, image_set_with};
ghost use Rattle.power_cut.specs.Namespace.{IsLaid, raw_bytes};
ghost use Rattle.namespace_words.specs.Source.{HasEnds, Reveals, words_by};
ghost use Rattle.arena_open.specs.declared.refused.OpenRefused.{OpenRefused};
ghost use Rattle.shell_reports.specs.Faults.{arena_outcome};
ghost use Rattle.shell_reports.specs.Saved.{outcome_of};
ghost use Rattle.shell_sectors.specs.Opening.{IsOpenOutline};
ghost use Rattle.shell_export.specs.Printing.{AreHeld, IsPrinted, PrintsDue};
ghost use Rattle.shell_rescue.specs.Comes.{RescuesFrom, made_outcome, rescue_outcome};
ghost use Rattle.shell_rescue.specs.Reading.{IsReadable, IsRescued, IsTold};

use crate::chain::Rescued;
use crate::extent::rescue_extent;
use crate::lost::{lost_report, with_missing};
use crate::print::print_arenas;
use arena_layout::InfoFault;
use arena_open::{ChainRefused, OpenRefused};
use image_set::{Outline, OutlineRest};
use label_rescue::find_rescued;
use namespace_ops::Registry;
use nvd_media::{Failed, ImageSource, TextSink};
use nvd_words::Items;
use power_cut::SetExtent;
use shell_export::{print_made, print_report};
use shell_reports::{Report, RunStop, Status, arena_answer, op_refused_answer};
use shell_sectors::{OutlineOpened, open_outline};
use std::alloc::{AllocError, Global};
use uuid::Uuid;

/// Returns the report that no arena can be read.
fn no_arena(alloc: Global, uuid: &Uuid, fault: InfoFault) -> Result<Report, AllocError>
    ensures { IfOk result (λ report. outcome_of report ≡ arena_outcome uuid.now (record { arena = 0; fault = OpenRefused.Info fault })) }
{
    arena_answer(
        alloc,
        uuid,
        ChainRefused {
            arena: 0,
            fault: OpenRefused::Info(fault),
        },
    )
}

/// Puts a line for each module without a label before the others, if lines are asked for.
fn told(alloc: Global, rescued: Rescued, listing: bool, missing: &[u32]) -> Result<Rescued, RunStop>
    ensures told { IfOk result (λ r. (bad : ℕ → Bool) (words parent : List ℕ) → IsRescued listing bad words parent rescued → IsTold listing missing.now bad words parent r) }
    ensures arenas { IfOk result (λ r. r.arenas ≡ rescued.arenas) }
    ensures memory { result ≢ Err RunStop.ReadFault }
{
    match with_missing(alloc, rescued, listing, missing) {
        Ok(rescued) => Ok(rescued),
        Err(_) => Err(RunStop::OutOfMemory),
    }
}

/// Reads what can be read of a namespace's arenas. `missing` has the modules without a label.
fn rescue_found<S: ImageSource>(
    alloc: Global,
    images: &mut S,
    extent: &SetExtent<'_>,
    bad: &[Option<Items<u8>>],
    uuid: &Uuid,
    listing: bool,
    missing: &[u32],
) -> Result<Rescued, RunStop>
    requires laid { IsLaid extent.now }
    requires pages { raw_bytes extent.now % 4096 ≡ 0 }
    requires few { raw_bytes extent.now ≤ 2 ^ 55 }
    requires there { HasEnds (S.held images.old) extent.now.set }
    ensures told { IfOk result (λ r. (contents : List (List ℕ)) → Reveals (S.held images.old) extent.now.set contents → IsTold listing missing.now (bad_words extent.now bad.now) (words_by extent.now contents) uuid.now r) }
    ensures readable { IfOk result (λ r. All (IsReadable (raw_bytes extent.now)) r.arenas) }
    ensures same { S.held images.new ≡ S.held images.old }
    ensures failed { result ≡ Err RunStop.ReadFault → Rose (S.faults images.old) (S.faults images.new) }
    ensures later { S.faults images.old ≤ S.faults images.new }
{
    match rescue_extent(alloc, images, extent, bad, uuid, listing) {
        Ok(Ok(rescued)) => told(alloc, rescued, listing, missing),
        Ok(Err(_)) => Err(RunStop::OutOfMemory),
        Err(Failed) => Err(RunStop::ReadFault),
    }
}

/// Prints what was read of a namespace's arenas: the lines on what is lost, or the bytes.
fn print_rescued<S: ImageSource, O: TextSink>(
    alloc: Global,
    extent: &SetExtent<'_>,
    uuid: &Uuid,
    listing: bool,
    rescued: Rescued,
    images: &mut S,
    text: &mut O,
) -> Result<Status, RunStop>
    requires readable { All (IsReadable (raw_bytes extent.now)) rescued.arenas }
    requires few { raw_bytes extent.now ≤ 2 ^ 55 }
    requires there { HasEnds (S.held images.old) extent.now.set }
    ensures printed { IfOk result (PrintsDue (Reveals (S.held images.old) extent.now.set) (λ contents. made_outcome uuid.now listing (words_by extent.now contents) rescued) (O.written text.old) (O.written text.new) (O.kept text.old) (O.kept text.new)) }
    ensures nothing { OnErr result (O.written text.new ≡ O.written text.old) }
    ensures quiet { OnErr result (O.faults text.new ≡ O.faults text.old) }
    ensures same { S.held images.new ≡ S.held images.old }
    ensures later { S.faults images.old ≤ S.faults images.new }
    ensures before { result ≡ Err RunStop.ReadFault → Rose (S.faults images.old) (S.faults images.new) }
    ensures read { result ≡ Ok Status.ReadFault → Rose (S.faults images.old) (S.faults images.new) }
    ensures failed { result ≡ Ok Status.WriteFault → Rose (O.faults text.old) (O.faults text.new) }
{
    if listing {
        return print_made(lost_report(alloc, rescued.count, rescued.text), text);
    }
    match rescued.refused {
        Some(fault) => print_made(no_arena(alloc, uuid, fault), text),
        None => print_arenas(alloc, images, extent, rescued.arenas.as_slice(), text),
    }
}

/// Finds a namespace on a set whose labels are read, and prints what can be read of its arenas.
fn named_answer<S: ImageSource, O: TextSink>(
    alloc: Global,
    registry: &Registry,
    rest: &OutlineRest,
    uuid: &Uuid,
    listing: bool,
    images: &mut S,
    text: &mut O,
) -> Result<Status, RunStop>
    requires open { (outline : OutlineRead) × IsOpenOutline outline registry.now rest.now }
    requires there { ForSome (S.held images.old) (HasContents rest.now.sizes) }
    ensures printed { IfOk result (λ ended. (outline : OutlineRead) → IsOpenOutline outline registry.now rest.now
        → PrintsDue (AreHeld (S.held images.old) (length outline.sizes)) (λ contents. rescue_outcome uuid.now listing (image_set_with outline contents)) (O.written text.old) (O.written text.new) (O.kept text.old) (O.kept text.new) ended) }
    ensures nothing { OnErr result (O.written text.new ≡ O.written text.old) }
    ensures quiet { OnErr result (O.faults text.new ≡ O.faults text.old) }
    ensures same { S.held images.new ≡ S.held images.old }
    ensures later { S.faults images.old ≤ S.faults images.new }
    ensures before { result ≡ Err RunStop.ReadFault → Rose (S.faults images.old) (S.faults images.new) }
    ensures read { result ≡ Ok Status.ReadFault → Rose (S.faults images.old) (S.faults images.new) }
    ensures failed { result ≡ Ok Status.WriteFault → Rose (O.faults text.old) (O.faults text.new) }
{
    let Ok(answer) = find_rescued(alloc, registry, uuid) else {
        return Err(RunStop::OutOfMemory);
    };
    match answer {
        Ok(place) => {
            let found = &place.found;
            let set = registry.set(found.region);
            let extent = SetExtent::of(set, found.offset, found.raw);
            let bad = rest.bad.as_slice();
            let missing = place.missing.as_slice();
            let rescued = rescue_found(alloc, images, &extent, bad, uuid, listing, missing)?;
            print_rescued(alloc, &extent, uuid, listing, rescued, images, text)
        }
        Err(refused) => print_made(op_refused_answer(alloc, refused), text),
    }
}

/// Carries out `rescue` on an image set that was loaded without its contents, and returns the status
/// of the run.
///
/// It prints the bytes of a sector namespace that can still be read: all sectors of its arenas in
/// order, a lost one as zeros. Or, with `listing`, the lines on what is lost and on what the rest
/// stands on. Or it prints a refusal, the first that holds: a region isn't an interleave set, or two
/// UUIDs have overlapping extents; the namespace isn't found by the labels that are there (crate
/// `label_rescue`); without `listing`, no info block of its first arena can be used. No image set is
/// written.
///
/// Labels of the namespace may be missing on some modules. The list names these modules first. They
/// are no lost sectors: they change neither the last line nor the status.
///
/// Of the contents the arenas' info blocks, logs and maps are read before the first byte is printed,
/// and then the bytes that are printed, 256 KiB or less at a time. Nothing is read for a sector that
/// reads as zeros.
///
/// - `printed`: the status is that of the outcome, and all of its text was printed. Or the status is
///   `WriteFault`, and a front of the text was. Or it is `ReadFault`, the outcome is no refusal, and
///   a front of the text was. This speaks of the contents that the source has, as far as it reveals
///   them.
/// - `nothing`, `quiet`: if the call fails nothing was printed: memory ran out, or the source failed
///   before the first byte.
/// - `before`, `read`, `failed`: a fault of reading or of writing comes only if the count of faults
///   of the source or of the sink rose in this call.
pub fn rescue_answer<S: ImageSource, O: TextSink>(
    alloc: Global,
    uuid: &Uuid,
    listing: bool,
    outline: Outline,
    images: &mut S,
    text: &mut O,
) -> Result<Status, RunStop>
    requires sound { IsOutlined outline }
    requires loadable { IsLoadable outline }
    requires there { ForSome (S.held images.old) (HasContents outline.sizes) }
    ensures printed { IfOk result (IsPrinted (RescuesFrom uuid.now listing (S.held images.old) outline) (O.written text.old) (O.written text.new) (O.kept text.old) (O.kept text.new)) }
    ensures nothing { OnErr result (O.written text.new ≡ O.written text.old) }
    ensures quiet { OnErr result (O.faults text.new ≡ O.faults text.old) }
    ensures same { S.held images.new ≡ S.held images.old }
    ensures later { S.faults images.old ≤ S.faults images.new }
    ensures before { result ≡ Err RunStop.ReadFault → Rose (S.faults images.old) (S.faults images.new) }
    ensures read { result ≡ Ok Status.ReadFault → Rose (S.faults images.old) (S.faults images.new) }
    ensures failed { result ≡ Ok Status.WriteFault → Rose (O.faults text.old) (O.faults text.new) }
{
    match open_outline(alloc, outline) {
        Ok(OutlineOpened::Done(registry, rest)) => {
            named_answer(alloc, &registry, &rest, uuid, listing, images, text)
        }
        Ok(OutlineOpened::Not(report)) => Ok(print_report(&report, text)),
        Err(_) => Err(RunStop::OutOfMemory),
    }
}
