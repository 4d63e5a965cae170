//! The command `check`.
ghost use Rattle.std.specs.Prelude.{◌≡◌, ℕ, ◌++◌, ◌≤◌, [], IfOk, Err, List, MatchBool, map};
ghost use Rattle.std.specs.Option.{ForSome};
ghost use Rattle.nvd_media.specs.Causes.{HasCause, Rose};
ghost use Rattle.image_set.specs.declared.outline.Outline.{Outline as OutlineRead};
ghost use Rattle.image_set.specs.Outline.{HasContents, IsLoadable, IsOutlined};
ghost use Rattle.bad_ranges.specs.Bad.{bad_words};
ghost use Rattle.power_cut.specs.Namespace.{Namespace, over, words_of};
ghost use Rattle.namespace_bytes.specs.Patching.{bytes_by_place};
ghost use Rattle.namespace_words.specs.Source.{Reveals};
ghost use Rattle.sector_namespaces.specs.View.{rows_of};
ghost use Rattle.shell_sectors.specs.Opening.{IsOpenOutline};
ghost use Rattle.shell_sectors.specs.Writing.{IsSectorPlace, SavesRuns};
ghost use Rattle.shell_check.specs.Saving.{PrintsCopied};
ghost use Rattle.namespace_areas.specs.Seen.{words_of as area_words};
ghost use Rattle.arena_repair.specs.Chain.{reports_of};
ghost use Rattle.shell_check.specs.Comes.{ChecksFrom};
ghost use Rattle.shell_check.specs.Reading.{RepairsAll};
ghost use Rattle.shell_check.specs.Text.{check_text, last_line};

use crate::chain::Checked;
use crate::extent::check_extent;
use crate::saving::copied_answer;
use crate::text::push_last_line;
use image_set::{Outline, OutlineRest};
use namespace_ops::Registry;
use nvd_media::{Failed, ImageSource};
use power_cut::SetExtent;
use shell_changes::{Answer, in_memory, without_set};
use shell_reports::{RunStop, printed_answer};
use shell_sectors::{OutlineOpened, SectorPlace, open_outline, place_in, unfound_answer};
use std::alloc::{AllocError, Global};
use uuid::Uuid;

/// Appends the last line.
fn with_last_line(alloc: Global, checked: Checked) -> Result<Checked, AllocError>
    ensures text { IfOk result (λ done. done.text.items ≡ checked.text.items ++ last_line checked.count) }
    ensures runs { IfOk result (λ done. done.runs ≡ checked.runs) }
{
    let Checked {
        mut text,
        count,
        runs,
    } = checked;
    push_last_line(alloc, count, &mut text)?;
    Ok(Checked { text, count, runs })
}

/// Checks the arenas of a namespace that was found. It returns the lines of what was found, and with `repair` the runs of bytes
/// that repair them.
fn check_place<S: ImageSource>(
    alloc: Global,
    uuid: &Uuid,
    repair: bool,
    place: &SectorPlace,
    images: &mut S,
) -> Result<Result<Checked, AllocError>, Failed>
    requires found { (outline : OutlineRead) × IsSectorPlace uuid.now outline place.now }
    requires there { ForSome (S.held images.old) (HasContents place.now.rest.sizes) }
    ensures told { (contents : List (List ℕ)) → Reveals (S.held images.old) place.now.set contents → (e : Namespace) → e ≡ over place.now.set place.now.found.offset place.now.found.raw (rows_of contents)
        → IfOk result (λ found. IfOk found (λ checked. checked.text.items ≡ check_text repair (reports_of (bad_words e place.now.rest.bad) (words_of e).kept uuid.now))) }
    ensures repairs { (contents : List (List ℕ)) → Reveals (S.held images.old) place.now.set contents → (e : Namespace) → e ≡ over place.now.set place.now.found.offset place.now.found.raw (rows_of contents)
        → IfOk result (λ found. IfOk found (λ checked. MatchBool repair (RepairsAll (bad_words e place.now.rest.bad) uuid.now (bytes_by_place place.now.set place.now.found.offset place.now.found.raw contents) checked.runs) (checked.runs ≡ []))) }
    ensures same { S.held images.new ≡ S.held images.old }
    ensures cause { HasCause (S.faults images.old) (S.faults images.new) result }
{
    let extent = SetExtent::of(&place.set, place.found.offset, place.found.raw);
    let bad = place.rest.bad.as_slice();
    match check_extent(alloc, images, &extent, bad, uuid, "arena ", repair)? {
        Ok(checked) => Ok(with_last_line(alloc, checked)),
        Err(_) => Ok(Err(AllocError)),
    }
}

/// Answers with the lines of what was found, and with the set: repaired, or as it was loaded.
fn saved_answer(
    alloc: Global,
    repair: bool,
    place: SectorPlace,
    checked: Checked,
) -> Result<Answer, AllocError>
    requires found { (outline : OutlineRead) × ((uuid : List ℕ) × IsSectorPlace uuid outline place) }
    ensures { IfOk result (λ answer. (outline : OutlineRead) (uuid : List ℕ) (it : IsSectorPlace uuid outline place)
        → MatchBool repair (SavesRuns checked.text.items it.registry place checked.runs answer) (PrintsCopied checked.text.items place.rest (map area_words it.registry.areas) answer)) }
{
    let report = printed_answer(checked.text);
    if repair {
        return place.save(alloc, report, checked.runs);
    }
    copied_answer(alloc, report, place.rest, place.areas)
}

/// Checks the arenas of a namespace that was found, and answers with the lines and the set.
fn place_answer<S: ImageSource>(
    alloc: Global,
    uuid: &Uuid,
    repair: bool,
    place: SectorPlace,
    images: &mut S,
) -> Result<Answer, RunStop>
    requires found { (outline : OutlineRead) × IsSectorPlace uuid.now outline place }
    requires there { ForSome (S.held images.old) (HasContents place.rest.sizes) }
    ensures told { IfOk result (λ answer. (outline : OutlineRead) → IsSectorPlace uuid.now outline place → ChecksFrom (S.held images.old) uuid.now repair outline answer) }
    ensures same { S.held images.new ≡ S.held images.old }
    ensures failed { result ≡ Err RunStop.ReadFault → Rose (S.faults images.old) (S.faults images.new) }
    ensures later { S.faults images.old ≤ S.faults images.new }
{
    match check_place(alloc, uuid, repair, &place, images) {
        Ok(Ok(checked)) => in_memory(saved_answer(alloc, repair, place, checked)),
        Ok(Err(_)) => Err(RunStop::OutOfMemory),
        Err(Failed) => Err(RunStop::ReadFault),
    }
}

/// Finds a namespace on a set whose labels are read, and checks its arenas.
fn named_answer<S: ImageSource>(
    alloc: Global,
    uuid: &Uuid,
    repair: bool,
    registry: Registry,
    rest: OutlineRest,
    images: &mut S,
) -> Result<Answer, RunStop>
    requires open { (outline : OutlineRead) × IsOpenOutline outline registry rest }
    requires there { ForSome (S.held images.old) (HasContents rest.sizes) }
    ensures told { IfOk result (λ answer. (outline : OutlineRead) → IsOpenOutline outline registry rest → ChecksFrom (S.held images.old) uuid.now repair outline answer) }
    ensures same { S.held images.new ≡ S.held images.old }
    ensures failed { result ≡ Err RunStop.ReadFault → Rose (S.faults images.old) (S.faults images.new) }
    ensures later { S.faults images.old ≤ S.faults images.new }
{
    match registry.find(uuid) {
        Ok(found) => {
            let place = place_in(found, registry, rest);
            place_answer(alloc, uuid, repair, place, images)
        }
        Err(refused) => in_memory(unfound_answer(alloc, refused)),
    }
}

/// Answers `check` on an image set that was loaded without its contents: a line for each finding in the arenas of a sector
/// namespace, and a last line; and the set as it was loaded. With `repair` the arenas are repaired in the set that is saved, as far
/// as nothing has to be guessed; the lines say what was repaired, and then what stays open. Or the first region that isn't an interleave set, or the first two
/// UUIDs with overlapping extents; or why the namespace isn't found. After these nothing is saved.
///
/// Of the contents only the arenas' info blocks, logs and maps are read, until the set is saved. `told` speaks of the contents that
/// the source has, as far as it reveals them. `failed`: `ReadFault` means that the source's count of failures rose in this call.
pub fn check_answer<S: ImageSource>(
    alloc: Global,
    uuid: &Uuid,
    repair: bool,
    outline: Outline,
    images: &mut S,
) -> Result<Answer, RunStop>
    requires sound { IsOutlined outline }
    requires loadable { IsLoadable outline }
    requires there { ForSome (S.held images.old) (HasContents outline.sizes) }
    ensures told { IfOk result (ChecksFrom (S.held images.old) uuid.now repair outline) }
    ensures same { S.held images.new ≡ S.held images.old }
    ensures failed { result ≡ Err RunStop.ReadFault → Rose (S.faults images.old) (S.faults images.new) }
    ensures later { S.faults images.old ≤ S.faults images.new }
{
    match open_outline(alloc, outline) {
        Ok(OutlineOpened::Done(registry, rest)) => {
            named_answer(alloc, uuid, repair, registry, rest, images)
        }
        Ok(OutlineOpened::Not(report)) => Ok(without_set(report)),
        Err(_) => Err(RunStop::OutOfMemory),
    }
}
