//! The command `replay`: a schedule of the lanes of a namespace's one arena.
ghost use Rattle.std.specs.Prelude.{◌≡◌, ◌<◌, ◌*◌, ◌^◌, ◌≤◌, ℕ, List, [], ◌∷◌, IfOk, None, Err, length};
ghost use Rattle.std.specs.Option.{ForSome};
ghost use Rattle.nvd_media.specs.Causes.{Rose};
ghost use Rattle.arena_open.specs.Moves.{IsOpenState};
ghost use Rattle.image_set.specs.declared.outline.Outline.{Outline as OutlineRead};
ghost use Rattle.image_set.specs.Outline.{HasContents, IsLoadable, IsOutlined};
ghost use Rattle.namespace_bytes.specs.SectorPut.{AreSized};
ghost use Rattle.namespace_words.specs.Source.{AreWithin};
ghost use Rattle.shell_changes.specs.Answers.{outcome_with};
ghost use Rattle.shell_changes.specs.Remains.{LeavesBy};
ghost use Rattle.shell_reports.specs.Faults.{held_text, refused_outcome};
ghost use Rattle.shell_reports.specs.Saved.{outcome_of};
ghost use Rattle.shell_sectors.specs.Opening.{IsOpenOutline};
ghost use Rattle.shell_sectors.specs.Writing.{IsSectorPlace};
ghost use Rattle.shell_replay.specs.Answering.{AreSmall, ReplaysFrom, ReplaysOn, ReplaysWith};
ghost use Rattle.shell_replay.specs.Replay.{arenas_refusal};

use crate::opening::only_arena;
use crate::playing::play_and_cut;
use crate::schedule::Schedule;
use arena_open::{ArenaState, Chain};
use image_set::{Outline, OutlineRest};
use lane_replay::replays_stand;
use namespace_bytes::Run;
use namespace_ops::Registry;
use namespace_words::{ArenaRead, load_arenas, read_arenas_from, words_run};
use nvd_media::{Chooser, Failed, ImageSource};
use nvd_words::Items;
use power_cut::SetExtent;
use sector_namespaces::one_arena_changes;
use shell_changes::{Answer, in_memory, without_set};
use shell_reports::{Ending, Report, RunStop, held_answer, is_too_large, refused_answer};
use shell_sectors::{
    OutlineOpened, SectorPlace, open_outline, place_in, unfound_answer, unopened_answer,
};
use std::alloc::{AllocError, Global};
use uuid::Uuid;

/// Returns a run alone.
fn one_run(alloc: Global, run: Run) -> Result<Items<Run>, AllocError>
    ensures { IfOk result (λ runs. runs ≡ run ∷ []) }
{
    let mut runs = Items::new(alloc);
    runs.push(run)?;
    Ok(runs)
}

/// Plays a schedule on the one arena of a namespace, cuts power, and answers with the set in which the namespace has the arena's
/// words after it.
fn replay_only<C: Chooser>(
    alloc: Global,
    place: SectorPlace,
    state: ArenaState,
    schedule: &Schedule,
    choose: &mut C,
) -> Result<Answer, AllocError>
    requires open { IsOpenState state }
    requires few { length schedule.now.lines < 2 ^ 32 }
    requires found { (outline : OutlineRead) × ((uuid : List ℕ) × IsSectorPlace uuid outline place) }
    ensures { IfOk result (λ answer. (outline : OutlineRead) (uuid : List ℕ) → IsSectorPlace uuid outline place → ReplaysWith (LeavesBy C.begins C.picks choose.old) uuid schedule.now outline place (state ∷ []) answer) }
{
    one_arena_changes();
    replays_stand();
    let ended = play_and_cut(alloc, state, schedule, choose)?;
    let run = words_run(alloc, 0, ended.left)?;
    let runs = one_run(alloc, run)?;
    let report = Report {
        ending: Ending::Done,
        text: ended.text,
    };
    place.save(alloc, report, runs)
}

/// The answer if there isn't one arena.
fn arenas_answer(alloc: Global, count: usize) -> Result<Report, AllocError>
    ensures { IfOk result (λ report. outcome_of report ≡ refused_outcome (arenas_refusal count)) }
{
    let refusal = format!(in alloc; "Arenas {}", count)?;
    refused_answer(alloc, &refusal)
}

/// Plays a schedule on the arenas of a namespace that were loaded, if there is one.
fn replay_chain<C: Chooser>(
    alloc: Global,
    place: SectorPlace,
    chain: Chain,
    schedule: &Schedule,
    choose: &mut C,
) -> Result<Answer, AllocError>
    requires few { length schedule.now.lines < 2 ^ 32 }
    requires found { (outline : OutlineRead) × ((uuid : List ℕ) × IsSectorPlace uuid outline place) }
    ensures { IfOk result (λ answer. (outline : OutlineRead) (uuid : List ℕ) → IsSectorPlace uuid outline place → ReplaysWith (LeavesBy C.begins C.picks choose.old) uuid schedule.now outline place chain answer) }
{
    match only_arena(chain) {
        Ok(state) => replay_only(alloc, place, state, schedule, choose),
        Err(count) => Ok(without_set(arenas_answer(alloc, count)?)),
    }
}

/// Loads the arenas of a namespace, which were read, and plays a schedule on them. If there is one, it isn't too large to be opened
/// in memory.
fn replay_arenas<S: ImageSource, C: Chooser>(
    alloc: Global,
    uuid: &Uuid,
    place: SectorPlace,
    arenas: &[ArenaRead],
    schedule: &Schedule,
    images: &mut S,
    choose: &mut C,
) -> Result<Answer, RunStop>
    requires few { length schedule.now.lines < 2 ^ 32 }
    requires found { (outline : OutlineRead) × IsSectorPlace uuid.now outline place }
    requires there { ForSome (S.held images.old) (HasContents place.rest.sizes) }
    requires sized { AreSized arenas.now }
    requires within { AreWithin (length place.set * place.found.raw) arenas.now }
    requires small { AreSmall arenas.now }
    ensures comes { IfOk result (λ answer. (outline : OutlineRead) → IsSectorPlace uuid.now outline place → ReplaysOn (LeavesBy C.begins C.picks choose.old) (S.held images.old) uuid.now schedule.now outline place arenas.now answer) }
    ensures same { S.held images.new ≡ S.held images.old }
    ensures failed { result ≡ Err RunStop.ReadFault → Rose (S.faults images.old) (S.faults images.new) }
    ensures later { S.faults images.old ≤ S.faults images.new }
{
    let extent = SetExtent::of(&place.set, place.found.offset, place.found.raw);
    match load_arenas(alloc, images, &extent, arenas, uuid) {
        Ok(Ok(chain)) => in_memory(replay_chain(alloc, place, chain, schedule, choose)),
        Ok(Err(refused)) => in_memory(unopened_answer(alloc, uuid, refused)),
        Err(Failed) => Err(RunStop::ReadFault),
    }
}

/// The answer that nothing is changed, since there isn't one arena.
fn others_answer(alloc: Global, count: usize) -> Result<Answer, AllocError>
    ensures text { IfOk result (λ answer. (contents : List (List ℕ)) → outcome_with answer contents ≡ refused_outcome (arenas_refusal count)) }
    ensures saved { IfOk result (λ answer. answer.saved ≡ None) }
{
    Ok(without_set(arenas_answer(alloc, count)?))
}

/// The answer that nothing is changed, since the arena has too many bytes to be opened in memory.
fn large_answer(alloc: Global, bytes: u128) -> Result<Answer, AllocError>
    ensures text { IfOk result (λ answer. (contents : List (List ℕ)) → outcome_with answer contents ≡ refused_outcome (held_text bytes)) }
    ensures saved { IfOk result (λ answer. answer.saved ≡ None) }
{
    Ok(without_set(held_answer(alloc, bytes)?))
}

/// Plays a schedule on the arenas of a namespace, which were read, if there is one that isn't too large to be opened in memory. Only
/// then it is loaded.
fn replay_read<S: ImageSource, C: Chooser>(
    alloc: Global,
    uuid: &Uuid,
    place: SectorPlace,
    arenas: &[ArenaRead],
    schedule: &Schedule,
    images: &mut S,
    choose: &mut C,
) -> Result<Answer, RunStop>
    requires few { length schedule.now.lines < 2 ^ 32 }
    requires found { (outline : OutlineRead) × IsSectorPlace uuid.now outline place }
    requires there { ForSome (S.held images.old) (HasContents place.rest.sizes) }
    requires sized { AreSized arenas.now }
    requires within { AreWithin (length place.set * place.found.raw) arenas.now }
    ensures comes { IfOk result (λ answer. (outline : OutlineRead) → IsSectorPlace uuid.now outline place → ReplaysOn (LeavesBy C.begins C.picks choose.old) (S.held images.old) uuid.now schedule.now outline place arenas.now answer) }
    ensures same { S.held images.new ≡ S.held images.old }
    ensures failed { result ≡ Err RunStop.ReadFault → Rose (S.faults images.old) (S.faults images.new) }
    ensures later { S.faults images.old ≤ S.faults images.new }
{
    if arenas.len() != 1 {
        return in_memory(others_answer(alloc, arenas.len()));
    }
    let bytes = u128::from(arenas[0].parts().info.layout.size);
    if is_too_large(bytes) {
        return in_memory(large_answer(alloc, bytes));
    }
    replay_arenas(alloc, uuid, place, arenas, schedule, images, choose)
}

/// Reads the arenas of a namespace that was found from the source, and plays a schedule on them.
fn replay_found<S: ImageSource, C: Chooser>(
    alloc: Global,
    uuid: &Uuid,
    place: SectorPlace,
    schedule: &Schedule,
    images: &mut S,
    choose: &mut C,
) -> Result<Answer, RunStop>
    requires few { length schedule.now.lines < 2 ^ 32 }
    requires found { (outline : OutlineRead) × IsSectorPlace uuid.now outline place }
    requires there { ForSome (S.held images.old) (HasContents place.rest.sizes) }
    ensures comes { IfOk result (λ answer. (outline : OutlineRead) → IsSectorPlace uuid.now outline place → ReplaysFrom (LeavesBy C.begins C.picks choose.old) (S.held images.old) uuid.now schedule.now outline answer) }
    ensures same { S.held images.new ≡ S.held images.old }
    ensures failed { result ≡ Err RunStop.ReadFault → Rose (S.faults images.old) (S.faults images.new) }
    ensures later { S.faults images.old ≤ S.faults images.new }
{
    match read_arenas_from(
        alloc,
        images,
        &place.set,
        place.found.offset,
        place.found.raw,
        uuid,
    ) {
        Ok(Ok(arenas)) => {
            let arenas = arenas.as_slice();
            replay_read(alloc, uuid, place, arenas, schedule, images, choose)
        }
        Ok(Err(refused)) => in_memory(unopened_answer(alloc, uuid, refused)),
        Err(Failed) => Err(RunStop::ReadFault),
    }
}

/// Finds a namespace on a set whose labels are read, and plays a schedule on it.
fn replay_named<S: ImageSource, C: Chooser>(
    alloc: Global,
    uuid: &Uuid,
    schedule: &Schedule,
    registry: Registry,
    rest: OutlineRest,
    images: &mut S,
    choose: &mut C,
) -> Result<Answer, RunStop>
    requires few { length schedule.now.lines < 2 ^ 32 }
    requires open { (outline : OutlineRead) × IsOpenOutline outline registry rest }
    requires there { ForSome (S.held images.old) (HasContents rest.sizes) }
    ensures comes { IfOk result (λ answer. (outline : OutlineRead) → IsOpenOutline outline registry rest → ReplaysFrom (LeavesBy C.begins C.picks choose.old) (S.held images.old) uuid.now schedule.now outline answer) }
    ensures same { S.held images.new ≡ S.held images.old }
    ensures failed { result ≡ Err RunStop.ReadFault → Rose (S.faults images.old) (S.faults images.new) }
    ensures later { S.faults images.old ≤ S.faults images.new }
{
    match registry.find(uuid) {
        Ok(found) => {
            let place = place_in(found, registry, rest);
            replay_found(alloc, uuid, place, schedule, images, choose)
        }
        Err(refused) => in_memory(unfound_answer(alloc, refused)),
    }
}

/// Answers `replay` on an image set that was loaded without its contents: what the lines of the schedule print, and the set after
/// a power cut behind the last line; or the first region that isn't an interleave set, or the first two UUIDs with overlapping
/// extents; or why the namespace isn't found; or the first of its arenas that violates the format; or `Arenas` with their number,
/// if it hasn't exactly one; or `TooLarge` with the arena's size in bytes, if it is more than 1 GiB.
///
/// The pending moves of the arena are completed first. Then its lanes are in no call, and make the calls and steps of the lines.
/// At the cut the chooser is begun once, with the schedule's number, and decides for each word that was stored and not flushed,
/// in rising order. Labels aren't recovered: label areas, and all contents but the arena's, are saved as they were loaded. After a
/// refusal nothing is saved.
///
/// Of the contents only the arenas' info blocks, logs and maps are read, and then the words of the one arena, if it isn't too large. Everything else is read as
/// the set is saved, and the arena's words are put in then. `comes` speaks of the contents that the source has, as far as it
/// reveals them. `failed`: `ReadFault` means that the source's count of failures rose in this call.
///
/// There must be fewer than 2^32 lines.
pub fn replay_answer<S: ImageSource, C: Chooser>(
    alloc: Global,
    uuid: &Uuid,
    schedule: &Schedule,
    outline: Outline,
    images: &mut S,
    choose: &mut C,
) -> Result<Answer, RunStop>
    requires sound { IsOutlined outline }
    requires loadable { IsLoadable outline }
    requires there { ForSome (S.held images.old) (HasContents outline.sizes) }
    requires few { length schedule.now.lines < 2 ^ 32 }
    ensures comes { IfOk result (ReplaysFrom (LeavesBy C.begins C.picks choose.old) (S.held images.old) uuid.now schedule.now outline) }
    ensures same { S.held images.new ≡ S.held images.old }
    ensures failed { result ≡ Err RunStop.ReadFault → Rose (S.faults images.old) (S.faults images.new) }
    ensures later { S.faults images.old ≤ S.faults images.new }
{
    match open_outline(alloc, outline) {
        Ok(OutlineOpened::Done(registry, rest)) => {
            replay_named(alloc, uuid, schedule, registry, rest, images, choose)
        }
        Ok(OutlineOpened::Not(report)) => Ok(without_set(report)),
        Err(_) => Err(RunStop::OutOfMemory),
    }
}
