//! The command `serve`: the sessions of a script.
ghost use Rattle.std.specs.Prelude.{◌≡◌, ◌<◌, ◌≤◌, ℕ, IfOk, List, Err};
ghost use Rattle.std.specs.List.{All};
ghost use Rattle.std.specs.Option.{ForSome};
ghost use Rattle.nvd_media.specs.Causes.{Rose};
ghost use Rattle.image_set.specs.declared.outline.Outline.{Outline as OutlineRead};
ghost use Rattle.image_set.specs.Outline.{HasContents, IsLoadable, IsOutlined, image_set_with};
ghost use Rattle.namespace_areas.specs.Seen.{areas_seen};
ghost use Rattle.namespace_areas.specs.Steps.{rows_of};
ghost use Rattle.namespace_map.specs.Changes.{namespaces_of};
ghost use Rattle.served_namespaces.specs.Opening.{found_each};
ghost use Rattle.served_namespaces.specs.Places.{AreDisjoint, CanOpen};
ghost use Rattle.served_namespaces.specs.Reading.{RevealsAll};
ghost use Rattle.session_script.specs.Names.{ScriptHasText};
ghost use Rattle.shell_changes.specs.Answers.{HasSizes, outcome_with};
ghost use Rattle.shell_changes.specs.Remains.{LeavesBy};
ghost use Rattle.shell_serve.specs.Answering.{AnswersFrom, HoldsIn, IsOpen, OpensApart, OpensIn, Shows};
ghost use Rattle.shell_serve.specs.Recovered.{IsRecovered};
ghost use Rattle.shell_serve.specs.Scripts.{opened_by};
ghost use Rattle.shell_serve.specs.Serve.{OnRecovered, ServeComes};
ghost use Rattle.shell_serve.specs.Serving.{Serves};
ghost use Rattle.shell_serve.specs.Texts.{serve_text};

use crate::opening::{OpenOutcome, open_namespaces};
use crate::recovered::{RecoveredSet, SetRecovered, recover_set};
use crate::saving::left_answer;
use crate::scripts::open_lines;
use crate::serving::{Running, Served, serve_opened};
use crate::texts::serve_text;
use image_set::Outline;
use lane_calls::Waiting;
use nvd_media::{Chooser, Gate, ImageSource};
use nvd_words::Items;
use served_namespaces::{FoundNamespace, OpenedNamespace, find_each, first_ones};
use session_script::Script;
use shell_changes::{Answer, in_memory, without_set};
use shell_reports::{RunStop, printed_answer};
use std::alloc::{AllocError, Global};
use std::sync::Wait;
use std::thread::Threads;

/// Runs the sessions of a script on namespaces that are open, and answers with their replies and the set that is left.
fn opened_answer<R: Threads + Wait + Sync, C: Chooser, G: Gate>(
    waiting: &Waiting<R, G>,
    alloc: Global,
    running: Running,
    script: &Script,
    opened: Items<OpenedNamespace>,
    set: RecoveredSet,
    choose: &mut C,
) -> Result<Answer, AllocError>
    requires workers { 0 < running.workers }
    requires text { ScriptHasText script.now }
    requires open { (outline : OutlineRead) × IsOpen outline set opened }
    ensures comes { IfOk result (λ answer. (outline : OutlineRead) (contents : List (List ℕ)) → IsOpen outline set opened → HoldsIn outline set contents opened
        → Serves (LeavesBy C.begins C.picks choose.old running.seed) serve_text set.registry.sets (image_set_with outline contents) (areas_seen set.registry.areas) (rows_of set.registry.areas) opened script.now (outcome_with answer contents)) }
    ensures sizes { IfOk result (HasSizes set.rest.sizes) }
{
    let served = serve_opened(waiting, alloc, running, script, opened, set, choose)?;
    let Served {
        texts,
        areas,
        rest,
        patch,
    } = served;
    let text = serve_text(alloc, texts)?;
    left_answer(alloc, printed_answer(text), areas, rest, patch, choose)
}

/// Finds the namespaces that a script opens: those of its `open` lines that are complete ones of sectors, each once.
fn find_opened(
    alloc: Global,
    script: &Script,
    set: &RecoveredSet,
) -> Result<Vec<FoundNamespace>, AllocError>
    requires recovered { (outline : OutlineRead) × IsRecovered outline set.now }
    ensures can { IfOk result (λ places. All (CanOpen set.now.registry.sets) places.items) }
    ensures disjoint { IfOk result (λ places. AreDisjoint set.now.registry.sets places.items) }
    ensures found { IfOk result (λ places. places.items ≡ found_each set.now.registry.sets (namespaces_of set.now.registry.sets (areas_seen set.now.registry.areas)) (opened_by script.now)) }
{
    let lines = open_lines(alloc, script)?;
    let uuids = first_ones(alloc, &lines)?;
    find_each(alloc, &set.registry, &uuids)
}

/// Opens the namespaces that a script opens.
fn open_script<S: ImageSource>(
    alloc: Global,
    script: &Script,
    set: &RecoveredSet,
    images: &mut S,
) -> Result<OpenOutcome, RunStop>
    requires recovered { (outline : OutlineRead) × IsRecovered outline set.now }
    requires there { ForSome (S.held images.old) (HasContents set.now.rest.sizes) }
    ensures safe { IfOk result (OpensApart set.now.registry.sets) }
    ensures told { (contents : List (List ℕ)) → RevealsAll (S.held images.old) set.now.registry.sets contents
        → IfOk result (OpensIn set.now.registry.sets contents (found_each set.now.registry.sets (namespaces_of set.now.registry.sets (areas_seen set.now.registry.areas)) (opened_by script.now))) }
    ensures same { S.held images.new ≡ S.held images.old }
    ensures failed { result ≡ Err RunStop.ReadFault → Rose (S.faults images.old) (S.faults images.new) }
    ensures later { S.faults images.old ≤ S.faults images.new }
{
    match find_opened(alloc, script, set) {
        Ok(places) => open_namespaces(alloc, &places, set, images),
        Err(_) => Err(RunStop::OutOfMemory),
    }
}

/// Answers on a set whose labels are recovered.
fn recovered_answer<R: Threads + Wait + Sync, S: ImageSource, C: Chooser, G: Gate>(
    waiting: &Waiting<R, G>,
    alloc: Global,
    running: Running,
    script: &Script,
    set: RecoveredSet,
    images: &mut S,
    choose: &mut C,
) -> Result<Answer, RunStop>
    requires workers { 0 < running.workers }
    requires text { ScriptHasText script.now }
    requires recovered { (outline : OutlineRead) × IsRecovered outline set }
    requires there { ForSome (S.held images.old) (HasContents set.rest.sizes) }
    ensures comes { IfOk result (λ answer. (outline : OutlineRead) (contents : List (List ℕ)) → IsRecovered outline set → Shows (S.held images.old) outline set contents
        → OnRecovered (LeavesBy C.begins C.picks choose.old running.seed) set.registry.sets (image_set_with outline contents) (areas_seen set.registry.areas) (rows_of set.registry.areas) script.now (outcome_with answer contents)) }
    ensures sizes { IfOk result (HasSizes set.rest.sizes) }
    ensures same { S.held images.new ≡ S.held images.old }
    ensures failed { result ≡ Err RunStop.ReadFault → Rose (S.faults images.old) (S.faults images.new) }
    ensures later { S.faults images.old ≤ S.faults images.new }
{
    match open_script(alloc, script, &set, images)? {
        OpenOutcome::Done(opened) => in_memory(opened_answer(
            waiting, alloc, running, script, opened, set, choose,
        )),
        OpenOutcome::Not(report) => Ok(without_set(report)),
    }
}

/// Answers `serve` on an image set that was loaded without its contents: a line for each reply of each session, and the set after
/// them; or the first region that isn't an interleave set, or the first two UUIDs with overlapping extents; or the first arena that
/// violates the format, of the namespaces that the script opens, in order of their first `open` line; or `TooLarge` with the bytes
/// of all their arenas, if these have more than 1 GiB together.
///
/// Labels are recovered first, and the pending moves of the arenas are completed, with power that stays on. The sessions run in at
/// most `workers` threads. Each makes its calls one after another; power goes off for all after the steps that a `cut` line or
/// `labelcut` states. However their steps come between one another (`Serves`):
///
/// - every read replies with its sector's value at one point of its arena's one legal history, in which each session's calls stand
///   once and in order;
/// - the set that is left, once recovered, gives every sector as that history ends, or as one write that was cut; and the namespaces
///   of the journal's end, or those from before or after the command that was cut (`LeftRecovers`). No two namespaces have extents that
///   meet;
/// - each unflushed word is as the chooser picks. It is begun once, behind the last call, and asked for the pending words of each arena,
///   in order of the namespaces, and then for those of the label areas. These hold the words that the commands stored and flushed, as
///   far as `labelcut` lasted, and no other (`AreasHold`).
///
/// Of the contents only the arenas that the script opens are read, and their words are in memory. Everything else is read as the set is
/// saved, and the arenas' words are put in then. `comes` speaks of the contents that the source has, as far as it reveals them.
/// `failed`: `ReadFault` means that the source's count of failures rose in this call.
///
/// There is at least one worker. (UEFI 2.10, chapters 6 and 13; scripts and texts are this project's rules.)
pub fn serve_answer<R: Threads + Wait + Sync, S: ImageSource, C: Chooser, G: Gate>(
    waiting: &Waiting<R, G>,
    alloc: Global,
    running: Running,
    script: &Script,
    outline: Outline,
    images: &mut S,
    choose: &mut C,
) -> Result<Answer, RunStop>
    requires workers { 0 < running.workers }
    requires text { ScriptHasText script.now }
    requires sound { IsOutlined outline }
    requires loadable { IsLoadable outline }
    requires there { ForSome (S.held images.old) (HasContents outline.sizes) }
    ensures comes { IfOk result (AnswersFrom (ServeComes (LeavesBy C.begins C.picks choose.old running.seed) script.now) (S.held images.old) outline) }
    ensures same { S.held images.new ≡ S.held images.old }
    ensures failed { result ≡ Err RunStop.ReadFault → Rose (S.faults images.old) (S.faults images.new) }
    ensures later { S.faults images.old ≤ S.faults images.new }
{
    match recover_set(alloc, outline) {
        Ok(SetRecovered::Done(set)) => {
            recovered_answer(waiting, alloc, running, script, set, images, choose)
        }
        Ok(SetRecovered::Not(report)) => Ok(without_set(report)),
        Err(_) => Err(RunStop::OutOfMemory),
    }
}
