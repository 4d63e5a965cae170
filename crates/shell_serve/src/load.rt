//! The command `load`: a script that is made from a number is served on one namespace.
ghost use Rattle.std.specs.Prelude.{◌≡◌, ◌<◌, ◌≤◌, ℕ, List, [], ◌∷◌, IfOk, Ok, Err};
ghost use Rattle.std.specs.Option.{ForSome};
ghost use Rattle.nvd_media.specs.Causes.{Rose};
ghost use Rattle.arena_open.specs.declared.state.ArenaState.{ArenaState as State};
ghost use Rattle.arena_open.specs.ChainCells.{AreOpen, sectors_of};
ghost use Rattle.image_set.specs.declared.outline.Outline.{Outline as OutlineRead};
ghost use Rattle.image_set.specs.Outline.{HasContents, IsLoadable, IsOutlined, image_set_with};
ghost use Rattle.namespace_areas.specs.declared.found.Found.{Found as AnyFound};
ghost use Rattle.namespace_areas.specs.Finding.{found_of};
ghost use Rattle.namespace_areas.specs.Seen.{areas_seen};
ghost use Rattle.namespace_areas.specs.Steps.{rows_of};
ghost use Rattle.namespace_map.specs.Changes.{namespaces_of};
ghost use Rattle.namespace_map.specs.Namespaces.{lookup};
ghost use Rattle.served_namespaces.specs.declared.places.OpenedNamespace.{OpenedNamespace as AnyNamespace};
ghost use Rattle.served_namespaces.specs.Places.{CanOpen};
ghost use Rattle.served_namespaces.specs.Reading.{RevealsAll};
ghost use Rattle.session_script.specs.Names.{ScriptHasText};
ghost use Rattle.shell_changes.specs.Answers.{HasSizes, outcome_with};
ghost use Rattle.shell_changes.specs.Remains.{LeavesBy};
ghost use Rattle.shell_serve.specs.Answering.{AnswersFrom, FindsIn, HoldsIn, IsOpen, OpensAs, OpensIn, OpensOne, Shows};
ghost use Rattle.shell_serve.specs.Load.{LoadComes, LoadsRecovered, LoadsOnStates, one_opened};
ghost use Rattle.shell_serve.specs.Recovered.{IsRecovered};
ghost use Rattle.shell_serve.specs.Serving.{Serves};
ghost use Rattle.shell_serve.specs.Texts.{summary};

use crate::opening::{OpenOutcome, not_open, open_namespaces};
use crate::recovered::{RecoveredSet, SetRecovered, recover_set};
use crate::saving::left_answer;
use crate::serving::{Running, Served, serve_opened};
use crate::texts::{serve_text, summary};
use arena_open::ArenaState;
use image_set::Outline;
use lane_calls::Waiting;
use namespace_areas::Found;
use nvd_media::{Chooser, Gate, ImageSource};
use nvd_words::Items;
use served_namespaces::{FoundNamespace, OpenedNamespace};
use session_script::{Script, make_load};
use shell_changes::{Answer, in_memory, without_set};
use shell_reports::{RunStop, op_refused_answer, printed_answer, range_answer};
use std::alloc::{AllocError, Global};
use std::sync::Wait;
use std::thread::Threads;
use uuid::Uuid;

/// What is loaded: a namespace, by sessions that each make so many calls on sectors. The calls follow from a number.
#[derive(Clone, Copy, Debug, PartialEq, Eq)]
pub struct Load {
    pub number: u64,
    pub uuid: Uuid,
    pub sessions: u32,
    pub calls: u32,
}

/// How many sectors arenas have together.
fn sectors_in(arenas: &[ArenaState]) -> u64
    requires { AreOpen arenas.now }
    ensures { result ≡ sectors_of arenas.now }
{
    let mut count = 0;
    for arena in arenas {
        count += u64::from(arena.info.layout.external);
    }
    count
}

/// How many sectors the first of namespaces has that are open. There is one.
fn sectors_of(opened: &[OpenedNamespace]) -> u64
    requires one { (o : AnyNamespace) × (opened.now ≡ o ∷ []) × AreOpen o.states }
    ensures { (o : AnyNamespace) → opened.now ≡ o ∷ [] → result ≡ sectors_of o.states }
{
    sectors_in(opened[0].states.as_slice())
}

/// Runs the sessions of a script on namespaces that are open, and answers with a summary and the set that is left.
fn script_answer<R: Threads + Wait + Sync, C: Chooser, G: Gate>(
    waiting: &Waiting<R, G>,
    alloc: Global,
    running: Running,
    script: &Script,
    opened: Items<OpenedNamespace>,
    set: RecoveredSet,
    choose: &mut C,
) -> Result<Answer, AllocError>
    requires workers { 0 < running.workers }
    requires text { ScriptHasText script.now }
    requires open { (outline : OutlineRead) × IsOpen outline set opened }
    ensures comes { IfOk result (λ answer. (outline : OutlineRead) (contents : List (List ℕ)) → IsOpen outline set opened → HoldsIn outline set contents opened
        → Serves (LeavesBy C.begins C.picks choose.old running.seed) (summary script.now) set.registry.sets (image_set_with outline contents) (areas_seen set.registry.areas) (rows_of set.registry.areas) opened script.now (outcome_with answer contents)) }
    ensures sizes { IfOk result (HasSizes set.rest.sizes) }
{
    let served = serve_opened(waiting, alloc, running, script, opened, set, choose)?;
    let Served {
        texts,
        areas,
        rest,
        patch,
    } = served;
    let lines = serve_text(alloc, texts)?;
    let text = summary(alloc, script, lines)?;
    left_answer(alloc, printed_answer(text), areas, rest, patch, choose)
}

/// Answers on a namespace that is open.
fn opened_answer<R: Threads + Wait + Sync, C: Chooser, G: Gate>(
    waiting: &Waiting<R, G>,
    alloc: Global,
    running: Running,
    load: &Load,
    opened: Items<OpenedNamespace>,
    set: RecoveredSet,
    choose: &mut C,
) -> Result<Answer, AllocError>
    requires workers { 0 < running.workers }
    requires some { 0 < load.now.sessions }
    requires one { (found : AnyFound) × ((states : List State) × (opened ≡ one_opened load.now found states)) }
    requires open { (outline : OutlineRead) × IsOpen outline set opened }
    ensures comes { IfOk result (λ answer. (outline : OutlineRead) (contents : List (List ℕ)) (found : AnyFound) (states : List State) → IsOpen outline set opened → HoldsIn outline set contents opened → opened ≡ one_opened load.now found states
        → LoadsOnStates (LeavesBy C.begins C.picks choose.old running.seed) load.now set.registry.sets (image_set_with outline contents) (areas_seen set.registry.areas) (rows_of set.registry.areas) found states (outcome_with answer contents)) }
    ensures sizes { IfOk result (HasSizes set.rest.sizes) }
{
    let sectors = sectors_of(opened.as_slice());
    if sectors < u64::from(load.sessions) {
        let report = range_answer(alloc, sectors)?;
        return Ok(without_set(report));
    }
    let script = make_load(
        alloc,
        load.number,
        &load.uuid,
        sectors,
        load.sessions,
        load.calls,
    )?;
    script_answer(waiting, alloc, running, &script, opened, set, choose)
}

/// Opens the namespace that is loaded.
fn open_found<S: ImageSource>(
    alloc: Global,
    uuid: &Uuid,
    found: Found,
    set: &RecoveredSet,
    images: &mut S,
) -> Result<OpenOutcome, RunStop>
    requires can { CanOpen set.now.registry.sets (record { uuid = uuid.now; found = found }) }
    requires recovered { (outline : OutlineRead) × IsRecovered outline set.now }
    requires there { ForSome (S.held images.old) (HasContents set.now.rest.sizes) }
    ensures safe { IfOk result (OpensAs set.now.registry.sets (record { uuid = uuid.now; found = found } ∷ [])) }
    ensures told { (contents : List (List ℕ)) → RevealsAll (S.held images.old) set.now.registry.sets contents → IfOk result (OpensIn set.now.registry.sets contents (record { uuid = uuid.now; found = found } ∷ [])) }
    ensures same { S.held images.new ≡ S.held images.old }
    ensures failed { result ≡ Err RunStop.ReadFault → Rose (S.faults images.old) (S.faults images.new) }
    ensures later { S.faults images.old ≤ S.faults images.new }
{
    let place = FoundNamespace { uuid: *uuid, found };
    open_namespaces(alloc, &[place], set, images)
}

/// Finds the namespace that is loaded, and opens it.
fn open_named<S: ImageSource>(
    alloc: Global,
    uuid: &Uuid,
    set: &RecoveredSet,
    images: &mut S,
) -> Result<OpenOutcome, RunStop>
    requires recovered { (outline : OutlineRead) × IsRecovered outline set.now }
    requires there { ForSome (S.held images.old) (HasContents set.now.rest.sizes) }
    ensures safe { IfOk result (OpensOne set.now.registry.sets uuid.now) }
    ensures told { (contents : List (List ℕ)) → RevealsAll (S.held images.old) set.now.registry.sets contents
        → IfOk result (FindsIn set.now.registry.sets contents uuid.now (found_of set.now.registry.sets (lookup uuid.now (namespaces_of set.now.registry.sets (areas_seen set.now.registry.areas)).entries))) }
    ensures same { S.held images.new ≡ S.held images.old }
    ensures failed { result ≡ Err RunStop.ReadFault → Rose (S.faults images.old) (S.faults images.new) }
    ensures later { S.faults images.old ≤ S.faults images.new }
{
    match set.registry.find(uuid) {
        Ok(found) => open_found(alloc, uuid, found, set, images),
        Err(refused) => not_open(op_refused_answer(alloc, refused)),
    }
}

/// Answers on a set whose labels are recovered.
fn recovered_answer<R: Threads + Wait + Sync, S: ImageSource, C: Chooser, G: Gate>(
    waiting: &Waiting<R, G>,
    alloc: Global,
    running: Running,
    load: &Load,
    set: RecoveredSet,
    images: &mut S,
    choose: &mut C,
) -> Result<Answer, RunStop>
    requires workers { 0 < running.workers }
    requires some { 0 < load.now.sessions }
    requires recovered { (outline : OutlineRead) × IsRecovered outline set }
    requires there { ForSome (S.held images.old) (HasContents set.rest.sizes) }
    ensures comes { IfOk result (λ answer. (outline : OutlineRead) (contents : List (List ℕ)) → IsRecovered outline set → Shows (S.held images.old) outline set contents
        → LoadsRecovered (LeavesBy C.begins C.picks choose.old running.seed) load.now set.registry.sets (image_set_with outline contents) (areas_seen set.registry.areas) (rows_of set.registry.areas) (outcome_with answer contents)) }
    ensures sizes { IfOk result (HasSizes set.rest.sizes) }
    ensures same { S.held images.new ≡ S.held images.old }
    ensures failed { result ≡ Err RunStop.ReadFault → Rose (S.faults images.old) (S.faults images.new) }
    ensures later { S.faults images.old ≤ S.faults images.new }
{
    match open_named(alloc, &load.uuid, &set, images)? {
        OpenOutcome::Done(opened) => in_memory(opened_answer(
            waiting, alloc, running, load, opened, set, choose,
        )),
        OpenOutcome::Not(report) => Ok(without_set(report)),
    }
}

/// Answers `load` on an image set that was loaded without its contents: how many sessions and calls there were, a checksum of the text
/// that `serve` would print, and the set after them; or the first region that isn't an interleave set, or the first two UUIDs with
/// overlapping extents; or why the namespace isn't found; or the first of its arenas that violates the format; or `TooLarge` with the
/// bytes of its arenas, if these have more than 1 GiB together; or `Range` with the number of its sectors, if they are fewer than the
/// sessions.
///
/// Labels are recovered first. The script is the one that `make_load` makes of the number, and it is served as `serve_answer` says.
/// There are at least one worker and one session. Of the contents only the arenas of the namespace are read before the set is saved.
/// `comes` speaks of the contents that the source has, as far as it reveals them. `failed`: `ReadFault` means that the source's count of
/// failures rose in this call. (Scripts and texts are this project's rules.)
pub fn load_answer<R: Threads + Wait + Sync, S: ImageSource, C: Chooser, G: Gate>(
    waiting: &Waiting<R, G>,
    alloc: Global,
    running: Running,
    load: &Load,
    outline: Outline,
    images: &mut S,
    choose: &mut C,
) -> Result<Answer, RunStop>
    requires workers { 0 < running.workers }
    requires some { 0 < load.now.sessions }
    requires sound { IsOutlined outline }
    requires loadable { IsLoadable outline }
    requires there { ForSome (S.held images.old) (HasContents outline.sizes) }
    ensures comes { IfOk result (AnswersFrom (LoadComes (LeavesBy C.begins C.picks choose.old running.seed) load.now) (S.held images.old) outline) }
    ensures same { S.held images.new ≡ S.held images.old }
    ensures failed { result ≡ Err RunStop.ReadFault → Rose (S.faults images.old) (S.faults images.new) }
    ensures later { S.faults images.old ≤ S.faults images.new }
{
    match recover_set(alloc, outline) {
        Ok(SetRecovered::Done(set)) => {
            recovered_answer(waiting, alloc, running, load, set, images, choose)
        }
        Ok(SetRecovered::Not(report)) => Ok(without_set(report)),
        Err(_) => Err(RunStop::OutOfMemory),
    }
}
