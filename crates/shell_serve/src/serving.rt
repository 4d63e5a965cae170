//! Sessions run on namespaces that are open, and power is cut behind them.
ghost use Rattle.std.specs.Prelude.{◌≡◌, ◌<◌, ℕ, IfOk, List, length, map, All};
ghost use Rattle.image_set.specs.declared.outline.Outline.{Outline as OutlineRead};
ghost use Rattle.image_set.specs.Patches.{patched_contents};
ghost use Rattle.namespace_bytes.specs.Patching.{all_patched};
ghost use Rattle.sector_namespaces.specs.View.{rows_of};
ghost use Rattle.session_script.specs.Names.{ScriptHasText};
ghost use Rattle.session_service.specs.Made.{IsUnused};
ghost use Rattle.session_service.specs.Namespaces.{AreOpened};
ghost use Rattle.session_service.specs.Ran.{HasServed};
ghost use Rattle.shell_serve.specs.Answering.{AreSame, HoldsIn, IsOpen, IsServed};
ghost use Rattle.shell_serve.specs.Chosen.{LeavesTo};

use crate::cutting::cut_all;
use crate::recovered::RecoveredSet;
use image_set::OutlineRest;
use lane_calls::Waiting;
use namespace_areas::Area;
use namespace_bytes::SetPatch;
use namespace_ops::Registry;
use nvd_media::{Chooser, Gate};
use nvd_words::Items;
use served_namespaces::{FoundNamespace, OpenedNamespace, patch_of};
use session_script::Script;
use session_service::{Ran, ServedNamespace, close, of_namespaces, run_sessions};
use std::alloc::{AllocError, Global};
use std::sync::Wait;
use std::thread::Threads;

/// How sessions run.
#[derive(Clone, Copy, Debug, PartialEq, Eq)]
pub struct Running {
    /// In how many threads, at most.
    pub workers: u32,
    /// The number from which the chooser of the power cut behind them begins.
    pub seed: u64,
}

/// What sessions have come to.
#[derive(Drop)]
pub(crate) struct Served {
    /// By session, a line for each reply.
    pub(crate) texts: Vec<Vec<u8>>,
    /// The label areas after all commands.
    pub(crate) areas: Vec<Area>,
    /// The other parts of the outline.
    pub(crate) rest: OutlineRest,
    /// What puts the words of the arenas after the power cut into contents.
    pub(crate) patch: SetPatch,
}

/// Namespaces that are open, as sessions get them, and their places.
#[derive(Drop)]
struct PartedNamespaces {
    places: Vec<FoundNamespace>,
    served: Vec<ServedNamespace>,
}

/// Parts the places of namespaces from their arenas.
fn part(alloc: Global, namespaces: Items<OpenedNamespace>) -> Result<PartedNamespaces, AllocError>
    ensures places { IfOk result (λ p. p.places.items ≡ map (λ o. o.place) namespaces) }
    ensures served { IfOk result (λ p. AreSame namespaces p.served.items) }
{
    let mut places = Vec::new(alloc);
    let mut served = Vec::new(alloc);
    for namespace in namespaces.into_vec() {
        let place = namespace.place;
        served.push(ServedNamespace {
            uuid: place.uuid,
            arenas: namespace.states.into_vec(),
        })?;
        places.push(place)?;
    }
    Ok(PartedNamespaces { places, served })
}

/// Runs all sessions of a script, and returns when each has ended.
fn run_all<R: Threads + Wait + Sync, G: Gate>(
    waiting: &Waiting<R, G>,
    alloc: Global,
    workers: usize,
    script: &Script,
    registry: Registry,
    served: Vec<ServedNamespace>,
) -> Result<Ran, AllocError>
    requires workers { 0 < workers }
    requires unused { IsUnused registry }
    requires opened { All AreOpened served.items }
    requires text { ScriptHasText script.now }
    ensures { IfOk result (HasServed registry served.items script.now) }
{
    let (service, mut runners) = of_namespaces(alloc, registry, served, script, workers)?;
    run_sessions(waiting, &service, script, workers, &mut runners);
    close(alloc, service, script, runners)
}

/// Runs the sessions of a script on namespaces that are open. When all have ended, power is cut. The arenas' words after it become a
/// patch of the contents.
///
/// The chooser is begun once, and asked for each word of the arenas that has two values, in order. The call fails only if memory runs out,
/// here or in a session.
pub(crate) fn serve_opened<R: Threads + Wait + Sync, C: Chooser, G: Gate>(
    waiting: &Waiting<R, G>,
    alloc: Global,
    running: Running,
    script: &Script,
    opened: Items<OpenedNamespace>,
    set: RecoveredSet,
    choose: &mut C,
) -> Result<Served, AllocError>
    requires workers { 0 < running.workers }
    requires text { ScriptHasText script.now }
    requires open { (outline : OutlineRead) × IsOpen outline set opened }
    ensures count { IfOk result (λ served. length served.areas.items ≡ length set.registry.areas) }
    ensures rest { IfOk result (λ served. served.rest ≡ set.rest) }
    ensures served { IfOk result (λ served. (outline : OutlineRead) (contents : List (List ℕ)) → IsOpen outline set opened → HoldsIn outline set contents opened
        → IsServed (LeavesTo C.begins C.picks choose.old running.seed choose.new) set.registry.sets set.registry.areas served.areas.items contents opened script.now (rows_of (patched_contents (all_patched served.patch) contents)) served.texts.items) }
{
    let RecoveredSet { registry, rest } = set;
    let parted = part(alloc, opened)?;
    let PartedNamespaces { places, served } = parted;
    let workers = running.workers as usize;
    let ran = run_all(waiting, alloc, workers, script, registry, served)?;
    let Ran {
        registry,
        arenas,
        texts,
    } = ran;
    choose.begin(running.seed);
    let words = cut_all(alloc, arenas, choose)?;
    let (sets, areas) = registry.into_parts();
    let patch = patch_of(alloc, sets, &places, words)?;
    Ok(Served {
        texts,
        areas,
        rest,
        patch,
    })
}
