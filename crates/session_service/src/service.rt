//! The sectors of all namespaces and the registry, as sessions share them.
ghost use Rattle.std.specs.Prelude.{◌≡◌, ◌+◌, ◌^◌, ◌<◌, All, length, IfOk};
ghost use Rattle.session_service.specs.Made.{IsMade, IsUnused, limits_of, rooms_of};
ghost use Rattle.session_service.specs.Namespaces.{AreOpened};
ghost use Rattle.session_script.specs.Names.{ScriptHasText};
ghost use Rattle.session_service.specs.Runners.{AreRunnersReady};

use crate::laying::lay;
use crate::namespaces::{NamespaceArenas, ServedNamespace};
use crate::runner::Runner;
use crate::seats::seat;
use arena_open::ArenaState;
use cut_words::Fuse;
use lane_calls::Sectors;
use lane_sessions::{Made, SessionLimits, make_sectors};
use lane_table::LaneEnd;
use namespace_ops::Registry;
use registry_service::{ServedRegistry, lock_registry};
use session_script::{Script, SessionLines};
use std::alloc::{AllocError, Global};
use std::snapshot::Snapshot;
use turn_lock::Turn;

/// The registry behind its lock.
#[derive(Drop)]
pub struct Orders {
    pub(crate) turn: Turn<ServedRegistry>,
}

/// What all sessions share: the sectors of all namespaces, with the pool of their lanes, and the
/// registry behind its lock.
#[derive(Drop)]
pub struct Service {
    pub(crate) alloc: Global,
    pub(crate) places: Vec<NamespaceArenas>,
    // The arenas as they were opened. Only contracts look at it.
    pub(crate) opened: Snapshot<Vec<ArenaState>>,
    pub(crate) sectors: Sectors,
    // Of each arena, the lanes that no session uses.
    pub(crate) aside: Vec<Vec<LaneEnd>>,
    pub(crate) registry: Orders,
}

// The entries that sessions need room for: one for each call, and one for the end.
fn rooms_for(alloc: Global, sessions: &[SessionLines]) -> Result<Vec<u32>, AllocError>
    ensures few { IfOk result (λ _. length sessions.now < 2 ^ 32) }
    ensures short { IfOk result (λ _. All (λ s. length s.calls + 1 < 2 ^ 32) sessions.now) }
    ensures rooms { IfOk result (λ v. v.items ≡ rooms_of sessions.now) }
{
    if sessions.len() > u32::MAX as usize {
        return Err(AllocError);
    }
    let mut rooms = Vec::new(alloc);
    for session in sessions {
        let calls = session.calls.len();
        if calls >= u32::MAX as usize {
            return Err(AllocError);
        }
        rooms.push(calls as u32 + 1)?;
    }
    Ok(rooms)
}

// What sessions may do. A session's calls aren't more than its entries, of which there are less than 2^32.
fn limits_for(alloc: Global, sessions: &[SessionLines]) -> Result<Vec<SessionLimits>, AllocError>
    requires { All (λ s. length s.calls + 1 < 2 ^ 32) sessions.now }
    ensures { IfOk result (λ v. v.items ≡ limits_of sessions.now) }
{
    let mut limits = Vec::new(alloc);
    for session in sessions {
        limits.push(SessionLimits {
            cut: session.cut,
            calls: session.calls.len() as u32,
        })?;
    }
    Ok(limits)
}

// The fuse of the commands' steps.
fn fuse_for(labelcut: Option<u64>) -> Fuse
    ensures { result ≡ labelcut }
{
    match labelcut {
        Some(steps) => Fuse::after(steps),
        None => Fuse::none(),
    }
}

/// Makes the arenas of all namespaces into sectors, with sets of their lanes for so many workers; puts a
/// lock around the registry with the fuse of its commands; and makes the sessions of a script, with their
/// passes, and room for their entries in the journal.
///
/// Session q of the list has number q. It has made no call, has nothing open, and may make as many
/// steps as its `cut` line says. The one refusal is out of memory, also if the script has 2^32 - 1
/// sessions or a session 2^32 - 1 calls, if the namespaces have 2^32 arenas, or if there are 2^32 workers.
/// Then the registry and the arenas are dropped. Conditions: power is on, the registry's journal is empty, has no room and replays
/// from the label areas as they are, each arena is as opening left it, and the script's names are UTF-8.
pub fn of_namespaces(
    alloc: Global,
    registry: Registry,
    served: Vec<ServedNamespace>,
    script: &Script,
    workers: usize,
) -> Result<(Service, Vec<Runner>), AllocError>
    requires workers { 0 < workers }
    requires unused { IsUnused registry }
    requires opened { All AreOpened served.items }
    requires text { ScriptHasText script.now }
    ensures made { IfOk result (λ r. IsMade registry served.items script.now r.0) }
    ensures count { IfOk result (λ r. length r.1.items ≡ length script.now.sessions) }
    ensures ready { IfOk result (λ r. AreRunnersReady r.0 script.now r.1.items) }
{
    let lines = script.sessions.as_slice();
    let rooms = rooms_for(alloc, lines)?;
    let limits = limits_for(alloc, lines)?;
    let (places, states) = lay(alloc, served)?;
    let opened = Snapshot::of(&states);
    let made = make_sectors(alloc, states, workers, limits.as_slice())?;
    let Made {
        sectors,
        aside,
        sessions,
    } = made;
    let calls = rooms.as_slice();
    let (orders, passes) = lock_registry(alloc, registry, fuse_for(script.labelcut), calls)?;
    let runners = seat(alloc, sessions, passes)?;
    let service = Service {
        alloc,
        places,
        opened,
        sectors,
        aside,
        registry: Orders { turn: orders },
    };
    Ok((service, runners))
}
