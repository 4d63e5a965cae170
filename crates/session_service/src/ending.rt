//! The arenas and the registry are closed, and the accounts hold.
ghost use Rattle.std.specs.Prelude.{◌≡◌, ◌<◌, List, length, map, true, false, IfOk, All};
ghost use Rattle.namespace_ops.specs.Registered.{Registered};
ghost use Rattle.session_service.specs.declared.namespaces.ServedNamespace.{ServedNamespace as Given};
ghost use Rattle.session_service.specs.Made.{IsMade};
ghost use Rattle.session_service.specs.Namespaces.{arenas_in, servings_at};
ghost use Rattle.session_service.specs.Ran.{HasServed, in_row};
ghost use Rattle.session_service.specs.Runners.{AreEnded};

use crate::arena_end::{ArenaEnd, ends_of};
use crate::namespaces::NamespaceArenas;
use crate::runner::Runner;
use crate::service::Service;
use lane_calls::Session;
use lane_sessions::close_sectors;
use namespace_ops::Registry;
use registry_service::{ServedRegistry, close_registry};
use session_script::Script;
use std::alloc::{AllocError, Global};
use turn_lock::TurnPass;

/// What all sessions came to.
#[derive(Drop)]
pub struct Ran {
    pub registry: Registry,
    /// The words of each arena, by namespace in the order in which they were given, and then by arena.
    pub arenas: Vec<Vec<ArenaEnd>>,
    /// By session, a line for each reply, in the order of its calls.
    pub texts: Vec<Vec<u8>>,
}

// What runners hand in.
#[derive(Drop)]
pub(crate) struct HandedIn {
    pub(crate) sessions: Vec<Session>,
    pub(crate) orders: Vec<TurnPass<ServedRegistry>>,
    pub(crate) texts: Vec<Vec<u8>>,
}

// Whether memory lasted for all sessions.
fn lasted(runners: &[Runner]) -> bool
    ensures { result ≡ true → All (λ r. r.refused ≡ false) runners.now }
{
    runners.iter().all(|runner| !runner.refused)
}

// The sessions, the passes of the registry and the lines of all runners.
fn hand_in(alloc: Global, runners: Vec<Runner>) -> Result<HandedIn, AllocError>
    ensures sessions { IfOk result (λ h. h.sessions.items ≡ map (λ r. r.session) runners.items) }
    ensures orders { IfOk result (λ h. h.orders.items ≡ map (λ r. r.orders) runners.items) }
    ensures texts { IfOk result (λ h. h.texts.items ≡ map (λ r. r.text) runners.items) }
{
    let mut sessions = Vec::new(alloc);
    let mut orders = Vec::new(alloc);
    let mut texts = Vec::new(alloc);
    for runner in runners {
        let Runner {
            session,
            orders: pass,
            text,
            ..
        } = runner;
        sessions.push(session)?;
        orders.push(pass)?;
        texts.push(text)?;
    }
    Ok(HandedIn {
        sessions,
        orders,
        texts,
    })
}

// The arenas of each namespace, out of those of all.
fn split(
    alloc: Global,
    places: &[NamespaceArenas],
    row: Vec<ArenaEnd>,
) -> Result<Vec<Vec<ArenaEnd>>, AllocError>
    requires { length (arenas_in (servings_at places.now)) ≡ length row.items }
    ensures arenas { IfOk result (λ v. in_row v.items ≡ row.items) }
    ensures counts { IfOk result (λ v. map (λ c. length c.items) v.items ≡ map (λ s. length s.arenas) (servings_at places.now)) }
{
    let mut arenas = Vec::new(alloc);
    let mut rest = row;
    for place in places {
        let behind = rest.split_off(place.arenas.len())?;
        arenas.push(rest)?;
        rest = behind;
    }
    Ok(arenas)
}

/// Closes the arenas and the registry, and hands back the registry and the arenas' words. The one refusal is
/// out of memory, also if it ran out in a session or in an order; then all of them are dropped.
///
/// Each session's lines are those of its replies (`texts`), which belong to its own entries in the registry's journal and in the arenas'
/// histories, in order, and power was cut only if a session's own steps or those on labels ended
/// (`accounts`). The journal is one run of its commands on the registry as it was handed over,
/// and gives its label areas and their words (`commands`, `on`, `off`, `words`). Each history is
/// legal. After a crash an arena opens in its place, each sector as at the history's end or as a
/// call in flight would make it (`arenas`).
///
/// Conditions: `of_namespaces` made the service, and each session has run (`run_sessions`).
pub fn close(
    alloc: Global,
    service: Service,
    script: &Script,
    runners: Vec<Runner>,
) -> Result<Ran, AllocError>
    requires count { length runners.items ≡ length script.now.sessions }
    requires made { (registry : Registered) × (served : List Given) × IsMade registry served script.now service }
    requires ended { AreEnded service script.now runners.items }
    ensures { (registry : Registered) (served : List Given) → IsMade registry served script.now service → IfOk result (HasServed registry served script.now) }
{
    if !lasted(runners.as_slice()) {
        return Err(AllocError);
    }
    let Service {
        places,
        sectors,
        aside,
        registry,
        ..
    } = service;
    let handed = hand_in(alloc, runners)?;
    let HandedIn {
        sessions,
        orders,
        texts,
    } = handed;
    let ended = close_sectors(alloc, sectors, aside, sessions)?;
    let row = ends_of(alloc, ended.words)?;
    let places = places.as_slice();
    let arenas = split(alloc, places, row)?;
    let (registry, _fuse) = close_registry(registry.turn, orders);
    Ok(Ran {
        registry,
        arenas,
        texts,
    })
}
