//! The arenas of all namespaces in one row.
ghost use Rattle.std.specs.Prelude.{◌≡◌, ◌^◌, ◌<◌, [], ◌∷◌, ◌++◌, All, length, map, IfOk, OnOk};
ghost use Rattle.arena_open.specs.Moves.{IsOpenState};
ghost use Rattle.session_service.specs.Made.{states_in};
ghost use Rattle.session_service.specs.Namespaces.{AreLaid, AreOpened, servings_at, servings_of};

use crate::namespaces::{NamespaceArenas, ServedNamespace};
use arena_layout::Layout;
use arena_open::ArenaState;
use std::alloc::{AllocError, Global};

// Takes an arena more.
fn add_arena(
    state: ArenaState,
    layouts: &mut Vec<Layout>,
    states: &mut Vec<ArenaState>,
) -> Result<(), AllocError>
    ensures layouts { OnOk result (layouts.new.items ≡ layouts.old.items ++ state.info.layout ∷ []) }
    ensures states { OnOk result (states.new.items ≡ states.old.items ++ state ∷ []) }
{
    layouts.push(state.info.layout)?;
    states.push(state)?;
    Ok(())
}

// Takes the arenas of a namespace, behind those that are there.
fn add_namespace(
    alloc: Global,
    namespace: ServedNamespace,
    states: &mut Vec<ArenaState>,
) -> Result<NamespaceArenas, AllocError>
    ensures place { IfOk result (λ p. (p.uuid ≡ namespace.uuid) × (p.first ≡ length states.old.items)) }
    ensures layouts { IfOk result (λ p. p.arenas.items ≡ map (λ a. a.info.layout) namespace.arenas.items) }
    ensures states { OnOk result (states.new.items ≡ states.old.items ++ namespace.arenas.items) }
{
    let ServedNamespace { uuid, arenas } = namespace;
    let first = states.len();
    let mut layouts = Vec::new(alloc);
    for state in arenas {
        add_arena(state, &mut layouts, states)?;
    }
    Ok(NamespaceArenas {
        uuid,
        first,
        arenas: layouts,
    })
}

/// Takes the arenas of all namespaces, and makes their places. The one refusal is out of memory, also if
/// there are 2^32 arenas.
pub(crate) fn lay(
    alloc: Global,
    served: Vec<ServedNamespace>,
) -> Result<(Vec<NamespaceArenas>, Vec<ArenaState>), AllocError>
    requires { All AreOpened served.items }
    ensures all { IfOk result (λ r. servings_at r.0.items ≡ servings_of served.items) }
    ensures laid { IfOk result (λ r. AreLaid r.0.items) }
    ensures states { IfOk result (λ r. r.1.items ≡ states_in served.items) }
    ensures opened { IfOk result (λ r. All IsOpenState r.1.items) }
{
    let mut places = Vec::new(alloc);
    let mut states = Vec::new(alloc);
    for namespace in served {
        let place = add_namespace(alloc, namespace, &mut states)?;
        places.push(place)?;
    }
    if states.len() > u32::MAX as usize {
        return Err(AllocError);
    }
    Ok((places, states))
}
