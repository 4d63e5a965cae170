//! The lock is made, and closed.
ghost use Rattle.std.specs.Prelude.{◌≡◌, ℕ, ◌≤◌, ◌<◌, ◌^◌, [], true, false, List, Option, IfOk, length, map, vec_len, All};
ghost use Rattle.turn_lock.specs.Passes.{lock_id, callers_of, first_of, AreFresh, HasEach, IsOutside};
ghost use Rattle.namespace_areas.specs.Seen.{AreHeld, AreLeft as AreasLeft, areas_shown, words_of};
ghost use Rattle.namespace_areas.specs.Steps.{rows_of};
ghost use Rattle.namespace_ops.specs.Registered.{kept_of, opening_of, state_of};
ghost use Rattle.session_account.specs.Journal.{AreLeft, IsJournal};
ghost use Rattle.session_account.specs.Orders.{own_entries};
ghost use Rattle.session_account.specs.Registering.{IsOn};
ghost use Rattle.session_account.specs.Words.{AreasHold};
ghost use Rattle.registry_service.specs.Closed.{AreAllPasses};
ghost use Rattle.registry_service.specs.Parts.{KnowsOwn};
ghost use Rattle.registry_service.specs.Served.{AreKept, answered, fresh};

use crate::served::ServedRegistry;
use cut_words::Fuse;
use namespace_ops::Registry;
use std::alloc::{AllocError, Global};
use turn_lock::{Turn, TurnPass};

/// Puts a lock around a registry and the fuse of its commands' steps, and makes a pass for each
/// session. Session q has room for `calls[q]` calls; the last of them gives back what it has open
/// at its end.
///
/// The one refusal is out of memory. Power is on, the journal is empty and replays from the label
/// areas as they are, and no session has room yet.
pub fn lock_registry(
    alloc: Global,
    registry: Registry,
    fuse: Fuse,
    calls: &[u32],
) -> Result<(Turn<ServedRegistry>, Vec<TurnPass<ServedRegistry>>), AllocError>
    requires running { registry.stopped ≡ false }
    requires first { registry.journal ≡ [] }
    requires roomless { registry.room ≡ [] }
    requires opening { registry.opening ≡ registry.areas }
    requires few { length calls.now < 2 ^ 32 }
    ensures lock { IfOk result (λ r. (callers_of r.0 ≡ length calls.now) × (first_of r.0 ≡ fresh registry fuse calls.now)) }
    ensures count { IfOk result (λ r. vec_len r.1 ≡ length calls.now) }
    ensures passes { IfOk result (λ r. AreFresh (lock_id r.0) (fresh registry fuse calls.now) r.1.items) }
{
    let sessions = calls.len() as u32;
    let served = ServedRegistry::of(alloc, registry, fuse, calls)?;
    Turn::of(alloc, served, sessions)
}

/// Closes the lock, and returns the registry and its fuse.
///
/// The sets are those that it began with, and each label area is of its size; one that isn't ready is
/// as it was (`areas`). The answered calls are a journal from what the registry began with, under the fuse that it had
/// (`journal`). If power is on, its label areas are what they make, and the fuse is what their
/// steps left of it (`on`; `on_is_journal` of `session_account`). If not, a crash leaves what the
/// cut in one of them leaves (`left`). If none of the areas that the registry began with stood in
/// the middle of a change, its areas hold the words that the calls stored and flushed, as far as
/// the fuse lasted, and no other (`words`). Each session's entries there are those that its pass
/// knows (`callers`), and there are none of another session (`strangers`).
///
/// Every pass is handed in, in any order, and none has the turn. The journal was empty when the
/// lock was made.
pub fn close_registry(
    turn: Turn<ServedRegistry>,
    passes: Vec<TurnPass<ServedRegistry>>,
) -> (Registry, Fuse)
    requires all { AreAllPasses turn passes.items }
    requires first { (first_of turn).registry.journal ≡ [] }
    ensures callers { All (λ p. KnowsOwn result.0 p) passes.items }
    ensures strangers { (q : ℕ) → callers_of turn ≤ q → own_entries q (answered result.0.journal) ≡ [] }
    ensures areas { (result.0.sets ≡ (first_of turn).registry.sets) × AreKept (first_of turn).registry.opening result.0.areas result.0.stopped }
    ensures journal { IsJournal (first_of turn).registry.sets (opening_of (first_of turn).registry) (first_of turn).first (answered result.0.journal) }
    ensures left { result.0.stopped ≡ true → (rows : List (Option (List ℕ))) → AreasLeft result.0.areas rows → AreLeft (first_of turn).registry.sets (opening_of (first_of turn).registry) (first_of turn).first (answered result.0.journal) (areas_shown rows) }
    ensures words { AreHeld (first_of turn).registry.opening → AreasHold (first_of turn).registry.sets (opening_of (first_of turn).registry) (rows_of (first_of turn).registry.opening) (first_of turn).first (answered result.0.journal) (map words_of result.0.areas) }
    ensures on { result.0.stopped ≡ false → IsOn (first_of turn).registry.sets (opening_of (first_of turn).registry) (rows_of (first_of turn).registry.opening) (first_of turn).first (answered result.0.journal) (kept_of (state_of result.0)) (rows_of result.0.areas) result.1 }
{
    turn.close(passes).into_parts()
}
