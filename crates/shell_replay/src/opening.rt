//! The one arena of a namespace whose arenas are open.
ghost use Rattle.std.specs.Prelude.{◌≡◌, ◌≢◌, ℕ, [], ◌∷◌, Err, IfOk, length};
ghost use Rattle.arena_open.specs.Moves.{IsOpenState};

use arena_open::{ArenaState, Chain};

/// Returns the one arena of a namespace, or how many it has if it hasn't one.
pub(crate) fn only_arena(chain: Chain) -> Result<ArenaState, usize>
    ensures one { IfOk result (λ state. chain ≡ state ∷ []) }
    ensures open { IfOk result IsOpenState }
    ensures others { (n : ℕ) → result ≡ Err n → (n ≡ length chain) × (length chain ≢ 1) }
{
    let count = chain.arenas().len();
    if count != 1 {
        return Err(count);
    }
    let mut arenas = chain.into_arenas();
    Ok(arenas.swap_remove(0))
}
