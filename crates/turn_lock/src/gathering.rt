//! How the passes are handed in.
ghost use Rattle.std.specs.Prelude.{◌≡◌, [], All};
ghost use Rattle.turn_lock.specs.declared.table.Role.TheVariants.{Keeper};
ghost use Rattle.turn_lock.specs.Turns.{IsTurnTable};
ghost use Rattle.turn_lock.specs.Passes.{IsOutside, entries_of};

use crate::kinds::{JoinSeat, KeeperComes};
use crate::parted::Parted;
use crate::pass::TurnPass;
use crate::table::{Seated, Shares};

// Hands in the passes, and returns a seat that knows what they knew.
pub(crate) fn gather<T: Parted>(shared: &Shares<T>, passes: Vec<TurnPass<T>>) -> Seated<T>
    requires table { IsTurnTable shared.now.table_id }
    requires passes { All (λ p. IsOutside shared.now.table_id p) passes.items }
    ensures table { result.table_id ≡ shared.now.table_id }
    ensures known { result.me ≡ (Keeper (entries_of passes.items), []) }
{
    let (_, mut keeper) = shared.load_new_seat::<KeeperComes>(0);
    for pass in passes {
        let TurnPass { seat, number: _ } = pass;
        shared.join_seat::<JoinSeat>(&mut keeper, seat);
    }
    keeper
}
