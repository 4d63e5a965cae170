//! The two steps that change the word, each by a caller's seat.
ghost use Rattle.std.specs.Prelude.{◌≡◌, ◌≢◌, ℕ, [], ◌∷◌, Some, None, IfOk, OnErr};
ghost use Rattle.turn_lock.specs.Turns.{IsTurnTable, outside, inside, ComesInside, HasKept};

use crate::kinds::{TurnFree, TurnTake};
use crate::parted::Parted;
use crate::table::{SLOT, Seated, Shares, WORD};

// TurnTake: takes the turn and the value if the turn is free. Otherwise it returns the word.
pub(crate) fn turn_take<T: Parted>(
    shared: &Shares<T>,
    seat: &mut Seated<T>,
    number: u32,
) -> Result<T, u64>
    requires table { (seat.old.table_id ≡ shared.now.table_id) × IsTurnTable shared.now.table_id }
    requires outside { (d : T.Part) × (seat.old.me ≡ outside number d) }
    ensures table { seat.new.table_id ≡ seat.old.table_id }
    ensures took { IfOk result (λ x. ComesInside T.part number seat.old.me seat.new.me x) }
    ensures missed { OnErr result (seat.new.me ≡ seat.old.me) }
{
    let found = shared.compare_exchange::<TurnTake>(seat, WORD, 0, u64::from(number) + 1);
    if found != 0 {
        return Err(found);
    }
    match shared.exchange(seat, SLOT, None) {
        Some(value) => Ok(value),
        None => unreachable!(),
    }
}

// TurnFree: puts a value into the slot and frees the turn.
pub(crate) fn turn_free<T: Parted>(shared: &Shares<T>, seat: &mut Seated<T>, number: u32, value: T)
    requires table { (seat.old.table_id ≡ shared.now.table_id) × IsTurnTable shared.now.table_id }
    requires inside { HasKept T.part number seat.old.me value }
    ensures table { seat.new.table_id ≡ seat.old.table_id }
    ensures outside { seat.new.me ≡ outside number (T.part value number) }
{
    match shared.exchange(seat, SLOT, Some(value)) {
        None => {}
        Some(_value) => unreachable!(),
    }
    shared.store::<TurnFree>(seat, WORD, 0);
}
