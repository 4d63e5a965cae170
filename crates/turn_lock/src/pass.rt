//! What a caller has.
ghost use Rattle.std.specs.Prelude.{◌≡◌, true};
ghost use Rattle.turn_lock.specs.Turns.{is_caller, number_in, out_in, carried};

use crate::parted::Parted;
use crate::table::{Role, Seated};
use atomic_table::Seat;

/// The right of one caller to take turns at one lock. It knows the caller's part of the value.
///
/// In contracts, `lock_of` is its lock, `number_of` its caller, `part_of` what it knows, and
/// `out_of` the value that was handed out, while the caller has the turn.
#[derive(Drop)]
pub struct TurnPass<T: Parted> {
    pub(crate) seat: Seat<Option<T>, Role<T, T::Part>>,
    pub(crate) number: u32,
    ghost of_a_caller: { is_caller seat.me.0 ≡ true },
    ghost numbered: { number_in seat.me.0 ≡ number },
    ghost empty_slot: { seat.me.1 ≡ carried (out_in seat.me.0) },
}

impl<T: Parted> TurnPass<T> {
    ghost use Rattle.std.specs.Prelude.{Some, None};
    ghost use Rattle.turn_lock.specs.Turns.{outside};
    ghost use Rattle.turn_lock.specs.Passes.{number_of, part_of, lock_of, out_of, IsOutside};

    pub(crate) fn new(seat: Seated<T>, number: u32) -> TurnPass<T>
        requires { (d : T.Part) × (seat.me ≡ outside number d) }
        ensures pass { IsOutside seat.table_id result }
        ensures number { number_of result ≡ number }
        ensures part { (d : T.Part) → seat.me ≡ outside number d → part_of result ≡ Some d }
    {
        TurnPass { seat, number }
    }

    /// Returns the caller's number.
    pub fn number(&self) -> u32
        ensures { result ≡ number_of self.now }
    {
        self.number
    }
}
