//! How a caller waits for its turn.
ghost use Rattle.std.specs.Prelude.{◌≡◌, ◌<◌};
ghost use Rattle.turn_lock.specs.Turns.{IsTurnTable, outside, ComesInside};

use crate::bell::Bell;
use crate::parted::Parted;
use crate::steps::turn_take;
use crate::table::{Seated, Shares, WORD};
use std::hint::spin_loop;
use std::sync::Wait;

// How often a waiter looks at the word before it sleeps.
const LOOKS: u32 = 100;

// Waits until the turn is free and takes it: spins for a while, then sleeps until a release wakes
// it.
pub(crate) fn wait<T: Parted, R: Wait>(
    rt: &R,
    shared: &Shares<T>,
    bell: &Bell,
    seat: &mut Seated<T>,
    number: u32,
) -> T
    requires table { (seat.old.table_id ≡ shared.now.table_id) × IsTurnTable shared.now.table_id }
    requires outside { (d : T.Part) × (seat.old.me ≡ outside number d) }
    ensures table { seat.new.table_id ≡ seat.old.table_id }
    ensures inside { ComesInside T.part number seat.old.me seat.new.me result }
{
    for _ in rt.forever() {
        if let Ok(value) = turn_take(shared, seat, number) {
            return value;
        }
        if is_free_soon(shared) {
            continue;
        }
        let rings = bell.announce();
        if shared.peek(WORD) != 0 {
            bell.sleep(rt, rings);
        }
    }
    unreachable!()
}

// Returns whether the turn was free at one of many looks.
fn is_free_soon<T: Parted>(shared: &Shares<T>) -> bool
    requires { 8 < shared.now.table_id.words }
{
    for _ in 0..LOOKS {
        if shared.peek(WORD) == 0 {
            return true;
        }
        spin_loop();
    }
    false
}
