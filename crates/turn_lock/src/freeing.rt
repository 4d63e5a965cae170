//! How the value is taken out of the table, and the table is freed.
ghost use Rattle.std.specs.Prelude.{◌≡◌, ◌≢◌, ℕ, ◌<◌, None};
ghost use mathlib.Core.Option.{some};
ghost use lib.ListN.{get_elem?};
ghost use Rattle.std.specs.Mem.Slots.{slots_items, slots_len, IsFull};

use crate::table::SLOT;
use atomic_table::Closed;
use std::alloc::Global;

// Takes what is in the slot that is used, and frees the table. No other slot has a value.
pub(crate) fn take_value<T>(closed: Closed<Option<T>, Global>) -> Option<T>
    requires full { IsFull closed.slots }
    requires some { 4 < slots_len closed.slots }
    requires empty { (k : ℕ) → k ≢ 4 → k < slots_len closed.slots → get_elem? (slots_items closed.slots) k ≡ some None }
    ensures { get_elem? (slots_items closed.slots) 4 ≡ some result }
{
    let mut closed = closed;
    let value = closed.take(SLOT);
    for i in 0..closed.slot_count() {
        if i == SLOT {
            continue;
        }
        match closed.take(i) {
            None => {}
            Some(_value) => unreachable!(),
        }
    }
    closed.free();
    value
}
