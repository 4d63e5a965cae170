//! How the table and the passes are made.
ghost use Rattle.std.specs.Prelude.{◌≡◌, ◌++◌, [], IfOk, None, OnOk, replicate, vec_len};
ghost use Rattle.turn_lock.specs.declared.table.Role.TheVariants.{Dealer};
ghost use Rattle.turn_lock.specs.Turns.{IsTurnTable};
ghost use Rattle.turn_lock.specs.Passes.{AreFresh};

use crate::kinds::SplitSeat;
use crate::parted::Parted;
use crate::pass::TurnPass;
use crate::table::{SLOT, SLOTS, Seated, Shares, Start, TurnTable, WORDS};
use atomic_table::Table;
use std::alloc::{AllocError, Global};
use std::snapshot::Snapshot;

// Adds so many slots without a value.
fn add_empty<T: Drop>(slots: &mut Vec<Option<T>>, count: usize) -> Result<(), AllocError>
    ensures { OnOk result (slots.new.items ≡ slots.old.items ++ replicate count None) }
{
    for _ in 0..count {
        slots.push(None)?;
    }
    Ok(())
}

// Makes the table, with the value in its slot, and the seat that makes the passes.
pub(crate) fn lay<T: Parted + Drop>(
    alloc: Global,
    value: T,
    callers: u32,
) -> Result<(TurnTable<T>, Seated<T>), AllocError>
    ensures table { IfOk result (λ t. IsTurnTable t.0.shared.table_id) }
    ensures key { IfOk result (λ t. (t.0.shared.key.callers ≡ callers) × (t.0.shared.key.value.value ≡ value)) }
    ensures dealer { IfOk result (λ t. (t.1.table_id ≡ t.0.shared.table_id) × (t.1.me ≡ (Dealer 0 value, []))) }
{
    let about = Start {
        value: Snapshot::of(&value),
        callers,
    };
    let mut slots = Vec::new(alloc);
    add_empty(&mut slots, SLOT)?;
    slots.push(Some(value))?;
    add_empty(&mut slots, SLOTS - SLOT - 1)?;
    match Table::new(alloc, &[0; WORDS], slots, &about) {
        Ok(laid) => Ok(laid),
        Err(_) => Err(AllocError),
    }
}

// Makes the passes of all callers, in their order.
pub(crate) fn deal<T: Parted>(
    alloc: Global,
    shared: &Shares<T>,
    dealer: &mut Seated<T>,
    callers: u32,
) -> Result<Vec<TurnPass<T>>, AllocError>
    requires table { (dealer.old.table_id ≡ shared.now.table_id) × IsTurnTable shared.now.table_id }
    requires callers { callers ≡ shared.now.key.callers }
    requires begins { dealer.old.me ≡ (Dealer 0 shared.now.key.value.value, []) }
    ensures count { IfOk result (λ v. vec_len v ≡ callers) }
    ensures passes { IfOk result (λ v. AreFresh shared.now.table_id shared.now.key.value.value v.items) }
{
    let mut passes = Vec::new(alloc);
    for number in 0..callers {
        let seat = shared.split_seat::<SplitSeat>(dealer);
        passes.push(TurnPass::new(seat, number))?;
    }
    Ok(passes)
}
