//! The lock, and what its callers do.
ghost use Rattle.std.specs.Prelude.{◌≡◌};
ghost use Rattle.turn_lock.specs.Turns.{IsTurnTable};

use crate::bell::Bell;
use crate::dealing::{deal, lay};
use crate::freeing::take_value;
use crate::gathering::gather;
use crate::parted::Parted;
use crate::pass::TurnPass;
use crate::steps::turn_free;
use crate::table::TurnTable;
use crate::waiting::wait;
use std::alloc::{AllocError, Global};
use std::sync::Wait;

/// A lock around a value with a part for each caller. Threads may share it by reference.
///
/// In contracts, `lock_id` identifies the lock, `callers_of` is its number of callers, and
/// `first_of` its first value.
#[derive(Drop)]
pub struct Turn<T: Parted> {
    table: TurnTable<T>,
    // The waiters sleep on it.
    bell: Bell,
    ghost one_of_each: { IsTurnTable table.shared.table_id },
}

impl<T: Parted> Turn<T> {
    ghost use Rattle.std.specs.Prelude.{◌≡◌, ℕ, ◌≤◌, Some, None, IfOk, IsSomeAnd, vec_len, All};
    ghost use Rattle.turn_lock.specs.Turns.{KeepsOthers};
    ghost use Rattle.turn_lock.specs.Passes.{lock_id, callers_of, first_of, lock_of, number_of, part_of, out_of, IsSamePass, IsOutside, Knows, AreFresh, HasEach};

    /// Puts a lock around a value, and makes a pass for each caller: pass `q` of the list is that
    /// of caller `q`. There may be no callers. If memory runs out, the value is dropped.
    pub fn of(
        alloc: Global,
        value: T,
        callers: u32,
    ) -> Result<(Turn<T>, Vec<TurnPass<T>>), AllocError>
    where
        T: Drop,
        ensures callers { IfOk result (λ r. (callers_of r.0 ≡ callers) × (first_of r.0 ≡ value)) }
        ensures count { IfOk result (λ r. vec_len r.1 ≡ callers) }
        ensures passes { IfOk result (λ r. AreFresh (lock_id r.0) value r.1.items) }
    {
        let (table, mut dealer) = lay(alloc, value, callers)?;
        let passes = deal(alloc, &table.shared, &mut dealer, callers)?;
        Ok((
            Turn {
                table,
                bell: Bell::new(),
            },
            passes,
        ))
    }

    /// Waits for the turn, and hands the value out. The pass knows the caller's part of it.
    ///
    /// The pass must be one of this lock's, and outside. While one caller has the turn, all others
    /// wait. A thread that enters with a second pass of the same lock before it leaves with the
    /// first waits forever.
    pub fn enter<R: Wait>(&self, rt: &R, pass: &mut TurnPass<T>) -> T
        requires lock { lock_of pass.old ≡ lock_id self.now }
        requires outside { out_of pass.old ≡ None }
        ensures part { part_of pass.old ≡ Some (T.part result (number_of pass.old)) }
        ensures pass { IsSamePass pass.old pass.new }
        ensures kept { part_of pass.new ≡ part_of pass.old }
        ensures inside { out_of pass.new ≡ Some result }
    {
        wait(
            rt,
            &self.table.shared,
            &self.bell,
            &mut pass.seat,
            pass.number,
        )
    }

    /// Takes a value back, frees the turn, and wakes one sleeper. The pass then knows its part of
    /// this value.
    ///
    /// The pass must be inside. For every other caller, the value must have the same part as the
    /// value that was handed out; it need not be the same value. The call neither allocates nor
    /// waits.
    pub fn leave(&self, pass: &mut TurnPass<T>, value: T)
        requires lock { lock_of pass.old ≡ lock_id self.now }
        requires inside { IsSomeAnd (out_of pass.old) (λ x. KeepsOthers T.part (number_of pass.old) x value) }
        ensures pass { IsSamePass pass.old pass.new }
        ensures part { part_of pass.new ≡ Some (T.part value (number_of pass.old)) }
        ensures outside { out_of pass.new ≡ None }
    {
        turn_free(&self.table.shared, &mut pass.seat, pass.number, value);
        self.bell.ring();
    }

    /// Returns the value. Each pass knows its caller's part of it. For a number that isn't a
    /// caller's, the part is that of the first value.
    ///
    /// Every pass must be handed in, in any order, and none may be inside. The call neither
    /// allocates nor waits.
    pub fn close(self, passes: Vec<TurnPass<T>>) -> T
        requires passes { All (λ p. IsOutside (lock_id self) p) passes.items }
        requires every { HasEach (callers_of self) passes.items }
        ensures callers { All (λ p. Knows result p) passes.items }
        ensures strangers { (q : ℕ) → callers_of self ≤ q → T.part result q ≡ T.part (first_of self) q }
    {
        let Turn { table, bell: _ } = self;
        let keeper = gather(&table.shared, passes);
        let closed = table.close_with(keeper);
        match take_value(closed) {
            Some(value) => value,
            None => unreachable!(),
        }
    }
}
