//! The table that implements the lock: its words and slots, of which one of each is used, and a
//! seat for each pass.
ghost use Rattle.std.specs.Prelude.{ℕ};

use crate::parted::Parted;
use atomic_table::{Seat, Shared, Table, TableRule};
use std::alloc::Global;
use std::collections::LinkedList;
use std::snapshot::Snapshot;

/// What a seat at the table knows. It never exists at run time.
pub enum Role<T, D> {
    /// Nothing: its pass was handed in.
    Spent,
    /// How many passes were made, and the value that the lock began with.
    Dealer(u64, T),
    /// A caller's number, its part, and the value while the caller has it.
    Caller(u64, D, Option<T>),
    /// The numbers of the passes that were handed in, each with its part.
    Keeper(LinkedList<(u64, D)>),
}

/// The data the table is made with: the first value, and the number of callers.
#[derive(Drop)]
pub struct Start<T> {
    pub value: Snapshot<T>,
    pub callers: u32,
}

/// The rule that every step preserves: `Turning` of specs/Turns.antt.
pub struct Law;

impl<T: Parted> TableRule<Option<T>, Role<T, T::Part>, Start<T>> for Law {
    ghost use Rattle.turn_lock.specs.Turns.{Turning};
    ghost use Rattle.turn_lock.specs.declared.table.Role.TheVariants.{Dealer};

    ghost holds = { λ k. Turning T.part k.callers k.value.value };

    ghost first = { λ k. Dealer 0 k.value.value };
}

// A table has so many words and slots. Only one of each is used, in the middle, so that threads which
// use what lies beside the table don't slow its callers down: cache lines have 64 bytes.
pub(crate) const WORDS: usize = 16;

pub(crate) const WORD: usize = 8;

pub(crate) const SLOTS: usize = 8;

pub(crate) const SLOT: usize = 4;

pub(crate) type Seated<T> = Seat<Option<T>, Role<T, <T as Parted>::Part>>;

pub(crate) type Shares<T> = Shared<Option<T>, Role<T, <T as Parted>::Part>, Start<T>, Law>;

pub(crate) type TurnTable<T> = Table<
    Option<T>,
    Role<T, <T as Parted>::Part>,
    Start<T>,
    Law,
    Global,
>;
