//! The kinds of step at the table. These types are for proofs alone.
use crate::parted::Parted;
use crate::table::Role;
use atomic_table::{Join, Play, Split};

// The dealer makes the next pass.
pub(crate) struct SplitSeat;

impl<T: Parted> Split<Role<T, T::Part>> for SplitSeat {
    ghost use Rattle.turn_lock.specs.Turns.{dealt, next_pass};

    ghost left = { dealt T.part };

    ghost right = { next_pass T.part };
}

// A caller takes the value, or finds that another has it.
pub(crate) struct TurnTake;

impl<T: Parted> Play<Option<T>, Role<T, T::Part>> for TurnTake {
    ghost use Rattle.turn_lock.specs.Turns.{Takes};

    ghost then = { Takes T.part };
}

// A caller gives the value back.
pub(crate) struct TurnFree;

impl<T: Parted> Play<Option<T>, Role<T, T::Part>> for TurnFree {
    ghost use Rattle.turn_lock.specs.Turns.{Frees};

    ghost then = { Frees T.part };
}

// A seat comes that collects what the passes know.
pub(crate) struct KeeperComes;

impl<T: Parted> Play<Option<T>, Role<T, T::Part>> for KeeperComes {
    ghost use Rattle.turn_lock.specs.Turns.{Comes};

    ghost then = { Comes };
}

// A pass is handed in.
pub(crate) struct JoinSeat;

impl<T: Parted> Join<Role<T, T::Part>> for JoinSeat {
    ghost use Rattle.turn_lock.specs.Turns.{gathered};
    ghost use Rattle.turn_lock.specs.declared.table.Role.TheVariants.{Spent};

    ghost both = { gathered };

    ghost spent = { Spent };
}
