//! The rule, and what each kind of step tells its pass. These types are for proofs alone.
use crate::ticket::{Ticket, View};
use crossbeam_queue::protocol::{Join, Lesson, Outcome, Protocol, Split};

/// The rule: what was taken and what the queue holds is what was put, in order, and each pass knows
/// its parties' part of this.
pub struct Law;

impl<T> Protocol<Ticket<T>, View<T>> for Law {
    ghost use Rattle.ticket_queue.specs.Law.{Kept, all_from};

    ghost holds = { Kept };

    ghost first = { all_from 0 };
}

/// The next party's pass is made.
pub(crate) struct Deal;

impl<T> Split<View<T>> for Deal {
    ghost use Rattle.ticket_queue.specs.Law.{dealt, fresh};

    ghost left = { dealt };

    ghost right = { fresh };
}

/// A pass is handed in.
pub(crate) struct Gather;

impl<T> Join<View<T>> for Gather {
    ghost use Rattle.ticket_queue.specs.Law.{both, spent};

    ghost both = { both };

    ghost spent = { spent };
}

/// A ticket joins at the back.
pub(crate) struct Puts;

impl<T> Outcome<Ticket<T>, View<T>> for Puts {
    ghost use Rattle.std.specs.Prelude.{◌≡◌};
    ghost use Rattle.ticket_queue.specs.Law.{with_put};

    ghost then = { λ v x w. w ≡ with_put v x };
}

impl<T> Lesson<Ticket<T>, View<T>> for Puts {
    ghost use Rattle.ticket_queue.specs.Law.{Learned};

    ghost fact = { Learned };
}

/// A ticket leaves at the front.
pub(crate) struct Takes;

impl<T> Outcome<Ticket<T>, View<T>> for Takes {
    ghost use Rattle.std.specs.Prelude.{◌≡◌};
    ghost use Rattle.ticket_queue.specs.Law.{with_taken};

    ghost then = { λ v x w. w ≡ with_taken v x };
}

impl<T> Lesson<Ticket<T>, View<T>> for Takes {
    ghost use Rattle.ticket_queue.specs.Law.{Learned};

    ghost fact = { Learned };
}

/// The first ticket that is left is taken out, once all passes are handed in.
pub(crate) struct LeavesFirst;

impl<T> Outcome<Ticket<T>, View<T>> for LeavesFirst {
    ghost use Rattle.ticket_queue.specs.Law.{LeftFirst};

    ghost then = { LeftFirst };
}

impl<T> Lesson<Ticket<T>, View<T>> for LeavesFirst {
    ghost use Rattle.ticket_queue.specs.Law.{Learned};

    ghost fact = { Learned };
}

/// The next ticket that is left is taken out.
pub(crate) struct LeavesNext;

impl<T> Outcome<Ticket<T>, View<T>> for LeavesNext {
    ghost use Rattle.ticket_queue.specs.Law.{LeftNext};

    ghost then = { LeftNext };
}

impl<T> Lesson<Ticket<T>, View<T>> for LeavesNext {
    ghost use Rattle.std.specs.Prelude.{◌≡◌};

    ghost fact = { λ v items. items ≡ v.known };
}
