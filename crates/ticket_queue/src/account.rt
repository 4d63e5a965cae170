//! What an order of taking means.
ghost use Rattle.std.specs.Prelude.{◌≡◌, ℕ, List};
ghost use Rattle.ticket_queue.specs.declared.ticket.Ticket.{Ticket};
ghost use Rattle.ticket_queue.specs.declared.ticket.View.{View};
ghost use Rattle.ticket_queue.specs.Parties.{IsOrder};
ghost use Rattle.ticket_queue.specs.Account.{AreCounted, IsAccount, IsOnlyWhatWasPut};

/// If each party numbers its tickets 0, 1, 2 and so on, an order of taking gives the account.
pub fn order_gives_account<T>()
    ensures { (number : T → ℕ) (vs : List (View T)) (left : List (Ticket T)) → IsOrder vs left → AreCounted number vs → IsAccount number vs left }
{}

/// Each ticket that was taken, and each that is left, was put by its party.
pub fn order_is_of_puts<T>()
    ensures { (vs : List (View T)) (left : List (Ticket T)) → IsOrder vs left → IsOnlyWhatWasPut vs left }
{}
