//! What a party does.
ghost use Rattle.std.specs.Prelude.{◌≡◌, ℕ, [], ◌∷◌, ◌++◌, IfErr, IfSome, OnOk, OnErr, None};
ghost use Rattle.crossbeam_queue.specs.Fifo.{Held};
ghost use Rattle.crossbeam_queue.specs.Passes.{view, IsPassOf, IsSamePass, ruled_capacity};
ghost use Rattle.ticket_queue.specs.Law.{IsHandOf, Learned};
ghost use Rattle.ticket_queue.specs.Parties.{put_in, taken_in};

use crate::law::{Law, Puts, Takes};
use crate::ticket::{Ticket, View};
use crossbeam_queue::{Pass, RuledArrayQueue};
use std::sync::Wait;

/// A queue of tickets, under the rule.
pub type TicketQueue<T> = RuledArrayQueue<Ticket<T>, View<T>, Law>;

/// A party's pass, or the maker. It has no bytes.
pub type TicketPass<T> = Pass<Ticket<T>, View<T>>;

/// Puts a ticket of the pass's party at the back.
///
/// The ticket comes back only if the queue was full at one moment of the call. Then nothing
/// changed.
pub fn put<T, R: Wait>(
    rt: &R,
    queue: &TicketQueue<T>,
    pass: &mut TicketPass<T>,
    ticket: Ticket<T>,
) -> Result<(), Ticket<T>>
    requires queue { IsPassOf queue.now pass.old }
    requires party { IsHandOf ticket.party (view pass.old) }
    ensures queue { IsSamePass pass.old pass.new }
    ensures party { IsHandOf ticket.party (view pass.new) }
    ensures put { OnOk result (put_in (view pass.new) ≡ put_in (view pass.old) ++ ticket ∷ []) }
    ensures taken { taken_in (view pass.new) ≡ taken_in (view pass.old) }
    ensures back { IfErr result (λ t. t ≡ ticket) }
    ensures same { OnErr result (view pass.new ≡ view pass.old) }
    ensures full { OnErr result (Held (ruled_capacity queue.now) (Learned (view pass.old))) }
{
    queue.push_as::<Puts, R>(rt, pass, ticket)
}

/// Takes the ticket at the front.
///
/// There is none only if the queue was empty at one moment of the call. Then nothing changed.
pub fn take<T, R: Wait>(
    rt: &R,
    queue: &TicketQueue<T>,
    pass: &mut TicketPass<T>,
) -> Option<Ticket<T>>
    requires queue { IsPassOf queue.now pass.old }
    requires party { (k : ℕ) × IsHandOf k (view pass.old) }
    ensures queue { IsSamePass pass.old pass.new }
    ensures party { (k : ℕ) → IsHandOf k (view pass.old) → IsHandOf k (view pass.new) }
    ensures taken { IfSome result (λ t. taken_in (view pass.new) ≡ taken_in (view pass.old) ++ t ∷ []) }
    ensures put { put_in (view pass.new) ≡ put_in (view pass.old) }
    ensures same { result ≡ None → view pass.new ≡ view pass.old }
    ensures empty { result ≡ None → Held 0 (Learned (view pass.old)) }
{
    queue.pop_as::<Takes, R>(rt, pass)
}
