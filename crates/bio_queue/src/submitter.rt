//! Who submits.
ghost use Rattle.std.specs.Prelude.{◌≡◌, ◌<◌, [], ◌∷◌, ◌++◌, length, true, IfErr, IfOk, OnErr};
ghost use Rattle.crossbeam_queue.specs.Fifo.{Held};
ghost use Rattle.crossbeam_queue.specs.Passes.{view, IsPassOf, IsSamePass};
ghost use Rattle.ticket_queue.specs.Law.{is_hand_of, Learned};
ghost use Rattle.ticket_queue.specs.Parties.{put_in, taken_in};
ghost use Rattle.bio_queue.specs.Ops.{fits_in, kind_of};
ghost use Rattle.bio_queue.specs.Served.{AllFit, AreNumbered};

use crate::bio::{Bio, Full};
use crate::completion::Completion;
use crate::op::Op;
use crate::queue::BioQueue;
use std::sync::Wait;
use ticket_queue::{Ticket, TicketPass, put};

/// A submitter. What its pass has put are the operations that were accepted, in order.
#[derive(Drop)]
pub struct Submitter {
    pub(crate) party: u32,
    /// The number of its next operation.
    pub(crate) next: u32,
    /// How many sectors the arena has, and how many words a sector.
    pub(crate) sectors: u32,
    pub(crate) width: usize,
    pub(crate) pass: TicketPass<Bio>,
    ghost hand: { is_hand_of party (view pass) ≡ true },
    ghost numbered: { AreNumbered (put_in (view pass)) party (λ b. b.submitter) (λ b. b.number) },
    ghost count: { length (put_in (view pass)) ≡ next },
    ghost all_fit: { AllFit (put_in (view pass)) (λ b. fits_in sectors width b.op ≡ true) },
    ghost takes_none: { length (taken_in (view pass)) ≡ 0 },
}

impl Submitter {
    /// Submits an operation with its completion, and answers its number. It takes no memory.
    ///
    /// The operation comes back only if the queue was full at one moment of the call. Then no
    /// number is spent, and nothing changed.
    pub fn submit<R: Wait>(
        &mut self,
        rt: &R,
        queue: &BioQueue,
        op: Op,
        done: Completion,
    ) -> Result<u32, Full>
        requires queue { IsPassOf queue.now.queue self.old.pass }
        requires made_for { done.kind ≡ kind_of op }
        requires few { length (put_in (view self.old.pass)) < 65536 }
        requires fits { fits_in self.old.sectors self.old.width op ≡ true }
        ensures queue { IsSamePass self.old.pass self.new.pass }
        ensures same { (self.new.party ≡ self.old.party) × (self.new.sectors ≡ self.old.sectors) × (self.new.width ≡ self.old.width) }
        ensures number { IfOk result (λ n. n ≡ length (put_in (view self.old.pass))) }
        ensures accepted { IfOk result (λ n. (t : _) × (t.item.op ≡ op) × (t.item.done ≡ done) × (put_in (view self.new.pass) ≡ put_in (view self.old.pass) ++ t ∷ [])) }
        ensures back { IfErr result (λ f. (f.op ≡ op) × (f.done ≡ done) × (f.depth ≡ queue.now.depth)) }
        ensures unchanged { OnErr result (view self.new.pass ≡ view self.old.pass) }
        ensures full { IfErr result (λ f. Held f.depth (Learned (view self.old.pass))) }
    {
        let number = self.next;
        let ticket = Ticket {
            party: self.party,
            item: Bio::new(self.party, number, op, done),
        };
        match put(rt, &queue.queue, &mut self.pass, ticket) {
            Ok(()) => {
                self.next = number + 1;
                Ok(number)
            }
            Err(back) => {
                let Bio { op, done, .. } = back.item;
                Err(Full {
                    op,
                    done,
                    depth: queue.depth,
                })
            }
        }
    }

    /// How many of its operations were accepted.
    pub fn accepted(&self) -> u32
        ensures { result ≡ length (put_in (view self.now.pass)) }
    {
        self.next
    }
}
