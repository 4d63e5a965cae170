//! Who serves.
ghost use Rattle.std.specs.Prelude.{◌≡◌, ◌≢◌, ◌+◌, ◌<◌, ◌≤◌, ℕ, [], ◌∷◌, ◌++◌, length, true, false, All, Some, None, IfOk, OnOk, vec_capacity, vec_len};
ghost use Rattle.crossbeam_queue.specs.Fifo.{Held};
ghost use Rattle.crossbeam_queue.specs.Passes.{view, IsPassOf, IsSamePass};
ghost use Rattle.ticket_queue.specs.Law.{is_hand_of, Learned};
ghost use Rattle.ticket_queue.specs.Parties.{put_in, taken_in};
ghost use Rattle.lane_pool.specs.Parts.{IsTold};
ghost use Rattle.lane_calls.specs.Calls.{SwitchesNot};
ghost use Rattle.bio_queue.specs.declared.bio.Completed.{Completed as AnyCompleted};
ghost use Rattle.bio_queue.specs.declared.bio.OneTurn.TheVariants as turn;
ghost use Rattle.bio_queue.specs.declared.op.OpReply.{OpReply as AnyReply};
ghost use Rattle.bio_queue.specs.Ops.{fits, fits_in, kind_of};
ghost use Rattle.bio_queue.specs.Served.{IsCompletedOf, IsDone, IsFit};
ghost use Rattle.bio_queue.specs.Serving.{HasMade, IsAtWork, MayMake};
ghost use Rattle.bio_queue.specs.Standing.{stands_of};

use crate::bio::{Bio, Completed, OneTurn};
use crate::op::OpReply;
use crate::performing::{Performed, Room, perform};
use crate::queue::BioQueue;
use lane_calls::{Sectors, Session, Waiting, rest};
use nvd_media::Gate;
use std::alloc::{AllocError, Global};
use std::sync::Wait;
use ticket_queue::{Ticket, TicketPass, take};

/// A worker, with what it has completed. What its pass of the queue has taken are the operations.
#[derive(Drop)]
pub struct Worker {
    pub(crate) party: u32,
    /// How many sectors the arena has, and how many words a sector.
    pub(crate) sectors: u32,
    pub(crate) width: usize,
    pub(crate) ticket: TicketPass<Bio>,
    pub(crate) session: Session,
    pub(crate) completed: Vec<Completed>,
    /// Room for the replies of its next calls.
    pub(crate) rooms: Vec<Room>,
    /// The operation that it had taken when it was told that power is off.
    pub(crate) cut: Option<Bio>,
    ghost hand: { is_hand_of party (view ticket) ≡ true },
    ghost puts_none: { length (put_in (view ticket)) ≡ 0 },
    ghost wide: { All (λ r. length r.words.items ≡ width) rooms.items },
}

/// Room for a sector of so many words, twice.
fn room_of(alloc: Global, width: usize) -> Result<Room, AllocError>
    ensures { IfOk result (λ r. length r.words.items ≡ width) }
{
    let words = vec![in alloc; 0; width]?;
    let copy = vec![in alloc; 0; width]?;
    Ok(Room { words, copy })
}

/// Calls the callback of an operation that was made with this call.
fn finish(worker: u32, call: u32, bio: Bio, reply: OpReply, told: OpReply) -> Completed
    requires same { told ≡ reply }
    requires fits { fits (kind_of bio.op) reply ≡ true }
    ensures of { IsCompletedOf bio.submitter bio.number bio.op worker result }
    ensures call { result.call ≡ call }
    ensures reply { result.reply ≡ reply }
    ensures note { (r : AnyReply) × (r ≡ result.reply) × ⟦<Box<dyn FnOnce(OpReply) -> u64 + Send> as FnOnce(OpReply) -> u64>⟧.post bio.done.call r result.note }
{
    let Bio {
        submitter,
        number,
        op,
        done,
        ..
    } = bio;
    let note = done.complete(told);
    Completed {
        submitter,
        number,
        op,
        worker,
        call,
        reply,
        note,
    }
}

impl Worker {
    /// Makes an operation that fits the arena, and completes it.
    fn make<R: Wait, G: Gate>(
        &mut self,
        waiting: &Waiting<R, G>,
        sectors: &Sectors,
        bio: Bio,
    ) -> OneTurn
        requires may { MayMake sectors.now self.old.sectors self.old.width 1 (stands_of self.old.completed.items) self.old.session }
        requires spare { (0 < length self.old.rooms.items) × (vec_len self.old.completed < vec_capacity self.old.completed) }
        requires fits { fits_in self.old.sectors self.old.width bio.op ≡ true }
        requires going { self.old.cut ≡ None }
        ensures same { (self.new.ticket ≡ self.old.ticket) × (self.new.party ≡ self.old.party) × (self.new.sectors ≡ self.old.sectors) × (self.new.width ≡ self.old.width) }
        ensures number { self.new.session.number ≡ self.old.session.number }
        ensures some { result ≢ turn.Empty }
        ensures spare { (length self.old.rooms.items ≡ length self.new.rooms.items + 1) × (vec_capacity self.new.completed ≡ vec_capacity self.old.completed) }
        ensures going { result ≡ turn.Served → self.new.cut ≡ None }
        ensures served { result ≡ turn.Served → (c : AnyCompleted) × (self.new.completed.items ≡ self.old.completed.items ++ c ∷ []) × IsCompletedOf bio.submitter bio.number bio.op self.old.session.number c
            × ((r : AnyReply) × (r ≡ c.reply) × ⟦<Box<dyn FnOnce(OpReply) -> u64 + Send> as FnOnce(OpReply) -> u64>⟧.post bio.done.call r c.note) }
        ensures may { result ≡ turn.Served → (n : ℕ) → MayMake sectors.now self.old.sectors self.old.width (n + 1) (stands_of self.old.completed.items) self.old.session → MayMake sectors.now self.old.sectors self.old.width n (stands_of self.new.completed.items) self.new.session }
        ensures off { result ≡ turn.Off → (self.new.completed.items ≡ self.old.completed.items) × (self.new.cut ≡ Some bio) × HasMade sectors.now (stands_of self.new.completed.items) self.new.session }
        ensures told { result ≡ turn.Off → IsTold self.new.session.caller.pool }
        ensures power { SwitchesNot self.old.session self.new.session }
    {
        let Some(room) = self.rooms.pop() else {
            unreachable!()
        };
        let worker = self.session.number;
        let call = self.session.caller.call;
        match perform(waiting, sectors, &mut self.session, &bio.op, room) {
            Performed::Done { reply, told } => {
                self.completed
                    .push_reserved(finish(worker, call, bio, reply, told));
                OneTurn::Served
            }
            Performed::Off => {
                self.cut = Some(bio);
                OneTurn::Off
            }
        }
    }

    /// Serves the operation at the front of the queue: makes it, calls its callback once, and keeps
    /// it among the completed ones. It takes no memory.
    ///
    /// `Empty` comes only if the queue was empty at one moment of the call. Then the worker rests: it
    /// keeps no set of lanes. `Off` comes only if the worker was told that power is off; it makes no
    /// call more.
    pub fn serve_one<R: Wait, G: Gate>(
        &mut self,
        waiting: &Waiting<R, G>,
        queue: &BioQueue,
        sectors: &Sectors,
    ) -> OneTurn
        requires queue { IsPassOf queue.now.queue self.old.ticket }
        requires may { MayMake sectors.now self.old.sectors self.old.width 1 (stands_of self.old.completed.items) self.old.session }
        requires spare { (0 < length self.old.rooms.items) × (vec_len self.old.completed < vec_capacity self.old.completed) }
        requires going { self.old.cut ≡ None }
        requires done { IsFit (taken_in (view self.old.ticket)) (λ b. fits_in self.old.sectors self.old.width b.op ≡ true)
            → IsDone (taken_in (view self.old.ticket)) self.old.completed.items self.old.cut (λ b c. IsCompletedOf b.submitter b.number b.op self.old.session.number c × ((r : AnyReply) × (r ≡ c.reply) × ⟦<Box<dyn FnOnce(OpReply) -> u64 + Send> as FnOnce(OpReply) -> u64>⟧.post b.done.call r c.note)) }
        ensures done { IsFit (taken_in (view self.new.ticket)) (λ b. fits_in self.new.sectors self.new.width b.op ≡ true)
            → IsDone (taken_in (view self.new.ticket)) self.new.completed.items self.new.cut (λ b c. IsCompletedOf b.submitter b.number b.op self.new.session.number c × ((r : AnyReply) × (r ≡ c.reply) × ⟦<Box<dyn FnOnce(OpReply) -> u64 + Send> as FnOnce(OpReply) -> u64>⟧.post b.done.call r c.note)) }
        ensures queue { IsSamePass self.old.ticket self.new.ticket }
        ensures same { (self.new.party ≡ self.old.party) × (self.new.sectors ≡ self.old.sectors) × (self.new.width ≡ self.old.width) × (self.new.session.number ≡ self.old.session.number) }
        ensures spare { (length self.old.rooms.items ≤ length self.new.rooms.items + 1) × (vec_capacity self.new.completed ≡ vec_capacity self.old.completed) × (vec_len self.new.completed ≤ vec_len self.old.completed + 1) }
        ensures going { result ≢ turn.Off → self.new.cut ≡ None }
        ensures served { result ≡ turn.Served → IsFit (taken_in (view self.new.ticket)) (λ b. fits_in self.old.sectors self.old.width b.op ≡ true) → (c : AnyCompleted) × (self.new.completed.items ≡ self.old.completed.items ++ c ∷ []) }
        ensures may { result ≡ turn.Served → (n : ℕ) → MayMake sectors.now self.old.sectors self.old.width (n + 1) (stands_of self.old.completed.items) self.old.session → MayMake sectors.now self.old.sectors self.old.width n (stands_of self.new.completed.items) self.new.session }
        ensures empty { result ≡ turn.Empty → (view self.new.ticket ≡ view self.old.ticket) × (self.new.completed ≡ self.old.completed) × (self.new.rooms ≡ self.old.rooms) × Held 0 (Learned (view self.old.ticket)) }
        ensures rests { result ≡ turn.Empty → (self.new.session.kept ≡ None) × ((n : ℕ) → MayMake sectors.now self.old.sectors self.old.width n (stands_of self.old.completed.items) self.old.session → MayMake sectors.now self.old.sectors self.old.width n (stands_of self.new.completed.items) self.new.session) }
        ensures off { result ≡ turn.Off → (self.new.completed.items ≡ self.old.completed.items) × HasMade sectors.now (stands_of self.new.completed.items) self.new.session }
        ensures told { result ≡ turn.Off → (self.new.cut ≢ None) × IsTold self.new.session.caller.pool }
        ensures works { (limit : ℕ) → IsAtWork sectors.now self.old.sectors self.old.width limit self.old.cut (stands_of self.old.completed.items) self.old.session
            → IsAtWork sectors.now self.new.sectors self.new.width limit self.new.cut (stands_of self.new.completed.items) self.new.session }
    {
        let Some(ticket) = take(waiting.rt, &queue.queue, &mut self.ticket) else {
            rest(waiting.rt, sectors, &mut self.session);
            return OneTurn::Empty;
        };
        let Ticket { item: bio, .. } = ticket;
        // All that was submitted fits. So `close` shows that this doesn't come.
        if !bio.op.fits_in(self.sectors, self.width) {
            return OneTurn::Served;
        }
        self.make(waiting, sectors, bio)
    }

    /// Gets room for this many calls more.
    ///
    /// The one refusal is out of memory. Then the worker has the room that it had, or more.
    pub fn reserve(&mut self, alloc: Global, calls: u32) -> Result<(), AllocError>
        ensures same { (self.new.ticket ≡ self.old.ticket) × (self.new.party ≡ self.old.party) × (self.new.sectors ≡ self.old.sectors) × (self.new.width ≡ self.old.width) × (self.new.session ≡ self.old.session) × (self.new.cut ≡ self.old.cut) }
        ensures completed { self.new.completed.items ≡ self.old.completed.items }
        ensures rooms { length self.old.rooms.items ≤ length self.new.rooms.items }
        ensures more { OnOk result (length self.new.rooms.items ≡ length self.old.rooms.items + calls) }
        ensures spare { OnOk result (vec_len self.new.completed + calls ≤ vec_capacity self.new.completed) }
    {
        self.completed.reserve(calls as usize)?;
        for _ in 0..calls {
            let room = room_of(alloc, self.width)?;
            self.rooms.push(room)?;
        }
        Ok(())
    }

    /// Gets room for one call more, if there is none.
    ///
    /// The one refusal is out of memory.
    pub fn reserve_one(&mut self, alloc: Global) -> Result<(), AllocError>
        ensures same { (self.new.ticket ≡ self.old.ticket) × (self.new.party ≡ self.old.party) × (self.new.sectors ≡ self.old.sectors) × (self.new.width ≡ self.old.width) × (self.new.session ≡ self.old.session) × (self.new.cut ≡ self.old.cut) }
        ensures completed { self.new.completed.items ≡ self.old.completed.items }
        ensures spare { OnOk result ((0 < length self.new.rooms.items) × (vec_len self.new.completed < vec_capacity self.new.completed)) }
    {
        self.completed.reserve(1)?;
        if self.rooms.is_empty() {
            let room = room_of(alloc, self.width)?;
            self.rooms.push(room)?;
        }
        Ok(())
    }

    /// Gives its set of lanes back, if it keeps one, so that others may take it.
    pub fn pause<R: Wait>(&mut self, rt: &R, sectors: &Sectors)
        requires may { MayMake sectors.now self.old.sectors self.old.width 0 (stands_of self.old.completed.items) self.old.session }
        requires going { self.old.cut ≡ None }
        ensures same { (self.new.ticket ≡ self.old.ticket) × (self.new.party ≡ self.old.party) × (self.new.sectors ≡ self.old.sectors) × (self.new.width ≡ self.old.width) × (self.new.completed ≡ self.old.completed) × (self.new.cut ≡ self.old.cut) }
        ensures number { self.new.session.number ≡ self.old.session.number }
        ensures rests { self.new.session.kept ≡ None }
        ensures works { (limit : ℕ) → IsAtWork sectors.now self.old.sectors self.old.width limit self.old.cut (stands_of self.old.completed.items) self.old.session
            → IsAtWork sectors.now self.new.sectors self.new.width limit self.new.cut (stands_of self.new.completed.items) self.new.session }
    {
        rest(rt, sectors, &mut self.session);
    }

    /// How many operations it completed.
    pub fn completed(&self) -> usize
        ensures { result ≡ length self.now.completed.items }
    {
        self.completed.len()
    }

    /// Whether it keeps an operation that it had taken when it was told that power is off.
    pub fn is_cut(&self) -> bool
        ensures yes { result ≡ true → self.now.cut ≢ None }
        ensures no { result ≡ false → self.now.cut ≡ None }
    {
        self.cut.is_some()
    }
}
