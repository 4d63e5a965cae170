//! A desk: a submitter, a worker, and the operations that are to be submitted.
ghost use Rattle.std.specs.Prelude.{◌≡◌, ◌+◌, ◌≤◌, [], length, true, All};
ghost use Rattle.crossbeam_queue.specs.Passes.{view, IsPassOf, IsSamePass};
ghost use Rattle.ticket_queue.specs.Parties.{put_in};
ghost use Rattle.bio_queue.specs.Ops.{fits_in, kind_of};
ghost use Rattle.bio_queue.specs.Lists.{AreSubmitted};
ghost use Rattle.bio_queue.specs.declared.desk.Sent.TheVariants as sent;

use crate::bio::Full;
use crate::completion::Completion;
use crate::op::Op;
use crate::queue::BioQueue;
use crate::submitter::Submitter;
use crate::worker::Worker;
use std::sync::Wait;

/// An operation that is to be submitted, with its completion.
#[derive(Drop)]
pub struct Job {
    pub op: Op,
    pub done: Completion,
}

/// How a desk's work came to its end.
#[derive(Clone, Copy, Debug, PartialEq, Eq)]
pub enum DeskEnd {
    /// It isn't over.
    Open,
    /// All jobs were submitted, and the queue was empty at one moment after that.
    Done,
    /// The worker completed as many operations as it may.
    Limit,
    /// Out of memory.
    Memory,
    /// The worker was told that power is off.
    Off,
}

/// A submitter and a worker of one thread, with the jobs that are yet to be submitted, the first
/// one last. Each job fits the arena, and its completion is of its kind.
#[derive(Drop)]
pub struct Desk {
    pub submitter: Submitter,
    pub worker: Worker,
    pub jobs: Vec<Job>,
    /// How many operations the worker may complete in all.
    pub limit: u32,
    pub end: DeskEnd,
    ghost fitting: { All (λ j. (j.done.kind ≡ kind_of j.op) × (fits_in submitter.sectors submitter.width j.op ≡ true)) jobs.items },
}

/// What came of the next job.
#[derive(Clone, Copy, Debug, PartialEq, Eq)]
pub(crate) enum Sent {
    /// There is none.
    NoJob,
    Accepted,
    /// It came back, since the queue was full.
    Back,
}

impl Desk {
    /// A desk that has submitted none of these jobs, the first one last. Its worker may complete
    /// `limit` operations in all.
    ///
    /// Condition: each job fits the submitter's arena, and its completion was made for its kind.
    pub fn new(submitter: Submitter, worker: Worker, jobs: Vec<Job>, limit: u32) -> Desk
        requires fitting { All (λ j. (j.done.kind ≡ kind_of j.op) × (fits_in submitter.sectors submitter.width j.op ≡ true)) jobs.items }
        ensures parts { (result.submitter ≡ submitter) × (result.worker ≡ worker) × (result.jobs ≡ jobs) × (result.limit ≡ limit) }
    {
        Desk {
            submitter,
            worker,
            jobs,
            limit,
            end: DeskEnd::Open,
        }
    }

    /// Submits the next job, if there is one.
    pub(crate) fn submit_next<R: Wait>(&mut self, rt: &R, queue: &BioQueue) -> Sent
        requires queue { IsPassOf queue.now.queue self.old.submitter.pass }
        requires few { length (put_in (view self.old.submitter.pass)) + length self.old.jobs.items ≤ 65536 }
        ensures others { (self.new.worker ≡ self.old.worker) × (self.new.limit ≡ self.old.limit) }
        ensures queue { IsSamePass self.old.submitter.pass self.new.submitter.pass }
        ensures same { (self.new.submitter.party ≡ self.old.submitter.party) × (self.new.submitter.sectors ≡ self.old.submitter.sectors) × (self.new.submitter.width ≡ self.old.submitter.width) }
        ensures submitted { AreSubmitted (put_in (view self.old.submitter.pass)) (put_in (view self.new.submitter.pass)) self.old.jobs.items self.new.jobs.items (λ b j. (b.op ≡ j.op) × (b.done ≡ j.done)) }
        ensures none { result ≡ sent.NoJob → self.new.jobs.items ≡ [] }
    {
        let Some(job) = self.jobs.pop() else {
            return Sent::NoJob;
        };
        let Job { op, done } = job;
        match self.submitter.submit(rt, queue, op, done) {
            Ok(_) => Sent::Accepted,
            Err(full) => {
                let Full { op, done, .. } = full;
                self.jobs.push_reserved(Job { op, done });
                Sent::Back
            }
        }
    }
}
