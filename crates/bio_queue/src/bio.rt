//! An operation that was submitted, and one that was completed.
ghost use Rattle.std.specs.Prelude.{◌≡◌};
ghost use Rattle.bio_queue.specs.Ops.{kind_of};

use crate::completion::Completion;
use crate::op::{Op, OpReply};

/// An operation of a submitter, with its completion.
#[derive(Drop)]
pub struct Bio {
    pub submitter: u32,
    /// Its number among the submitter's operations, from 0 on.
    pub number: u32,
    pub op: Op,
    pub done: Completion,
    ghost made_for: { done.kind ≡ kind_of op },
}

impl Bio {
    pub(crate) fn new(submitter: u32, number: u32, op: Op, done: Completion) -> Bio
        requires { done.kind ≡ kind_of op }
        ensures by { (result.submitter ≡ submitter) × (result.number ≡ number) }
        ensures op { result.op ≡ op }
        ensures done { result.done ≡ done }
    {
        Bio {
            submitter,
            number,
            op,
            done,
        }
    }
}

/// An operation that a worker completed.
#[derive(Debug, Drop)]
pub struct Completed {
    pub submitter: u32,
    pub number: u32,
    pub op: Op,
    pub worker: u32,
    /// The number of the call among those of the worker's session.
    pub call: u32,
    pub reply: OpReply,
    /// What the callback answered.
    pub note: u64,
}

/// The queue was full. The operation and its completion come back.
#[derive(Drop)]
pub struct Full {
    pub op: Op,
    pub done: Completion,
    pub depth: u32,
}

/// What a worker's turn came to.
#[derive(Clone, Copy, Debug, PartialEq, Eq)]
pub enum OneTurn {
    /// An operation was completed.
    Served,
    /// The queue was empty at one moment of the call.
    Empty,
    /// Power is off. The worker keeps the operation that it had taken, and didn't complete it.
    Off,
}
