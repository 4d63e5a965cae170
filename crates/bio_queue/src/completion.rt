//! A callback that is called once, with the reply to an operation.
ghost use Rattle.std.specs.Prelude.{◌≡◌, true};
ghost use Rattle.bio_queue.specs.Ops.{fits, kind_of};

use crate::op::{Op, OpKind, OpReply};

/// What is called when an operation is completed. Its answer is the operation's note.
pub type Callback = Box<dyn FnOnce(OpReply) -> u64 + Send>;

/// A callback that may be called on every reply that fits an operation. The type keeps this fact,
/// so a completion that went through a queue may still be called.
#[derive(Drop)]
pub struct Completion {
    pub(crate) kind: OpKind,
    pub(crate) call: Callback,
    ghost ready: { (r : _) → fits kind r ≡ true → Callback.pre call r },
}

impl Completion {
    /// The completion of an operation, by this callback.
    pub fn of(op: &Op, call: Callback) -> Completion
        requires { (r : _) → fits (kind_of op.now) r ≡ true → Callback.pre call r }
        ensures kind { result.kind ≡ kind_of op.now }
        ensures call { result.call ≡ call }
    {
        Completion {
            kind: op.kind(),
            call,
        }
    }

    /// Calls the callback, and answers what it answers.
    pub fn complete(self, reply: OpReply) -> u64
        requires { fits self.kind reply ≡ true }
        ensures { Callback.post self.call reply result }
    {
        let Completion { kind: _, call } = self;
        call(reply)
    }
}
