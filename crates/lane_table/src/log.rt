//! A lane's calls that stand in the history, and the room for those to come. Each call adds an
//! entry of 16 bytes, so four share a line of cache. The log has no words: a read returned them, and
//! the arena has those of a write.
ghost use Rattle.std.specs.Prelude.{◌≡◌, ◌+◌, ◌<◌, ◌≤◌, ◌++◌, [], ◌∷◌, suc, take, vec_len, vec_capacity, OnOk};

use arena_open::CellKind;
use nvd_words::Tag;
use std::alloc::{AllocError, Global};

/// What a call in a lane's log did.
#[derive(Clone, Copy, Debug, PartialEq, Eq)]
pub enum LoggedAct {
    /// It was read as a cell of this kind. `Lane::try_read` returned its words.
    Read(CellKind),
    /// It was written.
    Write,
}

/// A call in a lane's log.
#[derive(Clone, Copy, Debug, PartialEq, Eq)]
pub struct LoggedCall {
    /// The session's call.
    pub tag: Tag,
    pub sector: u32,
    pub act: LoggedAct,
}

/// A lane's calls that stand in the history, and the room for those to come.
#[derive(Drop)]
pub struct LaneLog {
    /// Oldest first.
    pub(crate) calls: Vec<LoggedCall>,
    /// How many more calls there is room for.
    pub(crate) spare: usize,
    ghost room: { vec_len calls + spare ≤ vec_capacity calls },
}

/// Touches the room for so many calls to come. The system finds memory for a page when it is first
/// written; it does so here, and not in a call.
fn touch(calls: &mut Vec<LoggedCall>, more: usize)
    requires room { vec_len calls.old + more ≤ vec_capacity calls.old }
    ensures items { calls.new.items ≡ calls.old.items }
    ensures capacity { vec_capacity calls.new ≡ vec_capacity calls.old }
{
    let count = calls.len();
    for _ in 0..more {
        calls.push_reserved(LoggedCall {
            tag: Tag {
                session: 0,
                call: 0,
            },
            sector: 0,
            act: LoggedAct::Write,
        });
    }
    calls.truncate(count);
}

impl LaneLog {
    /// No call, and no room for one.
    pub(crate) fn new(alloc: Global) -> LaneLog
        ensures calls { result.calls.items ≡ [] }
    {
        LaneLog {
            calls: Vec::new(alloc),
            spare: 0,
        }
    }

    /// Reserves room for this many calls. The only refusal is out of memory.
    pub(crate) fn reserve(&mut self, calls: usize) -> Result<(), AllocError>
        ensures calls { self.new.calls.items ≡ self.old.calls.items }
        ensures enough { OnOk result (calls ≤ self.new.spare) }
        ensures more { self.old.spare ≤ self.new.spare }
    {
        if calls <= self.spare {
            return Ok(());
        }
        self.calls.reserve(calls)?;
        touch(&mut self.calls, calls);
        self.spare = calls;
        Ok(())
    }

    /// How many calls there are.
    pub(crate) fn count(&self) -> usize
        ensures { result ≡ vec_len self.now.calls }
    {
        self.calls.len()
    }

    /// Keeps the first calls, this many. The others go.
    pub(crate) fn keep_first(&mut self, count: usize)
        ensures calls { self.new.calls.items ≡ take count self.old.calls.items }
    {
        self.calls.truncate(count);
    }

    /// Takes the room of one call.
    pub(crate) fn take_room(&mut self)
        requires spare { 0 < self.old.spare }
        ensures calls { self.new.calls ≡ self.old.calls }
        ensures less { suc self.new.spare ≡ self.old.spare }
    {
        self.spare -= 1;
    }

    /// Adds a call whose room was taken.
    pub(crate) fn add(&mut self, call: LoggedCall)
        requires taken { vec_len self.old.calls + self.old.spare < vec_capacity self.old.calls }
        ensures added { self.new.calls.items ≡ self.old.calls.items ++ call ∷ [] }
        ensures spare { self.new.spare ≡ self.old.spare }
    {
        self.calls.push_reserved(call);
    }

    /// Takes the room of a read, and adds it.
    pub(crate) fn add_read(&mut self, call: LoggedCall)
        requires spare { 0 < self.old.spare }
        ensures added { self.new.calls.items ≡ self.old.calls.items ++ call ∷ [] }
        ensures less { suc self.new.spare ≡ self.old.spare }
    {
        self.take_room();
        self.add(call);
    }
}
