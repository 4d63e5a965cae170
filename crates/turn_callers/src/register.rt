//! The object behind the lock: a register with the journal of its calls.
ghost use Rattle.std.specs.Prelude.{◌≡◌, ◌+◌, ◌≤◌, true, sum, vec_len, vec_capacity};
ghost use Rattle.turn_callers.specs.Replay.{value_of, value_after, is_legal};

use std::alloc::{AllocError, Global};
use std::collections::LinkedList;
use turn_lock::Parted;

/// A call of a register. It replies the value before the call.
#[derive(Clone, Copy)]
pub enum RegisterCall {
    Read,
    /// Stores this value.
    Write(u64),
}

/// A call that was made, its caller, and its reply.
#[derive(Clone, Copy)]
pub struct RegisterEntry {
    pub by: u32,
    pub call: RegisterCall,
    pub reply: u64,
}

/// A caller's part of a register: its own entries, and the room reserved for more of them. It never
/// exists at run time.
pub struct Share {
    pub entries: LinkedList<RegisterEntry>,
    pub room: u64,
}

/// A register with the journal of its calls. A single thread could have made the journal.
///
/// Room for all calls of all callers is reserved at the start, so no call runs out of memory while
/// its caller has the turn.
#[derive(Drop)]
pub struct Register {
    value: u64,
    journal: Vec<RegisterEntry>,
    // The calls that each caller may still make.
    rooms: Vec<u32>,
    ghost replays: { value ≡ value_of 0 journal.items },
    ghost legal: { is_legal 0 journal.items ≡ true },
    ghost reserved: { vec_len journal + sum rooms.items ≤ vec_capacity journal },
}

impl Parted for Register {
    ghost use Rattle.turn_callers.specs.Shares.{share_at};

    type Part = Share;

    ghost part = { λ r q. share_at r.journal.items r.rooms.items q };
}

impl Register {
    ghost use Rattle.std.specs.Prelude.{◌≡◌, ◌-◌, ◌^◌, ◌<◌, [], ◌∷◌, ◌++◌, map, sum_by, slice_index, slice_set, IfOk, vec_len};
    ghost use Rattle.turn_callers.specs.Replay.{entry};

    /// A register of value 0, with room for the calls of all scripts, one for each caller.
    pub fn new<O>(alloc: Global, scripts: &[Vec<O>]) -> Result<Register, AllocError>
        requires { sum_by vec_len scripts.now < 2 ^ 32 }
        ensures { IfOk result (λ r. (r.journal.items ≡ []) × (r.rooms.items ≡ map vec_len scripts.now)) }
    {
        let mut rooms = Vec::with_capacity(alloc, scripts.len())?;
        let mut total = 0;
        for script in scripts {
            rooms.push(script.len() as u32)?;
            total += script.len();
        }
        let journal = Vec::with_capacity(alloc, total)?;
        Ok(Register {
            value: 0,
            journal,
            rooms,
        })
    }

    /// Returns the journal, which is legal.
    pub fn into_journal(self) -> Vec<RegisterEntry>
        ensures same { result ≡ self.journal }
        ensures legal { is_legal 0 result.items ≡ true }
    {
        let Register { journal, .. } = self;
        journal
    }

    /// Makes a call for which room was reserved, and returns its reply.
    pub fn make(&mut self, by: u32, call: RegisterCall) -> u64
        requires { 0 < slice_index self.old.rooms.items by }
        ensures journal { self.new.journal.items ≡ self.old.journal.items ++ entry by call result ∷ [] }
        ensures rooms { self.new.rooms.items ≡ slice_set self.old.rooms.items by (slice_index self.old.rooms.items by - 1) }
    {
        let reply = self.value;
        let at = by as usize;
        let left = self.rooms[at] - 1;
        self.rooms[at] = left;
        self.journal
            .push_reserved(RegisterEntry { by, call, reply });
        self.value = after(self.value, call);
        reply
    }
}

// Returns the value after a call.
fn after(value: u64, call: RegisterCall) -> u64
    ensures { result ≡ value_after value call }
{
    match call {
        RegisterCall::Read => value,
        RegisterCall::Write(new) => new,
    }
}
