//! Room of sessions.
ghost use Rattle.std.specs.Prelude.{◌≡◌, ◌≤◌, [], sum, slice_index_or, IfOk};
ghost use Rattle.namespace_ops.specs.Room.{room_of, taken, with_room};

use std::alloc::{AllocError, Global};
use std::marker::Model;

/// For how many more entries of the journal each session has room: together at most the greatest number of 32 bits.
#[derive(Debug, Drop)]
pub(crate) struct JournalRoom {
    sessions: Vec<u32>,
    total: u32,
}

impl Model for JournalRoom {
    ghost use Rattle.std.specs.Prelude.{◌≡◌, ℕ, List, sum};

    ghost Value = { List ℕ };

    ghost view = { λ r. r.sessions.items };

    ghost invariant = { λ r. r.total ≡ sum r.sessions.items };
}

/// The number at a place, and 0 past the end.
fn at(numbers: &[u32], place: usize) -> u32
    ensures { result ≡ room_of numbers.now place }
{
    match numbers.get(place) {
        Some(number) => *number,
        None => 0,
    }
}

/// The room of sessions, and so many more for each.
fn added(alloc: Global, room: &[u32], calls: &[u32]) -> Result<JournalRoom, AllocError>
    ensures { IfOk result (λ sum. sum ≡ with_room room.now calls.now) }
{
    let count = room.len().max(calls.len());
    let mut sessions = Vec::with_capacity(alloc, count)?;
    let mut total: u32 = 0;
    for session in 0..count {
        let Some(entries) = at(room, session).checked_add(at(calls, session)) else {
            return Err(AllocError);
        };
        let Some(sum) = total.checked_add(entries) else {
            return Err(AllocError);
        };
        total = sum;
        sessions.push(entries)?;
    }
    Ok(JournalRoom { sessions, total })
}

impl JournalRoom {
    /// No room.
    pub(crate) fn none(alloc: Global) -> JournalRoom
        ensures { result ≡ [] }
    {
        JournalRoom {
            sessions: Vec::new(alloc),
            total: 0,
        }
    }

    /// That of a session.
    pub(crate) fn of(&self, session: u32) -> u32
        ensures { result ≡ room_of self.now session }
    {
        at(&self.sessions, session as usize)
    }

    /// That of all sessions.
    pub(crate) fn total(&self) -> u32
        ensures { result ≡ sum self.now }
    {
        self.total
    }

    /// This room, and so many entries more for each session. The one error is out of memory, also if together that is more
    /// than a number of 32 bits.
    pub(crate) fn with(&self, alloc: Global, calls: &[u32]) -> Result<JournalRoom, AllocError>
        ensures { IfOk result (λ room. room ≡ with_room self.now calls.now) }
    {
        added(alloc, &self.sessions, calls)
    }

    /// Takes one from a session's room, in which there is one.
    pub(crate) fn take(&mut self, session: u32)
        requires { 1 ≤ room_of self.old session }
        ensures { self.new ≡ taken self.old session }
    {
        self.sessions[session as usize] -= 1;
        self.total -= 1;
    }
}
