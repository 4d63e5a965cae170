//! The journal.
ghost use Rattle.std.specs.Prelude.{◌≡◌, ◌+◌, ◌<◌, ◌≤◌, ◌^◌, ◌++◌, ◌∷◌, [], length, sum, vec_len, IfOk, OnOk, OnErr};
ghost use Rattle.std.specs.Vec.{vec_capacity};
ghost use Rattle.namespace_ops.specs.Room.{room_of, taken, with_room};

use crate::journal_room::JournalRoom;
use namespace_map::{Command, OpRefused};
use nvd_words::Tag;
use std::alloc::{AllocError, Global};
use std::marker::Model;

/// What was asked of a registry, and what it answered.
///
/// Contracts see it as `JournalEntry` of `specs/Entries.antt`.
#[derive(Debug, Drop)]
pub struct JournalEntry {
    /// Whose call it was.
    pub tag: Tag,
    /// What was asked.
    pub command: Command,
    /// What was answered.
    pub reply: Result<(), OpRefused>,
}

impl Model for JournalEntry {
    ghost use Rattle.namespace_ops.specs.Entries as entries;

    ghost Value = { entries.JournalEntry };

    ghost view = { λ e. record { tag = e.tag; command = e.command; reply = e.reply } };
}

/// Entries in their order, and for how many more each session has room, together fewer than 2^32. There is room for all
/// of them.
#[derive(Debug, Drop)]
pub(crate) struct Journal {
    entries: Vec<JournalEntry>,
    room: JournalRoom,
}

impl Model for Journal {
    ghost use Rattle.std.specs.Vec.{vec_capacity};
    ghost use Rattle.namespace_ops.specs.Book.{Book, IsRoomy};

    ghost Value = { Book };

    ghost view = { λ j. record { entries = j.entries.items; room = j.room } };

    ghost invariant = { λ j. IsRoomy j.entries.items j.room (vec_capacity j.entries) };
}

/// Adds an entry, for which there is room.
fn push(entries: &mut Vec<JournalEntry>, entry: JournalEntry)
    requires room { vec_len entries.old + 1 ≤ vec_capacity entries.old }
    ensures items { entries.new.items ≡ entries.old.items ++ entry ∷ [] }
    ensures len { vec_len entries.new ≡ vec_len entries.old + 1 }
    ensures capacity { vec_capacity entries.old ≤ vec_capacity entries.new }
{
    let added = entries.push(entry);
    prove!(added.is_ok());
}

impl Journal {
    /// No entries, and no room.
    pub(crate) fn new(alloc: Global) -> Journal
        ensures entries { result.entries ≡ [] }
        ensures room { result.room ≡ [] }
    {
        Journal {
            entries: Vec::new(alloc),
            room: JournalRoom::none(alloc),
        }
    }

    /// Its entries.
    pub(crate) fn entries(&self) -> &[JournalEntry]
        ensures { result.now ≡ self.now.entries }
    {
        &self.entries
    }

    /// For how many more entries a session has room.
    pub(crate) fn room(&self, session: u32) -> u32
        ensures { result ≡ room_of self.now.room session }
    {
        self.room.of(session)
    }

    /// Its room, and so many entries more for each session. The one error is out of memory, also if the journal would come
    /// to 2^32 entries.
    pub(crate) fn room_with(&self, alloc: Global, calls: &[u32]) -> Result<JournalRoom, AllocError>
        ensures room { IfOk result (λ room. room ≡ with_room self.now.room calls.now) }
        ensures few { IfOk result (λ room. length self.now.entries + sum room < 2 ^ 32) }
    {
        let room = self.room.with(alloc, calls)?;
        if self.entries.len() + room.total() as usize > u32::MAX as usize {
            return Err(AllocError);
        }
        Ok(room)
    }

    /// Takes other room in place of its own, and makes it.
    pub(crate) fn give(&mut self, room: JournalRoom) -> Result<(), AllocError>
        requires few { length self.old.entries + sum room < 2 ^ 32 }
        ensures entries { self.new.entries ≡ self.old.entries }
        ensures room { OnOk result (self.new.room ≡ room) }
        ensures same { OnErr result (self.new.room ≡ self.old.room) }
    {
        self.entries.reserve(room.total() as usize)?;
        self.room = room;
        Ok(())
    }

    /// Enters what a session asked, which has room for it. It takes no memory.
    pub(crate) fn enter(&mut self, entry: JournalEntry)
        requires { 1 ≤ room_of self.old.room entry.tag.session }
        ensures entries { self.new.entries ≡ self.old.entries ++ entry ∷ [] }
        ensures room { self.new.room ≡ taken self.old.room entry.tag.session }
    {
        self.room.take(entry.tag.session);
        push(&mut self.entries, entry);
    }
}
