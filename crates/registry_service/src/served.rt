//! The registry behind a lock.
ghost use Rattle.std.specs.Prelude.{◌≡◌, ◌≢◌, ℕ, ◌<◌, ◌≤◌, true, false, List, Err, slice_index_or, Option, None, IfOk, replicate};
ghost use Rattle.namespace_map.specs.declared.commands.Command.TheVariants as commands;
ghost use Rattle.namespace_ops.specs.Carried.{HasGoodName};
ghost use Rattle.namespace_ops.specs.Claims.{count_of};
ghost use Rattle.namespace_ops.specs.Counted.{Answered, makes_sectors, takes_memory};
ghost use Rattle.namespace_ops.specs.Registered.{Entered, state_of};
ghost use Rattle.namespace_ops.specs.Room.{room_of};
ghost use Rattle.session_account.specs.Parts.{open_with};

use crate::asking::{command_of, told};
use cut_words::Fuse;
use interleave::InterleaveSet;
use namespace_map::{Command, OpRefused};
use namespace_ops::{Area, JournalEntry, Registry};
use nvd_words::Tag;
use session_account::Reply;
use session_script::Order;
use std::alloc::{AllocError, Global};
use std::collections::LinkedList;
use std::marker::Model;
use turn_lock::Parted;
use uuid::Uuid;

/// What a registry behind a lock began with. It never changes. Contracts alone use it.
pub struct Began {
    /// The interleave sets, by region number.
    pub sets: LinkedList<InterleaveSet>,
    /// The label areas, by module number.
    pub areas: LinkedList<Area>,
    /// After how many steps on labels power is cut, if it is.
    pub labelcut: Option<u64>,
}

/// A session's part of a registry behind a lock. Contracts alone use it, and no code makes a value
/// of it.
pub struct OrdersPart {
    pub began: Began,
    /// The session's entries in the journal, without a call for which memory ran out.
    pub entries: LinkedList<JournalEntry>,
    /// For how many more entries it has room.
    pub room: u32,
    /// The namespace that it has open.
    pub held: Option<Uuid>,
}

/// A registry of namespaces, the fuse of its commands' steps, and the namespace that each session
/// has open.
///
/// Until power is cut, its journal replays on the label areas that it began with; each entry's
/// steps are spent from the fuse. Each namespace is claimed as often as sessions have it open.
#[derive(Drop)]
pub struct ServedRegistry {
    alloc: Global,
    registry: Registry,
    fuse: Fuse,
    opens: Vec<Option<Uuid>>,
    /// The steps of the fuse before the first call.
    first: Option<u64>,
}

impl Model for ServedRegistry {
    ghost use Rattle.registry_service.specs.Served.{IsServing, Served};

    ghost Value = { Served };

    ghost view = { λ s. record { registry = s.registry; left = s.fuse; first = s.first; opens = s.opens.items } };

    ghost invariant = { λ s. IsServing (record { registry = s.registry; left = s.fuse; first = s.first; opens = s.opens.items }) };
}

impl Parted for ServedRegistry {
    ghost use Rattle.registry_service.specs.Served.{part_at};

    type Part = OrdersPart;

    ghost part = { part_at };
}

/// Makes a call of a registry. A claim that is given back is held, and a create makes a raw
/// namespace.
fn call(
    registry: &mut Registry,
    alloc: Global,
    fuse: &mut Fuse,
    tag: Tag,
    command: &Command,
) -> Result<(), OpRefused>
    requires room { 1 ≤ room_of registry.old.room tag.session }
    requires name { HasGoodName command.now }
    requires plain { makes_sectors command.now ≡ false }
    requires held { (uuid : List ℕ) → command.now ≡ commands.Unclaim uuid → 0 < count_of registry.old.claims uuid }
    ensures entered { Entered registry.old registry.new tag command.now result }
    ensures answered { Answered (state_of registry.old) (state_of registry.new) fuse.old fuse.new command.now result }
    ensures memory { takes_memory command.now ≡ false → result ≢ Err OpRefused.OutOfMemory }
{
    match command {
        Command::Unclaim { uuid } => registry.unclaim(tag, uuid),
        command => registry.carry_out(alloc, &mut Vec::new(alloc), fuse, tag, command),
    }
}

/// The namespace that a session has open after a command, if it had this one open before.
fn opened_by(held: Option<Uuid>, command: &Command, answer: &Result<(), OpRefused>) -> Option<Uuid>
    ensures { result ≡ open_with held command.now answer.now }
{
    if answer.is_err() {
        return held;
    }
    match command {
        Command::Claim { uuid } => Some(*uuid),
        Command::Unclaim { .. } => None,
        Command::Create(_) | Command::Delete { .. } | Command::Rename { .. } => held,
    }
}

/// No session has a namespace open.
fn none_open(alloc: Global, sessions: usize) -> Result<Vec<Option<Uuid>>, AllocError>
    ensures { IfOk result (λ v. v.items ≡ replicate sessions None) }
{
    vec![in alloc; None; sessions]
}

impl ServedRegistry {
    ghost use Rattle.std.specs.Prelude.{◌⊎◌, [], Some, Ok, OnErr, IsSome, length, map};
    ghost use Rattle.turn_lock.specs.Turns.{KeepsOthers};
    ghost use Rattle.namespace_areas.specs.Seen.{AreHeld, AreLeft as AreasLeft, areas_shown, words_of};
    ghost use Rattle.namespace_areas.specs.Steps.{rows_of};
    ghost use Rattle.namespace_ops.specs.Carried.{is_cut};
    ghost use Rattle.namespace_ops.specs.Registered.{kept_of, opening_of};
    ghost use Rattle.session_account.specs.Journal.{AreLeft, IsJournal};
    ghost use Rattle.session_account.specs.Registering.{IsOn};
    ghost use Rattle.session_account.specs.Words.{AreasHold};
    ghost use Rattle.registry_service.specs.Asking.{HasText, Suits};
    ghost use Rattle.registry_service.specs.Parts.{GivesBack, HasRoom, IsOrdered, carried, forgotten};
    ghost use Rattle.registry_service.specs.Served.{AreKept, answered, fresh, part_at};

    /// A registry in which no session has made a call, with room for `calls[q]` calls of session q,
    /// and the fuse of its commands' steps. The one refusal is out of memory, also if the journal
    /// would come to 2^32 entries.
    ///
    /// Power is on, the journal is empty, and no session has room yet.
    pub(crate) fn of(
        alloc: Global,
        mut registry: Registry,
        fuse: Fuse,
        calls: &[u32],
    ) -> Result<ServedRegistry, AllocError>
        requires running { registry.stopped ≡ false }
        requires first { registry.journal ≡ [] }
        requires roomless { registry.room ≡ [] }
        requires opening { registry.opening ≡ registry.areas }
        ensures { IfOk result (λ s. s ≡ fresh registry fuse calls.now) }
    {
        let opens = none_open(alloc, calls.len())?;
        registry.reserve(alloc, calls)?;
        // The clause of `journal` says what an empty one replays to.
        let _journal = registry.journal();
        let first = fuse.left();
        Ok(ServedRegistry {
            alloc,
            registry,
            fuse,
            opens,
            first,
        })
    }

    /// After how many steps on labels power is cut; 0 if it never is.
    pub(crate) fn labelcut(&self) -> u64
        ensures { (n : ℕ) → self.now.first ≡ Some n → result ≡ n }
    {
        self.first.unwrap_or(0)
    }

    /// The namespace that a session has open.
    fn held_by(&self, session: u32) -> Option<Uuid>
        ensures { result ≡ slice_index_or self.now.opens session None }
    {
        match self.opens.get(session as usize) {
            Some(held) => *held,
            None => None,
        }
    }

    /// Makes a call of a session that has room for it, and suits what the session has open.
    fn carry_out(&mut self, tag: Tag, command: &Command) -> Result<(), OpRefused>
        requires room { HasRoom (part_at self.old tag.session) }
        requires name { HasGoodName command.now }
        requires plain { makes_sectors command.now ≡ false }
        requires suits { Suits (part_at self.old tag.session).held command.now }
        ensures own { part_at self.new tag.session ≡ carried tag command.now result (part_at self.old tag.session) }
        ensures others { KeepsOthers part_at tag.session self.old self.new }
        ensures cause { is_cut result ≡ true → IsSome self.old.first }
        ensures unclaim { (uuid : List ℕ) → command.now ≡ commands.Unclaim uuid → (result ≡ Ok tt) ⊎ (result ≡ Err OpRefused.PowerCut) }
    {
        let held = self.held_by(tag.session);
        let answer = call(&mut self.registry, self.alloc, &mut self.fuse, tag, command);
        self.opens[tag.session as usize] = opened_by(held, command, &answer);
        answer
    }

    /// Makes an order of a session that has room for it. The one error is out of memory, after
    /// which nothing but one of the room is gone.
    pub(crate) fn order(&mut self, tag: Tag, order: &Order) -> Result<Reply, AllocError>
        requires room { HasRoom (part_at self.old tag.session) }
        requires text { HasText order.now }
        ensures ordered { IfOk result (λ r. IsOrdered tag.session tag.call order.now r (part_at self.old tag.session) (part_at self.new tag.session)) }
        ensures memory { OnErr result (part_at self.new tag.session ≡ forgotten (part_at self.old tag.session)) }
        ensures others { KeepsOthers part_at tag.session self.old self.new }
    {
        match command_of(self.held_by(tag.session), order) {
            Ok(command) => told(self.carry_out(tag, &command)),
            Err(check) => Ok(check),
        }
    }

    /// Gives back what a session has open, if it has room for that call.
    pub(crate) fn give_back(&mut self, tag: Tag)
        requires room { HasRoom (part_at self.old tag.session) }
        ensures given { GivesBack tag.session tag.call (part_at self.old tag.session) (part_at self.new tag.session) }
        ensures others { KeepsOthers part_at tag.session self.old self.new }
    {
        if let Some(uuid) = self.held_by(tag.session) {
            let _answer = self.carry_out(tag, &Command::Unclaim { uuid });
        }
    }

    /// The registry, and what is left of its fuse.
    pub(crate) fn into_parts(self) -> (Registry, Fuse)
        ensures registry { (result.0 ≡ self.registry) × (result.1 ≡ self.left) }
        ensures areas { AreKept self.registry.opening self.registry.areas self.registry.stopped }
        ensures journal { IsJournal self.registry.sets (opening_of self.registry) self.first (answered self.registry.journal) }
        ensures left { self.registry.stopped ≡ true → (rows : List (Option (List ℕ))) → AreasLeft self.registry.areas rows → AreLeft self.registry.sets (opening_of self.registry) self.first (answered self.registry.journal) (areas_shown rows) }
        ensures words { AreHeld self.registry.opening → AreasHold self.registry.sets (opening_of self.registry) (rows_of self.registry.opening) self.first (answered self.registry.journal) (map words_of self.registry.areas) }
        ensures on { self.registry.stopped ≡ false → IsOn self.registry.sets (opening_of self.registry) (rows_of self.registry.opening) self.first (answered self.registry.journal) (kept_of (state_of self.registry)) (rows_of self.registry.areas) self.left }
    {
        let ServedRegistry {
            alloc: _,
            registry,
            fuse,
            opens: _,
            first: _,
        } = self;
        (registry, fuse)
    }
}
