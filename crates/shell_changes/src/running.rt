//! A command is carried out on label areas. The format of an arena is counted.
ghost use Rattle.std.specs.Prelude.{◌≡◌, ◌≢◌, ◌<◌, true, false, Err, IfOk, IfSome, List, None, Option, ℕ, length};
ghost use Rattle.namespace_areas.specs.Finding.{set_at};
ghost use Rattle.namespace_areas.specs.Refusals.{shown};
ghost use Rattle.namespace_areas.specs.declared.area.Area.{Area as LabelArea};
ghost use Rattle.namespace_map.specs.Commands.{refusal_of};
ghost use Rattle.namespace_ops.specs.Carried.{HasGoodName};
ghost use Rattle.shell_changes.specs.Going.{Begins, CanPut, IsCounted, Runs};
ghost use Rattle.shell_changes.specs.Reading.{IsFresh};
ghost use Rattle.shell_changes.specs.Work.{arena_of};

use crate::saving::NewArena;
use cut_words::Fuse;
use interleave::InterleaveSet;
use namespace_areas::Area;
use namespace_map::{Command, OpRefused};
use namespace_ops::{Begun, Counted, Registry, Tag};
use nvd_words::Items;
use std::alloc::{AllocError, Global};

/// The tag of the one command of a command line.
const TAG: Tag = Tag {
    session: 0,
    call: 0,
};

/// What became of label areas by a command, the arena that it began, and its reply.
#[derive(Drop)]
pub(crate) struct Ran {
    pub(crate) areas: Vec<Area>,
    pub(crate) begun: Option<NewArena>,
    pub(crate) reply: Result<(), OpRefused>,
}

/// Whether a reply is out of memory.
fn wants_memory(reply: Result<(), OpRefused>) -> bool
    ensures wants { result ≡ true → reply ≡ Err OpRefused.OutOfMemory }
    ensures wants_not { result ≡ false → reply ≢ Err OpRefused.OutOfMemory }
{
    matches!(reply, Err(OpRefused::OutOfMemory))
}

/// Carries a command out under a fuse. It is the first and last entry of the registry's journal.
fn carry_out(
    alloc: Global,
    registry: &mut Registry,
    counted: &mut Counted,
    fuse: &mut Fuse,
    change: &Command,
) -> Result<Result<(), OpRefused>, AllocError>
    requires fresh { IsFresh registry.old }
    requires name { HasGoodName change.now }
    requires none { counted.old.begun ≡ None }
    ensures runs { IfOk result (λ reply. Runs registry.old.sets registry.old.areas registry.new.areas fuse.old fuse.new change.now reply) }
    ensures counted { IfOk result (λ _. IsCounted registry.old.sets registry.old.areas change.now fuse.old counted.new.begun) }
    ensures sets { IfOk result (λ _. registry.new.sets ≡ registry.old.sets) }
{
    registry.reserve(alloc, &[1])?;
    let reply = registry.carry_out(alloc, counted, fuse, TAG, change);
    if wants_memory(reply) {
        return Err(AllocError);
    }
    Ok(reply)
}

/// The interleave set of a region that is there, taken out of all.
fn set_of(sets: Items<InterleaveSet>, region: u32) -> InterleaveSet
    requires { region < length sets }
    ensures { result ≡ set_at sets region }
{
    let mut sets = sets.into_vec();
    sets.swap_remove(region as usize)
}

/// The arena that a command began, if it began one.
fn new_arena(sets: Items<InterleaveSet>, change: &Command, begun: Option<Begun>) -> Option<NewArena>
    requires { (areas : List LabelArea) × (fuse : Option ℕ) × IsCounted sets areas change.now fuse begun }
    ensures begins { (areas : List LabelArea) (fuse : Option ℕ) → IsCounted sets areas change.now fuse begun → refusal_of (shown sets areas) change.now ≡ None → Begins sets (arena_of (shown sets areas) change.now) fuse result }
    ensures can { IfSome result CanPut }
{
    let begun = begun?;
    match change {
        Command::Create(spec) => {
            let set = set_of(sets, spec.region);
            let raw = spec.size / u64::from(set.ways());
            Some(NewArena {
                set,
                offset: begun.offset,
                raw,
                layout: begun.layout,
                uuid: spec.uuid,
                steps: begun.steps,
            })
        }
        _ => None,
    }
}

/// Carries a command out on a registry that was recovered, under a fuse.
pub(crate) fn run_command(
    alloc: Global,
    registry: Registry,
    fuse: &mut Fuse,
    change: &Command,
) -> Result<Ran, AllocError>
    requires fresh { IsFresh registry }
    requires name { HasGoodName change.now }
    ensures runs { IfOk result (λ ran. Runs registry.sets registry.areas ran.areas.items fuse.old fuse.new change.now ran.reply) }
    ensures begins { IfOk result (λ ran. refusal_of (shown registry.sets registry.areas) change.now ≡ None → Begins registry.sets (arena_of (shown registry.sets registry.areas) change.now) fuse.old ran.begun) }
    ensures can { IfOk result (λ ran. IfSome ran.begun CanPut) }
{
    let mut registry = registry;
    let mut counted = Counted::new();
    let reply = carry_out(alloc, &mut registry, &mut counted, fuse, change)?;
    let (sets, areas) = registry.into_parts();
    let begun = new_arena(sets, change, counted.begun);
    Ok(Ran {
        areas,
        begun,
        reply,
    })
}
