//! A sector namespace is created: its arena is formatted, and then labels name it.
ghost use Rattle.std.specs.Prelude.{◌≡◌, ◌≢◌, true, false, Some, None, Err, OnOk, is_ok};
ghost use Rattle.namespace_map.specs.declared.commands.Command.TheVariants as command;
ghost use Rattle.namespace_map.specs.declared.refused.OpRefused.{OpRefused as Refused};
ghost use Rattle.namespace_map.specs.Commands.{done, set_of};
ghost use Rattle.namespace_areas.specs.Refusals.{offset_for, shown};
ghost use Rattle.namespace_areas.specs.Seen.{AreHeld};
ghost use Rattle.cut_words.specs.Fuses.{burnt, lasts};
ghost use Rattle.arena_open.specs.Format.{format_count};
ghost use Rattle.sector_namespaces.specs.Creation.{has_sectors, layout_for};
ghost use Rattle.namespace_ops.specs.Carried.{is_cut};
ghost use Rattle.namespace_ops.specs.Created.{CanCreateSectors, Creates, IsMade, IsNew, refusal_for};

use crate::creating::NewNamespace;
use crate::formatter::Formatter;
use crate::label_store::LabelStore;
use cut_words::{Fuse, PowerCut};
use namespace_map::{CreateSpec, OpRefused};
use std::alloc::Global;

/// Formats the arena of a new namespace whose place was found, since nothing refuses it.
fn format<F: Formatter>(
    alloc: Global,
    store: &LabelStore,
    offset: u64,
    formatter: &mut F,
    fuse: &mut Fuse,
    spec: &CreateSpec,
) -> Result<(), PowerCut>
    requires good { refusal_for store.now.sets store.now.areas spec.now ≡ None }
    requires sectors { has_sectors spec.now.make ≡ true }
    requires place { offset ≡ offset_for (shown store.now.sets store.now.areas) spec.now }
    requires ready { F.ready formatter.old store.now.sets }
    ensures formats { F.formats formatter.old formatter.new (set_of (shown store.now.sets store.now.areas) spec.now.region) (offset_for (shown store.now.sets store.now.areas) spec.now) spec.now fuse.old }
    ensures whole { is_ok result ≡ lasts fuse.old (format_count (layout_for spec.now)) }
    ensures left { fuse.new ≡ burnt fuse.old (format_count (layout_for spec.now)) }
{
    formatter.format(alloc, store.sets(), offset, fuse, spec)
}

/// Formats the arena of a namespace that was planned, and then labels it.
fn make<F: Formatter>(
    alloc: Global,
    store: &mut LabelStore,
    new: &NewNamespace,
    formatter: &mut F,
    fuse: &mut Fuse,
    spec: &CreateSpec,
) -> Result<(), OpRefused>
    requires can { CanCreateSectors store.old spec.now }
    requires ready { F.ready formatter.old store.old.sets }
    requires planned { IsNew store.old.sets store.old.areas spec.now new.now }
    ensures made { IsMade store.old.sets store.old.areas store.new.areas fuse.old fuse.new spec.now result }
    ensures formats { F.formats formatter.old formatter.new (set_of (shown store.old.sets store.old.areas) spec.now.region) (offset_for (shown store.old.sets store.old.areas) spec.now) spec.now fuse.old }
    ensures memory { result ≢ Err OpRefused.OutOfMemory }
    ensures done { OnOk result (shown store.new.sets store.new.areas ≡ done (shown store.old.sets store.old.areas) (command.Create spec.now)) }
    ensures sets { store.new.sets ≡ store.old.sets }
    ensures stopped { store.new.stopped ≡ is_cut result }
{
    match format(alloc, store, new.offset, formatter, fuse, spec) {
        Ok(()) => store.create_planned(fuse, spec, new),
        Err(PowerCut) => {
            store.stop();
            Err(OpRefused::PowerCut)
        }
    }
}

/// Creates a sector namespace: formats its arena, and then labels it on all modules of its region, as `LabelStore::create`
/// does.
///
/// The namespace has sectors, and the formatter is ready for the sets. The store isn't stopped, and the name has no zero byte.
///
/// Refusals, after which nothing has changed, the fuse neither: those of `create_offset` of `namespace_areas`. Else the
/// steps of the format are counted first, and then those of the label changes. `PowerCut` comes exactly if the fuse has fewer
/// left, and then the store is stopped. Within the format the label areas are as they were.
///
/// `OutOfMemory` may come in place of any other answer. Nothing has changed then, since all memory is taken before the
/// first store.
pub(crate) fn create_sectors<F: Formatter>(
    alloc: Global,
    store: &mut LabelStore,
    formatter: &mut F,
    fuse: &mut Fuse,
    spec: &CreateSpec,
) -> Result<(), OpRefused>
    requires can { CanCreateSectors store.old spec.now }
    requires ready { F.ready formatter.old store.old.sets }
    ensures creates { result ≢ Err OpRefused.OutOfMemory → Creates store.old.sets store.old.areas store.new.areas fuse.old fuse.new spec.now result }
    ensures refused { (f : Refused) → result ≢ Err OpRefused.OutOfMemory → refusal_for store.old.sets store.old.areas spec.now ≡ Some f → formatter.new ≡ formatter.old }
    ensures formats { result ≢ Err OpRefused.OutOfMemory → refusal_for store.old.sets store.old.areas spec.now ≡ None
        → F.formats formatter.old formatter.new (set_of (shown store.old.sets store.old.areas) spec.now.region) (offset_for (shown store.old.sets store.old.areas) spec.now) spec.now fuse.old }
    ensures memory { result ≡ Err OpRefused.OutOfMemory → (store.new ≡ store.old) × (formatter.new ≡ formatter.old) × (fuse.new ≡ fuse.old) }
    ensures done { OnOk result (shown store.new.sets store.new.areas ≡ done (shown store.old.sets store.old.areas) (command.Create spec.now)) }
    ensures held { AreHeld store.old.areas }
    ensures sets { store.new.sets ≡ store.old.sets }
    ensures stopped { store.new.stopped ≡ is_cut result }
{
    // The clause of `areas` says that no area is stopped.
    let _areas = store.areas();
    match store.plan_create(alloc, spec) {
        Ok(new) => make(alloc, store, &new, formatter, fuse, spec),
        Err(refused) => Err(refused),
    }
}
