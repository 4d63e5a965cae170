//! The arena of a new namespace is formatted in its place.
ghost use Rattle.std.specs.Prelude.{◌≡◌, ◌+◌, ◌*◌, ◌/◌, ◌%◌, ◌≤◌, true, false, is_err, is_ok, length};
ghost use Rattle.interleave.specs.Places.{unit_of};
ghost use Rattle.interleave.specs.Sound.{span_of};
ghost use Rattle.arena_layout.specs.Layout.{IsLayout};
ghost use Rattle.arena_layout.specs.Plan.{plan_of, planned};
ghost use Rattle.power_cut.specs.Namespace.{ReachEnds, over};
ghost use Rattle.namespace_map.specs.Commands.{has_no_plan, share_of};
ghost use Rattle.sector_namespaces.specs.Creation.{AreSettled, CanLie, IsFormattedIn, has_sectors, layout_for};

use arena_layout::{Layout, plan};
use arena_open::{format_arena, format_takes_two_steps_a_word};
use cut_words::{CutWords, Fuse, PowerCut};
use interleave::InterleaveSet;
use label_codec::Mode;
use namespace_areas::first_arena;
use namespace_map::{CreateSpec, Make};
use power_cut::{SetWords, beside_tells_the_place};
use std::alloc::Global;
use std::mem;
use uuid::Uuid;

/// What the type says of a UUID, as a clause. Nothing is done here: `prove!` costs nothing when it runs.
fn know_uuid(uuid: &Uuid)
    ensures { length uuid.now ≡ 16 }
{
    let bytes = uuid.as_bytes();
    prove!(bytes[0] <= u8::MAX);
}

/// What a namespace takes of each mapping of its region's set, in bytes.
#[derive(Clone, Copy, Debug)]
struct Place {
    /// How far it lies from the mapping's start.
    offset: u64,
    /// How long it is.
    raw: u64,
}

/// A layout that is planned.
fn planned_layout(size: u64, sector: u32, lanes: u32) -> Layout
    requires { is_err (planned size sector lanes) ≡ false }
    ensures { result ≡ plan_of size sector lanes }
{
    match plan(size, sector, lanes) {
        Ok(layout) => layout,
        Err(_) => unreachable!(),
    }
}

/// Formats an arena at the first word of the namespace that has a place in each mapping of a set. It is its own parent.
/// `PowerCut` comes exactly if the fuse has fewer steps left than the format takes.
fn format_at(
    alloc: Global,
    set: &InterleaveSet,
    place: Place,
    modules: &mut Vec<CutWords>,
    fuse: &mut Fuse,
    layout: &Layout,
    uuid: &Uuid,
) -> Result<(), PowerCut>
    requires from { place.offset % unit_of set.now ≡ 0 }
    requires to { place.raw % unit_of set.now ≡ 0 }
    requires inside { place.offset + place.raw ≤ span_of set.now }
    requires settled { AreSettled modules.old.items }
    requires reach { ReachEnds set.now modules.old.items }
    requires layout { IsLayout layout.now }
    requires room { layout.now.size / 8 ≤ length set.now * place.raw / 8 }
    ensures { IsFormattedIn (over set.now place.offset place.raw) layout.now uuid.now modules.old.items modules.new.items fuse.old fuse.new (is_ok result) }
{
    beside_tells_the_place();
    format_takes_two_steps_a_word();
    know_uuid(uuid);
    let rows = mem::replace(modules, Vec::new(alloc));
    let mut space = SetWords::of(set, place.offset, place.raw, rows);
    let first = first_arena(&Mode::Sector);
    let formatted = format_arena(&mut space, fuse, first, layout, uuid, uuid);
    *modules = space.into_modules();
    formatted
}

/// The layout of the arena of a namespace of sectors, for which one is planned.
fn layout_for(spec: &CreateSpec) -> Layout
    requires sectors { has_sectors spec.now.make ≡ true }
    requires planned { has_no_plan spec.now.make spec.now.size ≡ false }
    ensures { result ≡ layout_for spec.now }
{
    match spec.make {
        Make::Sector { sector, lanes } => planned_layout(spec.size, sector, lanes),
        Make::Raw => unreachable!(),
    }
}

/// Formats the arena of a new sector namespace in its place of a set, before any label names it. The arena begins at the
/// namespace's first word; its UUID and that of its parent are the namespace's. Its sectors read as zeros.
///
/// `offset` is how far the namespace lies from the start of each mapping, in bytes (`CanLie`). `modules` has the contents of
/// all modules by number, up to the ends of the set's mappings, and none of their words is pending.
///
/// The format takes two steps for each word of the map, the log and both info blocks (`arena_steps`). `PowerCut` comes
/// exactly if the fuse has fewer left. Words outside the namespace stay as they were in each case. It takes no memory.
/// (UEFI 2.10, section 6.2.)
pub fn format_sectors(
    alloc: Global,
    set: &InterleaveSet,
    offset: u64,
    modules: &mut Vec<CutWords>,
    fuse: &mut Fuse,
    spec: &CreateSpec,
) -> Result<(), PowerCut>
    requires place { CanLie set.now offset spec.now }
    requires settled { AreSettled modules.old.items }
    requires reach { ReachEnds set.now modules.old.items }
    ensures { IsFormattedIn (over set.now offset (share_of set.now spec.now.size)) (layout_for spec.now) spec.now.uuid modules.old.items modules.new.items fuse.old fuse.new (is_ok result) }
{
    let layout = layout_for(spec);
    let place = Place {
        offset,
        raw: spec.size / u64::from(set.ways()),
    };
    format_at(alloc, set, place, modules, fuse, &layout, &spec.uuid)
}
