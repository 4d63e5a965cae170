//! What formats the arena of a new namespace, before labels name it.
ghost use Rattle.std.specs.Prelude.{◌≡◌, ◌≢◌, ⊤, ◌<◌, ℕ, List, Option, Some, None, true, false, is_err, is_ok, length, unwrap_or, slice_get, []};
ghost use Rattle.nfit_reader.specs.declared.table.Mapping.{Mapping};
ghost use Rattle.cut_words.specs.Fuses.{burnt, lasts};
ghost use Rattle.arena_layout.specs.Layout.{IsLayout};
ghost use Rattle.arena_layout.specs.Plan.{plan_of, planned};
ghost use Rattle.arena_open.specs.Format.{format_count};
ghost use Rattle.power_cut.specs.Namespace.{over};
ghost use Rattle.namespace_map.specs.declared.commands.CreateSpec.{CreateSpec as Spec};
ghost use Rattle.namespace_map.specs.Commands.{has_no_plan, share_of};
ghost use Rattle.sector_namespaces.specs.Creation.{AreSettled, CanLie, IsFormattedIn, has_sectors, layout_for};
ghost use Rattle.sector_namespaces.specs.View.{AreUsable};
ghost use Rattle.namespace_ops.specs.Counted.{steps_made};

use crate::creating::set_at;
use arena_layout::{Layout, plan};
use cut_words::{CutWords, Fuse, PowerCut};
use interleave::InterleaveSet;
use namespace_map::{CreateSpec, Make};
use sector_namespaces::format_sectors;
use std::alloc::Global;

/// What formats the arena of a new sector namespace in its place of a region's set, or only counts the steps of that.
pub trait Formatter {
    /// It can format an arena in each of these sets.
    ghost ready: { Self → List (List Mapping) → Type 0 };

    /// What became of it by a format under a fuse: in a set, from an offset on, of what is created.
    ghost formats: { Self → Self → List Mapping → ℕ → Spec → Option ℕ → Type 0 };

    /// Formats the arena of a namespace that lies `offset` bytes from the start of each mapping of its region's set.
    ///
    /// The format takes two steps for each word of the map, the log and both info blocks. `PowerCut` comes exactly if the
    /// fuse has fewer left.
    fn format(
        &mut self,
        alloc: Global,
        sets: &[InterleaveSet],
        offset: u64,
        fuse: &mut Fuse,
        spec: &CreateSpec,
    ) -> Result<(), PowerCut>
        requires region { spec.now.region < length sets.now }
        requires place { CanLie (unwrap_or (slice_get sets.now spec.now.region) []) offset spec.now }
        requires ready { ready self.old sets.now }
        ensures formats { formats self.old self.new (unwrap_or (slice_get sets.now spec.now.region) []) offset spec.now fuse.old }
        ensures whole { is_ok result ≡ lasts fuse.old (format_count (layout_for spec.now)) }
        ensures left { fuse.new ≡ burnt fuse.old (format_count (layout_for spec.now)) };
}

/// The contents of all modules, by number: the arena's words are stored and flushed in them.
impl Formatter for Vec<CutWords> {
    ghost ready = { λ rows sets. AreSettled rows.items × AreUsable sets rows.items };

    ghost formats = { λ old new set offset spec fuse. IsFormattedIn (over set offset (share_of set spec.size)) (layout_for spec) spec.uuid old.items new.items
        fuse (burnt fuse (format_count (layout_for spec))) (lasts fuse (format_count (layout_for spec))) };

    fn format(
        &mut self,
        alloc: Global,
        sets: &[InterleaveSet],
        offset: u64,
        fuse: &mut Fuse,
        spec: &CreateSpec,
    ) -> Result<(), PowerCut> {
        let set = set_at(sets, spec.region);
        format_sectors(alloc, set, offset, self, fuse, spec)
    }
}

/// An arena whose format was begun.
#[derive(Clone, Copy, Debug)]
pub struct Begun {
    /// How far its namespace lies from the start of each mapping, in bytes.
    pub offset: u64,
    pub layout: Layout,
    /// How many steps of the format were made.
    pub steps: u64,
}

/// Counts the steps of a format. No word is written.
#[derive(Clone, Copy, Debug)]
pub struct Counted {
    /// The arena whose format was begun, if there is one.
    pub begun: Option<Begun>,
}

impl Counted {
    /// No format was begun.
    pub fn new() -> Counted
        ensures { result.begun ≡ None }
    {
        Counted { begun: None }
    }
}

/// A layout that is planned.
fn planned_layout(size: u64, sector: u32, lanes: u32) -> Layout
    requires { is_err (planned size sector lanes) ≡ false }
    ensures { result ≡ plan_of size sector lanes }
{
    match plan(size, sector, lanes) {
        Ok(layout) => layout,
        Err(_) => unreachable!(),
    }
}

/// The layout of the arena of a namespace of sectors, for which one is planned.
fn layout_for(spec: &CreateSpec) -> Layout
    requires sectors { has_sectors spec.now.make ≡ true }
    requires planned { has_no_plan spec.now.make spec.now.size ≡ false }
    ensures { result ≡ layout_for spec.now }
{
    match spec.make {
        Make::Sector { sector, lanes } => planned_layout(spec.size, sector, lanes),
        Make::Raw => unreachable!(),
    }
}

/// Takes so many steps of a fuse, or as many as it has, and returns how many.
fn burn(fuse: &mut Fuse, count: u64) -> u64
    ensures made { result ≡ steps_made fuse.old count }
    ensures left { fuse.new ≡ burnt fuse.old count }
{
    match fuse.left() {
        None => count,
        Some(left) => {
            let made = left.min(count);
            *fuse = Fuse::after(left - made);
            made
        }
    }
}

/// How many steps the format of an arena takes.
fn count_of(layout: &Layout) -> u64
    requires { IsLayout layout.now }
    ensures { result ≡ format_count layout.now }
{
    let map = (layout.flog_off - layout.map_off) / 8;
    let log = (layout.info_off - layout.flog_off) / 8;
    2 * (map + log + 1024)
}

impl Formatter for Counted {
    ghost ready = { λ _ _. ⊤ };

    ghost formats = { λ _ new set offset spec fuse. CanLie set offset spec
        × (new.begun ≡ Some (record { offset = offset; layout = layout_for spec; steps = steps_made fuse (format_count (layout_for spec)) })) };

    fn format(
        &mut self,
        _alloc: Global,
        _sets: &[InterleaveSet],
        offset: u64,
        fuse: &mut Fuse,
        spec: &CreateSpec,
    ) -> Result<(), PowerCut> {
        let layout = layout_for(spec);
        let count = count_of(&layout);
        let steps = burn(fuse, count);
        self.begun = Some(Begun {
            offset,
            layout,
            steps,
        });
        if steps == count {
            Ok(())
        } else {
            Err(PowerCut)
        }
    }
}
