//! The command `write`: one sector of a namespace.
ghost use Rattle.std.specs.Prelude.{◌≡◌, ◌≢◌, ℕ, ◌<◌, ◌≤◌, ◌++◌, List, IfOk, Ok, Err, None};
ghost use Rattle.std.specs.Option.{ForSome};
ghost use Rattle.nvd_media.specs.Causes.{Rose};
ghost use Rattle.arena_open.specs.InPlace.{LiesInLink};
ghost use Rattle.image_set.specs.declared.outline.Outline.{Outline as OutlineRead};
ghost use Rattle.image_set.specs.Outline.{HasContents, IsLoadable, IsOutlined};
ghost use Rattle.namespace_areas.specs.Finding.{LiesInSet, set_at};
ghost use Rattle.namespace_bytes.specs.SectorPut.{AreSized, HasBlocks};
ghost use Rattle.namespace_map.specs.declared.refused.OpRefused.TheVariants as op_refused;
ghost use Rattle.namespace_words.specs.Moves.{move_runs};
ghost use Rattle.shell_changes.specs.Answers.{outcome_with};
ghost use Rattle.shell_reports.specs.Faults.{refusal_text, refused_outcome};
ghost use Rattle.shell_reports.specs.Saved.{outcome_of};
ghost use Rattle.shell_sectors.specs.LoneRuns.{lone_runs};
ghost use Rattle.shell_sectors.specs.Opening.{IsOpenOutline};
ghost use Rattle.shell_sectors.specs.Write.{length_text};
ghost use Rattle.shell_sectors.specs.Writing.{IsSectorPlace, SavesRuns, WritesFrom, WritesWith};

use crate::lone::push_write;
use crate::opening::{OutlineOpened, open_outline};
use crate::patching::{printed_patched, set_of, unopened_answer};
use crate::value::{bytes_for, length_for};
use image_set::{Outline, OutlineRest};
use interleave::InterleaveSet;
use namespace_areas::{Area, Found};
use namespace_bytes::{NewBytes, Run, SetPatch};
use namespace_map::OpRefused;
use namespace_ops::Registry;
use namespace_words::{ArenaRead, arena_at, locate, move_runs, read_arenas_from, sectors_of_all};
use nvd_media::{Failed, ImageSource};
use nvd_words::Items;
use session_script::Payload;
use shell_changes::{Answer, in_memory, without_set};
use shell_reports::{
    Ending, Report, RunStop, done_answer, op_refused_answer, range_answer, refused_answer,
};
use std::alloc::{AllocError, Global};
use uuid::Uuid;

/// A sector namespace that was found by labels, and the other parts of the set.
#[derive(Drop)]
pub struct SectorPlace {
    /// The interleave set of its region.
    pub set: InterleaveSet,
    pub found: Found,
    /// The label areas of the set.
    pub areas: Vec<Area>,
    pub rest: OutlineRest,
}

/// The answer to a value of `said` bytes for a sector of `had`.
fn length_answer(alloc: Global, said: usize, had: u32) -> Result<Report, AllocError>
    ensures { IfOk result (λ report. outcome_of report ≡ refused_outcome (length_text said had)) }
{
    refused_answer(alloc, &format!(in alloc; "Length {} {}", said, had)?)
}

/// The answer that nothing is changed, since the namespace isn't found. Power wasn't cut. The call fails only if memory runs out.
pub fn unfound_answer(alloc: Global, refused: OpRefused) -> Result<Answer, AllocError>
    requires { refused ≢ op_refused.PowerCut }
    ensures text { IfOk result (λ answer. (contents : List (List ℕ)) → outcome_with answer contents ≡ refused_outcome (refusal_text refused)) }
    ensures saved { IfOk result (λ answer. answer.saved ≡ None) }
{
    Ok(without_set(op_refused_answer(alloc, refused)?))
}

/// Returns the runs of all pending moves, and then those of a write of sector `own` of an arena.
fn write_runs(
    alloc: Global,
    arenas: &[ArenaRead],
    arena: &ArenaRead,
    own: u32,
    value: Vec<u8>,
) -> Result<Items<Run>, AllocError>
    requires sized { AreSized arenas.now }
    requires arena { HasBlocks arena.now }
    requires own { own < arena.now.opened.info.layout.external }
    ensures { IfOk result (λ runs. runs ≡ move_runs arenas.now ++ lone_runs arena.now own value.items) }
{
    let mut runs = move_runs(alloc, arenas)?;
    push_write(alloc, arena, own, value, &mut runs)?;
    Ok(Items::from_vec(runs))
}

impl SectorPlace {
    /// Answers with a report of a command that was carried out, and with the set in which the namespace has these runs. The call
    /// fails only if memory runs out.
    pub fn save(self, alloc: Global, report: Report, runs: Items<Run>) -> Result<Answer, AllocError>
        requires done { report.ending ≡ Ending.Done }
        requires found { (outline : OutlineRead) × ((uuid : List ℕ) × IsSectorPlace uuid outline self) }
        ensures { IfOk result (λ answer. (outline : OutlineRead) (uuid : List ℕ) (it : IsSectorPlace uuid outline self) → SavesRuns report.text.items it.registry self runs answer) }
    {
        let SectorPlace {
            set,
            found,
            areas,
            rest,
        } = self;
        let bytes = NewBytes::Runs(runs);
        let patch = SetPatch::one(alloc, set, found.offset, found.raw, bytes)?;
        printed_patched(alloc, report, patch, rest, areas)
    }

    /// Writes sector `at.1` of arena `at.0`, if the value has the sector's length.
    fn write_at(
        self,
        alloc: Global,
        arenas: &[ArenaRead],
        at: (usize, u32),
        value: Payload,
    ) -> Result<Answer, AllocError>
        requires sized { AreSized arenas.now }
        requires lies { (sector : ℕ) × LiesInLink arenas.now sector at.0 at.1 }
        requires found { (outline : OutlineRead) × ((uuid : List ℕ) × IsSectorPlace uuid outline self) }
        ensures { IfOk result (λ answer. (outline : OutlineRead) (uuid : List ℕ) (sector : ℕ) → IsSectorPlace uuid outline self → LiesInLink arenas.now sector at.0 at.1 → WritesWith uuid sector value outline self arenas.now answer) }
    {
        let arena = arena_at(arenas, at.0);
        let had = arena.parts().info.layout.sector;
        let said = length_for(had, &value);
        if said != had as usize {
            return Ok(without_set(length_answer(alloc, said, had)?));
        }
        let bytes = bytes_for(alloc, had, value)?;
        let runs = write_runs(alloc, arenas, arena, at.1, bytes)?;
        let report = done_answer(alloc)?;
        self.save(alloc, report, runs)
    }

    /// Writes a sector of arenas that were read, if it exists.
    fn write_in(
        self,
        alloc: Global,
        arenas: &[ArenaRead],
        sector: u64,
        value: Payload,
    ) -> Result<Answer, AllocError>
        requires sized { AreSized arenas.now }
        requires found { (outline : OutlineRead) × ((uuid : List ℕ) × IsSectorPlace uuid outline self) }
        ensures { IfOk result (λ answer. (outline : OutlineRead) (uuid : List ℕ) → IsSectorPlace uuid outline self → WritesWith uuid sector value outline self arenas.now answer) }
    {
        match locate(arenas, sector) {
            Some(at) => self.write_at(alloc, arenas, at, value),
            None => Ok(without_set(range_answer(alloc, sectors_of_all(arenas))?)),
        }
    }

    /// Reads the arenas from the source, and writes one of their sectors. It answers, of these, the first that holds: an arena
    /// violates the format; no such sector; the lengths differ; `ok`.
    fn write<S: ImageSource>(
        self,
        alloc: Global,
        uuid: &Uuid,
        sector: u64,
        value: Payload,
        images: &mut S,
    ) -> Result<Answer, RunStop>
        requires found { (outline : OutlineRead) × IsSectorPlace uuid.now outline self }
        requires there { ForSome (S.held images.old) (HasContents self.rest.sizes) }
        ensures writes { IfOk result (λ answer. (outline : OutlineRead) → IsSectorPlace uuid.now outline self → WritesFrom (S.held images.old) uuid.now sector value outline answer) }
        ensures same { S.held images.new ≡ S.held images.old }
        ensures failed { result ≡ Err RunStop.ReadFault → Rose (S.faults images.old) (S.faults images.new) }
        ensures later { S.faults images.old ≤ S.faults images.new }
    {
        match read_arenas_from(
            alloc,
            images,
            &self.set,
            self.found.offset,
            self.found.raw,
            uuid,
        ) {
            Ok(Ok(arenas)) => in_memory(self.write_in(alloc, arenas.as_slice(), sector, value)),
            Ok(Err(refused)) => in_memory(unopened_answer(alloc, uuid, refused)),
            Err(Failed) => Err(RunStop::ReadFault),
        }
    }
}

/// Takes the set of a namespace that was found, and the other parts of an outline. The namespace lies in its region's set.
pub fn place_in(found: Found, registry: Registry, rest: OutlineRest) -> SectorPlace
    requires { LiesInSet registry.sets found }
    ensures set { result.set ≡ set_at registry.sets found.region }
    ensures found { result.found ≡ found }
    ensures areas { result.areas.items ≡ registry.areas }
    ensures rest { result.rest ≡ rest }
{
    let (sets, areas) = registry.into_parts();
    let set = set_of(sets, found.region);
    SectorPlace {
        set,
        found,
        areas,
        rest,
    }
}

/// Finds a namespace on a set whose labels are read, and writes one of its sectors.
fn write_named<S: ImageSource>(
    alloc: Global,
    uuid: &Uuid,
    call: (u64, Payload),
    registry: Registry,
    rest: OutlineRest,
    images: &mut S,
) -> Result<Answer, RunStop>
    requires open { (outline : OutlineRead) × IsOpenOutline outline registry rest }
    requires there { ForSome (S.held images.old) (HasContents rest.sizes) }
    ensures writes { IfOk result (λ answer. (outline : OutlineRead) → IsOpenOutline outline registry rest → WritesFrom (S.held images.old) uuid.now call.0 call.1 outline answer) }
    ensures same { S.held images.new ≡ S.held images.old }
    ensures failed { result ≡ Err RunStop.ReadFault → Rose (S.faults images.old) (S.faults images.new) }
    ensures later { S.faults images.old ≤ S.faults images.new }
{
    let (sector, value) = call;
    match registry.find(uuid) {
        Ok(found) => {
            let place = place_in(found, registry, rest);
            place.write(alloc, uuid, sector, value, images)
        }
        Err(refused) => in_memory(unfound_answer(alloc, refused)),
    }
}

/// Answers `write` on an image set that was loaded without its contents: `ok`, and the set in which the sector has the value; or
/// the first region that isn't an interleave set, or the first two UUIDs with overlapping extents; or why the namespace isn't
/// found; or the first of its arenas that violates the format; or `Range` with the number of sectors of all its arenas, if it has
/// no such sector; or `Length` with the lengths of the value and of the sector in bytes, if they differ.
///
/// The write goes through the log of the sector's arena, as a driver makes it. The pending moves of all arenas of the namespace
/// are completed first. Label areas, contents outside the namespace's extents, and its words behind its arenas are saved as they
/// are. After a refusal nothing is saved.
///
/// Of the contents only the arenas' info blocks, logs and maps are read, and only these and the value are in memory. Everything
/// else is read as the set is saved, and the bytes that the write changes are put in then. `writes` speaks of the contents that
/// the source has, as far as it reveals them. `failed`: `ReadFault` means that the source's count of failures rose in this call.
pub fn write_answer<S: ImageSource>(
    alloc: Global,
    uuid: &Uuid,
    sector: u64,
    value: Payload,
    outline: Outline,
    images: &mut S,
) -> Result<Answer, RunStop>
    requires sound { IsOutlined outline }
    requires loadable { IsLoadable outline }
    requires there { ForSome (S.held images.old) (HasContents outline.sizes) }
    ensures writes { IfOk result (WritesFrom (S.held images.old) uuid.now sector value outline) }
    ensures same { S.held images.new ≡ S.held images.old }
    ensures failed { result ≡ Err RunStop.ReadFault → Rose (S.faults images.old) (S.faults images.new) }
    ensures later { S.faults images.old ≤ S.faults images.new }
{
    match open_outline(alloc, outline) {
        Ok(OutlineOpened::Done(registry, rest)) => {
            write_named(alloc, uuid, (sector, value), registry, rest, images)
        }
        Ok(OutlineOpened::Not(report)) => Ok(without_set(report)),
        Err(_) => Err(RunStop::OutOfMemory),
    }
}
