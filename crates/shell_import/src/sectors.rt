//! Bytes are put into a namespace of sectors, whose arenas are read from the source of the set.
ghost use Rattle.std.specs.Prelude.{◌≡◌, ◌≤◌, ℕ, List, IfOk, Err};
ghost use Rattle.std.specs.Option.{ForSome};
ghost use Rattle.nvd_media.specs.Causes.{Rose};
ghost use Rattle.image_set.specs.declared.outline.Outline.{Outline as OutlineRead};
ghost use Rattle.image_set.specs.Outline.{HasContents};
ghost use Rattle.namespace_bytes.specs.SectorPut.{AreSized};
ghost use Rattle.shell_import.specs.Beginning.{Fills, ImportsFrom, IsSectorImport};

use crate::import::length_answer;
use image_set::OutlineRest;
use interleave::InterleaveSet;
use namespace_areas::{Area, Found};
use namespace_bytes::{ArenaAt, NewBytes, SectorBytes, SetPatch, size_of_all};
use namespace_words::{ArenaRead, into_arenas, read_arenas_from};
use nvd_media::{Failed, ImageSource};
use nvd_words::Items;
use shell_changes::{Answer, in_memory, without_set};
use shell_reports::RunStop;
use shell_sectors::{patched_answer, unopened_answer};
use std::alloc::{AllocError, Global};
use uuid::Uuid;

/// A namespace of sectors that was found in a set, the other parts of the set, and the bytes for its sectors.
#[derive(Drop)]
pub(crate) struct SectorImport {
    /// The interleave set of its region.
    pub(crate) set: InterleaveSet,
    pub(crate) found: Found,
    /// The label areas of the set.
    pub(crate) areas: Vec<Area>,
    pub(crate) rest: OutlineRest,
    pub(crate) bytes: Vec<u8>,
}

impl SectorImport {
    /// Puts the bytes into the sectors of the namespace's arenas, if they have as many.
    fn fill(self, alloc: Global, arenas: Items<ArenaAt>) -> Result<Answer, AllocError>
        requires sized { AreSized arenas }
        requires found { (outline : OutlineRead) × ((uuid : List ℕ) × ((bytes : List ℕ) × IsSectorImport uuid bytes outline self)) }
        ensures { IfOk result (λ answer. (outline : OutlineRead) (uuid bytes : List ℕ) → IsSectorImport uuid bytes outline self → Fills uuid bytes outline self arenas answer) }
    {
        let SectorImport {
            set,
            found,
            areas,
            rest,
            bytes,
        } = self;
        let had = size_of_all(arenas.as_slice());
        if bytes.len() as u64 != had {
            return Ok(without_set(length_answer(alloc, bytes.len(), had)?));
        }
        let put = NewBytes::Sectors(SectorBytes::of(alloc, arenas, bytes)?);
        let patch = SetPatch::one(alloc, set, found.offset, found.raw, put)?;
        patched_answer(alloc, patch, rest, areas)
    }

    /// Puts the bytes into the sectors of arenas that were read, if they have as many.
    fn fill_read(self, alloc: Global, arenas: Items<ArenaRead>) -> Result<Answer, AllocError>
        requires sized { AreSized arenas }
        requires found { (outline : OutlineRead) × ((uuid : List ℕ) × ((bytes : List ℕ) × IsSectorImport uuid bytes outline self)) }
        ensures { IfOk result (λ answer. (outline : OutlineRead) (uuid bytes : List ℕ) → IsSectorImport uuid bytes outline self → Fills uuid bytes outline self arenas answer) }
    {
        let arenas = into_arenas(alloc, arenas)?;
        self.fill(alloc, arenas)
    }

    /// Reads the arenas from the source, and puts the bytes into their sectors, if these have as many. It answers, of these, the
    /// first that holds: an arena violates the format; the lengths differ; `ok`.
    pub(crate) fn answer<S: ImageSource>(
        self,
        alloc: Global,
        uuid: &Uuid,
        images: &mut S,
    ) -> Result<Answer, RunStop>
        requires found { (outline : OutlineRead) × ((bytes : List ℕ) × IsSectorImport uuid.now bytes outline self) }
        requires there { ForSome (S.held images.old) (HasContents self.rest.sizes) }
        ensures imports { IfOk result (λ answer. (outline : OutlineRead) (bytes : List ℕ) → IsSectorImport uuid.now bytes outline self → ImportsFrom (S.held images.old) uuid.now bytes outline answer) }
        ensures same { S.held images.new ≡ S.held images.old }
        ensures failed { result ≡ Err RunStop.ReadFault → Rose (S.faults images.old) (S.faults images.new) }
        ensures later { S.faults images.old ≤ S.faults images.new }
    {
        match read_arenas_from(
            alloc,
            images,
            &self.set,
            self.found.offset,
            self.found.raw,
            uuid,
        ) {
            Ok(Ok(arenas)) => in_memory(self.fill_read(alloc, arenas)),
            Ok(Err(refused)) => in_memory(unopened_answer(alloc, uuid, refused)),
            Err(Failed) => Err(RunStop::ReadFault),
        }
    }
}
