//! How `import` begins, by the labels of a set that was loaded without its contents.
ghost use Rattle.std.specs.Prelude.{◌≡◌, ◌%◌, ◌<◌, ℕ, List, IfOk, length, map};
ghost use Rattle.image_set.specs.declared.outline.Outline.{Outline as OutlineRead};
ghost use Rattle.image_set.specs.Outline.{IsLoadable, IsOutlineRest, IsOutlined};
ghost use Rattle.interleave.specs.Places.{unit_of};
ghost use Rattle.namespace_areas.specs.Finding.{LiesInSet, set_at};
ghost use Rattle.namespace_areas.specs.Opening.{AreWhole};
ghost use Rattle.namespace_areas.specs.Seen.{words_of};
ghost use Rattle.shell_changes.specs.Saved.{AreWholeSizes};
ghost use Rattle.shell_sectors.specs.Opening.{IsOpenOutline};
ghost use Rattle.shell_import.specs.Beginning.{Begins, IsPlacedOn, PutsRaw};

use crate::import::length_answer;
use crate::sectors::SectorImport;
use image_set::{Outline, OutlineRest};
use namespace_areas::Found;
use namespace_bytes::{NewBytes, SetPatch};
use namespace_ops::Registry;
use nvd_words::Items;
use shell_changes::{Answer, without_set};
use shell_export::{find_place, is_sector};
use shell_reports::op_refused_answer;
use shell_sectors::{OutlineOpened, open_outline, patched_answer, set_of};
use std::alloc::{AllocError, Global};
use uuid::Uuid;

/// How `import` begins on a set that was loaded without its contents.
#[derive(Drop)]
pub(crate) enum Begun {
    /// It is refused; or a raw namespace gets the bytes while the contents of the set are copied.
    Done(Answer),
    /// The namespace is one of sectors, whose arenas are needed.
    Sectors(SectorImport),
}

/// Puts bytes into a raw namespace, if it has as many.
fn raw_answer(
    alloc: Global,
    found: &Found,
    registry: Registry,
    rest: OutlineRest,
    bytes: Vec<u8>,
) -> Result<Answer, AllocError>
    requires lies { LiesInSet registry.sets found.now }
    requires rest { IsOutlineRest rest }
    requires count { length registry.areas ≡ length rest.sizes }
    requires sizes { AreWholeSizes rest.sizes }
    requires settled { AreWhole (map words_of registry.areas) }
    ensures puts { IfOk result (PutsRaw registry found.now rest bytes.items) }
    ensures eights { unit_of (set_at registry.sets found.now.region) % 8 ≡ 0 }
{
    let (sets, areas) = registry.into_parts();
    let set = set_of(sets, found.region);
    let _unit = set.unit();
    let _span = set.span();
    let had = u64::from(set.ways()) * found.raw;
    if bytes.len() as u64 != had {
        return Ok(without_set(length_answer(alloc, bytes.len(), had)?));
    }
    let bytes = NewBytes::Raw(Items::from_vec(bytes));
    let patch = SetPatch::one(alloc, set, found.offset, found.raw, bytes)?;
    patched_answer(alloc, patch, rest, areas)
}

/// Begins on a namespace that was found.
fn begin_found(
    alloc: Global,
    found: Found,
    registry: Registry,
    rest: OutlineRest,
    bytes: Vec<u8>,
) -> Result<Begun, AllocError>
    requires { (outline : OutlineRead) × (uuid : List ℕ) × IsPlacedOn outline uuid found registry rest }
    ensures { IfOk result (λ begun. (outline : OutlineRead) (uuid : List ℕ) → IsPlacedOn outline uuid found registry rest → Begins uuid bytes.items outline begun) }
{
    if is_sector(&found.mode) {
        let (sets, areas) = registry.into_parts();
        let set = set_of(sets, found.region);
        return Ok(Begun::Sectors(SectorImport {
            set,
            found,
            areas,
            rest,
            bytes,
        }));
    }
    Ok(Begun::Done(raw_answer(alloc, &found, registry, rest, bytes)?))
}

/// Begins on a set whose labels are read: the namespace is found by them.
fn begin_named(
    alloc: Global,
    uuid: &Uuid,
    registry: Registry,
    rest: OutlineRest,
    bytes: Vec<u8>,
) -> Result<Begun, AllocError>
    requires { (outline : OutlineRead) × IsOpenOutline outline registry rest }
    ensures { IfOk result (λ begun. (outline : OutlineRead) → IsOpenOutline outline registry rest → Begins uuid.now bytes.items outline begun) }
{
    match find_place(alloc, &registry, uuid)? {
        Ok(found) => begin_found(alloc, found, registry, rest, bytes),
        Err(refused) => {
            let report = op_refused_answer(alloc, refused)?;
            Ok(Begun::Done(without_set(report)))
        }
    }
}

/// Begins `import` on a set that was loaded without its contents, which can be read later.
///
/// - `Done`: the answer is what `import` comes to, whatever contents of these sizes the set has. It is a refusal; or `ok` and
///   a set of which a raw namespace gets the bytes, by place, while the contents are copied. Everything outside the
///   namespace's extents is saved as it is. Nothing but the bytes is in memory.
/// - `Sectors`: the namespace is found, and is one of sectors. `import_answer` goes on with its arenas.
///
/// The refusals are those of `import_answer`, in the same order. The call fails only if memory runs out.
pub(crate) fn begin_import(
    alloc: Global,
    uuid: &Uuid,
    outline: Outline,
    bytes: Vec<u8>,
) -> Result<Begun, AllocError>
    requires sound { IsOutlined outline }
    requires loadable { IsLoadable outline }
    ensures { IfOk result (Begins uuid.now bytes.items outline) }
{
    let opened = open_outline(alloc, outline)?;
    match opened {
        OutlineOpened::Done(registry, rest) => begin_named(alloc, uuid, registry, rest, bytes),
        OutlineOpened::Not(report) => Ok(Begun::Done(without_set(report))),
    }
}
