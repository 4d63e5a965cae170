//! The words of arenas, as a patch that puts them into contents while these are copied.
ghost use Rattle.std.specs.Prelude.{◌≡◌, ℕ, ◌^◌, ◌<◌, ◌≤◌, IfOk, List, length};
ghost use Rattle.image_set.specs.Patches.{patched_contents};
ghost use Rattle.namespace_bytes.specs.Patching.{AreWhole, all_patched};
ghost use Rattle.sector_namespaces.specs.View.{rows_of};
ghost use Rattle.served_namespaces.specs.declared.places.OpenedNamespace.{OpenedNamespace as Opened};
ghost use Rattle.served_namespaces.specs.Putting.{total_of};
ghost use Rattle.served_namespaces.specs.Reading.{AreHeld};
ghost use Rattle.served_namespaces.specs.Serving.{AreLeft};
ghost use Rattle.served_namespaces.specs.Steps.{ArePartRuns, IsPartOf, IsReady, ReachAll};

use crate::places::FoundNamespace;
use crate::sets::know_sets;
use interleave::InterleaveSet;
use namespace_bytes::{NamespacePatch, NewBytes, Run, SetPatch};
use namespace_words::words_run;
use nvd_words::Items;
use std::alloc::{AllocError, Global};

/// Returns the runs of bytes that put parts one behind another, from the namespace's first byte on. Each part is dropped once it is
/// a run.
fn parts_runs(alloc: Global, parts: Items<Items<u64>>) -> Result<Items<Run>, AllocError>
    requires { total_of parts ≤ 2 ^ 52 }
    ensures { IfOk result (ArePartRuns 0 parts) }
{
    let mut runs = Items::new(alloc);
    let mut at = 0;
    for part in parts.into_vec() {
        let count = part.len() as u64;
        runs.push(words_run(alloc, at, part.into_vec())?)?;
        at += count;
    }
    Ok(runs)
}

/// Returns the new bytes of a namespace that begins with these parts.
fn part_of(
    alloc: Global,
    place: &FoundNamespace,
    parts: Items<Items<u64>>,
) -> Result<NamespacePatch, AllocError>
    requires { total_of parts ≤ 2 ^ 52 }
    ensures { IfOk result (IsPartOf place.now parts) }
{
    let runs = parts_runs(alloc, parts)?;
    Ok(NamespacePatch {
        region: place.found.region,
        offset: place.found.offset,
        raw: place.found.raw,
        bytes: NewBytes::Runs(runs),
    })
}

/// Returns the patch that puts the words of all arenas of namespaces that are open back.
///
/// `places` are those of the namespaces, which `load_each` opened, and `sets` all interleave sets. `words` has for each namespace, in
/// order, the words of each of its arenas, in order. They must open wherever the arena's own words
/// did (`ArenaFits`); a power cut behind sessions leaves such words. They are dropped.
///
/// In contents that hold the arenas of these namespaces, each begins with its words then, one arena behind another, and opens in its
/// place as arenas with the same info, which are what opening finds in these words (`IsOpenedFrom`). No word that isn't an arena's
/// changes (`AreLeft`). The call fails only if memory runs out.
pub fn patch_of(
    alloc: Global,
    sets: Items<InterleaveSet>,
    places: &[FoundNamespace],
    words: Vec<Items<Items<u64>>>,
) -> Result<SetPatch, AllocError>
    requires { (opened : List Opened) × IsReady sets places.now opened words.items }
    ensures { IfOk result (λ patch. (opened : List Opened) (contents : List (List ℕ)) → IsReady sets places.now opened words.items → AreHeld sets (rows_of contents) opened → AreWhole contents → ReachAll sets contents
        → AreLeft sets (rows_of contents) opened words.items (rows_of (patched_contents (all_patched patch) contents))) }
{
    know_sets(sets.as_slice());
    let mut each = Items::new(alloc);
    for parts in words {
        let place = &places[each.len()];
        each.push(part_of(alloc, place, parts)?)?;
    }
    Ok(SetPatch::new(sets, each))
}
