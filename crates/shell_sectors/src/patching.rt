//! How a command ends that puts new bytes into namespaces while the contents of a set are copied.
ghost use Rattle.std.specs.Prelude.{◌≡◌, ◌≢◌, ◌<◌, ℕ, List, IfOk, None, length, map};
ghost use Rattle.arena_open.specs.declared.refused.OpenRefused.TheVariants as open_refused;
ghost use Rattle.image_set.specs.Outline.{IsOutlineRest};
ghost use Rattle.namespace_areas.specs.Finding.{set_at};
ghost use Rattle.namespace_areas.specs.Opening.{AreWhole};
ghost use Rattle.namespace_areas.specs.Seen.{words_of};
ghost use Rattle.sector_namespaces.specs.Changing.{IsFinding};
ghost use Rattle.shell_changes.specs.Answers.{outcome_with};
ghost use Rattle.shell_changes.specs.Saved.{AreWholeSizes};
ghost use Rattle.shell_reports.specs.Faults.{arena_outcome};
ghost use Rattle.shell_sectors.specs.Patched.{PrintsPatched, SavesPatched};

use arena_open::ChainRefused;
use image_set::OutlineRest;
use interleave::InterleaveSet;
use namespace_areas::{Area, into_words};
use namespace_bytes::SetPatch;
use nvd_media::ListChooser;
use nvd_words::Items;
use shell_changes::{Answer, Left, SavedSet, without_set};
use shell_reports::{Ending, Report, arena_answer, done_answer};
use std::alloc::{AllocError, Global};
use uuid::Uuid;

/// Takes the interleave set of a region out of all, which are dropped. The region must exist.
pub fn set_of(sets: Items<InterleaveSet>, region: u32) -> InterleaveSet
    requires { region < length sets }
    ensures { result ≡ set_at sets region }
{
    let mut sets = sets.into_vec();
    sets.swap_remove(region as usize)
}

/// Answers with a report of a command that was carried out, and with a set whose label areas are these and whose contents are
/// copied and patched.
///
/// No word of the label areas is pending. The call fails only if memory runs out.
pub fn printed_patched(
    alloc: Global,
    report: Report,
    patch: SetPatch,
    rest: OutlineRest,
    areas: Vec<Area>,
) -> Result<Answer, AllocError>
    requires done { report.ending ≡ Ending.Done }
    requires rest { IsOutlineRest rest }
    requires count { length areas.items ≡ length rest.sizes }
    requires sizes { AreWholeSizes rest.sizes }
    requires settled { AreWhole (map words_of areas.items) }
    ensures { IfOk result (PrintsPatched report.text.items patch rest (map words_of areas.items)) }
{
    let labels = into_words(alloc, areas)?;
    let mut chooser = ListChooser::new(Vec::new(alloc));
    let left = rest.leave_areas(alloc, labels, &mut chooser)?;
    Ok(Answer {
        report,
        saved: Some(SavedSet::new(Left::Patched(left, patch))),
    })
}

/// Answers with `ok` and with a set whose label areas are these and whose contents are copied and patched.
///
/// No word of the label areas is pending. The call fails only if memory runs out.
pub fn patched_answer(
    alloc: Global,
    patch: SetPatch,
    rest: OutlineRest,
    areas: Vec<Area>,
) -> Result<Answer, AllocError>
    requires rest { IsOutlineRest rest }
    requires count { length areas.items ≡ length rest.sizes }
    requires sizes { AreWholeSizes rest.sizes }
    requires settled { AreWhole (map words_of areas.items) }
    ensures { IfOk result (SavesPatched patch rest (map words_of areas.items)) }
{
    let report = done_answer(alloc)?;
    printed_patched(alloc, report, patch, rest, areas)
}

/// Answers that a namespace isn't changed, since one of its arenas isn't opened. Power wasn't cut. The call fails only if memory
/// runs out.
pub fn unopened_answer(
    alloc: Global,
    uuid: &Uuid,
    refused: ChainRefused,
) -> Result<Answer, AllocError>
    requires { refused.fault ≢ open_refused.PowerCut }
    ensures text { IfOk result (λ answer. (contents : List (List ℕ)) → outcome_with answer contents ≡ arena_outcome uuid.now refused) }
    ensures saved { IfOk result (λ answer. answer.saved ≡ None) }
    ensures finding { IfOk result (λ _. IsFinding refused) }
{
    Ok(without_set(arena_answer(alloc, uuid, refused)?))
}
