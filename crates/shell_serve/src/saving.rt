//! The set after sessions, with the words of the arenas that they opened.
ghost use Rattle.std.specs.Prelude.{◌≡◌, IfOk, length};
ghost use Rattle.image_set.specs.Outline.{IsOutlineRest};
ghost use Rattle.shell_changes.specs.Saved.{AreWholeSizes};
ghost use Rattle.shell_serve.specs.Saving.{LeavesOn, SavesLeft};

use image_set::OutlineRest;
use namespace_areas::{Area, into_words};
use namespace_bytes::SetPatch;
use nvd_media::Chooser;
use shell_changes::{Answer, Left, SavedSet};
use shell_reports::Report;
use std::alloc::{AllocError, Global};

/// Answers with a report, and with the set that has these label areas, as a power cut leaves them, and whose contents are copied and
/// patched.
///
/// The chooser is asked for each pending word of the label areas. The call fails only if memory runs out.
pub(crate) fn left_answer<C: Chooser>(
    alloc: Global,
    report: Report,
    areas: Vec<Area>,
    rest: OutlineRest,
    patch: SetPatch,
    choose: &mut C,
) -> Result<Answer, AllocError>
    requires rest { IsOutlineRest rest }
    requires sizes { AreWholeSizes rest.sizes }
    requires count { length areas.items ≡ length rest.sizes }
    ensures { IfOk result (SavesLeft (LeavesOn C.picks choose.old) report areas.items rest patch) }
{
    let labels = into_words(alloc, areas)?;
    let left = rest.leave_areas(alloc, labels, choose)?;
    Ok(Answer {
        report,
        saved: Some(SavedSet::new(Left::Patched(left, patch))),
    })
}
