//! The set is saved as it was loaded.
ghost use Rattle.std.specs.Prelude.{◌≡◌, IfOk, length, map};
ghost use Rattle.image_set.specs.Outline.{IsOutlineRest};
ghost use Rattle.namespace_areas.specs.Opening.{AreWhole};
ghost use Rattle.namespace_areas.specs.Seen.{words_of};
ghost use Rattle.shell_check.specs.Saving.{PrintsCopied};

use image_set::OutlineRest;
use namespace_areas::{Area, into_words};
use nvd_media::ListChooser;
use shell_changes::{Answer, Left, SavedSet};
use shell_reports::{Ending, Report};
use std::alloc::{AllocError, Global};

/// Answers with a report of a command that was carried out, and with the set as it was loaded, whose label areas are these.
///
/// No word of the label areas is pending. The call fails only if memory runs out.
pub(crate) fn copied_answer(
    alloc: Global,
    report: Report,
    rest: OutlineRest,
    areas: Vec<Area>,
) -> Result<Answer, AllocError>
    requires done { report.ending ≡ Ending.Done }
    requires rest { IsOutlineRest rest }
    requires count { length areas.items ≡ length rest.sizes }
    requires settled { AreWhole (map words_of areas.items) }
    ensures { IfOk result (PrintsCopied report.text.items rest (map words_of areas.items)) }
{
    let labels = into_words(alloc, areas)?;
    let mut chooser = ListChooser::new(Vec::new(alloc));
    let left = rest.leave_areas(alloc, labels, &mut chooser)?;
    Ok(Answer {
        report,
        saved: Some(SavedSet::new(Left::Copied(left))),
    })
}
