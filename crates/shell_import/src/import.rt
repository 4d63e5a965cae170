//! The command `import`: bytes become the contents of a whole namespace.
ghost use Rattle.std.specs.Prelude.{◌≡◌, ◌≤◌, IfOk, Err};
ghost use Rattle.std.specs.Option.{ForSome};
ghost use Rattle.nvd_media.specs.Causes.{Rose};
ghost use Rattle.image_set.specs.Outline.{HasContents, IsLoadable, IsOutlined};
ghost use Rattle.shell_reports.specs.Faults.{refused_outcome};
ghost use Rattle.shell_reports.specs.Saved.{outcome_of};
ghost use Rattle.shell_sectors.specs.Write.{length_text};
ghost use Rattle.shell_import.specs.Beginning.{ImportsFrom};

use crate::beginning::{Begun, begin_import};
use image_set::Outline;
use nvd_media::ImageSource;
use shell_changes::Answer;
use shell_reports::{Report, RunStop, refused_answer};
use std::alloc::{AllocError, Global};
use uuid::Uuid;

/// The answer to `said` bytes for a namespace of `had`.
pub(crate) fn length_answer(alloc: Global, said: usize, had: u64) -> Result<Report, AllocError>
    ensures { IfOk result (λ report. outcome_of report ≡ refused_outcome (length_text said had)) }
{
    refused_answer(alloc, &format!(in alloc; "Length {} {}", said, had)?)
}

/// Answers `import` on an image set that was loaded without its contents: `ok`, and the set in which the namespace has these
/// bytes; or the first region that isn't an interleave set, or the first two UUIDs with overlapping extents; or why the namespace
/// isn't found; or the first of its arenas that violates the format; or `Length` with the lengths of the bytes and of the
/// namespace, if they differ.
///
/// A raw namespace gets the bytes by place. One of sectors gets them sector by sector: each goes into its sector's block, and
/// its map entry becomes a normal one. All pending moves of the namespace's arenas are made by this. Free blocks, the log,
/// info blocks, words behind the arenas, label areas and contents outside the namespace's extents are saved as they are.
/// After a refusal nothing is saved.
///
/// Beside the bytes only the arenas' maps are in memory: they are read from the source, of which everything else is read only
/// as the set is saved. `imports` speaks of the contents that the source has, as far as it reveals them. `failed`: `ReadFault`
/// means that the source's count of failures rose in this call.
pub fn import_answer<S: ImageSource>(
    alloc: Global,
    uuid: &Uuid,
    outline: Outline,
    bytes: Vec<u8>,
    images: &mut S,
) -> Result<Answer, RunStop>
    requires sound { IsOutlined outline }
    requires loadable { IsLoadable outline }
    requires there { ForSome (S.held images.old) (HasContents outline.sizes) }
    ensures imports { IfOk result (ImportsFrom (S.held images.old) uuid.now bytes.items outline) }
    ensures same { S.held images.new ≡ S.held images.old }
    ensures failed { result ≡ Err RunStop.ReadFault → Rose (S.faults images.old) (S.faults images.new) }
    ensures later { S.faults images.old ≤ S.faults images.new }
{
    match begin_import(alloc, uuid, outline, bytes) {
        Ok(Begun::Done(answer)) => Ok(answer),
        Ok(Begun::Sectors(import)) => import.answer(alloc, uuid, images),
        Err(_) => Err(RunStop::OutOfMemory),
    }
}
