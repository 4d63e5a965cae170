//! The command `read`: one sector of a namespace.
ghost use Rattle.std.specs.Prelude.{◌≡◌, ◌<◌, ◌≤◌, IfOk, Err, slice_index_or, sum_by};
ghost use Rattle.std.specs.Option.{ForSome};
ghost use Rattle.nvd_media.specs.Causes.{Rose};
ghost use Rattle.image_set.specs.Outline.{HasContents, IsLoadable, IsOutlined};
ghost use Rattle.arena_open.specs.declared.cell.Cell.TheVariants as cell;
ghost use Rattle.arena_open.specs.ChainCells.{contents_of};
ghost use Rattle.arena_open.specs.InPlace.{external_in};
ghost use Rattle.power_cut.specs.Namespace.{raw_bytes};
ghost use Rattle.namespace_bytes.specs.SectorPut.{AreSized};
ghost use Rattle.namespace_words.specs.Source.{AreWithin, HasEnds};
ghost use Rattle.session_script.specs.Texts.{cell_text};
ghost use Rattle.shell_reports.specs.Outcome.{printed};
ghost use Rattle.shell_reports.specs.Saved.{outcome_of};
ghost use Rattle.shell_reports.specs.Sectors.{read_outcome, sector_outcome};
ghost use Rattle.shell_sectors.specs.Asked.{AnswersOn};
ghost use Rattle.shell_sectors.specs.Opening.{PrintsFrom};

use crate::asking::{Ask, reported, set_answer};
use arena_open::Cell;
use image_set::Outline;
use namespace_words::{ArenaRead, read_cell, sectors_of_all};
use nvd_media::{Failed, ImageSource};
use power_cut::SetExtent;
use session_script::add_cell;
use shell_reports::{Report, RunStop, printed_answer, range_answer};
use std::alloc::{AllocError, Global};
use uuid::Uuid;

/// Answers with the line of a cell.
fn cell_answer(alloc: Global, cell: &Cell) -> Result<Report, AllocError>
    ensures { IfOk result (λ answer. outcome_of answer ≡ printed (cell_text cell.now)) }
{
    let mut text = Vec::new(alloc);
    add_cell(alloc, cell, &mut text)?;
    Ok(printed_answer(text))
}

/// Reads a sector that the arenas have, and answers with its line.
fn line_answer<S: ImageSource>(
    alloc: Global,
    images: &mut S,
    extent: &SetExtent<'_>,
    arenas: &[ArenaRead],
    sector: u64,
) -> Result<Report, RunStop>
    requires sized { AreSized arenas.now }
    requires within { AreWithin (raw_bytes extent.now) arenas.now }
    requires sector { sector < sum_by external_in arenas.now }
    requires there { HasEnds (S.held images.old) extent.now.set }
    ensures told { IfOk result (AnswersOn (λ states. printed (cell_text (slice_index_or (contents_of states) sector cell.Bad))) (S.held images.old) extent.now arenas.now) }
    ensures same { S.held images.new ≡ S.held images.old }
    ensures failed { result ≡ Err RunStop.ReadFault → Rose (S.faults images.old) (S.faults images.new) }
    ensures later { S.faults images.old ≤ S.faults images.new }
{
    match read_cell(alloc, images, extent, arenas, sector) {
        Ok(Ok(cell)) => reported(cell_answer(alloc, &cell)),
        Ok(Err(_)) => Err(RunStop::OutOfMemory),
        Err(Failed) => Err(RunStop::ReadFault),
    }
}

/// Answers with a sector of a namespace, or that its arenas don't have it.
pub(crate) fn sector_answer<S: ImageSource>(
    alloc: Global,
    images: &mut S,
    extent: &SetExtent<'_>,
    arenas: &[ArenaRead],
    sector: u64,
) -> Result<Report, RunStop>
    requires sized { AreSized arenas.now }
    requires within { AreWithin (raw_bytes extent.now) arenas.now }
    requires there { HasEnds (S.held images.old) extent.now.set }
    ensures told { IfOk result (AnswersOn (sector_outcome sector) (S.held images.old) extent.now arenas.now) }
    ensures same { S.held images.new ≡ S.held images.old }
    ensures failed { result ≡ Err RunStop.ReadFault → Rose (S.faults images.old) (S.faults images.new) }
    ensures later { S.faults images.old ≤ S.faults images.new }
{
    let sectors = sectors_of_all(arenas);
    if sector < sectors {
        return line_answer(alloc, images, extent, arenas, sector);
    }
    reported(range_answer(alloc, sectors))
}

/// Answers `read` on an image set that was loaded without its contents: the value of a sector of a namespace, or that it is bad; or
/// the first region that isn't an interleave set, or the first two UUIDs with overlapping extents; or why the namespace isn't
/// found; or the first of its arenas that violates the format; or `Range` with the number of sectors of all its arenas, if it has
/// no such sector. All arenas are opened before the sector is read. No image set is written.
///
/// Of the contents only the arenas' info blocks, logs and maps are read, and the sector's own bytes. `told` speaks of the contents
/// that the source has, as far as it reveals them. `failed`: `ReadFault` means that the source's count of failures rose in this
/// call.
pub fn read_answer<S: ImageSource>(
    alloc: Global,
    uuid: &Uuid,
    sector: u64,
    outline: Outline,
    images: &mut S,
) -> Result<Report, RunStop>
    requires sound { IsOutlined outline }
    requires loadable { IsLoadable outline }
    requires there { ForSome (S.held images.old) (HasContents outline.sizes) }
    ensures told { IfOk result (PrintsFrom (read_outcome uuid.now sector) (S.held images.old) outline) }
    ensures same { S.held images.new ≡ S.held images.old }
    ensures failed { result ≡ Err RunStop.ReadFault → Rose (S.faults images.old) (S.faults images.new) }
    ensures later { S.faults images.old ≤ S.faults images.new }
{
    set_answer(alloc, uuid, outline, Ask::Sector(sector), images)
}
