//! The command `info`: a line for each arena of a namespace.
ghost use Rattle.std.specs.Prelude.{◌≡◌, ◌<◌, ◌≤◌, ◌∷◌, [], ℕ, List, IfOk, Err, codes, length, map, slice_index_or, string_bytes};
ghost use Rattle.std.specs.Option.{ForSome};
ghost use Rattle.std.specs.Fmt.{decimal};
ghost use Rattle.nvd_media.specs.Causes.{Rose};
ghost use Rattle.image_set.specs.Outline.{HasContents, IsLoadable, IsOutlined};
ghost use Rattle.arena_open.specs.Chain.{Link, state_at};
ghost use Rattle.shell_reports.specs.Outcome.{joined, lf, printed};
ghost use Rattle.shell_reports.specs.Saved.{outcome_of};
ghost use Rattle.shell_reports.specs.Sectors.{arena_facts, arena_lines, info_outcome};
ghost use Rattle.shell_sectors.specs.Opening.{PrintsFrom};

use crate::asking::{Ask, set_answer};
use arena_layout::Layout;
use image_set::Outline;
use namespace_words::ArenaRead;
use nvd_media::ImageSource;
use shell_reports::{Report, RunStop, printed_answer};
use std::alloc::{AllocError, Global};
use uuid::Uuid;

/// Returns the text of an arena's line after its number.
fn arena_facts(alloc: Global, layout: &Layout, moves: usize) -> Result<String, AllocError>
    ensures { IfOk result (λ text. string_bytes text ≡ arena_facts layout.now moves) }
{
    format!(in alloc;
        "sector {} sectors {} blocks {} lanes {} moves {}",
        layout.sector, layout.external, layout.internal, layout.lanes, moves
    )
}

/// Returns the line of arena k.
fn arena_line(alloc: Global, k: usize, layout: &Layout, moves: usize) -> Result<String, AllocError>
    ensures { IfOk result (λ text. string_bytes text ≡ joined (codes "arena " ∷ decimal k ∷ codes " " ∷ arena_facts layout.now moves ∷ lf ∷ [])) }
{
    let facts = arena_facts(alloc, layout, moves)?;
    format!(in alloc; "arena {} {}\n", k, facts)
}

/// Returns the line of an arena that was read.
fn line_of(alloc: Global, k: usize, arena: &ArenaRead) -> Result<String, AllocError>
    ensures { IfOk result (λ text. string_bytes text ≡ joined (codes "arena " ∷ decimal k ∷ codes " " ∷ arena_facts arena.now.opened.info.layout (length arena.now.opened.moves) ∷ lf ∷ [])) }
{
    let parts = arena.parts();
    arena_line(alloc, k, &parts.info.layout, parts.moves.len())
}

/// Returns an arena of some.
fn arena_at(arenas: &[ArenaRead], k: usize) -> &ArenaRead
    requires { k < length arenas.now }
    ensures { (d : Link) → result.now ≡ slice_index_or arenas.now k d }
{
    &arenas[k]
}

/// Returns the lines of arenas.
fn arena_lines(alloc: Global, arenas: &[ArenaRead]) -> Result<Vec<u8>, AllocError>
    ensures { IfOk result (λ text. (words : List ℕ) → text.items ≡ arena_lines 0 (map (state_at words) arenas.now)) }
{
    let mut text = Vec::new(alloc);
    for k in 0..arenas.len() {
        let line = line_of(alloc, k, arena_at(arenas, k))?;
        text.extend_from_slice(line.as_bytes())?;
    }
    Ok(text)
}

/// Answers with a line for each arena of a namespace.
pub(crate) fn lines_answer(alloc: Global, arenas: &[ArenaRead]) -> Result<Report, AllocError>
    ensures { IfOk result (λ answer. (words : List ℕ) → outcome_of answer ≡ printed (arena_lines 0 (map (state_at words) arenas.now))) }
{
    Ok(printed_answer(arena_lines(alloc, arenas)?))
}

/// Answers `info` on an image set that was loaded without its contents: a line for each arena of a sector namespace, in order; or
/// the first region that isn't an interleave set, or the first two UUIDs with overlapping extents; or why the namespace isn't
/// found; or the first of its arenas that violates the format. Pending moves are completed only in memory: no image set is
/// written.
///
/// Of the contents only the arenas' info blocks, logs and maps are read. `told` speaks of the contents that the source has, as far
/// as it reveals them. `failed`: `ReadFault` means that the source's count of failures rose in this call.
pub fn info_answer<S: ImageSource>(
    alloc: Global,
    uuid: &Uuid,
    outline: Outline,
    images: &mut S,
) -> Result<Report, RunStop>
    requires sound { IsOutlined outline }
    requires loadable { IsLoadable outline }
    requires there { ForSome (S.held images.old) (HasContents outline.sizes) }
    ensures told { IfOk result (PrintsFrom (info_outcome uuid.now) (S.held images.old) outline) }
    ensures same { S.held images.new ≡ S.held images.old }
    ensures failed { result ≡ Err RunStop.ReadFault → Rose (S.faults images.old) (S.faults images.new) }
    ensures later { S.faults images.old ≤ S.faults images.new }
{
    set_answer(alloc, uuid, outline, Ask::Arenas, images)
}
