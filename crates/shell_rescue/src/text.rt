//! The lines on what can't be read.
ghost use Rattle.std.specs.Prelude.{◌≡◌, ◌++◌, ◌∷◌, [], IfOk, MatchBool, OnOk, codes, length, string_bytes};
ghost use Rattle.std.specs.Fmt.{decimal};
ghost use Rattle.shell_reports.specs.Outcome.{joined, lf};
ghost use Rattle.shell_rescue.specs.Lost.{arena_lines, last_line, loss_line, loss_lines, loss_text, missing_line, missing_lines, move_line, move_lines};

use crate::arena::ArenaLost;
use arena_rescue::Loss;
use flog::Half;
use shell_check::push_lines;
use std::alloc::{AllocError, Global};

/// Returns a lost sector's number, and why it is lost.
fn loss_text(alloc: Global, loss: Loss) -> Result<String, AllocError>
    ensures { IfOk result (λ text. string_bytes text ≡ loss_text loss) }
{
    match loss {
        Loss::BadMap { sector } => format!(in alloc; "{} BadMap", sector),
        Loss::Range { sector, block } => format!(in alloc; "{} Range {}", sector, block),
        Loss::Twice { sector, block } => format!(in alloc; "{} Twice {}", sector, block),
        Loss::Marked { sector } => format!(in alloc; "{} Marked", sector),
        Loss::BadData { sector } => format!(in alloc; "{} BadData", sector),
    }
}

/// Returns the line of a lost sector of arena k.
fn loss_line(alloc: Global, k: u64, loss: Loss) -> Result<String, AllocError>
    ensures { IfOk result (λ text. string_bytes text ≡ loss_line k loss) }
{
    let text = loss_text(alloc, loss)?;
    format!(in alloc; "arena {} lost {}\n", k, text)
}

/// Appends the lines of the lost sectors of arena k.
fn push_losses(alloc: Global, k: u64, losses: &[Loss], text: &mut Vec<u8>) -> Result<(), AllocError>
    ensures { OnOk result (text.new.items ≡ text.old.items ++ loss_lines k losses.now) }
{
    for loss in losses {
        let line = loss_line(alloc, k, *loss)?;
        text.extend_from_slice(line.as_bytes())?;
    }
    Ok(())
}

/// Returns the line of a pending move of arena k that was made.
fn move_line(alloc: Global, k: u64, half: &Half) -> Result<String, AllocError>
    ensures { IfOk result (λ text. string_bytes text ≡ move_line k half.now) }
{
    format!(in alloc;
        "arena {} moved {} {} {}\n",
        k, half.lba, half.old, half.new
    )
}

/// Appends the lines of the pending moves of arena k that were made.
fn push_moves(alloc: Global, k: u64, halves: &[Half], text: &mut Vec<u8>) -> Result<(), AllocError>
    ensures { OnOk result (text.new.items ≡ text.old.items ++ move_lines k halves.now) }
{
    for half in halves {
        let line = move_line(alloc, k, half)?;
        text.extend_from_slice(line.as_bytes())?;
    }
    Ok(())
}

/// Appends the lines of arena k: its findings, its moves, and then its lost sectors.
fn push_arena(alloc: Global, k: u64, lost: &ArenaLost, text: &mut Vec<u8>) -> Result<(), AllocError>
    ensures { OnOk result (text.new.items ≡ text.old.items ++ arena_lines k lost.now) }
{
    push_lines(alloc, "arena ", k, lost.notes.as_slice(), text)?;
    push_moves(alloc, k, lost.moves.as_slice(), text)?;
    push_losses(alloc, k, lost.losses.as_slice(), text)
}

/// Appends the lines of arena k if they are asked for.
pub(crate) fn push_lost(
    alloc: Global,
    listing: bool,
    k: u64,
    lost: &ArenaLost,
    text: &mut Vec<u8>,
) -> Result<(), AllocError>
    ensures { OnOk result (MatchBool listing (text.new.items ≡ text.old.items ++ arena_lines k lost.now) (text.new.items ≡ text.old.items)) }
{
    if listing {
        return push_arena(alloc, k, lost, text);
    }
    Ok(())
}

/// Returns the line of a module that has no label of the namespace.
fn missing_line(alloc: Global, module: u32) -> Result<String, AllocError>
    ensures { IfOk result (λ text. string_bytes text ≡ missing_line «module») }
{
    format!(in alloc; "labels {} Missing\n", module)
}

/// Appends the lines of the modules that have no label of the namespace.
pub(crate) fn push_missing(
    alloc: Global,
    modules: &[u32],
    text: &mut Vec<u8>,
) -> Result<(), AllocError>
    ensures { OnOk result (text.new.items ≡ text.old.items ++ missing_lines modules.now) }
{
    for module in modules {
        let line = missing_line(alloc, *module)?;
        text.extend_from_slice(line.as_bytes())?;
    }
    Ok(())
}

/// Returns the last line, after so many lost sectors.
fn last_line(alloc: Global, count: u64) -> Result<String, AllocError>
    ensures { IfOk result (λ text. string_bytes text ≡ last_line count) }
{
    if count == 0 {
        return String::from_str(alloc, "whole\n");
    }
    format!(in alloc; "lost {}\n", count)
}

/// Appends the last line, after so many lost sectors.
pub(crate) fn push_last_line(
    alloc: Global,
    count: u64,
    text: &mut Vec<u8>,
) -> Result<(), AllocError>
    ensures { OnOk result (text.new.items ≡ text.old.items ++ last_line count) }
{
    let line = last_line(alloc, count)?;
    text.extend_from_slice(line.as_bytes())
}
