//! The command `check --repair` on a whole set.
ghost use Rattle.std.specs.Prelude.{◌≡◌, ◌++◌, ◌≤◌, Err, IfOk, OnOk};
ghost use Rattle.std.specs.Option.{ForSome};
ghost use Rattle.nvd_media.specs.Causes.{Rose};
ghost use Rattle.image_set.specs.Outline.{HasContents, IsCopyable, IsLoadable, IsOutlined};
ghost use Rattle.shell_check.specs.All.{WithContents};
ghost use Rattle.shell_set_check.specs.Repair.{RepairsFrom, loaded_lines, with_last_line};
ghost use Rattle.shell_set_check.specs.Repairing.{ChecksLoaded, SavesLeft};

use crate::command::{in_memory, push_opened, push_outline};
use crate::copies::copied_outline;
use crate::repair::repair_outline;
use crate::text::faults_in;
use image_set::{Outline, OutlineLeft};
use nvd_media::ImageSource;
use nvd_words::Items;
use set_objects::SetRead;
use shell_changes::{Answer, Left, SavedSet};
use shell_check::push_last_line;
use shell_reports::{RunStop, printed_answer};
use std::alloc::{AllocError, Global};

/// Appends all lines of a set that is loaded, but the last one.
fn push_loaded<S: ImageSource>(
    alloc: Global,
    outline: Outline,
    images: &mut S,
    text: &mut Vec<u8>,
) -> Result<(), RunStop>
    requires sound { IsOutlined outline }
    requires loadable { IsLoadable outline }
    requires there { ForSome (S.held images.old) (HasContents outline.sizes) }
    ensures told { OnOk result (WithContents (S.held images.old) outline (λ loaded. text.new.items ≡ text.old.items ++ loaded_lines loaded)) }
    ensures same { S.held images.new ≡ S.held images.old }
    ensures failed { result ≡ Err RunStop.ReadFault → Rose (S.faults images.old) (S.faults images.new) }
    ensures later { S.faults images.old ≤ S.faults images.new }
{
    let faults = Items::new(alloc);
    let outline = in_memory(push_outline(alloc, SetRead { outline, faults }, text))?;
    push_opened(alloc, outline, images, text)
}

/// Returns the lines of repairs, then these lines, and then the last one.
fn whole_text(alloc: Global, repairs: Vec<u8>, lines: Vec<u8>) -> Result<Vec<u8>, AllocError>
    ensures { IfOk result (λ text. text.items ≡ repairs.items ++ with_last_line lines.items) }
{
    let faults = faults_in(&lines);
    let mut text = repairs;
    text.extend_from_slice(&lines)?;
    push_last_line(alloc, faults, &mut text)?;
    Ok(text)
}

/// Answers with the lines, and with the set.
fn left_answer(
    alloc: Global,
    repairs: Vec<u8>,
    lines: Vec<u8>,
    left: OutlineLeft,
) -> Result<Answer, AllocError>
    requires { IsCopyable left }
    ensures { IfOk result (SavesLeft (repairs.items ++ with_last_line lines.items) left) }
{
    let text = whole_text(alloc, repairs, lines)?;
    Ok(Answer {
        report: printed_answer(text),
        saved: Some(SavedSet::new(Left::Copied(left))),
    })
}

/// Checks a set whose label areas are repaired, and answers with the lines and the set.
fn repaired_answer<S: ImageSource>(
    alloc: Global,
    repairs: Vec<u8>,
    outline: Outline,
    images: &mut S,
) -> Result<Answer, RunStop>
    requires sound { IsOutlined outline }
    requires loadable { IsLoadable outline }
    requires there { ForSome (S.held images.old) (HasContents outline.sizes) }
    ensures told { IfOk result (ChecksLoaded (S.held images.old) repairs.items outline) }
    ensures same { S.held images.new ≡ S.held images.old }
    ensures failed { result ≡ Err RunStop.ReadFault → Rose (S.faults images.old) (S.faults images.new) }
    ensures later { S.faults images.old ≤ S.faults images.new }
{
    let left = in_memory(copied_outline(alloc, &outline))?;
    let mut lines = Vec::new(alloc);
    push_loaded(alloc, outline, images, &mut lines)?;
    in_memory(left_answer(alloc, repairs, lines, left))
}

/// Answers `check --repair` on an image set that was loaded without its contents: in each label
/// area, a damaged index block is written again from the other one, if that one is valid.
///
/// The answer saves the repaired set. It prints a line for each block that was written, and then
/// the lines that `check` prints of the repaired set. It ends as a command that was carried out,
/// even if faults are left. Arenas aren't repaired. Law [`crate::repair_is_checked`] says what the
/// saved set is worth.
///
/// Of the contents only the arenas' info blocks, logs and maps are read, until the set is saved.
///
/// - `told` speaks of the contents that the source has, as far as it reveals them.
/// - `failed`: `ReadFault` means that the source's count of failures rose in this call.
/// - `same`, `later`: the source holds what it held, and its count of failures never falls.
pub fn set_repair_answer<S: ImageSource>(
    alloc: Global,
    outline: Outline,
    images: &mut S,
) -> Result<Answer, RunStop>
    requires sound { IsOutlined outline }
    requires loadable { IsLoadable outline }
    requires there { ForSome (S.held images.old) (HasContents outline.sizes) }
    ensures told { IfOk result (RepairsFrom (S.held images.old) outline) }
    ensures same { S.held images.new ≡ S.held images.old }
    ensures failed { result ≡ Err RunStop.ReadFault → Rose (S.faults images.old) (S.faults images.new) }
    ensures later { S.faults images.old ≤ S.faults images.new }
{
    let mut repairs = Vec::new(alloc);
    let outline = in_memory(repair_outline(alloc, outline, &mut repairs))?;
    repaired_answer(alloc, repairs, outline, images)
}
