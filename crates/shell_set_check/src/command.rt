//! The command `check` on a whole set.
ghost use Rattle.std.specs.Prelude.{◌≡◌, ◌≢◌, ◌++◌, ◌≤◌, Err, IfOk, IsTrue, Ok, OnOk, false, map};
ghost use Rattle.std.specs.Option.{ForSome, option_map};
ghost use Rattle.nvd_media.specs.Causes.{Rose};
ghost use Rattle.image_set.specs.declared.outline.Outline.{Outline as OutlineRead};
ghost use Rattle.image_set.specs.Load.{bytes_kept};
ghost use Rattle.image_set.specs.Outline.{HasContents, IsLoadable, IsOutlined};
ghost use Rattle.set_objects.specs.Read.{IsSetRead, ReadsSet};
ghost use Rattle.shell_reports.specs.Saved.{outcome_of};
ghost use Rattle.shell_sectors.specs.Opening.{IsOpenOutline};
ghost use Rattle.shell_check.specs.All.{WithContents, arenas_text};
ghost use Rattle.shell_set_check.specs.Whole.{arenas_part, lines_of, outline_lines, set_check_outcome, set_lines, text_after};

use crate::areas::{push_areas, push_bad_ranges};
use crate::namespaces::push_namespaces;
use crate::objects::{push_object, push_objects, push_regions};
use crate::text::{faults_in, push_notice};
use image_set::{LoadFault, Outline, OutlineRest};
use namespace_ops::Registry;
use nvd_media::ImageSource;
use set_objects::{ObjectsRead, ReadStop, SetRead, read_objects};
use shell_check::{check_arenas, push_last_line};
use shell_reports::{Ending, Report, RunStop};
use shell_sectors::{OutlineOpened, open_outline};
use std::alloc::{AllocError, Global};

/// Returns what was made, or the stop if memory ran out.
pub(crate) fn in_memory<T>(made: Result<T, AllocError>) -> Result<T, RunStop>
    ensures same { IfOk result (λ x. made ≡ Ok x) }
    ensures memory { result ≢ Err RunStop.ReadFault }
{
    match made {
        Ok(value) => Ok(value),
        Err(_) => Err(RunStop::OutOfMemory),
    }
}

/// Appends the lines of everything but the arenas. It returns the set as it was.
pub(crate) fn push_outline(
    alloc: Global,
    read: SetRead,
    text: &mut Vec<u8>,
) -> Result<Outline, AllocError>
    requires { IsSetRead read }
    ensures lines { OnOk result (text.new.items ≡ text.old.items ++ outline_lines read.outline.nfit read.faults (map (option_map bytes_kept) read.outline.labels) read.outline.bad) }
    ensures same { IfOk result (λ outline. outline ≡ read.outline) }
{
    let SetRead { outline, faults } = read;
    push_objects(alloc, faults.as_slice(), text)?;
    push_regions(alloc, &outline.nfit, text)?;
    push_areas(alloc, &outline, text)?;
    let outline = push_namespaces(alloc, outline, text)?;
    push_bad_ranges(alloc, outline.bad.as_slice(), text)?;
    Ok(outline)
}

/// Appends the lines of all arenas of a set whose labels are read.
fn push_found<S: ImageSource>(
    alloc: Global,
    registry: &Registry,
    rest: &OutlineRest,
    images: &mut S,
    text: &mut Vec<u8>,
) -> Result<(), RunStop>
    requires open { (outline : OutlineRead) × IsOpenOutline outline registry.now rest.now }
    requires there { ForSome (S.held images.old) (HasContents rest.now.sizes) }
    ensures told { OnOk result ((outline : OutlineRead) → IsOpenOutline outline registry.now rest.now
        → WithContents (S.held images.old) outline (λ loaded. text.new.items ≡ text.old.items ++ arenas_text loaded)) }
    ensures same { S.held images.new ≡ S.held images.old }
    ensures failed { result ≡ Err RunStop.ReadFault → Rose (S.faults images.old) (S.faults images.new) }
    ensures later { S.faults images.old ≤ S.faults images.new }
{
    let lines = check_arenas(alloc, registry, rest, images)?;
    in_memory(text.extend_from_slice(&lines.text))
}

/// Appends the lines of the arenas of a set whose objects have no fault, or that its arenas aren't
/// checked, since its table or its labels have one.
pub(crate) fn push_opened<S: ImageSource>(
    alloc: Global,
    outline: Outline,
    images: &mut S,
    text: &mut Vec<u8>,
) -> Result<(), RunStop>
    requires sound { IsOutlined outline }
    requires loadable { IsLoadable outline }
    requires there { ForSome (S.held images.old) (HasContents outline.sizes) }
    ensures told { OnOk result (WithContents (S.held images.old) outline (λ loaded. text.new.items ≡ text.old.items ++ arenas_part (Ok loaded))) }
    ensures same { S.held images.new ≡ S.held images.old }
    ensures failed { result ≡ Err RunStop.ReadFault → Rose (S.faults images.old) (S.faults images.new) }
    ensures later { S.faults images.old ≤ S.faults images.new }
{
    match open_outline(alloc, outline) {
        Ok(OutlineOpened::Done(registry, rest)) => {
            push_found(alloc, &registry, &rest, images, text)
        }
        Ok(OutlineOpened::Not(_)) => in_memory(push_notice(alloc, "arenas Unchecked", text)),
        Err(_) => Err(RunStop::OutOfMemory),
    }
}

/// Appends the lines of the arenas, or that they aren't checked, since an object has a fault.
fn push_arenas<S: ImageSource>(
    alloc: Global,
    whole: bool,
    outline: Outline,
    images: &mut S,
    text: &mut Vec<u8>,
) -> Result<(), RunStop>
    requires sound { IsOutlined outline }
    requires loadable { IsTrue whole → IsLoadable outline }
    requires there { ForSome (S.held images.old) (HasContents outline.sizes) }
    ensures checked { IsTrue whole → OnOk result (WithContents (S.held images.old) outline (λ loaded. text.new.items ≡ text.old.items ++ arenas_part (Ok loaded))) }
    ensures unchecked { whole ≡ false → OnOk result ((fault : LoadFault) → text.new.items ≡ text.old.items ++ arenas_part (Err fault)) }
    ensures same { S.held images.new ≡ S.held images.old }
    ensures failed { result ≡ Err RunStop.ReadFault → Rose (S.faults images.old) (S.faults images.new) }
    ensures later { S.faults images.old ≤ S.faults images.new }
{
    if !whole {
        return in_memory(push_notice(alloc, "arenas Unchecked", text));
    }
    push_opened(alloc, outline, images, text)
}

/// Appends the lines of a set whose table is read.
fn push_table<S: ImageSource>(
    alloc: Global,
    read: SetRead,
    images: &mut S,
    text: &mut Vec<u8>,
) -> Result<(), RunStop>
    requires read { IsSetRead read }
    requires there { ForSome (S.held images.old) (ReadsSet read) }
    ensures told { ForSome (S.held images.old) (λ set. OnOk result (text.new.items ≡ text.old.items ++ set_lines set read.outline.nfit)) }
    ensures same { S.held images.new ≡ S.held images.old }
    ensures failed { result ≡ Err RunStop.ReadFault → Rose (S.faults images.old) (S.faults images.new) }
    ensures later { S.faults images.old ≤ S.faults images.new }
{
    let whole = read.faults.len() == 0;
    let outline = in_memory(push_outline(alloc, read, text))?;
    push_arenas(alloc, whole, outline, images, text)
}

/// Appends all lines but the last.
fn push_set<S: ImageSource>(
    alloc: Global,
    images: &mut S,
    text: &mut Vec<u8>,
) -> Result<(), RunStop>
    ensures told { ForSome (S.held images.old) (λ set. OnOk result (text.new.items ≡ text.old.items ++ lines_of set)) }
    ensures same { S.held images.new ≡ S.held images.old }
    ensures failed { result ≡ Err RunStop.ReadFault → Rose (S.faults images.old) (S.faults images.new) }
    ensures later { S.faults images.old ≤ S.faults images.new }
{
    match read_objects(alloc, images) {
        Ok(ObjectsRead::NoTable(fault)) => in_memory(push_object(alloc, fault, text)),
        Ok(ObjectsRead::Table(read)) => push_table(alloc, read, images, text),
        Err(ReadStop::ReadFault) => Err(RunStop::ReadFault),
        Err(ReadStop::OutOfMemory) => Err(RunStop::OutOfMemory),
    }
}

/// Makes the report of lines that were found.
fn finished(alloc: Global, lines: Vec<u8>) -> Result<Report, AllocError>
    ensures { IfOk result (λ report. outcome_of report ≡ text_after lines.items) }
{
    let faults = faults_in(&lines);
    let mut text = lines;
    push_last_line(alloc, faults, &mut text)?;
    let ending = if faults == 0 {
        Ending::Done
    } else {
        Ending::Image
    };
    Ok(Report { ending, text })
}

/// Answers `check` on a whole image set: a line for everything that is wrong with it, and a last
/// line. It ends as images that are refused do if a line is a fault.
///
/// The lines come in this order: the table, or why it can't be read, and then nothing else; the
/// faults of each module's objects; the regions that aren't interleave sets; each module's label
/// area, by both index blocks and by the slots of the current one; the namespaces, by every rule
/// that the labels of a UUID break; the number of records of bad ranges; the findings in the arenas
/// of each complete sector namespace. What can't be judged, because a fault before it hides it, is
/// said by a notice.
///
/// `told` speaks of the set that the source has, as far as it reveals it. `failed`: `ReadFault`
/// means that the source's count of failures rose in this call. It reads no contents but the
/// arenas' info blocks, logs and maps.
pub fn set_check_answer<S: ImageSource>(alloc: Global, images: &mut S) -> Result<Report, RunStop>
    ensures told { ForSome (S.held images.old) (λ set. IfOk result (λ report. outcome_of report ≡ set_check_outcome set)) }
    ensures same { S.held images.new ≡ S.held images.old }
    ensures failed { result ≡ Err RunStop.ReadFault → Rose (S.faults images.old) (S.faults images.new) }
    ensures later { S.faults images.old ≤ S.faults images.new }
{
    let mut lines = Vec::new(alloc);
    push_set(alloc, images, &mut lines)?;
    in_memory(finished(alloc, lines))
}
