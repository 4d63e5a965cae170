//! What remains of an image set as a command ends is saved: to its end, or as a power cut leaves it.
ghost use Rattle.std.specs.Prelude.{◌≡◌, ◌≢◌, ◌<◌, IfOk, None, length};
ghost use Rattle.image_set.specs.declared.changing.OutlineLeft.{OutlineLeft as LeftOutline};
ghost use Rattle.image_set.specs.Outline.{IsOutlined, LeavesAreas, LeavesOutline};
ghost use Rattle.shell_changes.specs.Going.{CanPut};
ghost use Rattle.shell_changes.specs.Remains.{AnswersCut, AnswersDone, AreOf, CanLeave, LeavesFormatted, LeavesSet, SavesLeft, remains_of};

use crate::answer::{Answer, Left, SavedSet};
use arena_layout::Layout;
use cut_words::CutWords;
use format_patch::{format_patch, words_left};
use image_set::{Outline, OutlineRest};
use interleave::InterleaveSet;
use nvd_media::Chooser;
use nvd_words::Items;
use shell_reports::{Ending, Power, Report, cut_line, steps_of};
use std::alloc::{AllocError, Global};
use uuid::Uuid;

/// The arena of a new namespace, whose format was begun. Its words are put into the contents while these are copied.
#[derive(Drop)]
pub struct NewArena {
    /// The interleave set of the namespace's region.
    pub set: InterleaveSet,
    /// How far the namespace lies from the start of each mapping, in bytes.
    pub offset: u64,
    /// How long it is in each mapping, in bytes.
    pub raw: u64,
    pub layout: Layout,
    pub uuid: Uuid,
    /// How many steps of the format were made.
    pub steps: u64,
}

/// What remains of an image set as a command ends. Its contents are copied from the source as it is saved.
#[derive(Drop)]
pub(crate) enum Remains {
    /// An outline, and the words of the label area of a module that was taken out of it.
    Area(Outline, u32, CutWords),
    /// What an outline has beside its label areas, and the words of these.
    Areas(OutlineRest, Items<Option<CutWords>>),
    /// The same, and the arena that is put into the contents.
    Formatted(OutlineRest, Items<Option<CutWords>>, NewArena),
}

/// What remains of a set with these label areas.
pub(crate) fn remaining(
    rest: OutlineRest,
    labels: Items<Option<CutWords>>,
    begun: Option<NewArena>,
) -> Remains
    ensures { result ≡ remains_of rest labels begun }
{
    match begun {
        None => Remains::Areas(rest, labels),
        Some(new) => Remains::Formatted(rest, labels, new),
    }
}

/// An outline after the crash, with this label area of a module.
fn area_left<C: Chooser>(
    alloc: Global,
    rest: Outline,
    module: u32,
    words: CutWords,
    choose: &mut C,
) -> Result<SavedSet, AllocError>
    requires sound { IsOutlined rest }
    requires there { «module» < length rest.labels }
    ensures { IfOk result (λ set. (left : LeftOutline) × (set ≡ Left.Copied left) × (left.sizes ≡ rest.sizes) × LeavesOutline C.picks rest «module» words choose.old choose.new left) }
{
    let left = rest.leave_area(alloc, module, words, choose)?;
    Ok(SavedSet::new(Left::Copied(left)))
}

/// An outline after the crash, with these label areas.
fn areas_left<C: Chooser>(
    alloc: Global,
    rest: OutlineRest,
    labels: Items<Option<CutWords>>,
    choose: &mut C,
) -> Result<SavedSet, AllocError>
    requires { AreOf rest labels }
    ensures { IfOk result (λ set. (left : LeftOutline) × (set ≡ Left.Copied left) × LeavesAreas C.picks rest labels choose.old choose.new left) }
{
    let left = rest.leave_areas(alloc, labels, choose)?;
    Ok(SavedSet::new(Left::Copied(left)))
}

/// An outline after the crash, with these label areas, and with the words of an arena in the contents that are copied.
fn formatted_left<C: Chooser>(
    alloc: Global,
    rest: OutlineRest,
    labels: Items<Option<CutWords>>,
    new: NewArena,
    choose: &mut C,
) -> Result<SavedSet, AllocError>
    requires areas { AreOf rest labels }
    requires arena { CanPut new }
    ensures { IfOk result (λ set. LeavesFormatted C.picks rest labels new set choose.old choose.new) }
{
    let areas = rest.leave_areas(alloc, labels, choose)?;
    let NewArena {
        set,
        offset,
        raw,
        layout,
        uuid,
        steps,
    } = new;
    let words = words_left(&set, offset, raw, &layout, steps, choose);
    let patch = format_patch(alloc, set, offset, raw, &layout, &uuid, words)?;
    Ok(SavedSet::new(Left::Patched(areas, patch)))
}

/// The set after the crash. A word that isn't pending stays.
fn set_left<C: Chooser>(
    alloc: Global,
    remains: Remains,
    choose: &mut C,
) -> Result<SavedSet, AllocError>
    requires { CanLeave remains }
    ensures { IfOk result (λ set. LeavesSet C.picks remains set choose.old choose.new) }
{
    match remains {
        Remains::Area(rest, module, words) => area_left(alloc, rest, module, words, choose),
        Remains::Areas(rest, labels) => areas_left(alloc, rest, labels, choose),
        Remains::Formatted(rest, labels, new) => formatted_left(alloc, rest, labels, new, choose),
    }
}

/// Answers with the set that is left.
fn saved_answer<C: Chooser>(
    alloc: Global,
    ending: Ending,
    text: Vec<u8>,
    remains: Remains,
    choose: &mut C,
) -> Result<Answer, AllocError>
    requires { CanLeave remains }
    ensures { IfOk result (λ answer. SavesLeft C.picks ending text.items remains answer choose.old choose.new) }
{
    let set = set_left(alloc, remains, choose)?;
    Ok(Answer {
        report: Report { ending, text },
        saved: Some(set),
    })
}

/// The answer after a crash, with the set after it. The number of steps before it was given.
pub(crate) fn cut_answer<C: Chooser>(
    alloc: Global,
    power: Power,
    remains: Remains,
    choose: &mut C,
) -> Result<Answer, AllocError>
    requires can { CanLeave remains }
    requires given { power.steps ≢ None }
    ensures { IfOk result (AnswersCut C.begins C.picks power remains choose.old) }
{
    choose.begin(power.seed);
    let text = cut_line(alloc, steps_of(power))?;
    saved_answer(alloc, Ending::PowerCut, text.into_bytes(), remains, choose)
}

/// The answer if the command was carried out to its end.
pub(crate) fn done_answer<C: Chooser>(
    alloc: Global,
    remains: Remains,
    choose: &mut C,
) -> Result<Answer, AllocError>
    requires { CanLeave remains }
    ensures { IfOk result (AnswersDone C.picks remains choose.old) }
{
    let text = Vec::from_slice(alloc, b"ok\n")?;
    saved_answer(alloc, Ending::Done, text, remains, choose)
}
