//! The command `init`: fresh index blocks in a module's label area, whole or after a crash.
ghost use Rattle.std.specs.Prelude.{◌≡◌, ◌≢◌, ◌<◌, ◌*◌, ℕ, List, None, IfOk, length};
ghost use Rattle.cut_words.specs.Words.{settled};
ghost use Rattle.cut_words.specs.WordBytes.{bytes_of};
ghost use Rattle.label_index.specs.Area.{IsAreaSize};
ghost use Rattle.label_area.specs.Initialise.{initialised};
ghost use Rattle.image_set.specs.Changed.{objects_of, with_area};
ghost use Rattle.image_set.specs.Outline.{IsOutlined, image_set_with};
ghost use Rattle.shell_reports.specs.Saved.{IsSaving};
ghost use Rattle.shell_changes.specs.Init.{InitArea, InitComes, RefusedArea};
ghost use Rattle.shell_changes.specs.Answers.{HasSizes, outcome_with};
ghost use Rattle.shell_changes.specs.Remains.{LeavesBy};
ghost use Rattle.shell_reports.specs.Cut.{done_text};
ghost use Rattle.shell_reports.specs.Labels.{fault_outcome, module_outcome};

use crate::answer::{Answer, without_set};
use crate::saving::{Remains, cut_answer, done_answer};
use cut_words::CutWords;
use image_set::Outline;
use label_area::{AreaFault, AreaRefused, LabelArea, init_area};
use nvd_media::Chooser;
use shell_reports::{Ending, Power, fault_answer, fuse_of, missing_answer};
use std::alloc::{AllocError, Global};

/// The answer after a crash, with the words as they were then. The number of steps before it was given.
fn cut_area_answer<C: Chooser>(
    alloc: Global,
    power: Power,
    rest: Outline,
    module: u32,
    words: CutWords,
    choose: &mut C,
) -> Result<Answer, AllocError>
    requires sound { IsOutlined rest }
    requires there { «module» < length rest.labels }
    requires given { power.steps ≢ None }
    ensures comes { IfOk result (λ answer. (contents : List (List ℕ)) → RefusedArea (LeavesBy C.begins C.picks choose.old) «module» power (image_set_with rest contents) words AreaFault.PowerCut (outcome_with answer contents)) }
    ensures sizes { IfOk result (λ answer. HasSizes rest.sizes answer) }
{
    cut_answer(alloc, power, Remains::Area(rest, module, words), choose)
}

/// The answer if both blocks were written.
fn done_area_answer<C: Chooser>(
    alloc: Global,
    rest: Outline,
    module: u32,
    area: LabelArea,
    choose: &mut C,
) -> Result<Answer, AllocError>
    requires sound { IsOutlined rest }
    requires there { «module» < length rest.labels }
    requires settled { area.words ≡ settled area.words.kept }
    ensures comes { IfOk result (λ answer. (contents : List (List ℕ))
        → IsSaving Ending.Done done_text (objects_of (with_area (image_set_with rest contents) «module» (bytes_of area.words.kept))) (outcome_with answer contents)) }
    ensures sizes { IfOk result (λ answer. HasSizes rest.sizes answer) }
{
    done_answer(
        alloc,
        Remains::Area(rest, module, area.into_words()),
        choose,
    )
}

/// The answer on an area that isn't initialised. Power wasn't cut. Out of memory isn't a finding.
fn kept_answer(alloc: Global, module: u32, fault: AreaFault) -> Result<Answer, AllocError>
    requires { fault ≢ AreaFault.PowerCut }
    ensures text { IfOk result (λ answer. (contents : List (List ℕ)) → outcome_with answer contents ≡ fault_outcome «module» fault) }
    ensures finding { IfOk result (λ _. fault ≢ AreaFault.OutOfMemory) }
    ensures saved { IfOk result (λ answer. answer.saved ≡ None) }
{
    let report = fault_answer(alloc, module, fault)?;
    Ok(without_set(report))
}

/// The answer on an area that is refused, with its words as they then are.
fn refused_answer<C: Chooser>(
    alloc: Global,
    power: Power,
    rest: Outline,
    module: u32,
    refused: AreaRefused,
    choose: &mut C,
) -> Result<Answer, AllocError>
    requires sound { IsOutlined rest }
    requires there { «module» < length rest.labels }
    requires given { refused.fault ≡ AreaFault.PowerCut → power.steps ≢ None }
    ensures comes { IfOk result (λ answer. (contents : List (List ℕ)) → RefusedArea (LeavesBy C.begins C.picks choose.old) «module» power (image_set_with rest contents) refused.words refused.fault (outcome_with answer contents)) }
    ensures finding { IfOk result (λ _. refused.fault ≢ AreaFault.OutOfMemory) }
    ensures sizes { IfOk result (λ answer. HasSizes rest.sizes answer) }
{
    let AreaRefused { words, fault } = refused;
    match fault {
        AreaFault::PowerCut => cut_area_answer(alloc, power, rest, module, words, choose),
        fault => kept_answer(alloc, module, fault),
    }
}

/// The answer on a module's label area, which was taken out of the set.
fn area_answer<C: Chooser>(
    alloc: Global,
    power: Power,
    rest: Outline,
    module: u32,
    words: CutWords,
    choose: &mut C,
) -> Result<Answer, AllocError>
    requires sound { IsOutlined rest }
    requires there { «module» < length rest.labels }
    requires settled { words ≡ settled words.kept }
    requires size { IsAreaSize (8 * length words.kept) }
    ensures comes { IfOk result (λ answer. (contents : List (List ℕ)) → InitArea (LeavesBy C.begins C.picks choose.old) «module» power (image_set_with rest contents) (initialised words.kept power.steps) (outcome_with answer contents)) }
    ensures sizes { IfOk result (λ answer. HasSizes rest.sizes answer) }
{
    let mut fuse = fuse_of(power);
    match init_area(alloc, words, &mut fuse) {
        Ok(area) => done_area_answer(alloc, rest, module, area, choose),
        Err(refused) => refused_answer(alloc, power, rest, module, refused, choose),
    }
}

/// The answer if the module has no label area.
fn no_area_answer(alloc: Global, module: u32) -> Result<Answer, AllocError>
    ensures text { IfOk result (λ answer. (contents : List (List ℕ)) → outcome_with answer contents ≡ module_outcome «module» None) }
    ensures saved { IfOk result (λ answer. answer.saved ≡ None) }
{
    let report = missing_answer(alloc, module)?;
    Ok(without_set(report))
}

/// The answer of `init` on an image set: the set with two index blocks in the module's label area; or, if power doesn't
/// last for all steps, the set after the crash. The set was loaded without its contents, so each label area has a label
/// area's size, and it is saved with whatever contents it has.
///
/// An area that has an index block, of any version, is refused, and so is a module without an area. Nothing is saved then.
pub fn init_answer<C: Chooser>(
    alloc: Global,
    module: u32,
    power: Power,
    outline: Outline,
    choose: &mut C,
) -> Result<Answer, AllocError>
    requires { IsOutlined outline }
    ensures comes { IfOk result (λ answer. (contents : List (List ℕ)) → InitComes (LeavesBy C.begins C.picks choose.old) «module» power (image_set_with outline contents) (outcome_with answer contents)) }
    ensures sizes { IfOk result (λ answer. HasSizes outline.sizes answer) }
{
    let (rest, area) = outline.take_area(module);
    match area {
        Some(words) => area_answer(alloc, power, rest, module, words, choose),
        None => no_area_answer(alloc, module),
    }
}
