//! The commands `create`, `delete` and `rename`: recovery first, then the command, and what is saved then.
ghost use Rattle.std.specs.Prelude.{◌≡◌, ◌≢◌, true, false, ℕ, List, Some, None, Ok, Err, IfOk, IfSome, length, map};
ghost use Rattle.namespace_map.specs.declared.refused.OpRefused.{OpRefused as Refused};
ghost use Rattle.namespace_map.specs.Commands.{refusal_of};
ghost use Rattle.namespace_areas.specs.Seen.{words_of};
ghost use Rattle.namespace_areas.specs.Refusals.{shown};
ghost use Rattle.namespace_ops.specs.Carried.{HasGoodName};
ghost use Rattle.namespace_ops.specs.Counted.{makes_sectors};
ghost use Rattle.image_set.specs.Outline.{IsLoadable, IsOutlined, image_set_with};
ghost use Rattle.shell_changes.specs.Answers.{HasSizes, outcome_with};
ghost use Rattle.shell_changes.specs.Going.{CanPut, GoesFrom, GoesOn};
ghost use Rattle.shell_changes.specs.Namespaces.{ChangeComes};
ghost use Rattle.shell_changes.specs.Reading.{CanRun, IsFresh, IsParted, set_parted};
ghost use Rattle.shell_reports.specs.Faults.{refusal_text, refused_outcome};
ghost use Rattle.shell_changes.specs.Remains.{AnswersCut, AnswersDone, AreOf, LeavesBy, remains_of};
ghost use Rattle.shell_changes.specs.Rest.{HoldSets, objects_by, objects_for, words_for};

use crate::answer::Answer;
use crate::refusals::{faulty_answer, refusing_answer};
use crate::running::{Ran, run_command};
use crate::saving::{cut_answer, done_answer, remaining};
use cut_words::{CutWords, Fuse, PowerCut};
use image_set::{Outline, OutlineRest};
use namespace_areas::{Area, into_words, open_areas};
use namespace_map::{Command, OpRefused};
use namespace_ops::Registry;
use nfit_reader::Nfit;
use nvd_media::Chooser;
use nvd_words::Items;
use sector_namespaces::loaded_sets_are_usable;
use shell_reports::{Power, fuse_of};
use std::alloc::{AllocError, Global};

/// Whether a refusal says that power was cut.
fn is_cut(refused: OpRefused) -> bool
    ensures cut { result ≡ true → refused ≡ OpRefused.PowerCut }
    ensures not_cut { result ≡ false → refused ≢ OpRefused.PowerCut }
{
    matches!(refused, OpRefused::PowerCut)
}

/// The answer to a command that ran, by its reply.
fn reply_answer<C: Chooser>(
    alloc: Global,
    ran: Ran,
    power: Power,
    rest: OutlineRest,
    choose: &mut C,
) -> Result<Answer, AllocError>
    requires areas { AreOf rest (map words_of ran.areas.items) }
    requires arena { IfSome ran.begun CanPut }
    requires given { ran.reply ≡ Err OpRefused.PowerCut → power.steps ≢ None }
    ensures done { IfOk result (λ answer. ran.reply ≡ Ok tt → AnswersDone C.picks (remains_of rest (map words_of ran.areas.items) ran.begun) choose.old answer) }
    ensures cut { IfOk result (λ answer. ran.reply ≡ Err OpRefused.PowerCut → AnswersCut C.begins C.picks power (remains_of rest (map words_of ran.areas.items) ran.begun) choose.old answer) }
    ensures refused { IfOk result (λ answer. (f : Refused) → ran.reply ≡ Err f → f ≢ OpRefused.PowerCut → (contents : List (List ℕ)) → outcome_with answer contents ≡ refused_outcome (refusal_text f)) }
    ensures sizes { IfOk result (HasSizes rest.sizes) }
{
    let Ran {
        areas,
        begun,
        reply,
    } = ran;
    let labels = into_words(alloc, areas)?;
    let remains = remaining(rest, labels, begun);
    match reply {
        Ok(()) => done_answer(alloc, remains, choose),
        Err(refused) => {
            if is_cut(refused) {
                cut_answer(alloc, power, remains, choose)
            } else {
                refusing_answer(alloc, refused)
            }
        }
    }
}

/// The answer to a command on a registry that was recovered, under a fuse.
fn command_answer<C: Chooser>(
    alloc: Global,
    registry: Registry,
    fuse: Fuse,
    change: &Command,
    power: Power,
    rest: OutlineRest,
    choose: &mut C,
) -> Result<Answer, AllocError>
    requires fresh { IsFresh registry }
    requires run { CanRun registry.sets registry.areas rest change.now }
    requires given { power.steps ≡ None → fuse ≡ None }
    ensures refused { IfOk result (λ answer. (contents : List (List ℕ)) (f : Refused) → refusal_of (shown registry.sets registry.areas) change.now ≡ Some f → outcome_with answer contents ≡ refused_outcome (refusal_text f)) }
    ensures went { IfOk result (λ answer. (contents : List (List ℕ)) → HoldSets registry.sets contents → refusal_of (shown registry.sets registry.areas) change.now ≡ None
        → GoesOn (LeavesBy C.begins C.picks choose.old) (objects_for (makes_sectors change.now) rest contents) power registry.sets registry.areas (words_for (makes_sectors change.now) contents) fuse change.now (outcome_with answer contents)) }
    ensures sizes { IfOk result (HasSizes rest.sizes) }
{
    let mut fuse = fuse;
    let ran = run_command(alloc, registry, &mut fuse, change)?;
    reply_answer(alloc, ran, power, rest, choose)
}

/// The answer after a crash in recovery, with the label areas after it.
fn stopped_answer<C: Chooser>(
    alloc: Global,
    power: Power,
    rest: OutlineRest,
    areas: Vec<Area>,
    choose: &mut C,
) -> Result<Answer, AllocError>
    requires areas { AreOf rest (map words_of areas.items) }
    requires given { power.steps ≢ None }
    ensures cut { IfOk result (AnswersCut C.begins C.picks power (remains_of rest (map words_of areas.items) None) choose.old) }
    ensures sizes { IfOk result (HasSizes rest.sizes) }
{
    let labels = into_words(alloc, areas)?;
    let remains = remaining(rest, labels, None);
    cut_answer(alloc, power, remains, choose)
}

/// The answer to a command on a registry that is opened: recovery first.
fn opened_answer<C: Chooser>(
    alloc: Global,
    registry: Registry,
    change: &Command,
    power: Power,
    rest: OutlineRest,
    choose: &mut C,
) -> Result<Answer, AllocError>
    requires fresh { IsFresh registry }
    requires run { CanRun registry.sets registry.areas rest change.now }
    ensures comes { IfOk result (λ answer. (contents : List (List ℕ)) → HoldSets registry.sets contents
        → GoesFrom (LeavesBy C.begins C.picks choose.old) (objects_by rest contents) (objects_for (makes_sectors change.now) rest contents) power registry.sets registry.areas (words_for (makes_sectors change.now) contents) change.now (outcome_with answer contents)) }
    ensures sizes { IfOk result (HasSizes rest.sizes) }
{
    let mut registry = registry;
    let mut fuse = fuse_of(power);
    match registry.recover(&mut fuse) {
        Ok(()) => command_answer(alloc, registry, fuse, change, power, rest, choose),
        Err(PowerCut) => stopped_answer(alloc, power, rest, registry.into_areas(), choose),
    }
}

/// The answer to a command on a set of which this is the table's meaning, these are the label areas, and this is the rest.
fn parted_answer<C: Chooser>(
    alloc: Global,
    nfit: Nfit,
    labels: Items<Option<CutWords>>,
    change: &Command,
    power: Power,
    rest: OutlineRest,
    choose: &mut C,
) -> Result<Answer, AllocError>
    requires parted { IsParted nfit labels rest }
    requires name { HasGoodName change.now }
    ensures comes { IfOk result (λ answer. (contents : List (List ℕ)) → map (λ row. length row) contents ≡ rest.sizes
        → ChangeComes (LeavesBy C.begins C.picks choose.old) change.now power (set_parted nfit labels rest contents) (outcome_with answer contents)) }
    ensures sizes { IfOk result (HasSizes rest.sizes) }
{
    loaded_sets_are_usable();
    let areas = open_areas(alloc, labels)?;
    match Registry::open_all(alloc, nfit, areas) {
        Ok(registry) => opened_answer(alloc, registry, change, power, rest, choose),
        Err(fault) => faulty_answer(alloc, fault),
    }
}

/// The answer of `create`, `delete` or `rename` on an image set: `ok` and the set with the changes of recovery and of the
/// command; `cut N` and its state after a crash N steps into these; or the first reason for which the command
/// is refused once recovery has made its changes, which saves nothing; or the first region that is no interleave set, or
/// the least two UUIDs of which extents meet. A command that makes sectors formats an arena in the contents, between
/// recovery and its labels: the steps are counted, and the words are put in while the contents are copied. Contents outside
/// the namespace's extents are saved as they are. All work burns one fuse.
/// If power is cut the chooser is begun once, and asked about the label areas by module and then about the contents.
/// (UEFI 2.10, sections 6.2 and 13.19; the refusals, the order of the work and recovery are this project's rules.)
///
/// The set was read but for its contents, which have the sizes that were found. A name that the command gives has no zero
/// byte. The one error is out of memory.
pub fn change_answer<C: Chooser>(
    alloc: Global,
    change: &Command,
    power: Power,
    outline: Outline,
    choose: &mut C,
) -> Result<Answer, AllocError>
    requires read { IsOutlined outline }
    requires loadable { IsLoadable outline }
    requires name { HasGoodName change.now }
    ensures comes { IfOk result (λ answer. (contents : List (List ℕ)) → map (λ row. length row) contents ≡ outline.sizes
        → ChangeComes (LeavesBy C.begins C.picks choose.old) change.now power (image_set_with outline contents) (outcome_with answer contents)) }
    ensures sizes { IfOk result (HasSizes outline.sizes) }
{
    let Outline {
        nfit,
        nfit_bytes,
        labels,
        sizes,
        bad,
    } = outline;
    let rest = OutlineRest {
        nfit_bytes,
        sizes,
        bad,
    };
    parted_answer(alloc, nfit, labels, change, power, rest, choose)
}
