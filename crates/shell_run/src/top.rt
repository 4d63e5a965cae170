ghost use Rattle.std.specs.Prelude.{◌≡◌, ◌≢◌, ◌⊎◌, ◌++◌, ◌≤◌, ◌<◌, ◌^◌, ℕ, List, codes, length, map, string_bytes, true, false, IfOk, IsSome, IsTrue, OnErr, OnOk, None, Ok, Err, Option};
ghost use Rattle.std.specs.Option.{ForSome};
ghost use Rattle.std.specs.Io.KnownBytes.{Appends};
ghost use Rattle.nvd_media.specs.Causes.{LeavesOutside, Rose};
ghost use Rattle.nvd_media.specs.Images.{Images, Becomes, IsEmptySet, IsUnfinished, Keeps};
ghost use Rattle.image_set.specs.Outline.{HasContents, IsLoadable, IsOutlined, image_set_with};
ghost use Rattle.shell_reports.specs.Labels.{labels_outcome};
ghost use Rattle.shell_reports.specs.List.{list_outcome};
ghost use Rattle.shell_reports.specs.LoadFaults.{load_outcome};
ghost use Rattle.shell_reports.specs.Nfit.{nfit_outcome};
ghost use Rattle.shell_reports.specs.Outcome.{Outcome, lf, status_of};
ghost use Rattle.shell_reports.specs.Saved.{Saves};
ghost use Rattle.shell_reports.specs.Sectors.{info_outcome, read_outcome};
ghost use Rattle.shell_changes.specs.Answers.{ComesFrom, HasSizes, outcome_with};
ghost use Rattle.shell_changes.specs.Remains.{LeavesBy};
ghost use Rattle.shell_changes.specs.Saved.{AreSaved, HasContentsOf, Stores, copies_contents};
ghost use Rattle.shell_export.specs.Printing.{IsPrinted};
ghost use Rattle.shell_import.specs.Import.{ImportComes};
ghost use Rattle.shell_replay.specs.Replay.{ReplayComes};
ghost use Rattle.shell_set_check.specs.Whole.{set_check_outcome};
ghost use Rattle.shell_run.specs.Scripts.{script_outcome};
ghost use Rattle.shell_run.specs.Run.{AppendsPart, ComesTold, Ends, Holds, IsAnswered, IsDue, IsPlain, LeavesScript, LoadedComes, OnImages, OnSource, checks_set, copies, copies_by, has_sessions, reads_script, streams, streams_by};
ghost use Rattle.shell_run.specs.Printed.{EndsPrinting, HoldsPrinted, IsMisused, IsReported, IsUnloaded, Streams, StreamsFrom};
ghost use Rattle.shell_run.specs.Words.{HasGoodValues};

use crate::scripts::{ScriptRefused, ScriptStop, read_bytes, read_schedule, script_answer};
use crate::sessions::{Tools, carry_out_any};
use crate::words::{CommandLine, command_from};
use command_words::WordsFault;
use image_set::{CopyFault, LoadFault, Outline, load_outline};
use lane_calls::Waiting;
use nvd_media::{Chooser, Gate, ImageSink, ImageSource, TextSink, TextSource};
use shell_changes::{Answer, SavedSet, change_answer, in_memory, init_answer, without_set};
use shell_check::check_answer;
use shell_export::export_answer;
use shell_import::import_answer;
use shell_replay::{Schedule, replay_answer};
use shell_reports::{
    Ending, Report, RunStop, Status, labels_answer, list_answer, load_answer, nfit_answer,
    usage_answer,
};
use shell_rescue::rescue_answer;
use shell_sectors::{info_answer, read_answer, write_answer};
use shell_set_check::{set_check_answer, set_repair_answer};
use std::alloc::{AllocError, Global};
use std::sync::Wait;
use std::thread::Threads;
use uuid::Uuid;

/// The answer of a handler that saves nothing.
fn reported(report: Result<Report, AllocError>) -> Result<Answer, AllocError>
    ensures same { IfOk result (λ answer. report ≡ Ok answer.report) }
    ensures saved { IfOk result (λ answer. answer.saved ≡ None) }
{
    match report {
        Ok(report) => Ok(without_set(report)),
        Err(error) => Err(error),
    }
}

/// The answer of `labels`.
fn labels_found(alloc: Global, module: u32, outline: &Outline) -> Result<Answer, AllocError>
    requires { IsOutlined outline.now }
    ensures comes { IfOk result (λ answer. (contents : List (List ℕ)) → outcome_with answer contents ≡ labels_outcome «module» (image_set_with outline.now contents)) }
    ensures saved { IfOk result (λ answer. answer.saved ≡ None) }
{
    let report = labels_answer(alloc, module, outline)?;
    Ok(without_set(report))
}

/// The answer of `nfit`.
fn table_found(alloc: Global, outline: &Outline) -> Result<Answer, AllocError>
    requires { IsOutlined outline.now }
    ensures comes { IfOk result (λ answer. (contents : List (List ℕ)) → outcome_with answer contents ≡ nfit_outcome (image_set_with outline.now contents)) }
    ensures saved { IfOk result (λ answer. answer.saved ≡ None) }
{
    let report = nfit_answer(alloc, &outline.nfit)?;
    Ok(without_set(report))
}

/// The answer of `list`.
fn list_found(alloc: Global, outline: Outline) -> Result<Answer, AllocError>
    requires { IsOutlined outline }
    ensures comes { IfOk result (λ answer. (contents : List (List ℕ)) → outcome_with answer contents ≡ list_outcome (image_set_with outline contents)) }
    ensures saved { IfOk result (λ answer. answer.saved ≡ None) }
{
    let report = list_answer(alloc, outline)?;
    Ok(without_set(report))
}

/// The answer of `info`, whose arenas are read from the source.
fn arenas_found<S: ImageSource>(
    alloc: Global,
    uuid: &Uuid,
    outline: Outline,
    images: &mut S,
) -> Result<Answer, RunStop>
    requires sound { IsOutlined outline }
    requires loadable { IsLoadable outline }
    requires there { ForSome (S.held images.old) (HasContents outline.sizes) }
    ensures comes { IfOk result (OnSource (λ loaded outcome. outcome ≡ info_outcome uuid.now loaded) (S.held images.old) outline) }
    ensures saved { IfOk result (λ answer. answer.saved ≡ None) }
    ensures same { S.held images.new ≡ S.held images.old }
    ensures failed { result ≡ Err RunStop.ReadFault → Rose (S.faults images.old) (S.faults images.new) }
    ensures later { S.faults images.old ≤ S.faults images.new }
{
    match info_answer(alloc, uuid, outline, images) {
        Ok(report) => Ok(without_set(report)),
        Err(stop) => Err(stop),
    }
}

/// The answer of `read`, whose arenas and sector are read from the source.
fn sector_found<S: ImageSource>(
    alloc: Global,
    uuid: &Uuid,
    sector: u64,
    outline: Outline,
    images: &mut S,
) -> Result<Answer, RunStop>
    requires sound { IsOutlined outline }
    requires loadable { IsLoadable outline }
    requires there { ForSome (S.held images.old) (HasContents outline.sizes) }
    ensures comes { IfOk result (OnSource (λ loaded outcome. outcome ≡ read_outcome uuid.now sector loaded) (S.held images.old) outline) }
    ensures saved { IfOk result (λ answer. answer.saved ≡ None) }
    ensures same { S.held images.new ≡ S.held images.old }
    ensures failed { result ≡ Err RunStop.ReadFault → Rose (S.faults images.old) (S.faults images.new) }
    ensures later { S.faults images.old ≤ S.faults images.new }
{
    match read_answer(alloc, uuid, sector, outline, images) {
        Ok(report) => Ok(without_set(report)),
        Err(stop) => Err(stop),
    }
}

/// Whether a command reads the script.
fn reads_script(command: &CommandLine) -> bool
    ensures { result ≡ reads_script command.now }
{
    match command {
        CommandLine::Labels(_) => false,
        CommandLine::Nfit => false,
        CommandLine::List => false,
        CommandLine::Init(_, _) => false,
        CommandLine::Change(_, _) => false,
        CommandLine::Info(_) => false,
        CommandLine::Check(_, _) => false,
        CommandLine::CheckSet => false,
        CommandLine::RepairSet => false,
        CommandLine::Read(_, _) => false,
        CommandLine::Write(_, _, _) => false,
        CommandLine::Replay(_, _) => true,
        CommandLine::Export(_, _) => false,
        CommandLine::Rescue(_, _) => false,
        CommandLine::Import(_) => true,
        CommandLine::Serve(_) => true,
        CommandLine::Load(_, _) => false,
    }
}

/// Whether a command starts sessions.
pub fn has_sessions(command: &CommandLine) -> bool
    ensures { result ≡ has_sessions command.now }
{
    match command {
        CommandLine::Labels(_) => false,
        CommandLine::Nfit => false,
        CommandLine::List => false,
        CommandLine::Init(_, _) => false,
        CommandLine::Change(_, _) => false,
        CommandLine::Info(_) => false,
        CommandLine::Check(_, _) => false,
        CommandLine::CheckSet => false,
        CommandLine::RepairSet => false,
        CommandLine::Read(_, _) => false,
        CommandLine::Write(_, _, _) => false,
        CommandLine::Replay(_, _) => false,
        CommandLine::Export(_, _) => false,
        CommandLine::Rescue(_, _) => false,
        CommandLine::Import(_) => false,
        CommandLine::Serve(_) => true,
        CommandLine::Load(_, _) => true,
    }
}

/// What a command without a script comes to on the set that it loads but for its contents. What it needs of these it reads from
/// the source.
fn outlined_answer<S: ImageSource, C: Chooser>(
    alloc: Global,
    command: CommandLine,
    outline: Outline,
    images: &mut S,
    choose: &mut C,
) -> Result<Answer, RunStop>
    requires sound { IsOutlined outline }
    requires loadable { IsLoadable outline }
    requires there { ForSome (S.held images.old) (HasContents outline.sizes) }
    requires name { HasGoodValues command }
    requires plain { IsPlain command }
    requires alone { has_sessions command ≡ false }
    ensures comes { IfOk result (OnSource (LoadedComes (LeavesBy C.begins C.picks choose.old) command) (S.held images.old) outline) }
    ensures sizes { IfOk result (HasSizes outline.sizes) }
    ensures copying { IfOk result (λ answer. IsTrue (copies_contents answer.saved) → IsTrue (copies command)) }
    ensures same { S.held images.new ≡ S.held images.old }
    ensures failed { result ≡ Err RunStop.ReadFault → Rose (S.faults images.old) (S.faults images.new) }
    ensures later { S.faults images.old ≤ S.faults images.new }
{
    match command {
        CommandLine::Labels(module) => in_memory(labels_found(alloc, module, &outline)),
        CommandLine::Nfit => in_memory(table_found(alloc, &outline)),
        CommandLine::List => in_memory(list_found(alloc, outline)),
        CommandLine::Init(module, power) => {
            in_memory(init_answer(alloc, module, power, outline, choose))
        }
        CommandLine::Change(change, power) => {
            in_memory(change_answer(alloc, &change, power, outline, choose))
        }
        CommandLine::Info(uuid) => arenas_found(alloc, &uuid, outline, images),
        CommandLine::Check(uuid, repair) => { check_answer(alloc, &uuid, repair, outline, images) }
        CommandLine::CheckSet => unreachable!(),
        CommandLine::RepairSet => set_repair_answer(alloc, outline, images),
        CommandLine::Read(uuid, sector) => sector_found(alloc, &uuid, sector, outline, images),
        CommandLine::Write(uuid, sector, value) => {
            write_answer(alloc, &uuid, sector, value, outline, images)
        }
        CommandLine::Replay(_, _) => unreachable!(),
        CommandLine::Export(_, _) => unreachable!(),
        CommandLine::Rescue(_, _) => unreachable!(),
        CommandLine::Import(_) => unreachable!(),
        CommandLine::Serve(_) => unreachable!(),
        CommandLine::Load(_, _) => unreachable!(),
    }
}

/// The answer on a set that isn't loaded, or the stop if that is no finding about its objects.
pub(crate) fn unloaded(alloc: Global, fault: LoadFault) -> Result<Answer, RunStop>
    ensures text { IfOk result (λ answer. (contents : List (List ℕ)) → outcome_with answer contents ≡ load_outcome fault) }
    ensures saved { IfOk result (λ answer. answer.saved ≡ None) }
    ensures source { IfOk result (λ _. fault ≢ LoadFault.ReadFault) }
    ensures memory { IfOk result (λ _. fault ≢ LoadFault.OutOfMemory) }
    ensures failed { result ≡ Err RunStop.ReadFault → fault ≡ LoadFault.ReadFault }
{
    match fault {
        LoadFault::ReadFault => Err(RunStop::ReadFault),
        LoadFault::OutOfMemory => Err(RunStop::OutOfMemory),
        _ => in_memory(reported(load_answer(alloc, fault))),
    }
}

/// What a command without a script comes to: the set is loaded but for its contents.
fn perform_outlined<S: ImageSource, C: Chooser>(
    alloc: Global,
    command: CommandLine,
    images: &mut S,
    choose: &mut C,
) -> Result<Answer, RunStop>
    requires name { HasGoodValues command }
    requires plain { IsPlain command }
    requires alone { has_sessions command ≡ false }
    ensures told { IfOk result (λ answer. (outcome : Outcome) → ComesFrom (S.held images.old) answer outcome → OnImages (LoadedComes (LeavesBy C.begins C.picks choose.old) command) (S.held images.old) outcome) }
    ensures copying { IfOk result (λ answer. IsTrue (copies_contents answer.saved) → IsTrue (copies command)) }
    ensures there { IfOk result (λ answer. HasContentsOf (S.held images.old) answer.saved) }
    ensures same { S.held images.new ≡ S.held images.old }
    ensures failed { result ≡ Err RunStop.ReadFault → Rose (S.faults images.old) (S.faults images.new) }
    ensures later { S.faults images.old ≤ S.faults images.new }
{
    match load_outline(alloc, images) {
        Ok(outline) => outlined_answer(alloc, command, outline, images, choose),
        Err(fault) => unloaded(alloc, fault),
    }
}

/// What `replay` comes to once its schedule is read: the set is loaded but for its contents.
fn replay_outlined<S: ImageSource, C: Chooser>(
    alloc: Global,
    uuid: &Uuid,
    schedule: &Schedule,
    images: &mut S,
    choose: &mut C,
) -> Result<Answer, RunStop>
    requires few { length schedule.now.lines < 2 ^ 32 }
    ensures told { IfOk result (λ answer. (outcome : Outcome) → ComesFrom (S.held images.old) answer outcome → OnImages (ReplayComes (LeavesBy C.begins C.picks choose.old) uuid.now schedule.now) (S.held images.old) outcome) }
    ensures there { IfOk result (λ answer. HasContentsOf (S.held images.old) answer.saved) }
    ensures same { S.held images.new ≡ S.held images.old }
    ensures failed { result ≡ Err RunStop.ReadFault → Rose (S.faults images.old) (S.faults images.new) }
    ensures later { S.faults images.old ≤ S.faults images.new }
{
    match load_outline(alloc, images) {
        Ok(outline) => replay_answer(alloc, uuid, schedule, outline, images, choose),
        Err(why) => unloaded(alloc, why),
    }
}

/// The answer to a script that isn't taken.
pub(crate) fn misread(alloc: Global, why: ScriptRefused) -> Result<Answer, RunStop>
    ensures text { IfOk result (λ answer. (contents : List (List ℕ)) → outcome_with answer contents ≡ script_outcome why) }
    ensures saved { IfOk result (λ answer. answer.saved ≡ None) }
    ensures memory { result ≢ Err RunStop.ReadFault }
{
    in_memory(reported(script_answer(alloc, why)))
}

/// What `replay` comes to: its schedule is read first.
fn perform_replay<S: ImageSource, T: TextSource, C: Chooser>(
    alloc: Global,
    uuid: Uuid,
    seed: u64,
    images: &mut S,
    script: &mut T,
    choose: &mut C,
) -> Result<Answer, RunStop>
    ensures told { IfOk result (λ answer. (outcome : Outcome) → ComesFrom (S.held images.old) answer outcome → ComesTold (LeavesBy C.begins C.picks choose.old) (CommandLine.Replay uuid seed) (S.held images.old) (T.left script.old) outcome) }
    ensures copying { IfOk result (λ answer. IsTrue (copies_contents answer.saved) → IsTrue (copies (CommandLine.Replay uuid seed))) }
    ensures there { IfOk result (λ answer. HasContentsOf (S.held images.old) answer.saved) }
    ensures same { S.held images.new ≡ S.held images.old }
    ensures failed { result ≡ Err RunStop.ReadFault → Rose (S.faults images.old) (S.faults images.new) ⊎ Rose (T.faults script.old) (T.faults script.new) }
    ensures later { S.faults images.old ≤ S.faults images.new }
{
    match read_schedule(alloc, script) {
        Ok(replay) => {
            let schedule = Schedule {
                lines: replay.lines,
                seed,
            };
            replay_outlined(alloc, &uuid, &schedule, images, choose)
        }
        Err(ScriptStop::Refused(why)) => misread(alloc, why),
        Err(ScriptStop::Stop(stop)) => Err(stop),
    }
}

/// What `import` comes to once its bytes are read: the set is loaded but for its contents.
fn import_outlined<S: ImageSource>(
    alloc: Global,
    uuid: &Uuid,
    bytes: Vec<u8>,
    images: &mut S,
) -> Result<Answer, RunStop>
    ensures told { IfOk result (λ answer. (outcome : Outcome) → ComesFrom (S.held images.old) answer outcome → OnImages (ImportComes uuid.now bytes.items) (S.held images.old) outcome) }
    ensures there { IfOk result (λ answer. HasContentsOf (S.held images.old) answer.saved) }
    ensures same { S.held images.new ≡ S.held images.old }
    ensures failed { result ≡ Err RunStop.ReadFault → Rose (S.faults images.old) (S.faults images.new) }
    ensures later { S.faults images.old ≤ S.faults images.new }
{
    match load_outline(alloc, images) {
        Ok(outline) => import_answer(alloc, uuid, outline, bytes, images),
        Err(why) => unloaded(alloc, why),
    }
}

/// What `import` comes to: its bytes are read first.
fn perform_import<S: ImageSource, T: TextSource, C: Chooser>(
    alloc: Global,
    uuid: Uuid,
    images: &mut S,
    script: &mut T,
    choose: &mut C,
) -> Result<Answer, RunStop>
    ensures told { IfOk result (λ answer. (outcome : Outcome) → ComesFrom (S.held images.old) answer outcome → ComesTold (LeavesBy C.begins C.picks choose.old) (CommandLine.Import uuid) (S.held images.old) (T.left script.old) outcome) }
    ensures copying { IfOk result (λ answer. IsTrue (copies_contents answer.saved) → IsTrue (copies (CommandLine.Import uuid))) }
    ensures there { IfOk result (λ answer. HasContentsOf (S.held images.old) answer.saved) }
    ensures same { S.held images.new ≡ S.held images.old }
    ensures failed { result ≡ Err RunStop.ReadFault → Rose (S.faults images.old) (S.faults images.new) ⊎ Rose (T.faults script.old) (T.faults script.new) }
    ensures later { S.faults images.old ≤ S.faults images.new }
{
    match read_bytes(alloc, script) {
        Ok(bytes) => import_outlined(alloc, &uuid, bytes, images),
        Err(ScriptStop::Refused(why)) => misread(alloc, why),
        Err(ScriptStop::Stop(stop)) => Err(stop),
    }
}

/// What a command with a script and without sessions comes to.
fn perform_scripted<S: ImageSource, T: TextSource, C: Chooser>(
    alloc: Global,
    command: CommandLine,
    images: &mut S,
    script: &mut T,
    choose: &mut C,
) -> Result<Answer, RunStop>
    requires scripted { reads_script command ≡ true }
    requires alone { has_sessions command ≡ false }
    ensures told { IfOk result (λ answer. (outcome : Outcome) → ComesFrom (S.held images.old) answer outcome → ComesTold (LeavesBy C.begins C.picks choose.old) command (S.held images.old) (T.left script.old) outcome) }
    ensures copying { IfOk result (λ answer. IsTrue (copies_contents answer.saved) → IsTrue (copies command)) }
    ensures there { IfOk result (λ answer. HasContentsOf (S.held images.old) answer.saved) }
    ensures same { S.held images.new ≡ S.held images.old }
    ensures failed { result ≡ Err RunStop.ReadFault → Rose (S.faults images.old) (S.faults images.new) ⊎ Rose (T.faults script.old) (T.faults script.new) }
    ensures later { S.faults images.old ≤ S.faults images.new }
{
    match command {
        CommandLine::Replay(uuid, seed) => perform_replay(
            alloc, uuid, seed, images, script, choose,
        ),
        CommandLine::Import(uuid) => perform_import(alloc, uuid, images, script, choose),
        _ => unreachable!(),
    }
}

/// Whether a command checks the whole set.
fn checks_set(command: &CommandLine) -> bool
    ensures { result ≡ checks_set command.now }
{
    matches!(command, CommandLine::CheckSet)
}

/// What `check` comes to on the whole set, of which it reads what it can.
fn perform_set_check<S: ImageSource>(alloc: Global, images: &mut S) -> Result<Answer, RunStop>
    ensures told { IfOk result (λ answer. (outcome : Outcome) → ComesFrom (S.held images.old) answer outcome → ForSome (S.held images.old) (λ set. outcome ≡ set_check_outcome set)) }
    ensures saved { IfOk result (λ answer. answer.saved ≡ None) }
    ensures same { S.held images.new ≡ S.held images.old }
    ensures failed { result ≡ Err RunStop.ReadFault → Rose (S.faults images.old) (S.faults images.new) }
    ensures later { S.faults images.old ≤ S.faults images.new }
{
    match set_check_answer(alloc, images) {
        Ok(report) => Ok(without_set(report)),
        Err(stop) => Err(stop),
    }
}

/// What a command without sessions comes to that makes an answer.
fn perform<S: ImageSource, T: TextSource, C: Chooser>(
    alloc: Global,
    command: CommandLine,
    images: &mut S,
    script: &mut T,
    choose: &mut C,
) -> Result<Answer, RunStop>
    requires asked { IsAnswered command }
    requires alone { has_sessions command ≡ false }
    ensures told { IfOk result (λ answer. (outcome : Outcome) → ComesFrom (S.held images.old) answer outcome → ComesTold (LeavesBy C.begins C.picks choose.old) command (S.held images.old) (T.left script.old) outcome) }
    ensures copying { IfOk result (λ answer. IsTrue (copies_contents answer.saved) → IsTrue (copies command)) }
    ensures there { IfOk result (λ answer. HasContentsOf (S.held images.old) answer.saved) }
    ensures same { S.held images.new ≡ S.held images.old }
    ensures unread { reads_script command ≡ false → T.left script.new ≡ T.left script.old }
    ensures failed { result ≡ Err RunStop.ReadFault → Rose (S.faults images.old) (S.faults images.new) ⊎ Rose (T.faults script.old) (T.faults script.new) }
    ensures later { S.faults images.old ≤ S.faults images.new }
{
    if reads_script(&command) {
        perform_scripted(alloc, command, images, script, choose)
    } else if checks_set(&command) {
        perform_set_check(alloc, images)
    } else {
        perform_outlined(alloc, command, images, choose)
    }
}

/// Saves an image set, if there is one.
fn save_if<S: ImageSource, K: ImageSink>(
    alloc: Global,
    saved: Option<SavedSet>,
    images: &mut S,
    out: &mut K,
) -> Result<(), CopyFault>
    requires empty { ForSome (K.made out.old) IsEmptySet }
    requires there { HasContentsOf (S.held images.old) saved }
    ensures saved { OnOk result ((set : Option Images) × AreSaved (S.held images.old) saved set × Saves set (K.made out.old) (K.made out.new) × Stores set (K.kept out.old) (K.kept out.new)) }
    ensures unread { result ≡ Err CopyFault.ReadFault → IsTrue (copies_contents saved) × Becomes (K.made out.old) (K.made out.new) IsUnfinished }
    ensures unwritten { result ≡ Err CopyFault.WriteFault → IsSome saved × Becomes (K.made out.old) (K.made out.new) IsUnfinished }
    ensures memory { result ≡ Err CopyFault.OutOfMemory → K.made out.new ≡ K.made out.old }
    ensures outside { LeavesOutside (S.held images.old) (S.held images.new) (S.faults images.old) (S.faults images.new) (K.faults out.old) (K.faults out.new) result CopyFault.ReadFault CopyFault.WriteFault }
{
    match saved {
        Some(set) => set.save(alloc, images, out),
        None => Ok(()),
    }
}

/// Prints the text of an answer whose image set, if it has one, is saved.
fn printed<O: TextSink>(ending: Ending, bytes: &[u8], text: &mut O) -> Status
    ensures all { result ≡ status_of ending → Appends (O.written text.old) (O.written text.new) bytes.now }
    ensures stored { result ≡ status_of ending → Keeps (O.kept text.old) (O.kept text.new) (λ was now. now ≡ was ++ bytes.now) }
    ensures part { result ≢ status_of ending → (result ≡ Status.WriteFault) × AppendsPart (O.written text.old) (O.written text.new) bytes.now }
    ensures failed { result ≡ Status.WriteFault → Rose (O.faults text.old) (O.faults text.new) }
{
    match text.write(bytes) {
        Ok(()) => ending.status(),
        Err(_) => Status::WriteFault,
    }
}

/// Ends a run that has no answer.
pub(crate) fn stopped<O: TextSink>(stop: RunStop, text: &mut O) -> Status
    ensures memory { stop ≡ RunStop.OutOfMemory → (result ≡ Status.OutOfMemory) × (O.written text.new ≡ O.written text.old) }
    ensures read { stop ≡ RunStop.ReadFault → ((result ≡ Status.WriteFault) × AppendsPart (O.written text.old) (O.written text.new) (codes "read fault" ++ lf)) ⊎ ((result ≡ Status.ReadFault) × Appends (O.written text.old) (O.written text.new) (codes "read fault" ++ lf)) }
    ensures failed { result ≡ Status.WriteFault → Rose (O.faults text.old) (O.faults text.new) }
{
    match stop {
        RunStop::OutOfMemory => Status::OutOfMemory,
        RunStop::ReadFault => match text.write(b"read fault\n") {
            Ok(()) => Status::ReadFault,
            Err(_) => Status::WriteFault,
        },
    }
}

/// Saves the image set of an answer, if it has one, and then prints its text. If the source fails as contents are
/// copied the set isn't finished, and the text is `read fault`.
#[tactic(auto, using(crate::proofs::Ending::endings))]
pub(crate) fn conclude<S: ImageSource, K: ImageSink, O: TextSink>(
    alloc: Global,
    answer: Answer,
    images: &mut S,
    out: &mut K,
    text: &mut O,
) -> Status
    requires empty { ForSome (K.made out.old) IsEmptySet }
    requires there { HasContentsOf (S.held images.old) answer.saved }
    ensures ends { Ends (Rose (S.faults images.old) (S.faults images.new)) (copies_contents answer.saved) false (ComesFrom (S.held images.old) answer) (K.made out.old) (K.made out.new) (O.written text.old) (O.written text.new) result }
    ensures stored { Holds (ComesFrom (S.held images.old) answer) (K.kept out.old) (K.kept out.new) (O.kept text.old) (O.kept text.new) result }
    ensures read { result ≡ Status.ReadFault → Rose (S.faults images.old) (S.faults images.new) }
    ensures failed { result ≡ Status.WriteFault → Rose (K.faults out.old) (K.faults out.new) ⊎ Rose (O.faults text.old) (O.faults text.new) }
    ensures same { S.held images.new ≡ S.held images.old }
{
    let Answer { report, saved } = answer;
    let Report {
        ending,
        text: bytes,
    } = report;
    match save_if(alloc, saved, images, out) {
        Ok(()) => printed(ending, &bytes, text),
        Err(CopyFault::ReadFault) => stopped(RunStop::ReadFault, text),
        Err(CopyFault::WriteFault) => Status::WriteFault,
        Err(CopyFault::OutOfMemory) => Status::OutOfMemory,
    }
}

/// Carries out a command without sessions that makes an answer: its image set, if it has one, is saved, and then its text is printed.
fn answer<S: ImageSource, T: TextSource, K: ImageSink, O: TextSink, C: Chooser>(
    alloc: Global,
    command: CommandLine,
    images: &mut S,
    script: &mut T,
    out: &mut K,
    text: &mut O,
    choose: &mut C,
) -> Status
    requires empty { ForSome (K.made out.old) IsEmptySet }
    requires asked { IsAnswered command }
    requires alone { has_sessions command ≡ false }
    ensures ends { Ends (Rose (S.faults images.old) (S.faults images.new) ⊎ Rose (T.faults script.old) (T.faults script.new)) (copies command) (streams command) (ComesTold (LeavesBy C.begins C.picks choose.old) command (S.held images.old) (T.left script.old))
        (K.made out.old) (K.made out.new) (O.written text.old) (O.written text.new) result }
    ensures stored { Holds (ComesTold (LeavesBy C.begins C.picks choose.old) command (S.held images.old) (T.left script.old)) (K.kept out.old) (K.kept out.new) (O.kept text.old) (O.kept text.new) result }
    ensures read { result ≡ Status.ReadFault → Rose (S.faults images.old) (S.faults images.new) ⊎ Rose (T.faults script.old) (T.faults script.new) }
    ensures failed { result ≡ Status.WriteFault → Rose (K.faults out.old) (K.faults out.new) ⊎ Rose (O.faults text.old) (O.faults text.new) }
    ensures same { S.held images.new ≡ S.held images.old }
    ensures unread { reads_script command ≡ false → T.left script.new ≡ T.left script.old }
{
    match perform(alloc, command, images, script, choose) {
        Ok(answer) => conclude(alloc, answer, images, out, text),
        Err(stop) => stopped(stop, text),
    }
}

/// Prints a report, which saves nothing, or ends the run if memory ran out.
fn report<O: TextSink>(report: Result<Report, AllocError>, text: &mut O) -> Status
    ensures ends { EndsPrinting ⊥ false (IsReported report) (O.written text.old) (O.written text.new) result }
    ensures stored { HoldsPrinted (IsReported report) (O.kept text.old) (O.kept text.new) result }
    ensures read { result ≢ Status.ReadFault }
    ensures failed { result ≡ Status.WriteFault → Rose (O.faults text.old) (O.faults text.new) }
{
    match report {
        Ok(report) => printed(report.ending, &report.text, text),
        Err(_) => Status::OutOfMemory,
    }
}

/// Tells why an image set isn't loaded, of a command that prints its text itself.
fn tell_unloaded<O: TextSink>(alloc: Global, fault: LoadFault, text: &mut O) -> Status
    ensures ends { EndsPrinting (fault ≡ LoadFault.ReadFault) false (IsUnloaded fault) (O.written text.old) (O.written text.new) result }
    ensures stored { HoldsPrinted (IsUnloaded fault) (O.kept text.old) (O.kept text.new) result }
    ensures read { result ≡ Status.ReadFault → fault ≡ LoadFault.ReadFault }
    ensures failed { result ≡ Status.WriteFault → Rose (O.faults text.old) (O.faults text.new) }
{
    match fault {
        LoadFault::ReadFault => stopped(RunStop::ReadFault, text),
        LoadFault::OutOfMemory => stopped(RunStop::OutOfMemory, text),
        _ => report(load_answer(alloc, fault), text),
    }
}

/// What a command prints piece by piece, as its text may be as long as the contents.
#[derive(Clone, Copy, Debug)]
enum Streamed {
    /// All bytes of a namespace; whether bad sectors count as zeros.
    Export(Uuid, bool),
    /// All bytes of a namespace that can still be read, or the list of what is lost.
    Rescue(Uuid, bool),
}

/// Prints what a command prints piece by piece, on the set that it loads but for its contents: the namespace's bytes are printed
/// as they are read.
fn stream_outlined<S: ImageSource, O: TextSink>(
    alloc: Global,
    what: Streamed,
    outline: Outline,
    images: &mut S,
    text: &mut O,
) -> Result<Status, RunStop>
    requires sound { IsOutlined outline }
    requires loadable { IsLoadable outline }
    requires there { ForSome (S.held images.old) (HasContents outline.sizes) }
    ensures printed { IfOk result (IsPrinted (StreamsFrom what (S.held images.old) outline) (O.written text.old) (O.written text.new) (O.kept text.old) (O.kept text.new)) }
    ensures nothing { OnErr result (O.written text.new ≡ O.written text.old) }
    ensures quiet { OnErr result (O.faults text.new ≡ O.faults text.old) }
    ensures same { S.held images.new ≡ S.held images.old }
    ensures later { S.faults images.old ≤ S.faults images.new }
    ensures before { result ≡ Err RunStop.ReadFault → Rose (S.faults images.old) (S.faults images.new) }
    ensures read { result ≡ Ok Status.ReadFault → Rose (S.faults images.old) (S.faults images.new) }
    ensures failed { result ≡ Ok Status.WriteFault → Rose (O.faults text.old) (O.faults text.new) }
{
    match what {
        Streamed::Export(uuid, zeros) => export_answer(alloc, &uuid, zeros, outline, images, text),
        Streamed::Rescue(uuid, listing) => {
            rescue_answer(alloc, &uuid, listing, outline, images, text)
        }
    }
}

/// The same, and why it stopped before the first byte.
fn stream_or_stop<S: ImageSource, O: TextSink>(
    alloc: Global,
    what: Streamed,
    outline: Outline,
    images: &mut S,
    text: &mut O,
) -> Status
    requires sound { IsOutlined outline }
    requires loadable { IsLoadable outline }
    requires there { ForSome (S.held images.old) (HasContents outline.sizes) }
    ensures ends { EndsPrinting (Rose (S.faults images.old) (S.faults images.new)) true (StreamsFrom what (S.held images.old) outline) (O.written text.old) (O.written text.new) result }
    ensures stored { HoldsPrinted (StreamsFrom what (S.held images.old) outline) (O.kept text.old) (O.kept text.new) result }
    ensures read { result ≡ Status.ReadFault → Rose (S.faults images.old) (S.faults images.new) }
    ensures failed { result ≡ Status.WriteFault → Rose (O.faults text.old) (O.faults text.new) }
    ensures same { S.held images.new ≡ S.held images.old }
    ensures later { S.faults images.old ≤ S.faults images.new }
{
    match stream_outlined(alloc, what, outline, images, text) {
        Ok(status) => status,
        Err(stop) => stopped(stop, text),
    }
}

/// Carries out a command that prints its text piece by piece: the set is loaded but for its contents.
fn stream<S: ImageSource, O: TextSink>(
    alloc: Global,
    what: Streamed,
    images: &mut S,
    text: &mut O,
) -> Status
    ensures ends { EndsPrinting (Rose (S.faults images.old) (S.faults images.new)) true (OnImages (Streams what) (S.held images.old)) (O.written text.old) (O.written text.new) result }
    ensures stored { HoldsPrinted (OnImages (Streams what) (S.held images.old)) (O.kept text.old) (O.kept text.new) result }
    ensures read { result ≡ Status.ReadFault → Rose (S.faults images.old) (S.faults images.new) }
    ensures failed { result ≡ Status.WriteFault → Rose (O.faults text.old) (O.faults text.new) }
    ensures same { S.held images.new ≡ S.held images.old }
{
    match load_outline(alloc, images) {
        Ok(outline) => stream_or_stop(alloc, what, outline, images, text),
        Err(fault) => tell_unloaded(alloc, fault, text),
    }
}

/// Carries out a command that starts no sessions, and returns its exit status. It waits for nobody: it always returns.
///
/// Its clauses are those of [`run`](crate::run), for a command in place of its words; [`command_from`](crate::command_from) makes
/// one, with good values.
pub fn carry_out<S: ImageSource, T: TextSource, K: ImageSink, O: TextSink, C: Chooser>(
    alloc: Global,
    command: CommandLine,
    images: &mut S,
    script: &mut T,
    out: &mut K,
    text: &mut O,
    choose: &mut C,
) -> Status
    requires empty { ForSome (K.made out.old) IsEmptySet }
    requires name { HasGoodValues command }
    requires alone { has_sessions command ≡ false }
    ensures ends { Ends (Rose (S.faults images.old) (S.faults images.new) ⊎ Rose (T.faults script.old) (T.faults script.new)) (copies command) (streams command) (ComesTold (LeavesBy C.begins C.picks choose.old) command (S.held images.old) (T.left script.old))
        (K.made out.old) (K.made out.new) (O.written text.old) (O.written text.new) result }
    ensures stored { Holds (ComesTold (LeavesBy C.begins C.picks choose.old) command (S.held images.old) (T.left script.old)) (K.kept out.old) (K.kept out.new) (O.kept text.old) (O.kept text.new) result }
    ensures read { result ≡ Status.ReadFault → Rose (S.faults images.old) (S.faults images.new) ⊎ Rose (T.faults script.old) (T.faults script.new) }
    ensures failed { result ≡ Status.WriteFault → Rose (K.faults out.old) (K.faults out.new) ⊎ Rose (O.faults text.old) (O.faults text.new) }
    ensures same { S.held images.new ≡ S.held images.old }
    ensures unread { reads_script command ≡ false → T.left script.new ≡ T.left script.old }
{
    match command {
        CommandLine::Export(uuid, zeros) => {
            stream(alloc, Streamed::Export(uuid, zeros), images, text)
        }
        CommandLine::Rescue(uuid, listing) => {
            stream(alloc, Streamed::Rescue(uuid, listing), images, text)
        }
        _ => answer(alloc, command, images, script, out, text, choose),
    }
}

/// Answers words that aren't a command line, or ends the run if memory ran out.
fn misused<O: TextSink>(alloc: Global, fault: WordsFault, text: &mut O) -> Status
    ensures ends { EndsPrinting ⊥ false (IsMisused fault) (O.written text.old) (O.written text.new) result }
    ensures stored { HoldsPrinted (IsMisused fault) (O.kept text.old) (O.kept text.new) result }
    ensures read { result ≢ Status.ReadFault }
    ensures failed { result ≡ Status.WriteFault → Rose (O.faults text.old) (O.faults text.new) }
{
    match fault {
        WordsFault::Usage => report(usage_answer(alloc), text),
        WordsFault::OutOfMemory => Status::OutOfMemory,
    }
}

/// Carries out a command, and returns its exit status.
///
/// The words are those after the two directories of the command line: the command's name and its arguments. Nothing was
/// written to `out` before, if it tells.
///
/// - `ends`: the text and the saved set are those that are due for the words, the images and the script, as far as these
///   are told (`specs/Run.antt`). A command with a script reads it to its end before it loads the images. The table of statuses says which status is due (`status_is_due`). After 5 the text is
///   `read fault`, or a front of the text that is due, of a command that prints it piece by piece (`streams`); and nothing was
///   written, or a set that isn't finished, of a command that copies contents as it saves (`copies`). After 6 the set isn't finished, or the text stopped before its end. 7 means out of memory, may always come,
///   and prints nothing. If power is cut, the chooser is begun once and picks what survives.
/// - `stored`: after 0, 2, 3, 4 and 8, sinks that tell that they stored everything hold the set and the text that are due.
/// - `read_fault`, `write_fault`: 5 comes only if the count of faults of the images or of the script rose in this call, 6
///   only if that of `out` or of the text did.
/// - `kept`, `unread`: the images are never written. A script that the command doesn't read is left as it was.
#[tactic(auto, using(crate::proofs::Ending::endings))]
pub fn run<
    R: Threads + Wait + Sync,
    S: ImageSource,
    T: TextSource,
    K: ImageSink,
    O: TextSink,
    C: Chooser,
    G: Gate,
>(
    rt: &R,
    alloc: Global,
    words: &[String],
    images: &mut S,
    script: &mut T,
    out: &mut K,
    text: &mut O,
    choose: &mut C,
    gate: &G,
) -> Status
    requires { ForSome (K.made out.old) IsEmptySet }
    ensures ends { Ends (Rose (S.faults images.old) (S.faults images.new) ⊎ Rose (T.faults script.old) (T.faults script.new)) (copies_by (map string_bytes words.now)) (streams_by (map string_bytes words.now)) (IsDue (LeavesBy C.begins C.picks choose.old) (map string_bytes words.now) (S.held images.old) (T.left script.old))
        (K.made out.old) (K.made out.new) (O.written text.old) (O.written text.new) result }
    ensures stored { Holds (IsDue (LeavesBy C.begins C.picks choose.old) (map string_bytes words.now) (S.held images.old) (T.left script.old)) (K.kept out.old) (K.kept out.new) (O.kept text.old) (O.kept text.new) result }
    ensures read_fault { result ≡ Status.ReadFault → Rose (S.faults images.old) (S.faults images.new) ⊎ Rose (T.faults script.old) (T.faults script.new) }
    ensures write_fault { result ≡ Status.WriteFault → Rose (K.faults out.old) (K.faults out.new) ⊎ Rose (O.faults text.old) (O.faults text.new) }
    ensures kept { S.held images.new ≡ S.held images.old }
    ensures unread { LeavesScript (map string_bytes words.now) (T.left script.old) (T.left script.new) }
{
    match command_from(alloc, words) {
        Ok(command) => {
            let waiting = Waiting { rt, gate };
            let tools = Tools { waiting, alloc };
            carry_out_any(&tools, command, images, script, out, text, choose)
        }
        Err(fault) => misused(alloc, fault, text),
    }
}
