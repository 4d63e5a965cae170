//! The commands that start sessions, which may wait for one another: `serve` and `load`. No other command waits.
ghost use Rattle.std.specs.Prelude.{◌≡◌, ◌⊎◌, ◌≤◌, ◌<◌, false, true, IfOk, Err};
ghost use Rattle.std.specs.Option.{ForSome};
ghost use Rattle.nvd_media.specs.Causes.{Rose};
ghost use Rattle.nvd_media.specs.Images.{IsEmptySet};
ghost use Rattle.shell_reports.specs.Outcome.{Outcome};
ghost use Rattle.shell_changes.specs.Answers.{ComesFrom};
ghost use Rattle.shell_changes.specs.Remains.{LeavesBy};
ghost use Rattle.shell_changes.specs.Saved.{HasContentsOf};
ghost use Rattle.session_script.specs.Names.{ScriptHasText};
ghost use Rattle.shell_serve.specs.Load.{LoadComes};
ghost use Rattle.shell_serve.specs.Serve.{ServeComes};
ghost use Rattle.shell_run.specs.Run.{ComesTold, Ends, Holds, OnImages, copies, has_sessions, reads_script, streams};
ghost use Rattle.shell_run.specs.Words.{HasGoodValues};

use crate::scripts::{ScriptStop, read_sessions};
use crate::top::{carry_out, conclude, has_sessions, misread, stopped, unloaded};
use crate::words::CommandLine;
use image_set::load_outline;
use lane_calls::Waiting;
use nvd_media::{Chooser, Gate, ImageSink, ImageSource, TextSink, TextSource};
use session_script::Script;
use shell_changes::Answer;
use shell_reports::{RunStop, Status};
use shell_serve::{Load, Running, load_answer, serve_answer};
use std::alloc::{AllocError, Global};
use std::sync::Wait;
use std::thread::Threads;

/// Where threads and memory come from.
#[derive(Drop)]
pub(crate) struct Tools<'a, R: Threads + Wait + Sync, G: Gate> {
    pub(crate) waiting: Waiting<'a, R, G>,
    pub(crate) alloc: Global,
}

/// What `load` comes to: the set is loaded but for its contents.
fn perform_load<R: Threads + Wait + Sync, S: ImageSource, C: Chooser, G: Gate>(
    waiting: &Waiting<R, G>,
    alloc: Global,
    work: &Load,
    workers: u32,
    images: &mut S,
    choose: &mut C,
) -> Result<Answer, RunStop>
    requires workers { 0 < workers }
    requires some { 0 < work.now.sessions }
    ensures told { IfOk result (λ answer. (outcome : Outcome) → ComesFrom (S.held images.old) answer outcome → OnImages (LoadComes (LeavesBy C.begins C.picks choose.old 0) work.now) (S.held images.old) outcome) }
    ensures there { IfOk result (λ answer. HasContentsOf (S.held images.old) answer.saved) }
    ensures same { S.held images.new ≡ S.held images.old }
    ensures failed { result ≡ Err RunStop.ReadFault → Rose (S.faults images.old) (S.faults images.new) }
    ensures later { S.faults images.old ≤ S.faults images.new }
{
    let running = Running { workers, seed: 0 };
    match load_outline(alloc, images) {
        Ok(outline) => load_answer(waiting, alloc, running, work, outline, images, choose),
        Err(why) => unloaded(alloc, why),
    }
}

/// What `serve` comes to once its script is read: the set is loaded but for its contents.
fn serve_outlined<R: Threads + Wait + Sync, S: ImageSource, C: Chooser, G: Gate>(
    waiting: &Waiting<R, G>,
    alloc: Global,
    running: Running,
    script: &Script,
    images: &mut S,
    choose: &mut C,
) -> Result<Answer, RunStop>
    requires workers { 0 < running.workers }
    requires text { ScriptHasText script.now }
    ensures told { IfOk result (λ answer. (outcome : Outcome) → ComesFrom (S.held images.old) answer outcome → OnImages (ServeComes (LeavesBy C.begins C.picks choose.old running.seed) script.now) (S.held images.old) outcome) }
    ensures there { IfOk result (λ answer. HasContentsOf (S.held images.old) answer.saved) }
    ensures same { S.held images.new ≡ S.held images.old }
    ensures failed { result ≡ Err RunStop.ReadFault → Rose (S.faults images.old) (S.faults images.new) }
    ensures later { S.faults images.old ≤ S.faults images.new }
{
    match load_outline(alloc, images) {
        Ok(outline) => serve_answer(waiting, alloc, running, script, outline, images, choose),
        Err(why) => unloaded(alloc, why),
    }
}

/// What `serve` comes to: its script is read first.
fn perform_serve<R: Threads + Wait + Sync, S: ImageSource, T: TextSource, C: Chooser, G: Gate>(
    waiting: &Waiting<R, G>,
    alloc: Global,
    running: Running,
    images: &mut S,
    script: &mut T,
    choose: &mut C,
) -> Result<Answer, RunStop>
    requires workers { 0 < running.workers }
    ensures told { IfOk result (λ answer. (outcome : Outcome) → ComesFrom (S.held images.old) answer outcome → ComesTold (LeavesBy C.begins C.picks choose.old) (CommandLine.Serve running) (S.held images.old) (T.left script.old) outcome) }
    ensures there { IfOk result (λ answer. HasContentsOf (S.held images.old) answer.saved) }
    ensures same { S.held images.new ≡ S.held images.old }
    ensures failed { result ≡ Err RunStop.ReadFault → Rose (S.faults images.old) (S.faults images.new) ⊎ Rose (T.faults script.old) (T.faults script.new) }
    ensures later { S.faults images.old ≤ S.faults images.new }
{
    match read_sessions(alloc, script) {
        Ok(lines) => serve_outlined(waiting, alloc, running, &lines, images, choose),
        Err(ScriptStop::Refused(why)) => misread(alloc, why),
        Err(ScriptStop::Stop(stop)) => Err(stop),
    }
}

/// What a command with sessions comes to.
fn perform_sessions<R: Threads + Wait + Sync, S: ImageSource, T: TextSource, C: Chooser, G: Gate>(
    waiting: &Waiting<R, G>,
    alloc: Global,
    command: CommandLine,
    images: &mut S,
    script: &mut T,
    choose: &mut C,
) -> Result<Answer, RunStop>
    requires sessions { has_sessions command ≡ true }
    requires good { HasGoodValues command }
    ensures told { IfOk result (λ answer. (outcome : Outcome) → ComesFrom (S.held images.old) answer outcome → ComesTold (LeavesBy C.begins C.picks choose.old) command (S.held images.old) (T.left script.old) outcome) }
    ensures there { IfOk result (λ answer. HasContentsOf (S.held images.old) answer.saved) }
    ensures same { S.held images.new ≡ S.held images.old }
    ensures unread { reads_script command ≡ false → T.left script.new ≡ T.left script.old }
    ensures failed { result ≡ Err RunStop.ReadFault → Rose (S.faults images.old) (S.faults images.new) ⊎ Rose (T.faults script.old) (T.faults script.new) }
    ensures later { S.faults images.old ≤ S.faults images.new }
{
    match command {
        CommandLine::Serve(running) => perform_serve(
            waiting, alloc, running, images, script, choose,
        ),
        CommandLine::Load(work, workers) => perform_load(
            waiting, alloc, &work, workers, images, choose,
        ),
        _ => unreachable!(),
    }
}

/// Carries out a command with sessions: its image set, if it has one, is saved, and then its text is printed.
fn answer_sessions<
    R: Threads + Wait + Sync,
    S: ImageSource,
    T: TextSource,
    K: ImageSink,
    O: TextSink,
    C: Chooser,
    G: Gate,
>(
    tools: &Tools<R, G>,
    command: CommandLine,
    images: &mut S,
    script: &mut T,
    out: &mut K,
    text: &mut O,
    choose: &mut C,
) -> Status
    requires empty { ForSome (K.made out.old) IsEmptySet }
    requires sessions { has_sessions command ≡ true }
    requires good { HasGoodValues command }
    ensures ends { Ends (Rose (S.faults images.old) (S.faults images.new) ⊎ Rose (T.faults script.old) (T.faults script.new)) (copies command) (streams command) (ComesTold (LeavesBy C.begins C.picks choose.old) command (S.held images.old) (T.left script.old))
        (K.made out.old) (K.made out.new) (O.written text.old) (O.written text.new) result }
    ensures stored { Holds (ComesTold (LeavesBy C.begins C.picks choose.old) command (S.held images.old) (T.left script.old)) (K.kept out.old) (K.kept out.new) (O.kept text.old) (O.kept text.new) result }
    ensures read { result ≡ Status.ReadFault → Rose (S.faults images.old) (S.faults images.new) ⊎ Rose (T.faults script.old) (T.faults script.new) }
    ensures failed { result ≡ Status.WriteFault → Rose (K.faults out.old) (K.faults out.new) ⊎ Rose (O.faults text.old) (O.faults text.new) }
    ensures same { S.held images.new ≡ S.held images.old }
    ensures unread { reads_script command ≡ false → T.left script.new ≡ T.left script.old }
{
    match perform_sessions(&tools.waiting, tools.alloc, command, images, script, choose) {
        Ok(answer) => conclude(tools.alloc, answer, images, out, text),
        Err(stop) => stopped(stop, text),
    }
}

/// Carries out any command.
pub(crate) fn carry_out_any<
    R: Threads + Wait + Sync,
    S: ImageSource,
    T: TextSource,
    K: ImageSink,
    O: TextSink,
    C: Chooser,
    G: Gate,
>(
    tools: &Tools<R, G>,
    command: CommandLine,
    images: &mut S,
    script: &mut T,
    out: &mut K,
    text: &mut O,
    choose: &mut C,
) -> Status
    requires empty { ForSome (K.made out.old) IsEmptySet }
    requires name { HasGoodValues command }
    ensures ends { Ends (Rose (S.faults images.old) (S.faults images.new) ⊎ Rose (T.faults script.old) (T.faults script.new)) (copies command) (streams command) (ComesTold (LeavesBy C.begins C.picks choose.old) command (S.held images.old) (T.left script.old))
        (K.made out.old) (K.made out.new) (O.written text.old) (O.written text.new) result }
    ensures stored { Holds (ComesTold (LeavesBy C.begins C.picks choose.old) command (S.held images.old) (T.left script.old)) (K.kept out.old) (K.kept out.new) (O.kept text.old) (O.kept text.new) result }
    ensures read { result ≡ Status.ReadFault → Rose (S.faults images.old) (S.faults images.new) ⊎ Rose (T.faults script.old) (T.faults script.new) }
    ensures failed { result ≡ Status.WriteFault → Rose (K.faults out.old) (K.faults out.new) ⊎ Rose (O.faults text.old) (O.faults text.new) }
    ensures same { S.held images.new ≡ S.held images.old }
    ensures unread { reads_script command ≡ false → T.left script.new ≡ T.left script.old }
{
    if has_sessions(&command) {
        answer_sessions(tools, command, images, script, out, text, choose)
    } else {
        carry_out(tools.alloc, command, images, script, out, text, choose)
    }
}
