//! The script of a command: what is left of a text source.
ghost use Rattle.std.specs.Prelude.{◌≡◌, ◌≢◌, ◌≤◌, ◌<◌, ◌^◌, length, string_bytes, IfOk, Ok, Err};
ghost use Rattle.std.specs.Option.{ForSome};
ghost use Rattle.nvd_media.specs.Causes.{Rose};
ghost use Rattle.session_script.specs.Names.{ScriptHasText};
ghost use Rattle.session_script.specs.Schedule.{replay_reading};
ghost use Rattle.session_script.specs.Script.{script_reading};
ghost use Rattle.shell_reports.specs.Saved.{outcome_of};
ghost use Rattle.shell_run.specs.Scripts.{bytes_in, kind_text, limit_text, most_bytes, refused_text, script_in, script_outcome};

use nvd_media::{TextFault, TextSource, read_all};
use session_script::{
    LineKind, Replay, Script, ScriptFault, ScriptLimit, read_replay, read_script,
};
use shell_reports::{Ending, Report, RunStop};
use std::alloc::{AllocError, Global};

/// The greatest number of bytes of a script of lines.
const MOST_BYTES: usize = 16777216;

/// The greatest number of bytes of import's FILE, which is read into memory.
const MOST_FILE_BYTES: usize = 536870912;

/// Why a script isn't taken.
#[derive(Clone, Copy, Debug, PartialEq, Eq)]
pub enum ScriptRefused {
    /// It has more bytes than the command takes at most.
    TooLong { most: usize },
    /// A line isn't in the grammar, or passes a limit.
    Fault(ScriptFault),
}

/// Why a run goes no further than its script.
#[derive(Clone, Copy, Debug, PartialEq, Eq)]
pub(crate) enum ScriptStop {
    /// The script isn't taken.
    Refused(ScriptRefused),
    /// It can't be read, or memory ran out.
    Stop(RunStop),
}

/// Reads a script of at most `most` bytes to its end.
fn text_in<T: TextSource>(alloc: Global, script: &mut T, most: usize) -> Result<Vec<u8>, ScriptStop>
    requires few { most < 2 ^ 40 }
    ensures all { IfOk result (λ bytes. ForSome (T.left script.old) (λ text. bytes.items ≡ text)) }
    ensures within { IfOk result (λ bytes. length bytes.items ≤ most) }
    ensures too_long { (why : ScriptRefused) → result ≡ Err (ScriptStop.Refused why) → (why ≡ ScriptRefused.TooLong most) × ForSome (T.left script.old) (λ text. most < length text) }
    ensures failed { result ≡ Err (ScriptStop.Stop RunStop.ReadFault) → Rose (T.faults script.old) (T.faults script.new) }
{
    match read_all(alloc, script, most) {
        Ok(bytes) => Ok(bytes),
        Err(TextFault::ReadFault) => Err(ScriptStop::Stop(RunStop::ReadFault)),
        Err(TextFault::TooLong { .. }) => Err(ScriptStop::Refused(ScriptRefused::TooLong { most })),
        Err(TextFault::OutOfMemory) => Err(ScriptStop::Stop(RunStop::OutOfMemory)),
    }
}

/// A text that isn't in the grammar, or the stop if memory ran out.
fn fault_stop(fault: ScriptFault) -> ScriptStop
    ensures refused { (why : ScriptRefused) → result ≡ ScriptStop.Refused why → (why ≡ ScriptRefused.Fault fault) × (fault ≢ ScriptFault.OutOfMemory) }
    ensures unread { result ≢ ScriptStop.Stop RunStop.ReadFault }
{
    match fault {
        ScriptFault::OutOfMemory => ScriptStop::Stop(RunStop::OutOfMemory),
        _ => ScriptStop::Refused(ScriptRefused::Fault(fault)),
    }
}

/// Reads a schedule from its text.
fn schedule_in(alloc: Global, text: Vec<u8>) -> Result<Replay, ScriptStop>
    requires within { length text.items ≤ most_bytes }
    ensures read { IfOk result (λ replay. script_in replay_reading text.items ≡ Ok replay) }
    ensures few { IfOk result (λ replay. length replay.lines < 2 ^ 32) }
    ensures refused { (why : ScriptRefused) → result ≡ Err (ScriptStop.Refused why) → script_in replay_reading text.items ≡ Err why }
    ensures unread { result ≢ Err (ScriptStop.Stop RunStop.ReadFault) }
{
    match read_replay(alloc, text) {
        Ok(replay) => Ok(replay),
        Err(fault) => Err(fault_stop(fault)),
    }
}

/// Reads a schedule, which is all that is left of the script.
///
/// It is refused with `TooLong`, or with the first line that isn't in the grammar or passes a limit. It stops with `ReadFault`
/// only if the script's count of faults rose in this call.
pub(crate) fn read_schedule<T: TextSource>(
    alloc: Global,
    script: &mut T,
) -> Result<Replay, ScriptStop>
    ensures read { IfOk result (λ replay. ForSome (T.left script.old) (λ text. script_in replay_reading text ≡ Ok replay)) }
    ensures few { IfOk result (λ replay. length replay.lines < 2 ^ 32) }
    ensures refused { (why : ScriptRefused) → result ≡ Err (ScriptStop.Refused why) → ForSome (T.left script.old) (λ text. script_in replay_reading text ≡ Err why) }
    ensures failed { result ≡ Err (ScriptStop.Stop RunStop.ReadFault) → Rose (T.faults script.old) (T.faults script.new) }
{
    match text_in(alloc, script, MOST_BYTES) {
        Ok(text) => schedule_in(alloc, text),
        Err(stop) => Err(stop),
    }
}

/// Reads the script of sessions from its text.
fn sessions_in(alloc: Global, text: &[u8]) -> Result<Script, ScriptStop>
    requires within { length text.now ≤ most_bytes }
    ensures read { IfOk result (λ script. script_in script_reading text.now ≡ Ok script) }
    ensures text { IfOk result ScriptHasText }
    ensures refused { (why : ScriptRefused) → result ≡ Err (ScriptStop.Refused why) → script_in script_reading text.now ≡ Err why }
    ensures unread { result ≢ Err (ScriptStop.Stop RunStop.ReadFault) }
{
    match read_script(alloc, text) {
        Ok(script) => Ok(script),
        Err(fault) => Err(fault_stop(fault)),
    }
}

/// Reads the script of sessions, which is all that is left of the script. Names in it are UTF-8.
///
/// It is refused and it stops as a schedule does.
pub(crate) fn read_sessions<T: TextSource>(
    alloc: Global,
    script: &mut T,
) -> Result<Script, ScriptStop>
    ensures read { IfOk result (λ lines. ForSome (T.left script.old) (λ text. script_in script_reading text ≡ Ok lines)) }
    ensures text { IfOk result ScriptHasText }
    ensures refused { (why : ScriptRefused) → result ≡ Err (ScriptStop.Refused why) → ForSome (T.left script.old) (λ text. script_in script_reading text ≡ Err why) }
    ensures failed { result ≡ Err (ScriptStop.Stop RunStop.ReadFault) → Rose (T.faults script.old) (T.faults script.new) }
{
    match text_in(alloc, script, MOST_BYTES) {
        Ok(text) => sessions_in(alloc, &text),
        Err(stop) => Err(stop),
    }
}

/// Reads the bytes for a namespace, which are all that is left of the script.
///
/// They are refused with `TooLong` if they are more than 512 MiB. It stops with `ReadFault` only if the script's count of faults
/// rose in this call.
pub(crate) fn read_bytes<T: TextSource>(
    alloc: Global,
    script: &mut T,
) -> Result<Vec<u8>, ScriptStop>
    ensures read { IfOk result (λ bytes. ForSome (T.left script.old) (λ text. bytes_in text ≡ Ok bytes.items)) }
    ensures refused { (why : ScriptRefused) → result ≡ Err (ScriptStop.Refused why) → ForSome (T.left script.old) (λ text. bytes_in text ≡ Err why) }
    ensures failed { result ≡ Err (ScriptStop.Stop RunStop.ReadFault) → Rose (T.faults script.old) (T.faults script.new) }
{
    text_in(alloc, script, MOST_FILE_BYTES)
}

fn kind_text(kind: LineKind) -> &'static str
    ensures { result.now ≡ kind_text kind }
{
    match kind {
        LineKind::Encoding => "Encoding",
        LineKind::Word => "Word",
        LineKind::Number => "Number",
        LineKind::Uuid => "Uuid",
        LineKind::Value => "Value",
        LineKind::Name => "Name",
        LineKind::Order => "Order",
    }
}

fn limit_text(what: ScriptLimit) -> &'static str
    ensures { result.now ≡ limit_text what }
{
    match what {
        ScriptLimit::Sessions => "Sessions",
        ScriptLimit::Calls => "Calls",
        ScriptLimit::Bytes => "Bytes",
    }
}

/// Returns the line for a script that isn't taken. Out of memory isn't a finding.
fn refused_text(alloc: Global, why: ScriptRefused) -> Result<String, AllocError>
    ensures text { IfOk result (λ text. string_bytes text ≡ refused_text why) }
    ensures finding { IfOk result (λ _. why ≢ ScriptRefused.Fault ScriptFault.OutOfMemory) }
{
    match why {
        ScriptRefused::TooLong { most } => format!(in alloc; "script TooLong {}\n", most),
        ScriptRefused::Fault(ScriptFault::Line { number, kind }) => {
            format!(in alloc; "script Line {} {}\n", number, kind_text(kind))
        }
        ScriptRefused::Fault(ScriptFault::TooMany { what }) => {
            format!(in alloc; "script TooMany {}\n", limit_text(what))
        }
        ScriptRefused::Fault(ScriptFault::OutOfMemory) => Err(AllocError),
    }
}

/// The answer to a script that isn't taken. Out of memory isn't a finding.
pub(crate) fn script_answer(alloc: Global, why: ScriptRefused) -> Result<Report, AllocError>
    ensures text { IfOk result (λ answer. outcome_of answer ≡ script_outcome why) }
    ensures finding { IfOk result (λ _. why ≢ ScriptRefused.Fault ScriptFault.OutOfMemory) }
{
    let text = refused_text(alloc, why)?;
    Ok(Report {
        ending: Ending::Usage,
        text: text.into_bytes(),
    })
}
