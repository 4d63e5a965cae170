//! What the words of a command line ask for.
ghost use Rattle.std.specs.Prelude.{◌≡◌, ◌≢◌, ◌<◌, ◌≤◌, true, false, IfOk, IfSome, Some, None, Err, map, string_bytes};
ghost use Rattle.command_words.specs.Parsed.{rows};
ghost use Rattle.shell_run.specs.Words.{command_of, command_with, command_in, load_in, power_in, serve_in, share_in, workers_in, write_in, HasGoodValues};

use crate::commands::CommandKind;
use command_words::{Parsed, WordsFault, parse};
use session_script::{Payload, value_in};
use shell_changes::{create_in, delete_in, rename_in};
use shell_reports::Power;
use shell_serve::{Load, Running};
use std::alloc::{AllocError, Global};
use uuid::Uuid;

/// What the words ask for.
#[derive(Debug, Drop)]
pub enum CommandLine {
    /// Print the current index block and the labels of a module.
    Labels(u32),
    /// Print the modules and regions of the firmware's table.
    Nfit,
    /// Print the namespaces.
    List,
    /// Write fresh index blocks into the label area of a module.
    Init(u32, Power),
    /// Make a namespace, or remove or rename one.
    Change(namespace_map::Command, Power),
    /// Print the arenas of a namespace.
    Info(Uuid),
    /// Check the arenas of a namespace; whether what can be repaired is.
    Check(Uuid, bool),
    /// Check the whole set.
    CheckSet,
    /// Repair the label areas of the whole set, and check it.
    RepairSet,
    /// Print a sector of a namespace.
    Read(Uuid, u64),
    /// Write a sector of a namespace.
    Write(Uuid, u64, Payload),
    /// Play the schedule that the script states on a namespace's arena; the chooser of the power cut at its end begins from
    /// this number.
    Replay(Uuid, u64),
    /// Print all bytes of a namespace; whether bad sectors count as zeros.
    Export(Uuid, bool),
    /// Print all bytes of a namespace that can still be read, or list what is lost.
    Rescue(Uuid, bool),
    /// Fill a namespace with the bytes of the script.
    Import(Uuid),
    /// Run the sessions of the script.
    Serve(Running),
    /// Run sessions whose calls follow from a number, in so many threads.
    Load(Load, u32),
}

/// The greatest number of a module.
const LAST_MODULE: u64 = 63;

/// The greatest number of threads in which sessions run.
const MOST_WORKERS: u64 = 64;

/// The greatest number of sessions.
const MOST_SESSIONS: u64 = 1024;

/// The greatest number of calls of all sessions together.
const MOST_CALLS: u64 = 65536;

/// The options on power cuts.
fn power_in(values: &Parsed<'_>) -> Option<Power>
    ensures { result ≡ power_in (rows values.now) }
{
    let steps = values.optional_number("cut", 0, u64::MAX)?;
    let seed = values.optional_number("evict", 0, u64::MAX)?;
    Some(Power {
        steps,
        seed: seed.unwrap_or(0),
    })
}

/// In how many threads sessions run, at most.
fn workers_in(values: &Parsed<'_>) -> Option<u32>
    ensures workers { result ≡ workers_in (rows values.now) }
    ensures some { IfSome result (λ workers. 0 < workers) }
{
    let workers = values.optional_number("workers", 1, MOST_WORKERS)?;
    Some(workers.unwrap_or(2) as u32)
}

/// The command `serve`.
fn serve_in(values: &Parsed<'_>) -> Option<CommandLine>
    ensures command { result ≡ serve_in (rows values.now) }
    ensures good { IfSome result HasGoodValues }
{
    let workers = workers_in(values)?;
    let seed = values.optional_number("evict", 0, u64::MAX)?;
    Some(CommandLine::Serve(Running {
        workers,
        seed: seed.unwrap_or(0),
    }))
}

/// How many sessions there are, and how many calls on sectors each makes.
#[derive(Clone, Copy, Debug, PartialEq, Eq)]
struct LoadSize {
    sessions: u32,
    calls: u32,
}

/// How many sessions there are, and how many calls each makes.
fn share_in(values: &Parsed<'_>) -> Option<LoadSize>
    ensures share { result ≡ share_in (rows values.now) }
    ensures some { IfSome result (λ share. (0 < share.sessions) × (share.sessions ≤ 1024) × (share.calls ≤ 65534)) }
{
    let sessions = values.optional_number("sessions", 1, MOST_SESSIONS)?;
    let calls = values.optional_number("calls", 1, MOST_CALLS - 2)?;
    Some(LoadSize {
        sessions: sessions.unwrap_or(4) as u32,
        calls: calls.unwrap_or(100) as u32,
    })
}

/// The command `load`.
fn load_in(values: &Parsed<'_>) -> Option<CommandLine>
    ensures command { result ≡ load_in (rows values.now) }
    ensures good { IfSome result HasGoodValues }
{
    let number = values.number("number", 0, u64::MAX)?;
    let uuid = values.uuid("uuid")?;
    let share = share_in(values)?;
    let workers = workers_in(values)?;
    if u64::from(share.sessions) * (u64::from(share.calls) + 2) > MOST_CALLS {
        return None;
    }
    let load = Load {
        number,
        uuid,
        sessions: share.sessions,
        calls: share.calls,
    };
    Some(CommandLine::Load(load, workers))
}

/// The command `write`.
fn write_in(alloc: Global, values: &Parsed<'_>) -> Result<Option<CommandLine>, AllocError>
    ensures command { IfOk result (λ command. command ≡ write_in (rows values.now)) }
    ensures name { IfOk result (λ command. IfSome command HasGoodValues) }
{
    let Some(uuid) = values.uuid("uuid") else {
        return Ok(None);
    };
    let Some(sector) = values.number("sector", 0, u64::MAX) else {
        return Ok(None);
    };
    let Some(word) = values.value("value") else {
        return Ok(None);
    };
    match value_in(alloc, word.as_bytes())? {
        Some(value) => Ok(Some(CommandLine::Write(uuid, sector, value))),
        None => Ok(None),
    }
}

/// Whether a command has a value among its arguments.
fn has_value(kind: CommandKind) -> bool
    ensures yes { result ≡ true → kind ≡ CommandKind.Write }
    ensures no { result ≡ false → kind ≢ CommandKind.Write }
{
    matches!(kind, CommandKind::Write)
}

/// The command that the values of its arguments make, if it has no value of a sector.
fn command_in(kind: CommandKind, values: &Parsed<'_>) -> Option<CommandLine>
    requires plain { kind ≢ CommandKind.Write }
    ensures command { result ≡ command_in kind (rows values.now) }
    ensures name { IfSome result HasGoodValues }
{
    match kind {
        CommandKind::Labels => {
            let module = values.number("module", 0, LAST_MODULE)?;
            Some(CommandLine::Labels(module as u32))
        }
        CommandKind::Nfit => Some(CommandLine::Nfit),
        CommandKind::List => Some(CommandLine::List),
        CommandKind::Init => {
            let module = values.number("module", 0, LAST_MODULE)?;
            let power = power_in(values)?;
            Some(CommandLine::Init(module as u32, power))
        }
        CommandKind::Create => {
            let spec = create_in(values)?;
            let power = power_in(values)?;
            Some(CommandLine::Change(namespace_map::Command::Create(spec), power))
        }
        CommandKind::Delete => {
            let change = delete_in(values)?;
            Some(CommandLine::Change(change, power_in(values)?))
        }
        CommandKind::Rename => {
            let change = rename_in(values)?;
            Some(CommandLine::Change(change, power_in(values)?))
        }
        CommandKind::Info => Some(CommandLine::Info(values.uuid("uuid")?)),
        CommandKind::Check => {
            let uuid = values.uuid("uuid")?;
            Some(CommandLine::Check(uuid, values.flag("repair")))
        }
        CommandKind::CheckSet => Some(CommandLine::CheckSet),
        CommandKind::RepairSet => Some(CommandLine::RepairSet),
        CommandKind::Read => {
            let uuid = values.uuid("uuid")?;
            Some(CommandLine::Read(uuid, values.number("sector", 0, u64::MAX)?))
        }
        CommandKind::Write => unreachable!(),
        CommandKind::Replay => {
            let uuid = values.uuid("uuid")?;
            let seed = values.optional_number("evict", 0, u64::MAX)?;
            Some(CommandLine::Replay(uuid, seed.unwrap_or(0)))
        }
        CommandKind::Import => Some(CommandLine::Import(values.uuid("uuid")?)),
        CommandKind::Serve => serve_in(values),
        CommandKind::Load => load_in(values),
        CommandKind::Export => {
            let uuid = values.uuid("uuid")?;
            Some(CommandLine::Export(uuid, values.flag("bad-as-zeros")))
        }
        CommandKind::Rescue => {
            let uuid = values.uuid("uuid")?;
            Some(CommandLine::Rescue(uuid, values.flag("lost")))
        }
    }
}

/// The command that the values of its arguments make.
fn command_found(
    alloc: Global,
    kind: CommandKind,
    values: &Parsed<'_>,
) -> Result<Option<CommandLine>, AllocError>
    ensures command { IfOk result (λ found. found ≡ command_in kind (rows values.now)) }
    ensures name { IfOk result (λ found. IfSome found HasGoodValues) }
{
    if has_value(kind) {
        write_in(alloc, values)
    } else {
        Ok(command_in(kind, values))
    }
}

/// A command, or that the words say none.
fn command_or_usage(command: Option<CommandLine>) -> Result<CommandLine, WordsFault>
    requires name { IfSome command HasGoodValues }
    ensures name { IfOk result HasGoodValues }
    ensures said { IfOk result (λ found. command ≡ Some found) }
    ensures none { result ≡ Err WordsFault.Usage → command ≡ None }
    ensures words { result ≢ Err WordsFault.OutOfMemory }
{
    match command {
        Some(command) => Ok(command),
        None => Err(WordsFault::Usage),
    }
}

/// The command of a name with the words after it.
fn command_with(
    alloc: Global,
    kind: CommandKind,
    words: &[String],
) -> Result<CommandLine, WordsFault>
    ensures command { IfOk result (λ command. command_with kind (map string_bytes words.now) ≡ Some command) }
    ensures usage { result ≡ Err WordsFault.Usage → command_with kind (map string_bytes words.now) ≡ None }
    ensures name { IfOk result HasGoodValues }
{
    match parse(alloc, kind.arguments(), words) {
        Ok(values) => match command_found(alloc, kind, &values) {
            Ok(command) => command_or_usage(command),
            Err(_) => Err(WordsFault::OutOfMemory),
        },
        Err(fault) => Err(fault),
    }
}

/// The command that the words say. `Usage` means that they aren't a command line; it comes for all such words, unless
/// memory runs out.
pub fn command_from(alloc: Global, words: &[String]) -> Result<CommandLine, WordsFault>
    ensures command { IfOk result (λ command. command_of (map string_bytes words.now) ≡ Some command) }
    ensures usage { result ≡ Err WordsFault.Usage → command_of (map string_bytes words.now) ≡ None }
    ensures name { IfOk result HasGoodValues }
{
    let [name, others @ ..] = words else {
        return Err(WordsFault::Usage);
    };
    match CommandKind::of_words(name.as_str(), others) {
        Some(kind) => command_with(alloc, kind, others),
        None => Err(WordsFault::Usage),
    }
}
