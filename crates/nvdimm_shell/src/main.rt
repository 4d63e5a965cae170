//! `nvdimm_shell`: a manager of NVDIMM images.
//!
//! ```text
//! nvdimm_shell IN OUT COMMAND ..
//! ```
//!
//! IN is an image directory. OUT is the directory of the image set that a command writes, or `-`
//! for commands that write none. [`shell_run::run`] does all the work; `main` passes it the
//! directories and the standard streams.
#![tactic(auto)]

use nvd_files::{DirSink, DirSource, StdText};
use nvd_media::{NoGate, SeedChooser, TextSink};
use shell_reports::Status;
use shell_run::run;
use std::env;
use std::fs::File;
use std::io::{Eprint, ErrorKind};
use std::process::ExitCode;
use std::rt::{Env, Files};
use std::sync::Wait;
use std::thread::Threads;

/// Why the words of the command line can't be read.
#[derive(Clone, Copy, Debug, PartialEq, Eq)]
enum Unread {
    /// One of them isn't UTF-8.
    NotText,
    OutOfMemory,
}

/// Returns the words of the command line after the program's name.
fn command_line(rt: &(impl Env + AllocGlobal)) -> Result<Vec<String>, Unread> {
    match env::args(rt) {
        Ok(args) => args
            .skip(1)
            .collect(rt.alloc())
            .map_err(|_| Unread::OutOfMemory),
        Err(e) if e.kind() == ErrorKind::InvalidData => Err(Unread::NotText),
        Err(_) => Err(Unread::OutOfMemory),
    }
}

/// Ends a run whose words aren't a command line.
fn usage<O: TextSink>(text: &mut O) -> Status {
    match text.write(b"usage\n") {
        Ok(()) => Status::Usage,
        Err(_) => Status::WriteFault,
    }
}

/// Ends a run with a word that isn't UTF-8, and reports it on standard error, if possible.
fn not_text(rt: &(impl Print + Eprint + Input)) -> Status {
    let _ = eprintln!(rt; "nvdimm_shell: a word of the command line isn't UTF-8");
    usage(&mut StdText::new(rt))
}

/// Runs the command of a command line on the directories that it names.
fn status_of<R: Files<File = File> + AllocGlobal + Print + Input + Threads + Wait + Sync>(
    rt: &R,
    words: &[String],
) -> Status {
    let mut text = StdText::new(rt);
    let [source, sink, command @ ..] = words else {
        return usage(&mut text);
    };
    if source.is_empty() || sink.is_empty() || command.is_empty() {
        return usage(&mut text);
    }
    run(
        rt,
        rt.alloc(),
        command,
        &mut DirSource::new(rt, source.as_str()),
        &mut StdText::new(rt),
        &mut DirSink::new(rt, sink.as_str(), source.as_str()),
        &mut text,
        &mut SeedChooser::new(0),
        &NoGate,
    )
}

fn main(rt: HostRuntime) -> ExitCode {
    let status = match command_line(&rt) {
        Ok(words) => status_of(&rt, &words),
        Err(Unread::NotText) => not_text(&rt),
        Err(Unread::OutOfMemory) => Status::OutOfMemory,
    };
    ExitCode::from(status.exit_status())
}
