//! A script, line by line.
ghost use Rattle.std.specs.Prelude.{◌≡◌, ◌≢◌, ◌≤◌, ◌<◌, ◌+◌, OnOk, IfOk, IfErr, Ok, Err, Some, None, length, option_map, option_to_list};
ghost use Rattle.nvd_words.specs.Checks.{Answers};
ghost use Rattle.session_script.specs.Fields.{rest_of};
ghost use Rattle.session_script.specs.Lines.{lines_in, lines_read};
ghost use Rattle.session_script.specs.Names.{ScriptHasText};
ghost use Rattle.session_script.specs.Script.{and_said, may_stand, nothing_said, on_verb, said_reading, script_of, script_reading, sessions_of, with_call, with_cut, with_line, with_said, within_limits};

use crate::fault::{LineFault, LineKind, ScriptFault, ScriptLimit};
use crate::fields::Fields;
use crate::lines::{after_line, first_line};
use crate::reading::{MOST_BYTES, MOST_CALLS, numbered};
use crate::script::{Line, Script, SessionLines};
use crate::verbs::{Said, Verb, said_by, verb_of};
use crate::words::is_printable;
use nvd_words::Items;
use std::alloc::{AllocError, Global};

/// The greatest number of sessions.
const MOST_SESSIONS: usize = 1_024;

/// The lines read so far.
#[derive(Drop)]
pub(crate) struct ReadScript {
    /// No line was read.
    first: bool,
    /// The line before begins a session.
    fresh: bool,
    labelcut: Option<u64>,
    /// The sessions but for the last.
    done: Items<SessionLines>,
    last: Option<SessionLines>,
    calls: u64,
}

impl ReadScript {
    fn new(alloc: Global) -> ReadScript
        ensures { result ≡ nothing_said }
    {
        ReadScript {
            first: true,
            fresh: false,
            labelcut: None,
            done: Items::new(alloc),
            last: None,
            calls: 0,
        }
    }

    /// Returns whether a line with this first word may stand here.
    fn may_stand(&self, verb: Verb) -> bool
        ensures { result ≡ may_stand self.now verb }
    {
        match verb {
            Verb::Labelcut => self.first,
            Verb::Session => true,
            Verb::Cut => self.fresh,
            Verb::Open
            | Verb::Close
            | Verb::Read
            | Verb::Write
            | Verb::Create
            | Verb::Delete
            | Verb::Rename => self.last.is_some(),
        }
    }

    /// The number of sessions.
    fn sessions(&self) -> usize
        requires { length self.now.done ≤ 1025 }
        ensures { result ≡ length (sessions_of self.now) }
    {
        match &self.last {
            Some(_) => self.done.len() + 1,
            None => self.done.len(),
        }
    }
}

/// Makes the session that was read last, if there is one, cut power after so many steps.
fn set_cut(last: &mut Option<SessionLines>, steps: u64)
    ensures { last.new ≡ option_map (with_cut steps) last.old }
{
    if let Some(session) = last {
        session.cut = Some(steps);
    }
}

/// Adds a call to the session that was read last, if there is one.
fn add_call(last: &mut Option<SessionLines>, call: Line) -> Result<(), AllocError>
    ensures { OnOk result (last.new ≡ option_map (with_call call) last.old) }
{
    match last {
        Some(session) => session.calls.push(call),
        None => Ok(()),
    }
}

impl ReadScript {
    /// Puts the session that was read last to the others.
    fn end_session(&mut self) -> Result<(), AllocError>
        ensures done { OnOk result (self.new.done ≡ sessions_of self.old) }
        ensures labelcut { OnOk result (self.new.labelcut ≡ self.old.labelcut) }
        ensures calls { OnOk result (self.new.calls ≡ self.old.calls) }
        ensures last { OnOk result (self.new.last ≡ None) }
    {
        match self.last.take() {
            Some(session) => self.done.push(session),
            None => Ok(()),
        }
    }

    fn begin_session(&mut self, alloc: Global) -> Result<(), AllocError>
        ensures { OnOk result (self.new ≡ and_said self.old Said.Session) }
    {
        self.end_session()?;
        self.first = false;
        self.fresh = true;
        self.last = Some(SessionLines {
            cut: None,
            calls: Items::new(alloc),
        });
        Ok(())
    }

    fn add_call(&mut self, call: Line) -> Result<(), AllocError>
        requires { self.old.calls ≤ 65536 }
        ensures { OnOk result (self.new ≡ and_said self.old (Said.Call call)) }
    {
        self.first = false;
        self.fresh = false;
        self.calls += 1;
        add_call(&mut self.last, call)
    }

    /// Takes over what a line says.
    fn take(&mut self, alloc: Global, said: Said) -> Result<(), AllocError>
        requires { self.old.calls ≤ 65536 }
        ensures { OnOk result (self.new ≡ and_said self.old said) }
    {
        match said {
            Said::Labelcut(steps) => {
                self.first = false;
                self.fresh = false;
                self.labelcut = Some(steps);
                Ok(())
            }
            Said::Session => self.begin_session(alloc),
            Said::Cut(steps) => {
                self.first = false;
                self.fresh = false;
                set_cut(&mut self.last, steps);
                Ok(())
            }
            Said::Call(call) => self.add_call(call),
        }
    }
}

impl ReadScript {
    /// Returns what a line says here.
    fn said(&self, alloc: Global, text: &[u8]) -> Result<Said, LineFault>
        requires { length (sessions_of self.now) ≤ 1024 }
        ensures { Answers LineFault.OutOfMemory result (said_reading self.now text.now) }
    {
        if !is_printable(text) {
            return Err(LineFault::Kind(LineKind::Encoding));
        }
        let mut fields = Fields::of(text);
        let word = fields.word()?;
        self.said_after(alloc, verb_of(word), fields)
    }

    /// Returns what a line with this first word says here.
    fn said_after(
        &self,
        alloc: Global,
        verb: Option<Verb>,
        fields: Fields<'_>,
    ) -> Result<Said, LineFault>
        requires { length (sessions_of self.now) ≤ 1024 }
        ensures { Answers LineFault.OutOfMemory result (on_verb self.now verb (rest_of fields.entry)) }
    {
        let Some(verb) = verb else {
            return Err(LineFault::Kind(LineKind::Word));
        };
        if self.may_stand(verb) {
            said_by(alloc, self.sessions(), verb, fields)
        } else {
            Err(LineFault::Kind(LineKind::Order))
        }
    }

    /// Checks the limits of sessions and of calls.
    fn check_limits(&self) -> Result<(), ScriptFault>
        requires { length (sessions_of self.now) ≤ 1025 }
        ensures ok { OnOk result (within_limits self.now ≡ Ok self.now) }
        ensures err { IfErr result (λ fault. within_limits self.now ≡ Err fault) }
        ensures sessions { OnOk result (length (sessions_of self.now) ≤ 1024) }
        ensures calls { OnOk result (self.now.calls ≤ 65536) }
    {
        if self.sessions() > MOST_SESSIONS {
            return Err(ScriptFault::TooMany {
                what: ScriptLimit::Sessions,
            });
        }
        if self.calls > MOST_CALLS {
            return Err(ScriptFault::TooMany {
                what: ScriptLimit::Calls,
            });
        }
        Ok(())
    }

    /// Takes over what a line says, within the limits.
    fn add(&mut self, alloc: Global, said: Said) -> Result<(), ScriptFault>
        requires calls { self.old.calls ≤ 65536 }
        requires sessions { length (sessions_of self.old) ≤ 1024 }
        ensures ok { OnOk result (with_said self.old 0 (Ok said) ≡ Ok self.new) }
        ensures err { IfErr result (λ fault. fault ≢ ScriptFault.OutOfMemory → with_said self.old 0 (Ok said) ≡ Err fault) }
        ensures calls { OnOk result (self.new.calls ≤ 65536) }
        ensures sessions { OnOk result (length (sessions_of self.new) ≤ 1024) }
    {
        match self.take(alloc, said) {
            Ok(()) => self.check_limits(),
            Err(_) => Err(ScriptFault::OutOfMemory),
        }
    }

    /// Reads a line and adds what it says.
    fn read(&mut self, alloc: Global, number: u64, text: &[u8]) -> Result<(), ScriptFault>
        requires calls { self.old.calls ≤ 65536 }
        requires sessions { length (sessions_of self.old) ≤ 1024 }
        ensures ok { OnOk result (with_line self.old number text.now ≡ Ok self.new) }
        ensures err { IfErr result (λ fault. fault ≢ ScriptFault.OutOfMemory → with_line self.old number text.now ≡ Err fault) }
        ensures calls { OnOk result (self.new.calls ≤ 65536) }
        ensures sessions { OnOk result (length (sessions_of self.new) ≤ 1024) }
    {
        if text.len() > MOST_BYTES {
            return Err(ScriptFault::TooMany {
                what: ScriptLimit::Bytes,
            });
        }
        match self.said(alloc, text) {
            Ok(said) => self.add(alloc, said),
            Err(fault) => Err(numbered(number, fault)),
        }
    }

    /// Reads the first line of a text that isn't empty, and returns what stands after it.
    #[tactic(auto, using(crate::proofs::Loops::rest_less))]
    fn read_first<'a>(
        &mut self,
        alloc: Global,
        number: u64,
        text: &'a [u8],
    ) -> Result<&'a [u8], ScriptFault>
        requires calls { self.old.calls ≤ 65536 }
        requires sessions { length (sessions_of self.old) ≤ 1024 }
        requires some { 0 < length text.now }
        ensures ok { IfOk result (λ rest. lines_read with_line (number + 1) (lines_in rest.now) (Ok self.new) ≡ lines_read with_line number (lines_in text.now) (Ok self.old)) }
        ensures err { IfErr result (λ fault. fault ≢ ScriptFault.OutOfMemory → lines_read with_line number (lines_in text.now) (Ok self.old) ≡ Err fault) }
        ensures less { IfOk result (λ rest. length rest.now < length text.now) }
        ensures calls { IfOk result (λ rest. self.new.calls ≤ 65536) }
        ensures sessions { IfOk result (λ rest. length (sessions_of self.new) ≤ 1024) }
    {
        match self.read(alloc, number, first_line(text)) {
            Ok(()) => Ok(after_line(text)),
            Err(fault) => Err(fault),
        }
    }

    /// Returns the script of all lines.
    fn into_script(mut self) -> Result<Script, AllocError>
        ensures { IfOk result (λ script. Ok script ≡ script_of (Ok self)) }
    {
        self.end_session()?;
        Ok(Script {
            labelcut: self.labelcut,
            sessions: self.done,
        })
    }
}

/// Reads a script of sessions. The text must be at most 16 MiB long, by the caller's rule.
///
/// It returns `Line` or `TooMany` for the first line that isn't in the grammar or passes a limit:
/// a line of more than 32,768 bytes without its LF, the 1,025th session, or the 65,537th call. On
/// one line its length comes first, then the grammar, then the numbers of sessions and of calls.
/// Else it returns `Ok`, unless memory runs out. All names in the script are UTF-8.
pub fn read_script(alloc: Global, text: &[u8]) -> Result<Script, ScriptFault>
    ensures script { Answers ScriptFault.OutOfMemory result (script_reading text.now) }
    ensures text { IfOk result ScriptHasText }
{
    let mut read = ReadScript::new(alloc);
    let mut number = 1;
    let mut rest = text;
    while !rest.is_empty() {
        rest = read.read_first(alloc, number, rest)?;
        number += 1;
    }
    match read.into_script() {
        Ok(script) => Ok(script),
        Err(_) => Err(ScriptFault::OutOfMemory),
    }
}
