//! A schedule, line by line.
ghost use Rattle.std.specs.Prelude.{◌≡◌, ◌≢◌, ◌≤◌, ◌<◌, ◌+◌, OnOk, IfOk, IfErr, Ok, Err, length};
ghost use Rattle.session_script.specs.Lines.{lines_in, lines_read};
ghost use Rattle.nvd_words.specs.Checks.{Answers};
ghost use Rattle.session_script.specs.Fields.{rest_of};
ghost use Rattle.session_script.specs.ScheduleLines.{begun, call_line, called, line_reading, read_line, step_line, write_line};
ghost use Rattle.session_script.specs.Schedule.{calls_in, none_counted, numbered, replay_reading, with_line, with_reading};

use crate::fault::{LineFault, LineKind, ScriptFault, ScriptLimit};
use crate::fields::Fields;
use crate::lines::{after_line, first_line};
use crate::schedule::{Replay, ReplayLine};
use crate::schedule_lines::ReplayLines;
use crate::words::is_printable;
use std::alloc::Global;

/// The greatest number of calls.
pub(crate) const MOST_CALLS: u64 = 65_536;

/// The greatest length of a line in bytes, without its LF.
pub(crate) const MOST_BYTES: usize = 32_768;

/// How many of the lines read so far are calls.
#[derive(Clone, Copy)]
pub(crate) struct Counted {
    calls: u64,
}

#[tactic(auto, using(crate::proofs::Following::fields))]
fn read_line(lane: u32, mut fields: Fields<'_>) -> Result<ReplayLine, LineFault>
    ensures { result ≡ read_line lane (rest_of fields.entry) }
{
    let sector = fields.u64()?;
    fields.end(ReplayLine::Read { lane, sector })
}

#[tactic(auto, using(crate::proofs::Following::fields))]
fn write_line(alloc: Global, lane: u32, mut fields: Fields<'_>) -> Result<ReplayLine, LineFault>
    ensures { Answers LineFault.OutOfMemory result (write_line lane (rest_of fields.entry)) }
{
    let sector = fields.u64()?;
    let value = fields.value(alloc)?;
    fields.end(ReplayLine::Write {
        lane,
        sector,
        value,
    })
}

#[tactic(auto, using(crate::proofs::Following::fields))]
fn step_line(mut fields: Fields<'_>) -> Result<ReplayLine, LineFault>
    ensures { result ≡ step_line (rest_of fields.entry) }
{
    let lane = fields.u32()?;
    let count = fields.u64()?;
    fields.end(ReplayLine::Step { lane, count })
}

#[tactic(auto, using(nvd_words::proofs::Checks::choices), unfolding(crate::specs::ScheduleLines::called))]
fn called(
    alloc: Global,
    lane: u32,
    word: &[u8],
    fields: Fields<'_>,
) -> Result<ReplayLine, LineFault>
    ensures { Answers LineFault.OutOfMemory result (called lane word.now (rest_of fields.entry)) }
{
    if word == b"read".as_slice() {
        read_line(lane, fields)
    } else if word == b"write".as_slice() {
        write_line(alloc, lane, fields)
    } else {
        Err(LineFault::Kind(LineKind::Word))
    }
}

#[tactic(auto, using(crate::proofs::Following::fields))]
fn call_line(alloc: Global, mut fields: Fields<'_>) -> Result<ReplayLine, LineFault>
    ensures { Answers LineFault.OutOfMemory result (call_line (rest_of fields.entry)) }
{
    let lane = fields.u32()?;
    let word = fields.word()?;
    called(alloc, lane, word, fields)
}

#[tactic(auto, using(nvd_words::proofs::Checks::choices), unfolding(crate::specs::ScheduleLines::begun))]
fn begun(alloc: Global, word: &[u8], fields: Fields<'_>) -> Result<ReplayLine, LineFault>
    ensures { Answers LineFault.OutOfMemory result (begun word.now (rest_of fields.entry)) }
{
    if word == b"call".as_slice() {
        call_line(alloc, fields)
    } else if word == b"step".as_slice() {
        step_line(fields)
    } else {
        Err(LineFault::Kind(LineKind::Word))
    }
}

/// Reads a line.
pub(crate) fn line_of(alloc: Global, text: &[u8]) -> Result<ReplayLine, LineFault>
    ensures { Answers LineFault.OutOfMemory result (line_reading text.now) }
{
    if !is_printable(text) {
        return Err(LineFault::Kind(LineKind::Encoding));
    }
    let mut fields = Fields::of(text);
    let word = fields.word()?;
    begun(alloc, word, fields)
}

/// A fault of the line with this number.
pub(crate) fn numbered(number: u64, fault: LineFault) -> ScriptFault
    ensures { result ≡ numbered number fault }
{
    match fault {
        LineFault::Kind(kind) => ScriptFault::Line { number, kind },
        LineFault::OutOfMemory => ScriptFault::OutOfMemory,
    }
}

/// Returns how many calls a line is.
fn calls_in(line: &ReplayLine) -> u64
    ensures count { result ≡ calls_in line.now }
    ensures one { result ≤ 1 }
{
    match line {
        ReplayLine::Step { .. } => 0,
        ReplayLine::Read { .. } => 1,
        ReplayLine::Write { .. } => 1,
    }
}

impl Counted {
    fn new() -> Counted
        ensures { result ≡ none_counted }
    {
        Counted { calls: 0 }
    }

    /// Counts a line that was read.
    fn add(&mut self, line: &ReplayLine) -> Result<(), ScriptFault>
        requires { self.old.calls ≤ 65536 }
        ensures ok { OnOk result (with_reading self.old 0 (Ok line.now) ≡ Ok self.new) }
        ensures err { IfErr result (λ fault. with_reading self.old 0 (Ok line.now) ≡ Err fault) }
        ensures within { OnOk result (self.new.calls ≤ 65536) }
    {
        let calls = self.calls + calls_in(line);
        if calls > MOST_CALLS {
            return Err(ScriptFault::TooMany {
                what: ScriptLimit::Calls,
            });
        }
        self.calls = calls;
        Ok(())
    }

    /// Reads a line and counts it.
    fn read(&mut self, alloc: Global, number: u64, text: &[u8]) -> Result<(), ScriptFault>
        requires { self.old.calls ≤ 65536 }
        ensures ok { OnOk result (with_line self.old number text.now ≡ Ok self.new) }
        ensures err { IfErr result (λ fault. fault ≢ ScriptFault.OutOfMemory → with_line self.old number text.now ≡ Err fault) }
        ensures within { OnOk result (self.new.calls ≤ 65536) }
    {
        if text.len() > MOST_BYTES {
            return Err(ScriptFault::TooMany {
                what: ScriptLimit::Bytes,
            });
        }
        match line_of(alloc, text) {
            Ok(line) => self.add(&line),
            Err(fault) => Err(numbered(number, fault)),
        }
    }

    /// Reads the first line of a text that isn't empty, and returns what stands after it.
    #[tactic(auto, using(crate::proofs::Loops::rest_less))]
    fn read_first<'a>(
        &mut self,
        alloc: Global,
        number: u64,
        text: &'a [u8],
    ) -> Result<&'a [u8], ScriptFault>
        requires calls { self.old.calls ≤ 65536 }
        requires some { 0 < length text.now }
        ensures ok { IfOk result (λ rest. lines_read with_line (number + 1) (lines_in rest.now) (Ok self.new) ≡ lines_read with_line number (lines_in text.now) (Ok self.old)) }
        ensures err { IfErr result (λ fault. fault ≢ ScriptFault.OutOfMemory → lines_read with_line number (lines_in text.now) (Ok self.old) ≡ Err fault) }
        ensures less { IfOk result (λ rest. length rest.now < length text.now) }
        ensures within { IfOk result (λ rest. self.new.calls ≤ 65536) }
    {
        match self.read(alloc, number, first_line(text)) {
            Ok(()) => Ok(after_line(text)),
            Err(fault) => Err(fault),
        }
    }
}

/// Reads all lines of a text, and returns how many are calls.
fn count_lines(alloc: Global, text: &[u8]) -> Result<Counted, ScriptFault>
    ensures { Answers ScriptFault.OutOfMemory result (lines_read with_line 1 (lines_in text.now) (Ok none_counted)) }
{
    let mut counted = Counted::new();
    let mut number = 1;
    let mut rest = text;
    while !rest.is_empty() {
        rest = counted.read_first(alloc, number, rest)?;
        number += 1;
    }
    Ok(counted)
}

/// Reads a schedule of lanes. The text must be at most 16 MiB long, by the caller's rule.
///
/// It returns `Line` or `TooMany` for the first line that isn't in the grammar or passes a limit:
/// a line of more than 32,768 bytes without its LF, or the 65,537th call. On one line its length
/// comes first, then the grammar, then the number of calls. Else it returns `Ok`, unless memory
/// runs out. A line has a byte at least.
///
/// The schedule keeps the text and no line of it. So it takes no more memory than its text, and
/// each line is read again when it is asked for.
#[tactic(auto, using(crate::proofs::Stated::stated))]
pub fn read_replay(alloc: Global, text: Vec<u8>) -> Result<Replay, ScriptFault>
    ensures replay { Answers ScriptFault.OutOfMemory result (replay_reading text.items) }
    ensures count { IfOk result (λ replay. length replay.lines ≤ length text.items) }
{
    match count_lines(alloc, &text) {
        Ok(_) => Ok(Replay {
            lines: ReplayLines::of(text),
        }),
        Err(fault) => Err(fault),
    }
}
