//! The texts of sessions: their lines one session after another, and the summary of a load.
ghost use Rattle.std.specs.Prelude.{◌≡◌, ◌<◌, ◌+◌, ◌^◌, ◌++◌, List, IfOk, OnOk, map, string_bytes, count_by};
ghost use Rattle.session_account.specs.declared.reply.Reply.{Reply as Replied};
ghost use Rattle.session_service.specs.Ran.{texts_of};
ghost use Rattle.session_texts.specs.Texts.{replies_text};
ghost use Rattle.shell_serve.specs.Texts.{filled, is_read, is_write, reads_in, replies_sum, serve_text, session_line, summary, writes_in};

use nvd_words::fletcher64;
use session_script::{Line, Script, SessionLines};
use std::alloc::{AllocError, Global};

/// Returns the line of session `q`.
fn session_line(alloc: Global, q: usize) -> Result<String, AllocError>
    ensures { IfOk result (λ text. string_bytes text ≡ session_line q) }
{
    format!(in alloc; "session {}\n", q)
}

/// Appends the line of session `q`, and those of its replies.
fn add_session(alloc: Global, q: usize, lines: &[u8], text: &mut Vec<u8>) -> Result<(), AllocError>
    ensures { OnOk result (text.new.items ≡ text.old.items ++ (session_line q ++ lines.now)) }
{
    text.extend_from_slice(session_line(alloc, q)?.as_bytes())?;
    text.extend_from_slice(lines)
}

/// The most bytes that the line of a session has.
const LONGEST_LINE: usize = "session 18446744073709551615\n".len();

/// The room that the text of `serve` needs at most, in bytes.
fn room_for(texts: &[Vec<u8>]) -> usize {
    let mut room: usize = 0;
    for lines in texts {
        room = room
            .saturating_add(LONGEST_LINE)
            .saturating_add(lines.len());
    }
    room
}

/// Returns the text of `serve`, of the lines that sessions made: session by session, a line for each reply.
///
/// It has its room at once, and each session's lines are freed as soon as they are copied.
pub(crate) fn serve_text(alloc: Global, texts: Vec<Vec<u8>>) -> Result<Vec<u8>, AllocError>
    ensures { IfOk result (λ text. (replies : List (List Replied)) → texts_of texts.items ≡ map replies_text replies → text.items ≡ serve_text replies) }
{
    let mut text = Vec::with_capacity(alloc, room_for(&texts))?;
    for (q, lines) in texts.into_iter().enumerate() {
        add_session(alloc, q, &lines, &mut text)?;
    }
    Ok(text)
}

/// How many calls there are on sectors.
#[derive(Clone, Copy, Debug, PartialEq, Eq)]
struct CallCounts {
    reads: u128,
    writes: u128,
}

/// Whether a call is a read.
fn is_read(line: &Line) -> bool
    ensures { result ≡ is_read line.now }
{
    matches!(line, Line::Read { .. })
}

/// Whether a call is a write.
fn is_write(line: &Line) -> bool
    ensures { result ≡ is_write line.now }
{
    matches!(line, Line::Write { .. })
}

/// How many calls of a session are reads.
fn reads_of(session: &SessionLines) -> usize
    ensures { result ≡ count_by is_read session.now.calls }
{
    session
        .calls
        .as_slice()
        .iter()
        .filter(|line| is_read(line))
        .count()
}

/// How many calls of a session are writes.
fn writes_of(session: &SessionLines) -> usize
    ensures { result ≡ count_by is_write session.now.calls }
{
    session
        .calls
        .as_slice()
        .iter()
        .filter(|line| is_write(line))
        .count()
}

/// Counts the calls of a script that are on sectors.
fn counts_of(script: &Script) -> CallCounts
    ensures reads { result.reads ≡ reads_in script.now }
    ensures writes { result.writes ≡ writes_in script.now }
    ensures few { result.reads + result.writes < 2 ^ 128 }
{
    let mut counts = CallCounts {
        reads: 0,
        writes: 0,
    };
    // All calls: no fewer than both counts together.
    let mut calls: u128 = 0;
    for session in script.sessions.as_slice() {
        calls += session.calls.len() as u128;
        counts.reads += reads_of(session) as u128;
        counts.writes += writes_of(session) as u128;
    }
    counts
}

/// Fills a text with zero bytes to a multiple of 4.
fn fill(text: Vec<u8>) -> Result<Vec<u8>, AllocError>
    ensures { IfOk result (λ bytes. bytes.items ≡ filled text.items) }
{
    let mut bytes = text;
    let len = bytes.len();
    bytes.resize(len + (4 - len % 4) % 4, 0)?;
    Ok(bytes)
}

/// Returns the checksum of the text of `serve`, in sixteen digits.
fn replies_sum(alloc: Global, text: Vec<u8>) -> Result<String, AllocError>
    ensures { IfOk result (λ sum. (replies : List (List Replied)) → text.items ≡ serve_text replies → string_bytes sum ≡ replies_sum replies) }
{
    let bytes = fill(text)?;
    let sum = fletcher64(&bytes);
    hex::encode(alloc, &sum.to_be_bytes())
}

/// Returns the text of `load`, by its script and the text that `serve` would print.
pub(crate) fn summary(alloc: Global, script: &Script, text: Vec<u8>) -> Result<Vec<u8>, AllocError>
    ensures { IfOk result (λ lines. (replies : List (List Replied)) → text.items ≡ serve_text replies → lines.items ≡ summary script.now replies) }
{
    let counts = counts_of(script);
    let sum = replies_sum(alloc, text)?;
    let lines = format!(in alloc;
        "sessions {} calls {} reads {} writes {}\nreplies {}\n",
        script.sessions.len(),
        counts.reads + counts.writes,
        counts.reads,
        counts.writes,
        sum
    )?;
    Ok(lines.into_bytes())
}
