//! What one line of a script says.
ghost use Rattle.std.specs.Prelude.{◌≡◌, ◌≢◌};
ghost use Rattle.nvd_words.specs.Checks.{Answers};
ghost use Rattle.session_script.specs.Fields.{rest_of};
ghost use Rattle.session_script.specs.Script.{close_line, create_line, cut_line, delete_line, labelcut_line, open_line, read_call, rename_line, said_by, session_line, verb_of, write_call};

use crate::fault::{LineFault, LineKind};
use crate::fields::Fields;
use crate::script::{Line, Order};
use std::alloc::Global;

/// The first word of a line.
#[derive(Clone, Copy, PartialEq, Eq)]
pub(crate) enum Verb {
    Labelcut,
    Session,
    Cut,
    Open,
    Close,
    Read,
    Write,
    Create,
    Delete,
    Rename,
}

/// What a line says.
#[derive(Drop)]
pub(crate) enum Said {
    /// Power is cut after so many steps on labels.
    Labelcut(u64),
    /// A session begins.
    Session,
    /// The session cuts power after so many steps.
    Cut(u64),
    /// The session makes a call.
    Call(Line),
}

/// Returns the first word that bytes spell.
#[tactic(auto, using(nvd_words::proofs::Checks::choices), unfolding(crate::specs::Script::verb_of))]
pub(crate) fn verb_of(word: &[u8]) -> Option<Verb>
    ensures { result ≡ verb_of word.now }
{
    if word == b"labelcut".as_slice() {
        Some(Verb::Labelcut)
    } else if word == b"session".as_slice() {
        Some(Verb::Session)
    } else if word == b"cut".as_slice() {
        Some(Verb::Cut)
    } else if word == b"open".as_slice() {
        Some(Verb::Open)
    } else if word == b"close".as_slice() {
        Some(Verb::Close)
    } else if word == b"read".as_slice() {
        Some(Verb::Read)
    } else if word == b"write".as_slice() {
        Some(Verb::Write)
    } else if word == b"create".as_slice() {
        Some(Verb::Create)
    } else if word == b"delete".as_slice() {
        Some(Verb::Delete)
    } else if word == b"rename".as_slice() {
        Some(Verb::Rename)
    } else {
        None
    }
}

#[tactic(auto, using(crate::proofs::Following::fields))]
fn labelcut_line(mut fields: Fields<'_>) -> Result<Said, LineFault>
    ensures { result ≡ labelcut_line (rest_of fields.entry) }
{
    let steps = fields.u64()?;
    fields.end(Said::Labelcut(steps))
}

#[tactic(auto, using(crate::proofs::Following::fields))]
fn session_line(count: usize, mut fields: Fields<'_>) -> Result<Said, LineFault>
    ensures { result ≡ session_line count (rest_of fields.entry) }
{
    let number = fields.u32()?;
    if number as usize == count {
        fields.end(Said::Session)
    } else {
        Err(LineFault::Kind(LineKind::Order))
    }
}

#[tactic(auto, using(crate::proofs::Following::fields))]
fn cut_line(mut fields: Fields<'_>) -> Result<Said, LineFault>
    ensures { result ≡ cut_line (rest_of fields.entry) }
{
    let steps = fields.u64()?;
    fields.end(Said::Cut(steps))
}

#[tactic(auto, using(crate::proofs::Following::fields))]
fn open_line(mut fields: Fields<'_>) -> Result<Said, LineFault>
    ensures { result ≡ open_line (rest_of fields.entry) }
{
    let uuid = fields.uuid()?;
    fields.end(Said::Call(Line::Order(Order::Open { uuid })))
}

fn close_line(fields: &Fields<'_>) -> Result<Said, LineFault>
    ensures { result ≡ close_line (rest_of fields.now) }
{
    fields.end(Said::Call(Line::Order(Order::Close)))
}

#[tactic(auto, using(crate::proofs::Following::fields))]
fn read_call(mut fields: Fields<'_>) -> Result<Said, LineFault>
    ensures { result ≡ read_call (rest_of fields.entry) }
{
    let sector = fields.u64()?;
    fields.end(Said::Call(Line::Read { sector }))
}

#[tactic(auto, using(crate::proofs::Following::fields))]
fn write_call(alloc: Global, mut fields: Fields<'_>) -> Result<Said, LineFault>
    ensures { Answers LineFault.OutOfMemory result (write_call (rest_of fields.entry)) }
{
    let sector = fields.u64()?;
    let value = fields.value(alloc)?;
    fields.end(Said::Call(Line::Write { sector, value }))
}

#[tactic(auto, using(crate::proofs::Following::fields))]
fn create_line(alloc: Global, mut fields: Fields<'_>) -> Result<Said, LineFault>
    ensures { Answers LineFault.OutOfMemory result (create_line (rest_of fields.entry)) }
{
    let uuid = fields.uuid()?;
    let region = fields.u32()?;
    let size = fields.u64()?;
    let name = fields.name(alloc)?;
    fields.end(Said::Call(Line::Order(Order::Create {
        uuid,
        region,
        size,
        name,
    })))
}

#[tactic(auto, using(crate::proofs::Following::fields))]
fn delete_line(mut fields: Fields<'_>) -> Result<Said, LineFault>
    ensures { result ≡ delete_line (rest_of fields.entry) }
{
    let uuid = fields.uuid()?;
    fields.end(Said::Call(Line::Order(Order::Delete { uuid })))
}

#[tactic(auto, using(crate::proofs::Following::fields))]
fn rename_line(alloc: Global, mut fields: Fields<'_>) -> Result<Said, LineFault>
    ensures { Answers LineFault.OutOfMemory result (rename_line (rest_of fields.entry)) }
{
    let uuid = fields.uuid()?;
    let name = fields.name(alloc)?;
    fields.end(Said::Call(Line::Order(Order::Rename { uuid, name })))
}

/// Reads the fields after a first word; `count` sessions came before.
pub(crate) fn said_by(
    alloc: Global,
    count: usize,
    verb: Verb,
    fields: Fields<'_>,
) -> Result<Said, LineFault>
    ensures { Answers LineFault.OutOfMemory result (said_by count verb (rest_of fields.entry)) }
{
    match verb {
        Verb::Labelcut => labelcut_line(fields),
        Verb::Session => session_line(count, fields),
        Verb::Cut => cut_line(fields),
        Verb::Open => open_line(fields),
        Verb::Close => close_line(&fields),
        Verb::Read => read_call(fields),
        Verb::Write => write_call(alloc, fields),
        Verb::Create => create_line(alloc, fields),
        Verb::Delete => delete_line(fields),
        Verb::Rename => rename_line(alloc, fields),
    }
}
