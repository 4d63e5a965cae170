//! The line of a reply.
ghost use Rattle.std.specs.Prelude.{◌≡◌, ◌++◌, OnOk};
ghost use Rattle.session_account.specs.declared.reply.Reply.TheVariants as reply;
ghost use Rattle.session_texts.specs.Texts.{reply_text};

use namespace_map::OpRefused;
use session_account::Reply;
use session_script::add_cell;
use shell_reports::refusal_text;
use std::alloc::{AllocError, Global};

/// Appends the line of a refusal because a namespace has only so many sectors.
fn add_range(alloc: Global, count: u64, text: &mut Vec<u8>) -> Result<(), AllocError>
    ensures { OnOk result (text.new.items ≡ text.old.items ++ reply_text (reply.Range count)) }
{
    let line = format!(in alloc; "refused Range {}\n", count)?;
    text.extend_from_slice(line.as_bytes())
}

/// Appends the line of a refusal because a value has other bytes than a sector.
fn add_length(alloc: Global, said: u64, had: u64, text: &mut Vec<u8>) -> Result<(), AllocError>
    ensures { OnOk result (text.new.items ≡ text.old.items ++ reply_text (reply.Length said had)) }
{
    let line = format!(in alloc; "refused Length {} {}\n", said, had)?;
    text.extend_from_slice(line.as_bytes())
}

/// Appends the line of an order that the registry refused.
fn add_refusal(alloc: Global, why: OpRefused, text: &mut Vec<u8>) -> Result<(), AllocError>
    ensures { OnOk result (text.new.items ≡ text.old.items ++ reply_text (reply.Op why)) }
{
    let refusal = refusal_text(alloc, why)?;
    let line = format!(in alloc; "refused {}\n", refusal)?;
    text.extend_from_slice(line.as_bytes())
}

/// Appends the line of a reply to a text. The one refusal is out of memory; then a part of the line may stand in the text.
pub fn add_reply(alloc: Global, reply: &Reply, text: &mut Vec<u8>) -> Result<(), AllocError>
    ensures { OnOk result (text.new.items ≡ text.old.items ++ reply_text reply.now) }
{
    match reply {
        Reply::Done => text.extend_from_slice(b"ok\n"),
        Reply::Value(cell) => add_cell(alloc, cell, text),
        Reply::Range { count } => add_range(alloc, *count, text),
        Reply::Length { said, had } => add_length(alloc, *said, *had, text),
        Reply::NotOpen => text.extend_from_slice(b"refused NotOpen\n"),
        Reply::IsOpen => text.extend_from_slice(b"refused IsOpen\n"),
        Reply::Op(why) => add_refusal(alloc, *why, text),
        Reply::Cut => text.extend_from_slice(b"cut\n"),
    }
}
