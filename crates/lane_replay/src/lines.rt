//! The lines that are printed.
ghost use Rattle.std.specs.Prelude.{◌≡◌, ◌++◌, IfOk, OnOk, string_bytes};
ghost use Rattle.lane_replay.specs.Texts.{answer_text, counted, lane_line, phase_text, refused_line, refused_text};

use crate::refused::Refused;
use lane_core::{Answer, Phase};
use session_script::add_cell;
use std::alloc::{AllocError, Global};

/// Returns the name of a phase with its counter.
fn counted(alloc: Global, name: &str, k: u32) -> Result<String, AllocError>
    ensures { IfOk result (λ text. string_bytes text ≡ counted name.now k) }
{
    format!(in alloc; "{} {}", name, k)
}

/// Returns the name of a phase, and its counter if it has one.
fn phase_text(alloc: Global, phase: Phase) -> Result<String, AllocError>
    ensures { IfOk result (λ text. string_bytes text ≡ phase_text phase) }
{
    match phase {
        Phase::Idle => String::from_str(alloc, "Idle"),
        Phase::Scanning(j) => counted(alloc, "Scanning", j),
        Phase::Staging(k) => counted(alloc, "Staging", k),
        Phase::Staged => String::from_str(alloc, "Staged"),
        Phase::Locked => String::from_str(alloc, "Locked"),
        Phase::Known => String::from_str(alloc, "Known"),
        Phase::LogAStored => String::from_str(alloc, "LogAStored"),
        Phase::LogA => String::from_str(alloc, "LogA"),
        Phase::LogBStored => String::from_str(alloc, "LogBStored"),
        Phase::Logged => String::from_str(alloc, "Logged"),
        Phase::Switched => String::from_str(alloc, "Switched"),
        Phase::Kept => String::from_str(alloc, "Kept"),
        Phase::Called => String::from_str(alloc, "Called"),
        Phase::Looking => String::from_str(alloc, "Looking"),
        Phase::Published => String::from_str(alloc, "Published"),
        Phase::Moved => String::from_str(alloc, "Moved"),
        Phase::Reading(k) => counted(alloc, "Reading", k),
    }
}

fn busy_text(alloc: Global, phase: Phase) -> Result<String, AllocError>
    ensures { IfOk result (λ text. string_bytes text ≡ refused_text (Refused.LaneBusy phase)) }
{
    let name = phase_text(alloc, phase)?;
    format!(in alloc; "refused LaneBusy {}\n", name)
}

/// Returns a refusal as it is printed behind the number of a lane.
fn refused_text(alloc: Global, why: Refused) -> Result<String, AllocError>
    ensures { IfOk result (λ text. string_bytes text ≡ refused_text why) }
{
    match why {
        Refused::Lane { count } => format!(in alloc; "refused Lane {}\n", count),
        Refused::Range { count } => format!(in alloc; "refused Range {}\n", count),
        Refused::Length { said, had } => format!(in alloc; "refused Length {} {}\n", said, had),
        Refused::LaneBusy { phase } => busy_text(alloc, phase),
    }
}

/// Adds a line about a lane.
pub(crate) fn say(
    alloc: Global,
    text: &mut Vec<u8>,
    lane: u32,
    what: &str,
) -> Result<(), AllocError>
    ensures { OnOk result (text.new.items ≡ text.old.items ++ lane_line lane what.now) }
{
    let line = format!(in alloc; "lane {} {}", lane, what)?;
    text.extend_from_slice(line.as_bytes())?;
    Ok(())
}

/// Adds an answer as it is printed behind the number of a lane.
fn add_answer(alloc: Global, answer: &Answer, text: &mut Vec<u8>) -> Result<(), AllocError>
    ensures { OnOk result (text.new.items ≡ text.old.items ++ answer_text answer.now) }
{
    match answer {
        Answer::Wrote => text.extend_from_slice(b"ok\n"),
        Answer::Got(cell) => add_cell(alloc, cell, text),
    }
}

/// Adds the line of an answer.
pub(crate) fn say_answer(
    alloc: Global,
    text: &mut Vec<u8>,
    lane: u32,
    answer: &Answer,
) -> Result<(), AllocError>
    ensures { OnOk result (text.new.items ≡ text.old.items ++ lane_line lane (answer_text answer.now)) }
{
    say(alloc, text, lane, "")?;
    add_answer(alloc, answer, text)
}

/// Adds the line of a refusal.
pub(crate) fn say_refused(
    alloc: Global,
    text: &mut Vec<u8>,
    lane: u32,
    why: Refused,
) -> Result<(), AllocError>
    ensures { OnOk result (text.new.items ≡ text.old.items ++ lane_line lane (refused_text why)) }
{
    let what = refused_text(alloc, why)?;
    say(alloc, text, lane, what.as_str())
}

/// Adds the line of a refusal, if there is one.
pub(crate) fn say_if_refused(
    alloc: Global,
    text: &mut Vec<u8>,
    lane: u32,
    why: Option<Refused>,
) -> Result<(), AllocError>
    ensures { OnOk result (text.new.items ≡ text.old.items ++ refused_line lane why) }
{
    match why {
        Some(why) => say_refused(alloc, text, lane, why),
        None => Ok(()),
    }
}
