//! Scripts that are made from a number.
ghost use Rattle.std.specs.Prelude.{◌≡◌, ◌<◌, ◌≤◌, ◌+◌, ◌*◌, ◌^◌, ◌++◌, OnOk, IfOk, Some, None};
ghost use Rattle.nvd_media.specs.Choosers.{next_of};
ghost use Rattle.session_script.specs.Names.{ScriptHasText};
ghost use Rattle.session_script.specs.Load.{load_line, load_lines, load_script, load_session, load_sessions, number_after};

use crate::payload::Payload;
use crate::script::{Line, Order, Script, SessionLines};
use nvd_words::Items;
use std::alloc::{AllocError, Global};
use uuid::Uuid;

/// Returns the number that follows another: a linear congruential generator modulo 2^64.
#[tactic(auto, using(crate::proofs::Generated::generated))]
fn next(x: u64) -> u64
    ensures { result ≡ next_of x }
{
    x.wrapping_mul(6364136223846793005)
        .wrapping_add(1442695040888963407)
}

/// How a load is spread over sessions.
#[derive(Clone, Copy)]
struct Spread {
    /// How many sectors a session has.
    share: u64,
    /// How many sessions there are.
    sessions: u32,
}

/// Returns the call that a number makes of session `q`.
#[tactic(auto, using(crate::proofs::Generated::generated))]
fn load_line(spread: Spread, q: u32, x: u64) -> Line
    requires share { 0 < spread.share }
    requires fits { spread.share * spread.sessions < 2 ^ 64 }
    requires session { q < spread.sessions }
    ensures { result ≡ load_line spread.share spread.sessions q x }
{
    let sector = (x >> 33) % spread.share * u64::from(spread.sessions) + u64::from(q);
    if (x >> 32) % 2 == 0 {
        Line::Write {
            sector,
            value: Payload::Fill((x >> 56) as u8),
        }
    } else {
        Line::Read { sector }
    }
}

/// Adds `count` calls of session `q` by the numbers after `number`, and returns the last of them.
#[tactic(auto, using(crate::proofs::Generated::generated))]
fn add_calls(
    calls: &mut Items<Line>,
    spread: Spread,
    q: u32,
    count: u32,
    number: u64,
) -> Result<u64, AllocError>
    requires share { 0 < spread.share }
    requires fits { spread.share * spread.sessions < 2 ^ 64 }
    requires session { q < spread.sessions }
    ensures calls { OnOk result (calls.new ≡ calls.old ++ load_lines count spread.share spread.sessions q number) }
    ensures number { IfOk result (λ last. last ≡ number_after count number) }
{
    let mut last = number;
    let mut left = count;
    while left > 0 {
        last = next(last);
        calls.push(load_line(spread, q, last))?;
        left -= 1;
    }
    Ok(last)
}

/// Makes session `q` by the numbers after `number`, and returns it with the last of them.
fn load_session(
    alloc: Global,
    uuid: &Uuid,
    spread: Spread,
    q: u32,
    count: u32,
    number: u64,
) -> Result<(SessionLines, u64), AllocError>
    requires share { 0 < spread.share }
    requires fits { spread.share * spread.sessions < 2 ^ 64 }
    requires session { q < spread.sessions }
    ensures session { IfOk result (λ made. made.0 ≡ load_session uuid.now count spread.share spread.sessions q number) }
    ensures number { IfOk result (λ made. made.1 ≡ number_after count number) }
{
    let mut calls = Items::new(alloc);
    calls.push(Line::Order(Order::Open { uuid: *uuid }))?;
    let last = add_calls(&mut calls, spread, q, count, number)?;
    calls.push(Line::Order(Order::Close))?;
    Ok((SessionLines { cut: None, calls }, last))
}

/// Makes all sessions of a load.
#[tactic(auto, using(crate::proofs::Generated::generated))]
fn load_sessions(
    alloc: Global,
    uuid: &Uuid,
    spread: Spread,
    count: u32,
    number: u64,
) -> Result<Items<SessionLines>, AllocError>
    requires share { 0 < spread.share }
    requires fits { spread.share * spread.sessions < 2 ^ 64 }
    ensures { IfOk result (λ made. made ≡ load_sessions spread.sessions uuid.now count spread.share spread.sessions 0 number) }
{
    let mut made = Items::new(alloc);
    let mut last = number;
    let mut q = 0;
    while q < spread.sessions {
        let (session, next) = load_session(alloc, uuid, spread, q, count, last)?;
        made.push(session)?;
        last = next;
        q += 1;
    }
    Ok(made)
}

/// Makes the script of a load on a namespace of so many sectors: each of `sessions` sessions opens
/// it, makes `calls` reads and writes of sectors of its own, and closes it.
///
/// The calls follow from `number` by a generator: bit 32 of each number says whether the call is a
/// read, and the bits from 33 on which of the session's sectors it is for. A write's bytes are all
/// the number's highest byte. There must be at least one session, and at least as many sectors as
/// sessions. It fails only if memory runs out.
#[tactic(auto, using(crate::proofs::Generated::generated, crate::proofs::Names::load_has))]
pub fn make_load(
    alloc: Global,
    number: u64,
    uuid: &Uuid,
    sectors: u64,
    sessions: u32,
    calls: u32,
) -> Result<Script, AllocError>
    requires some { 0 < sessions }
    requires room { sessions ≤ sectors }
    ensures script { IfOk result (λ script. script ≡ load_script number uuid.now sectors sessions calls) }
    ensures text { IfOk result ScriptHasText }
{
    let share = sectors / u64::from(sessions);
    let spread = Spread { share, sessions };
    let sessions = load_sessions(alloc, uuid, spread, calls, number)?;
    Ok(Script {
        labelcut: None,
        sessions,
    })
}
