//! A session makes one call of its script.
ghost use Rattle.std.specs.Prelude.{◌≡◌, ℕ, ◌+◌, ◌^◌, ◌<◌, List, length, IfErr, IfOk, None};
ghost use Rattle.lane_table.specs.Reads.{cell_of_kind};
ghost use Rattle.session_account.specs.declared.reply.Reply.{Reply as Replied};
ghost use Rattle.session_account.specs.declared.reply.Reply.TheVariants as reply;
ghost use Rattle.session_account.specs.Made.{on_after};
ghost use Rattle.session_account.specs.Sectors.{wrong_length, size_of};
ghost use Rattle.session_script.specs.declared.script.Line.{Line};
ghost use Rattle.session_script.specs.declared.script.Line.TheVariants as line;
ghost use Rattle.session_script.specs.declared.script.Script.{Script};
ghost use Rattle.session_service.specs.Runners.{Goes, IsNext, IsRefusedBy, KeepsText};
ghost use Rattle.session_service.specs.Services.{all_of};

use crate::finding::find;
use crate::resting::rest_session;
use crate::runner::Runner;
use crate::service::Service;
use arena_open::{Cell, CellKind};
use lane_calls::{Heard, Waiting, Wrote, read, write};
use lane_pool::is_off;
use lane_replay::{length_of, value_words};
use nvd_media::Gate;
use nvd_words::Items;
use registry_service::order;
use session_account::Reply;
use session_script::{Line, Order, Payload};
use std::alloc::{AllocError, Global};
use std::mem;
use std::sync::Wait;
use uuid::Uuid;

/// The reply to a call that its checks refuse: that, or that power is off.
fn refuse<R: Wait>(rt: &R, service: &Service, runner: &mut Runner, why: Reply) -> Reply
    requires { (script : Script) × (q : ℕ) × (replies : List Replied) × (l : Line) × IsNext service.now script q replies l runner.old × IsRefusedBy (all_of service.now) runner.old.held l why }
    ensures kept { KeepsText runner.old runner.new }
    ensures goes { (script : Script) (q : ℕ) (replies : List Replied) (l : Line) → IsNext service.now script q replies l runner.old → IsRefusedBy (all_of service.now) runner.old.held l why → Goes service.now script q replies result runner.new }
{
    rest_session(rt, service, runner);
    let caller = &mut runner.session.caller;
    if is_off(rt, &service.sectors.pool, &mut caller.pool) {
        return Reply::Cut;
    }
    caller.call += 1;
    why
}

/// The cell that a read got.
fn cell_of(kind: CellKind, words: Vec<u64>) -> Cell
    ensures { result ≡ cell_of_kind kind words.items }
{
    match kind {
        CellKind::Bytes => Cell::Bytes(Items::from_vec(words)),
        CellKind::Bad => Cell::Bad,
    }
}

/// Takes over the list of the words that were read last, as long as a sector has words now.
fn take_words(alloc: Global, last: &mut Vec<u64>, width: usize) -> Result<Vec<u64>, AllocError>
    ensures { IfOk result (λ words. length words.items ≡ width) }
{
    let mut words = mem::replace(last, Vec::new(alloc));
    words.resize(width, 0)?;
    Ok(words)
}

/// Reads a sector of the namespace that is open.
fn make_read<R: Wait>(
    rt: &R,
    service: &Service,
    runner: &mut Runner,
    sector: u64,
) -> Result<Reply, AllocError>
    requires { (script : Script) × (q : ℕ) × (replies : List Replied) × IsNext service.now script q replies (line.Read sector) runner.old }
    ensures kept { KeepsText runner.old runner.new }
    ensures goes { (script : Script) (q : ℕ) (replies : List Replied) → IsNext service.now script q replies (line.Read sector) runner.old → IfOk result (λ r. Goes service.now script q replies r runner.new) }
    ensures rests { IfErr result (λ _. runner.new.session.kept ≡ None) }
{
    let places = service.places.as_slice();
    let found = match find(places, runner.held, sector) {
        Ok(found) => found,
        Err(why) => return Ok(refuse(rt, service, runner, why)),
    };
    let width = (found.bytes / 8) as usize;
    let mut words = match take_words(service.alloc, &mut runner.words, width) {
        Ok(words) => words,
        Err(fault) => {
            rest_session(rt, service, runner);
            return Err(fault);
        }
    };
    let session = &mut runner.session;
    let into = words.as_mut_slice();
    let sectors = &service.sectors;
    match read(rt, sectors, session, found.arena, found.sector, into) {
        Heard::Got(kind) => Ok(Reply::Value(cell_of(kind, words))),
        Heard::Cut => Ok(Reply::Cut),
    }
}

/// Why a value isn't one of a sector with so many bytes.
fn misfit(value: &Payload, had: u32) -> Option<Reply>
    ensures { result ≡ wrong_length (size_of value.now had) had }
{
    let had = u64::from(had);
    let said = length_of(value, had);
    if said == had {
        None
    } else {
        Some(Reply::Length { said, had })
    }
}

/// Writes a sector of the namespace that is open.
fn make_write<R: Wait, G: Gate>(
    waiting: &Waiting<R, G>,
    service: &Service,
    runner: &mut Runner,
    sector: u64,
    value: &Payload,
) -> Result<Reply, AllocError>
    requires { (script : Script) × (q : ℕ) × (replies : List Replied) × IsNext service.now script q replies (line.Write sector value.now) runner.old }
    ensures kept { KeepsText runner.old runner.new }
    ensures goes { (script : Script) (q : ℕ) (replies : List Replied) → IsNext service.now script q replies (line.Write sector value.now) runner.old → IfOk result (λ r. Goes service.now script q replies r runner.new) }
    ensures rests { IfErr result (λ _. runner.new.session.kept ≡ None) }
{
    let places = service.places.as_slice();
    let found = match find(places, runner.held, sector) {
        Ok(found) => found,
        Err(why) => return Ok(refuse(waiting.rt, service, runner, why)),
    };
    match misfit(value, found.bytes) {
        Some(why) => return Ok(refuse(waiting.rt, service, runner, why)),
        None => {}
    }
    let words = match value_words(service.alloc, value, found.bytes as usize) {
        Ok(words) => words,
        Err(fault) => {
            rest_session(waiting.rt, service, runner);
            return Err(fault);
        }
    };
    let slice = words.as_slice();
    let session = &mut runner.session;
    let sectors = &service.sectors;
    match write(waiting, sectors, session, found.arena, found.sector, slice) {
        Wrote::Done => Ok(Reply::Done),
        Wrote::Cut => Ok(Reply::Cut),
    }
}

/// The namespace that is open after an order, if this one was open before.
fn held_after(held: Option<Uuid>, order: &Order, reply: &Reply) -> Option<Uuid>
    ensures { result ≡ on_after held (line.Order order.now) reply.now }
{
    match (order, reply) {
        (Order::Open { uuid }, Reply::Done) => Some(*uuid),
        (Order::Close, Reply::Done) => None,
        _ => held,
    }
}

/// Makes an order.
fn make_order<R: Wait>(
    rt: &R,
    service: &Service,
    runner: &mut Runner,
    asked: &Order,
) -> Result<Reply, AllocError>
    requires { (script : Script) × (q : ℕ) × (replies : List Replied) × IsNext service.now script q replies (line.Order asked.now) runner.old }
    ensures kept { KeepsText runner.old runner.new }
    ensures goes { (script : Script) (q : ℕ) (replies : List Replied) → IsNext service.now script q replies (line.Order asked.now) runner.old → IfOk result (λ r. Goes service.now script q replies r runner.new) }
    ensures rests { IfErr result (λ _. runner.new.session.kept ≡ None) }
{
    rest_session(rt, service, runner);
    let caller = &mut runner.session.caller;
    let reply = order(
        rt,
        &service.registry.turn,
        &mut runner.orders,
        &service.sectors.pool,
        &mut caller.pool,
        caller.call,
        asked,
    )?;
    caller.call += 1;
    runner.held = held_after(runner.held, asked, &reply);
    Ok(reply)
}

/// Makes a call of a script. If power is off its reply is `Cut`.
///
/// The checks come in this order: `NotOpen`, `Range`, `Length`; of an `open` `IsOpen`. They look at nothing
/// that other sessions change, so the session asks for the power only if one of them refuses the call, or where the call
/// takes its lanes. The one error is out of memory; then the session keeps no set of lanes.
pub(crate) fn make_line<R: Wait, G: Gate>(
    waiting: &Waiting<R, G>,
    service: &Service,
    runner: &mut Runner,
    line: &Line,
) -> Result<Reply, AllocError>
    requires { (script : Script) × (q : ℕ) × (replies : List Replied) × IsNext service.now script q replies line.now runner.old }
    ensures kept { KeepsText runner.old runner.new }
    ensures goes { (script : Script) (q : ℕ) (replies : List Replied) → IsNext service.now script q replies line.now runner.old → IfOk result (λ r. Goes service.now script q replies r runner.new) }
    ensures rests { IfErr result (λ _. runner.new.session.kept ≡ None) }
{
    let rt = waiting.rt;
    match line {
        Line::Read { sector } => make_read(rt, service, runner, *sector),
        Line::Write { sector, value } => make_write(waiting, service, runner, *sector, value),
        Line::Order(asked) => make_order(rt, service, runner, asked),
    }
}
