//! What an order asks of the registry, and what its answer is to the session.
ghost use Rattle.std.specs.Prelude.{◌≡◌, true, Some, None, Err, IfOk, OnErr};
ghost use Rattle.std.specs.Str.{is_utf8};
ghost use Rattle.namespace_map.specs.Commands.{named_of};
ghost use Rattle.namespace_ops.specs.Carried.{IsGoodName};
ghost use Rattle.session_account.specs.declared.reply.Reply.{Reply as Replied};
ghost use Rattle.session_account.specs.Orders.{command_of};
ghost use Rattle.session_script.specs.declared.script.Order.TheVariants as order;
ghost use Rattle.registry_service.specs.Asking.{HasText, IsAsked, check_by, told_as};

use namespace_map::{Command, CreateSpec, Make, Named, OpRefused};
use namespace_ops::named;
use session_account::Reply;
use session_script::Order;
use std::alloc::AllocError;
use uuid::Uuid;

/// The name that a text of an order makes.
fn name_from(text: &[u8]) -> Named
    requires { is_utf8 text.now ≡ true }
    ensures named { result ≡ named_of text.now }
    ensures good { IsGoodName result }
{
    match str::from_utf8(text) {
        Ok(text) => named(text),
        Err(_) => unreachable!(),
    }
}

/// The claim that an `open` asks, unless a namespace is open.
fn claim_of(held: Option<Uuid>, uuid: Uuid) -> Result<Command, Reply>
    ensures command { IfOk result (IsAsked held (order.Open uuid)) }
    ensures check { (r : Replied) → result ≡ Err r → (command_of held (order.Open uuid) ≡ None) × (check_by held (order.Open uuid) ≡ Some r) }
{
    match held {
        Some(_) => Err(Reply::IsOpen),
        None => Ok(Command::Claim { uuid }),
    }
}

/// The claim that a `close` gives back, unless no namespace is open.
fn unclaim_of(held: Option<Uuid>) -> Result<Command, Reply>
    ensures command { IfOk result (IsAsked held order.Close) }
    ensures check { (r : Replied) → result ≡ Err r → (command_of held order.Close ≡ None) × (check_by held order.Close ≡ Some r) }
{
    match held {
        Some(uuid) => Ok(Command::Unclaim { uuid }),
        None => Err(Reply::NotOpen),
    }
}

/// The command that an order asks of a session that has this namespace open, or why the order isn't
/// made. The name that it gives is UTF-8.
pub(crate) fn command_of(held: Option<Uuid>, order: &Order) -> Result<Command, Reply>
    requires { HasText order.now }
    ensures command { IfOk result (IsAsked held order.now) }
    ensures check { (r : Replied) → result ≡ Err r → (command_of held order.now ≡ None) × (check_by held order.now ≡ Some r) }
{
    match order {
        Order::Open { uuid } => claim_of(held, *uuid),
        Order::Close => unclaim_of(held),
        Order::Create {
            uuid,
            region,
            size,
            name,
        } => Ok(Command::Create(CreateSpec {
            uuid: *uuid,
            name: name_from(name.as_slice()),
            region: *region,
            size: *size,
            make: Make::Raw,
        })),
        Order::Delete { uuid } => Ok(Command::Delete { uuid: *uuid }),
        Order::Rename { uuid, name } => Ok(Command::Rename {
            uuid: *uuid,
            name: name_from(name.as_slice()),
        }),
    }
}

/// What a session is told of a refusal.
fn refusal(refused: OpRefused) -> Result<Reply, AllocError>
    ensures told { IfOk result (λ r. told_as (Err refused) ≡ Some r) }
    ensures memory { OnErr result (told_as (Err refused) ≡ None) }
{
    match refused {
        OpRefused::PowerCut => Ok(Reply::Cut),
        OpRefused::OutOfMemory => Err(AllocError),
        refused => Ok(Reply::Op(refused)),
    }
}

/// What a session is told of the registry's answer.
pub(crate) fn told(answer: Result<(), OpRefused>) -> Result<Reply, AllocError>
    ensures told { IfOk result (λ r. told_as answer ≡ Some r) }
    ensures memory { OnErr result (told_as answer ≡ None) }
{
    match answer {
        Ok(()) => Ok(Reply::Done),
        Err(refused) => refusal(refused),
    }
}
