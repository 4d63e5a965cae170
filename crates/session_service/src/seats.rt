//! Runners are made of sessions.
ghost use Rattle.std.specs.Prelude.{◌≡◌, length, IfOk};
ghost use Rattle.session_service.specs.Seated.{AreSeated, IsSeatedAt};

use crate::runner::Runner;
use lane_calls::Session;
use registry_service::ServedRegistry;
use std::alloc::{AllocError, Global};
use turn_lock::TurnPass;

// Makes the runner of a session, which has no reply yet.
fn stool(alloc: Global, session: Session, orders: TurnPass<ServedRegistry>) -> Runner
    ensures { IsSeatedAt session orders result }
{
    Runner {
        session,
        orders,
        held: None,
        text: Vec::new(alloc),
        refused: false,
        words: Vec::new(alloc),
    }
}

/// Makes the runner of each session, with the pass of the registry at its place.
pub(crate) fn seat(
    alloc: Global,
    sessions: Vec<Session>,
    orders: Vec<TurnPass<ServedRegistry>>,
) -> Result<Vec<Runner>, AllocError>
    requires { length orders.items ≡ length sessions.items }
    ensures count { IfOk result (λ v. length v.items ≡ length sessions.items) }
    ensures seated { IfOk result (λ v. AreSeated sessions.items orders.items v.items) }
{
    let mut runners = Vec::new(alloc);
    let mut rest = orders.into_iter();
    for session in sessions {
        let Some(pass) = rest.next() else {
            unreachable!();
        };
        runners.push(stool(alloc, session, pass))?;
    }
    Ok(runners)
}
