//! How sessions get their passes, and give them back.
ghost use Rattle.std.specs.Prelude.{◌≡◌, ◌^◌, ◌<◌, [], ◌∷◌, ◌++◌, length, OnOk, IfOk};
ghost use Rattle.turn_callers.specs.Sessions.{AreReady, KeepRest, HaveOneMore, HadOneMore, HavePasses};

use crate::order::ShelfOrder;
use crate::register::Register;
use crate::session::ShelfSession;
use std::alloc::{AllocError, Global};
use turn_lock::TurnPass;

// Makes a session for each script, without a pass.
pub(crate) fn stools(
    alloc: Global,
    scripts: &[Vec<ShelfOrder>],
) -> Result<Vec<ShelfSession>, AllocError>
    requires { length scripts.now < 2 ^ 32 }
    ensures count { IfOk result (λ v. length v.items ≡ length scripts.now) }
    ensures ready { IfOk result (λ v. AreReady [] scripts.now v.items) }
{
    let mut sessions = Vec::new(alloc);
    for i in 0..scripts.len() {
        let replies = Vec::with_capacity(alloc, scripts[i].len())?;
        sessions.push(ShelfSession {
            number: i as u32,
            passes: Vec::new(alloc),
            replies,
        })?;
    }
    Ok(sessions)
}

// Gives a pass to the session.
fn add(session: &mut ShelfSession, pass: TurnPass<Register>) -> Result<(), AllocError>
    ensures passes { OnOk result (session.new.passes.items ≡ session.old.passes.items ++ pass ∷ []) }
    ensures number { session.new.number ≡ session.old.number }
    ensures replies { session.new.replies ≡ session.old.replies }
{
    session.passes.push(pass)?;
    Ok(())
}

// Gives each session the pass of its number.
pub(crate) fn hand_out(
    sessions: &mut [ShelfSession],
    mut passes: Vec<TurnPass<Register>>,
) -> Result<(), AllocError>
    requires { length passes.items ≡ length sessions.old }
    ensures passes { OnOk result (HaveOneMore sessions.old passes.items sessions.new) }
    ensures others { OnOk result (KeepRest sessions.old sessions.new) }
{
    while let Some(pass) = passes.pop() {
        let at = passes.len();
        add(&mut sessions[at], pass)?;
    }
    Ok(())
}

// Takes the last pass of the session.
fn take_last(session: &mut ShelfSession) -> TurnPass<Register>
    requires { 0 < length session.old.passes.items }
    ensures passes { session.old.passes.items ≡ session.new.passes.items ++ result ∷ [] }
    ensures number { session.new.number ≡ session.old.number }
    ensures replies { session.new.replies ≡ session.old.replies }
{
    match session.passes.pop() {
        Some(pass) => pass,
        None => unreachable!(),
    }
}

// Takes the last pass of each session.
pub(crate) fn take_back(
    alloc: Global,
    sessions: &mut [ShelfSession],
) -> Result<Vec<TurnPass<Register>>, AllocError>
    requires { HavePasses sessions.old }
    ensures count { IfOk result (λ v. length v.items ≡ length sessions.old) }
    ensures passes { IfOk result (λ v. HadOneMore sessions.old v.items sessions.new) }
    ensures others { OnOk result (KeepRest sessions.old sessions.new) }
{
    let mut passes = Vec::with_capacity(alloc, sessions.len())?;
    for session in sessions {
        passes.push(take_last(session))?;
    }
    Ok(passes)
}
