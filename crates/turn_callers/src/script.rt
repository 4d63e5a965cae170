//! One register behind one lock, and all callers at once.
ghost use Rattle.std.specs.Prelude.{◌≡◌, ℕ, ◌^◌, ◌<◌, ◌≤◌, [], map, length, true, IfOk, sum_by, vec_len};
ghost use Rattle.turn_lock.specs.Passes.{lock_id, first_of, number_of, AreFresh};
ghost use Rattle.turn_lock.specs.Rows.{items_at};
ghost use Rattle.turn_callers.specs.Replay.{is_legal, HasNoOther, AreOwnEntries, AreAnswered};
ghost use Rattle.turn_callers.specs.Scripts.{IsNewFor, IsScriptReady, IsScriptDone, AreScriptsReady, AreScriptsDone};

use crate::register::{Register, RegisterCall, RegisterEntry};
use crate::turns::make_in_turn;
use std::alloc::{AllocError, Global};
use std::sync::Wait;
use std::thread;
use std::thread::Threads;
use turn_lock::{Turn, TurnPass};

// One caller, with its replies.
#[derive(Drop)]
struct ScriptSession {
    pass: TurnPass<Register>,
    replies: Vec<u64>,
}

/// The journal of all calls, and the replies of each caller.
#[derive(Drop)]
pub struct Ran {
    pub journal: Vec<RegisterEntry>,
    pub replies: Vec<Vec<u64>>,
}

/// Runs all scripts concurrently, script `q` as caller `q` of one register, in at most `workers`
/// threads.
///
/// A single thread could have made the journal (`legal`). The entries of each caller are its calls,
/// in order, with its replies (`replies`), and there are no other entries (`no_other`).
pub fn run_scripts<R: Threads + Wait + Sync>(
    rt: &R,
    alloc: Global,
    scripts: &[Vec<RegisterCall>],
    workers: usize,
) -> Result<Ran, AllocError>
    requires workers { 0 < workers }
    requires few { length scripts.now < 2 ^ 32 }
    requires small { sum_by vec_len scripts.now < 2 ^ 32 }
    ensures legal { IfOk result (λ r. is_legal 0 r.journal.items ≡ true) }
    ensures replies { IfOk result (λ r. AreOwnEntries scripts.now r.journal.items r.replies.items) }
    ensures each_answered { IfOk result (λ r. AreAnswered scripts.now r.replies.items) }
    ensures no_other { IfOk result (λ r. HasNoOther (length scripts.now) r.journal.items) }
{
    let register = Register::new(alloc, scripts)?;
    let (turn, passes) = Turn::of(alloc, register, scripts.len() as u32)?;
    let ready = sit(alloc, &turn, scripts, passes)?;
    let done = run_each(rt, &turn, scripts, workers, ready);
    let (passes, replies) = stand(alloc, done)?;
    let journal = turn.close(passes).into_journal();
    Ok(Ran { journal, replies })
}

// A session for each pass, with room for the replies.
fn sit(
    alloc: Global,
    turn: &Turn<Register>,
    scripts: &[Vec<RegisterCall>],
    passes: Vec<TurnPass<Register>>,
) -> Result<Vec<ScriptSession>, AllocError>
    requires count { length passes.items ≡ length scripts.now }
    requires first { IsNewFor scripts.now (first_of turn.now) }
    requires fresh { AreFresh (lock_id turn.now) (first_of turn.now) passes.items }
    ensures count { IfOk result (λ v. length v.items ≡ length scripts.now) }
    ensures ready { IfOk result (λ v. AreScriptsReady (lock_id turn.now) scripts.now v.items) }
{
    let mut sessions = Vec::new(alloc);
    for pass in passes {
        let number = pass.number() as usize;
        let replies = Vec::with_capacity(alloc, scripts[number].len())?;
        sessions.push(ScriptSession { pass, replies })?;
    }
    Ok(sessions)
}

// Makes the calls of a script, each in the caller's turn.
fn run_session<R: Wait>(
    rt: &R,
    turn: &Turn<Register>,
    calls: &[RegisterCall],
    session: &mut ScriptSession,
)
    requires { IsScriptReady (lock_id turn.now) calls.now (number_of session.old.pass) session.old }
    ensures { IsScriptDone (lock_id turn.now) calls.now (number_of session.old.pass) session.new }
{
    let ScriptSession { pass, replies } = session;
    for call in calls {
        replies.push_reserved(make_in_turn(rt, turn, pass, *call));
    }
}

// Makes all calls of session i.
fn run_at<R: Wait>(
    rt: &R,
    turn: &Turn<Register>,
    scripts: &[Vec<RegisterCall>],
    i: usize,
    session: &mut ScriptSession,
)
    requires inside { i < length scripts.now }
    requires ready { IsScriptReady (lock_id turn.now) (items_at scripts.now i) i session.old }
    ensures { IsScriptDone (lock_id turn.now) (items_at scripts.now i) i session.new }
{
    run_session(rt, turn, scripts[i].as_slice(), session);
}

// Makes all calls of all sessions.
fn run_all<R: Threads + Wait + Sync>(
    rt: &R,
    turn: &Turn<Register>,
    scripts: &[Vec<RegisterCall>],
    workers: usize,
    sessions: &mut [ScriptSession],
)
    requires workers { 0 < workers }
    requires count { length sessions.old ≡ length scripts.now }
    requires ready { AreScriptsReady (lock_id turn.now) scripts.now sessions.old }
    ensures { AreScriptsDone (lock_id turn.now) scripts.now sessions.new }
{
    thread::for_each_mut(
        rt,
        sessions,
        workers,
        &|i, session| run_at(rt, turn, scripts, i, session),
    );
}

// The same, for a `Vec` of them.
fn run_each<R: Threads + Wait + Sync>(
    rt: &R,
    turn: &Turn<Register>,
    scripts: &[Vec<RegisterCall>],
    workers: usize,
    mut sessions: Vec<ScriptSession>,
) -> Vec<ScriptSession>
    requires workers { 0 < workers }
    requires count { length sessions.items ≡ length scripts.now }
    requires ready { AreScriptsReady (lock_id turn.now) scripts.now sessions.items }
    ensures count { length result.items ≡ length scripts.now }
    ensures done { AreScriptsDone (lock_id turn.now) scripts.now result.items }
{
    run_all(rt, turn, scripts, workers, sessions.as_mut_slice());
    sessions
}

// The passes and the replies of all sessions.
fn stand(
    alloc: Global,
    sessions: Vec<ScriptSession>,
) -> Result<(Vec<TurnPass<Register>>, Vec<Vec<u64>>), AllocError>
    ensures passes { IfOk result (λ r. r.0.items ≡ map (λ s. s.pass) sessions.items) }
    ensures replies { IfOk result (λ r. r.1.items ≡ map (λ s. s.replies) sessions.items) }
{
    let mut passes = Vec::new(alloc);
    let mut all = Vec::new(alloc);
    for session in sessions {
        let ScriptSession { pass, replies } = session;
        passes.push(pass)?;
        all.push(replies)?;
    }
    Ok((passes, all))
}
