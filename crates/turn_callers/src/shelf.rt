//! Registers behind a lock each, and all callers at once.
ghost use Rattle.std.specs.Prelude.{◌≡◌, ◌^◌, ◌<◌, [], length, map};
ghost use Rattle.std.specs.Prelude.{All, OnOk, IfOk, sum_by, vec_len};
ghost use Rattle.turn_lock.specs.Passes.{lock_id};
ghost use Rattle.turn_lock.specs.Rows.{items_at};
ghost use Rattle.turn_callers.specs.Replay.{AreAnswered};
ghost use Rattle.turn_callers.specs.Orders.{AreShelfJournals, AreWithin};
ghost use Rattle.turn_callers.specs.Sessions.{IsReady, IsDone, AreReady, AreDone};
ghost use Rattle.turn_callers.specs.Sessions.{IsNew, AreJournals, KeepReplies};

use crate::order::ShelfOrder;
use crate::orders::run_session;
use crate::register::{Register, RegisterEntry};
use crate::seats::{hand_out, stools, take_back};
use crate::session::ShelfSession;
use std::alloc::{AllocError, Global};
use std::sync::Wait;
use std::thread;
use std::thread::Threads;
use turn_lock::Turn;

// Makes `places` registers, a lock around each, and gives each session a pass of each.
fn shelve(
    alloc: Global,
    scripts: &[Vec<ShelfOrder>],
    places: usize,
    sessions: &mut [ShelfSession],
) -> Result<Vec<Turn<Register>>, AllocError>
    requires few { length scripts.now < 2 ^ 32 }
    requires small { sum_by vec_len scripts.now < 2 ^ 32 }
    requires count { length sessions.old ≡ length scripts.now }
    requires ready { AreReady [] scripts.now sessions.old }
    ensures places { IfOk result (λ v. length v.items ≡ places) }
    ensures ready { IfOk result (λ v. AreReady (map lock_id v.items) scripts.now sessions.new) }
    ensures new { IfOk result (λ v. All (IsNew (length scripts.now)) v.items) }
{
    let mut turns = Vec::new(alloc);
    for _place in 0..places {
        let register = Register::new(alloc, scripts)?;
        let (turn, passes) = Turn::of(alloc, register, scripts.len() as u32)?;
        hand_out(sessions, passes)?;
        turns.push(turn)?;
    }
    Ok(turns)
}

// Makes all orders of session i.
fn run_at<R: Wait>(
    rt: &R,
    turns: &[Turn<Register>],
    scripts: &[Vec<ShelfOrder>],
    i: usize,
    session: &mut ShelfSession,
)
    requires inside { i < length scripts.now }
    requires places { All (λ s. AreWithin (length turns.now) s.items) scripts.now }
    requires ready { (session.old.number ≡ i) × IsReady (map lock_id turns.now) (items_at scripts.now i) session.old }
    ensures { (session.new.number ≡ i) × IsDone (map lock_id turns.now) (items_at scripts.now i) session.new }
{
    run_session(rt, turns, scripts[i].as_slice(), session);
}

// Makes all orders of all sessions, in at most `workers` threads.
fn run_all<R: Threads + Wait + Sync>(
    rt: &R,
    turns: &[Turn<Register>],
    scripts: &[Vec<ShelfOrder>],
    workers: usize,
    sessions: &mut [ShelfSession],
)
    requires workers { 0 < workers }
    requires places { All (λ s. AreWithin (length turns.now) s.items) scripts.now }
    requires count { length sessions.old ≡ length scripts.now }
    requires ready { AreReady (map lock_id turns.now) scripts.now sessions.old }
    ensures { AreDone (map lock_id turns.now) scripts.now sessions.new }
{
    thread::for_each_mut(
        rt,
        sessions,
        workers,
        &|i, session| run_at(rt, turns, scripts, i, session),
    );
}

// Closes the locks, the last one first.
fn close_all(
    alloc: Global,
    mut turns: Vec<Turn<Register>>,
    scripts: &[Vec<ShelfOrder>],
    sessions: &mut [ShelfSession],
) -> Result<Vec<Vec<RegisterEntry>>, AllocError>
    requires new { All (IsNew (length sessions.old)) turns.items }
    requires done { AreDone (map lock_id turns.items) scripts.now sessions.old }
    ensures count { IfOk result (λ v. length v.items ≡ length turns.items) }
    ensures journals { IfOk result (λ v. AreJournals scripts.now sessions.old (length turns.items) v.items) }
    ensures same { OnOk result (KeepReplies sessions.old sessions.new) }
{
    let Some(turn) = turns.pop() else {
        return Ok(Vec::new(alloc));
    };
    let passes = take_back(alloc, sessions)?;
    let journal = turn.close(passes).into_journal();
    let mut journals = close_all(alloc, turns, scripts, sessions)?;
    journals.push(journal)?;
    Ok(journals)
}

/// The journal of each register, and the replies of each caller, in the order of its script.
#[derive(Drop)]
pub struct ShelfRan {
    pub journals: Vec<Vec<RegisterEntry>>,
    pub replies: Vec<Vec<u64>>,
}

fn replies_of(alloc: Global, sessions: Vec<ShelfSession>) -> Result<Vec<Vec<u64>>, AllocError>
    ensures { IfOk result (λ v. v.items ≡ map (λ s. s.replies) sessions.items) }
{
    let mut all = Vec::new(alloc);
    for session in sessions {
        let ShelfSession { replies, .. } = session;
        all.push(replies)?;
    }
    Ok(all)
}

// The locks, and the sessions with a pass of each.
fn shelved(
    alloc: Global,
    scripts: &[Vec<ShelfOrder>],
    places: usize,
) -> Result<(Vec<Turn<Register>>, Vec<ShelfSession>), AllocError>
    requires few { length scripts.now < 2 ^ 32 }
    requires small { sum_by vec_len scripts.now < 2 ^ 32 }
    ensures places { IfOk result (λ r. length r.0.items ≡ places) }
    ensures count { IfOk result (λ r. length r.1.items ≡ length scripts.now) }
    ensures ready { IfOk result (λ r. AreReady (map lock_id r.0.items) scripts.now r.1.items) }
    ensures new { IfOk result (λ r. All (IsNew (length scripts.now)) r.0.items) }
{
    let mut sessions = stools(alloc, scripts)?;
    let turns = shelve(alloc, scripts, places, sessions.as_mut_slice())?;
    Ok((turns, sessions))
}

// Makes all orders of all sessions.
fn run_each<R: Threads + Wait + Sync>(
    rt: &R,
    turns: &[Turn<Register>],
    scripts: &[Vec<ShelfOrder>],
    workers: usize,
    mut sessions: Vec<ShelfSession>,
) -> Vec<ShelfSession>
    requires workers { 0 < workers }
    requires places { All (λ s. AreWithin (length turns.now) s.items) scripts.now }
    requires count { length sessions.items ≡ length scripts.now }
    requires ready { AreReady (map lock_id turns.now) scripts.now sessions.items }
    ensures count { length result.items ≡ length scripts.now }
    ensures done { AreDone (map lock_id turns.now) scripts.now result.items }
{
    run_all(rt, turns, scripts, workers, sessions.as_mut_slice());
    sessions
}

// The journals, and the sessions with their replies.
fn closed(
    alloc: Global,
    turns: Vec<Turn<Register>>,
    scripts: &[Vec<ShelfOrder>],
    mut sessions: Vec<ShelfSession>,
) -> Result<(Vec<Vec<RegisterEntry>>, Vec<ShelfSession>), AllocError>
    requires new { All (IsNew (length sessions.items)) turns.items }
    requires done { AreDone (map lock_id turns.items) scripts.now sessions.items }
    ensures count { IfOk result (λ r. length r.0.items ≡ length turns.items) }
    ensures journals { IfOk result (λ r. AreJournals scripts.now sessions.items (length turns.items) r.0.items) }
    ensures kept { IfOk result (λ r. length r.1.items ≡ length sessions.items) }
    ensures same { IfOk result (λ r. KeepReplies sessions.items r.1.items) }
{
    let journals = close_all(alloc, turns, scripts, sessions.as_mut_slice())?;
    Ok((journals, sessions))
}

/// Runs all scripts concurrently, script `q` as caller `q` of registers with a lock around each, in
/// at most `workers` threads.
///
/// A single thread could have made each register's journal (`legal`). The entries of each caller
/// there are its orders for this register, in order, with its replies (`replies`). The journals of
/// two registers aren't ordered against each other.
pub fn run_shelf<R: Threads + Wait + Sync>(
    rt: &R,
    alloc: Global,
    scripts: &[Vec<ShelfOrder>],
    places: usize,
    workers: usize,
) -> Result<ShelfRan, AllocError>
    requires workers { 0 < workers }
    requires few { length scripts.now < 2 ^ 32 }
    requires small { sum_by vec_len scripts.now < 2 ^ 32 }
    requires places { All (λ s. AreWithin places s.items) scripts.now }
    ensures count { IfOk result (λ r. length r.journals.items ≡ places) }
    ensures journals { IfOk result (λ r. AreShelfJournals places scripts.now r.journals.items r.replies.items) }
    ensures each_answered { IfOk result (λ r. AreAnswered scripts.now r.replies.items) }
{
    let (turns, ready) = shelved(alloc, scripts, places)?;
    let done = run_each(rt, turns.as_slice(), scripts, workers, ready);
    let (journals, sessions) = closed(alloc, turns, scripts, done)?;
    let replies = replies_of(alloc, sessions)?;
    Ok(ShelfRan { journals, replies })
}
