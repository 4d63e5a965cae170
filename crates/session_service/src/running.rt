//! A session makes its calls, and all sessions do at once.
ghost use Rattle.std.specs.Prelude.{◌≡◌, ℕ, ◌++◌, ◌^◌, ◌<◌, List, length, true, false, IsTrue};
ghost use Rattle.session_account.specs.Account.{session_at};
ghost use Rattle.session_account.specs.Made as made;
ghost use Rattle.session_account.specs.declared.reply.Reply.{Reply as Replied};
ghost use Rattle.session_account.specs.Parts.{more};
ghost use Rattle.session_script.specs.declared.script.Script.{Script as AnyScript};
ghost use Rattle.session_texts.specs.Texts.{reply_text};
ghost use Rattle.session_service.specs.Runners.{AreEnded, AreRunnersReady, HasAnswer, IsEnded, IsRunnerReady, IsRunning};

use crate::in_threads::for_each;
use crate::lines::make_line;
use crate::resting::rest_session;
use crate::runner::Runner;
use crate::service::Service;
use arena_open::Cell;
use lane_calls::Waiting;
use nvd_media::Gate;
use registry_service::give_back;
use session_account::Reply;
use session_script::{Script, SessionLines};
use session_texts::add_reply;
use std::alloc::Global;
use std::sync::Wait;
use std::thread::Threads;

/// Whether a reply is that power was cut.
fn is_cut(reply: &Reply) -> bool
    ensures { result ≡ made.is_cut reply.now }
{
    matches!(reply, Reply::Cut)
}

/// Keeps the list of the words that a reply has, if it has some.
fn keep_words(last: &mut Vec<u64>, reply: Reply) {
    if let Reply::Value(Cell::Bytes(words)) = reply {
        *last = words.into_vec();
    }
}

/// Adds the line of a reply to the session's text, or notes that memory ran out. The session
/// keeps the list of the reply's words for its next read.
fn add_line(alloc: Global, runner: &mut Runner, reply: Reply)
    requires { runner.old.refused ≡ false }
    ensures same { runner.new ≡ record runner.old { text = runner.new.text; refused = runner.new.refused; words = runner.new.words } }
    ensures said { runner.new.refused ≡ false → runner.new.text.items ≡ runner.old.text.items ++ reply_text reply }
{
    if add_reply(alloc, &reply, &mut runner.text).is_err() {
        runner.refused = true;
    }
    keep_words(&mut runner.words, reply);
}

/// Adds the line of a reply to the session's text. False if the session makes no call more: it was cut, or memory ran out.
fn note<R: Wait>(rt: &R, service: &Service, runner: &mut Runner, reply: Reply) -> bool
    requires { (script : AnyScript) × (q : ℕ) × (replies : List Replied) × HasAnswer service.now script q replies reply runner.old }
    ensures on { IsTrue result → (script : AnyScript) (q : ℕ) (replies : List Replied) → HasAnswer service.now script q replies reply runner.old → IsRunning service.now script q (more replies reply) runner.new }
    ensures ended { result ≡ false → (script : AnyScript) (q : ℕ) (replies : List Replied) → HasAnswer service.now script q replies reply runner.old → IsEnded service.now script q runner.new }
{
    let cut = is_cut(&reply);
    add_line(service.alloc, runner, reply);
    if cut {
        return false;
    }
    let full = runner.refused;
    if full {
        rest_session(rt, service, runner);
        return false;
    }
    true
}

/// Makes the next call of session q. False if it makes no more: it was cut, or memory ran out.
fn next_call<R: Wait, G: Gate>(
    waiting: &Waiting<R, G>,
    service: &Service,
    script: &Script,
    q: usize,
    runner: &mut Runner,
) -> bool
    requires next { (replies : List Replied) × IsRunning service.now script.now q replies runner.old × (length replies < length (session_at script.now q).calls) }
    requires there { q < length script.now.sessions }
    ensures on { IsTrue result → (replies : List Replied) → IsRunning service.now script.now q replies runner.old → (answer : Replied) × IsRunning service.now script.now q (more replies answer) runner.new }
    ensures ended { result ≡ false → IsEnded service.now script.now q runner.new }
{
    let sessions = script.sessions.as_slice();
    let calls = sessions[q].calls.as_slice();
    let session = runner.session.number;
    let call = runner.session.caller.call;
    waiting.gate.enter(session, call);
    let made = make_line(waiting, service, runner, &calls[call as usize]);
    waiting.gate.answered(session, call);
    match made {
        Ok(reply) => note(waiting.rt, service, runner, reply),
        Err(_) => {
            runner.refused = true;
            false
        }
    }
}

/// Gives back what a session has open, after its last call.
fn end_session<R: Wait>(rt: &R, service: &Service, script: &Script, q: usize, runner: &mut Runner)
    requires { (replies : List Replied) × IsRunning service.now script.now q replies runner.old × (length replies ≡ length (session_at script.now q).calls) }
    ensures { IsEnded service.now script.now q runner.new }
{
    rest_session(rt, service, runner);
    let call = runner.session.caller.call;
    give_back(rt, &service.registry.turn, &mut runner.orders, call);
}

/// Makes the calls of session q, one after another, until one is cut or memory runs out, and gives
/// back what it has open after its last call.
pub(crate) fn run_at<R: Wait, G: Gate>(
    rt: &R,
    gate: &G,
    service: &Service,
    script: &Script,
    q: usize,
    runner: &mut Runner,
)
    requires ready { IsRunnerReady service.now script.now q runner.old }
    requires there { q < length script.now.sessions }
    ensures { IsEnded service.now script.now q runner.new }
{
    let waiting = Waiting { rt, gate };
    let sessions = script.sessions.as_slice();
    let calls = sessions[q].calls.len();
    for _call in 0..calls {
        if !next_call(&waiting, service, script, q, runner) {
            return;
        }
    }
    end_session(rt, service, script, q, runner);
}

/// Runs all sessions of a script, in at most `workers` threads, and returns when each has come to
/// its end.
///
/// A session makes its calls one after another. It ends behind its last call, when it gives back
/// what it has open, or at the first that is answered `Cut`. Condition: each session is ready, as
/// `of_namespaces` made it. Then the replies of each, whose lines are its text, agree with its account, whatever the
/// threads did (`AreEnded`); [`close`](crate::close) asks for that.
pub fn run_sessions<R: Threads + Wait + Sync, G: Gate>(
    waiting: &Waiting<R, G>,
    service: &Service,
    script: &Script,
    workers: usize,
    runners: &mut [Runner],
)
    requires workers { 0 < workers }
    requires ready { AreRunnersReady service.now script.now runners.old }
    ensures count { length runners.new ≡ length runners.old }
    ensures ended { AreEnded service.now script.now runners.new }
{
    let rt = waiting.rt;
    let gate = waiting.gate;
    for_each(
        rt,
        runners,
        workers,
        &|q, runner|
            requires ready { IsRunnerReady service.now script.now q runner.old }
            requires there { q < length script.now.sessions }
        { run_at(rt, gate, service, script, q, runner) },
    );
}
