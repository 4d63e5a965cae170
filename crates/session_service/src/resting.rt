//! A session gives back the set of lanes that it keeps.
ghost use Rattle.std.specs.Prelude.{◌≡◌, ℕ, List, None};
ghost use Rattle.session_account.specs.declared.reply.Reply.{Reply};
ghost use Rattle.session_script.specs.declared.script.Script.{Script};
ghost use Rattle.session_service.specs.Runners.{IsAt, KeepsText};

use crate::runner::Runner;
use crate::service::Service;
use lane_calls::rest;
use std::sync::Wait;

/// Gives back the set of lanes that a session keeps, if it keeps one. It does so before an order, before it asks for the power
/// outside a call on a sector, at its end, and if memory runs out: others may wait for the set.
pub(crate) fn rest_session<R: Wait>(rt: &R, service: &Service, runner: &mut Runner)
    requires { (script : Script) × (q : ℕ) × (replies : List Reply) × IsAt service.now script q replies runner.old }
    ensures kept { KeepsText runner.old runner.new }
    ensures held { runner.new.held ≡ runner.old.held }
    ensures at { (script : Script) (q : ℕ) (replies : List Reply) → IsAt service.now script q replies runner.old → IsAt service.now script q replies runner.new }
    ensures rests { runner.new.session.kept ≡ None }
{
    rest(rt, &service.sectors, &mut runner.session);
}
