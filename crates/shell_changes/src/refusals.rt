//! What is said of a command that is refused.
ghost use Rattle.std.specs.Prelude.{◌≡◌, ◌≢◌, ℕ, List, None, IfOk};
ghost use Rattle.shell_reports.specs.Faults.{refusal_text, refused_outcome};
ghost use Rattle.shell_reports.specs.List.{open_outcome};
ghost use Rattle.shell_changes.specs.Answers.{outcome_with};

use crate::answer::{Answer, without_set};
use namespace_map::OpRefused;
use namespace_ops::OpenFault;
use shell_reports::{op_refused_answer, open_fault_answer};
use std::alloc::{AllocError, Global};

/// The answer to a command that is refused: nothing is saved. Power wasn't cut. Out of memory is no finding.
pub(crate) fn refusing_answer(alloc: Global, refused: OpRefused) -> Result<Answer, AllocError>
    requires { refused ≢ OpRefused.PowerCut }
    ensures text { IfOk result (λ answer. (contents : List (List ℕ)) → outcome_with answer contents ≡ refused_outcome (refusal_text refused)) }
    ensures memory { IfOk result (λ _. refused ≢ OpRefused.OutOfMemory) }
    ensures saved { IfOk result (λ answer. answer.saved ≡ None) }
{
    let report = op_refused_answer(alloc, refused)?;
    Ok(without_set(report))
}

/// The answer on a set whose namespaces can't be told: nothing is saved. Out of memory is no finding.
pub(crate) fn faulty_answer(alloc: Global, fault: OpenFault) -> Result<Answer, AllocError>
    ensures text { IfOk result (λ answer. (contents : List (List ℕ)) → outcome_with answer contents ≡ open_outcome fault) }
    ensures memory { IfOk result (λ _. fault ≢ OpenFault.OutOfMemory) }
    ensures saved { IfOk result (λ answer. answer.saved ≡ None) }
{
    let report = open_fault_answer(alloc, fault)?;
    Ok(without_set(report))
}
