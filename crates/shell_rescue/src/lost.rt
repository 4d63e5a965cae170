//! The list of what is lost.
ghost use Rattle.std.specs.Prelude.{◌≡◌, ℕ, ◌++◌, Bool, IfOk, List};
ghost use Rattle.shell_reports.specs.Saved.{outcome_of};
ghost use Rattle.shell_rescue.specs.Comes.{ending_after, list_outcome};
ghost use Rattle.shell_rescue.specs.Lost.{last_line};
ghost use Rattle.shell_rescue.specs.Reading.{IsRescued, IsTold};

use crate::chain::Rescued;
use crate::text::{push_last_line, push_missing};
use shell_reports::{Ending, Report};
use std::alloc::{AllocError, Global};

/// Returns how a list ends with so many lost sectors: as images that are refused do, if there is
/// one.
fn ending_after(count: u64) -> Ending
    ensures { result ≡ ending_after count }
{
    if count == 0 {
        Ending::Done
    } else {
        Ending::Image
    }
}

/// Returns the report with these lines, and the last line.
pub(crate) fn lost_report(alloc: Global, count: u64, lines: Vec<u8>) -> Result<Report, AllocError>
    ensures { IfOk result (λ report. outcome_of report ≡ list_outcome count (lines.items ++ last_line count)) }
{
    let mut text = lines;
    push_last_line(alloc, count, &mut text)?;
    Ok(Report {
        ending: ending_after(count),
        text,
    })
}

/// Puts a line for each module without a label before the others, if lines are asked for.
pub(crate) fn with_missing(
    alloc: Global,
    rescued: Rescued,
    listing: bool,
    missing: &[u32],
) -> Result<Rescued, AllocError>
    ensures told { IfOk result (λ r. (bad : ℕ → Bool) (words parent : List ℕ) → IsRescued listing bad words parent rescued → IsTold listing missing.now bad words parent r) }
    ensures arenas { IfOk result (λ r. r.arenas ≡ rescued.arenas) }
{
    if !listing {
        return Ok(rescued);
    }
    let mut text = Vec::new(alloc);
    push_missing(alloc, missing, &mut text)?;
    text.extend_from_slice(&rescued.text)?;
    let Rescued {
        arenas,
        count,
        refused,
        ..
    } = rescued;
    Ok(Rescued {
        arenas,
        text,
        count,
        refused,
    })
}
