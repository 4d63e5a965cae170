//! The texts of commands that are refused.
ghost use Rattle.std.specs.Prelude.{◌≡◌, ◌≢◌, IfOk, nat_lt, string_bytes};
ghost use Rattle.shell_reports.specs.Faults.{held_text, most_held, range_text, refusal_text, refused_outcome};
ghost use Rattle.shell_reports.specs.Saved.{outcome_of};

use crate::{Ending, Report};
use namespace_map::OpRefused;
use std::alloc::{AllocError, Global};

/// Returns the text of a refusal: its name and its numbers. A power cut has none. Out of memory isn't a finding.
pub fn refusal_text(alloc: Global, refused: OpRefused) -> Result<String, AllocError>
    ensures text { IfOk result (λ text. string_bytes text ≡ refusal_text refused) }
    ensures finding { IfOk result (λ _. refused ≢ OpRefused.OutOfMemory) }
{
    match refused {
        OpRefused::NoSuch => String::from_str(alloc, "NoSuch"),
        OpRefused::Exists => String::from_str(alloc, "Exists"),
        OpRefused::NoRegion { region } => format!(in alloc; "NoRegion {}", region),
        OpRefused::NoSpace { wanted } => format!(in alloc; "NoSpace {}", wanted),
        OpRefused::NoSlot { module } => format!(in alloc; "NoSlot {}", module),
        OpRefused::Busy { claims } => format!(in alloc; "Busy {}", claims),
        OpRefused::NotComplete => String::from_str(alloc, "NotComplete"),
        OpRefused::NotSector => String::from_str(alloc, "NotSector"),
        OpRefused::BadSize { bytes } => format!(in alloc; "BadSize {}", bytes),
        OpRefused::BadName { bytes } => format!(in alloc; "BadName {}", bytes),
        OpRefused::ModuleLabels { module } => format!(in alloc; "ModuleLabels {}", module),
        OpRefused::ReadOnlyLabel { module } => format!(in alloc; "ReadOnlyLabel {}", module),
        OpRefused::PowerCut => Ok(String::new(alloc)),
        OpRefused::OutOfMemory => Err(AllocError),
    }
}

/// The answer of a command that is refused with this text.
pub fn refused_answer(alloc: Global, refusal: &str) -> Result<Report, AllocError>
    ensures { IfOk result (λ answer. outcome_of answer ≡ refused_outcome refusal.now) }
{
    let text = format!(in alloc; "refused {}\n", refusal)?;
    Ok(Report {
        ending: Ending::Refused,
        text: text.into_bytes(),
    })
}

/// The answer of a command on a namespace that has fewer sectors than it names or needs: `Range` with the number of the
/// namespace's sectors. The call fails only if memory runs out.
pub fn range_answer(alloc: Global, sectors: u64) -> Result<Report, AllocError>
    ensures { IfOk result (λ answer. outcome_of answer ≡ refused_outcome (range_text sectors)) }
{
    refused_answer(alloc, &format!(in alloc; "Range {}", sectors)?)
}

/// The most bytes of arenas that a command opens in memory (this project's limit).
const MOST_HELD: u128 = 1 << 30;

/// Returns whether arenas of so many bytes together are too many to be opened in memory.
pub fn is_too_large(bytes: u128) -> bool
    ensures { result ≡ nat_lt most_held bytes }
{
    MOST_HELD < bytes
}

/// The answer of a command whose arenas have too many bytes together: `TooLarge` with their number. The call fails only if memory runs
/// out.
pub fn held_answer(alloc: Global, bytes: u128) -> Result<Report, AllocError>
    ensures { IfOk result (λ answer. outcome_of answer ≡ refused_outcome (held_text bytes)) }
{
    refused_answer(alloc, &format!(in alloc; "TooLarge {}", bytes)?)
}

/// The answer of a command that is refused on namespaces. Power wasn't cut. Out of memory isn't a finding.
pub fn op_refused_answer(alloc: Global, refused: OpRefused) -> Result<Report, AllocError>
    requires { refused ≢ OpRefused.PowerCut }
    ensures text { IfOk result (λ answer. outcome_of answer ≡ refused_outcome (refusal_text refused)) }
    ensures finding { IfOk result (λ _. refused ≢ OpRefused.OutOfMemory) }
{
    let refusal = refusal_text(alloc, refused)?;
    refused_answer(alloc, &refusal)
}
