//! The answer of a command that saves nothing.
ghost use Rattle.std.specs.Prelude.{◌≡◌, IfOk, None, string_bytes};
ghost use Rattle.shell_reports.specs.Cut.{done_text};
ghost use Rattle.shell_reports.specs.Outcome.{printed, usage};
ghost use Rattle.shell_reports.specs.Saved.{outcome_of};

use crate::status::Ending;
use std::alloc::{AllocError, Global};

/// How a command ends, and the bytes of its text.
#[derive(Debug, Drop)]
pub struct Report {
    pub ending: Ending,
    pub text: Vec<u8>,
}

/// The answer to words that aren't a command line.
pub fn usage_answer(alloc: Global) -> Result<Report, AllocError>
    ensures { IfOk result (λ answer. outcome_of answer ≡ usage) }
{
    Ok(Report {
        ending: Ending::Usage,
        text: Vec::from_slice(alloc, b"usage\n")?,
    })
}

/// Makes an answer that names a fault of the images.
pub fn image_answer(text: String) -> Report
    ensures { outcome_of result ≡ record { ending = Ending.Image; text = string_bytes text; saved = None } }
{
    Report {
        ending: Ending::Image,
        text: text.into_bytes(),
    }
}

/// The answer of a command that only prints.
pub fn printed_answer(text: Vec<u8>) -> Report
    ensures { outcome_of result ≡ printed text.items }
{
    Report {
        ending: Ending::Done,
        text,
    }
}

/// The answer of a command that changed the set.
pub fn done_answer(alloc: Global) -> Result<Report, AllocError>
    ensures done { IfOk result (λ answer. answer.ending ≡ Ending.Done) }
    ensures text { IfOk result (λ answer. answer.text.items ≡ done_text) }
{
    let text = Vec::from_slice(alloc, b"ok\n")?;
    Ok(Report {
        ending: Ending::Done,
        text,
    })
}
