//! The lines of findings.
ghost use Rattle.std.specs.Prelude.{◌≡◌, ◌++◌, ◌∷◌, [], IfOk, OnOk, codes, length, string_bytes};
ghost use Rattle.std.specs.Fmt.{decimal};
ghost use Rattle.shell_reports.specs.Outcome.{joined, lf};
ghost use Rattle.shell_check.specs.Text.{arena_lines, finding_line, finding_text, last_line, left_of, lines_of, repaired_line, repaired_lines};

use arena_check::{Finding, Report};
use arena_repair::split_report;
use shell_reports::{flog_text, info_fault_text};
use std::alloc::{AllocError, Global};

/// Returns the name of a finding and its numbers.
fn finding_text(alloc: Global, finding: Finding) -> Result<String, AllocError>
    ensures { IfOk result (λ text. string_bytes text ≡ finding_text finding) }
{
    match finding {
        Finding::Info { fault } => format!(in alloc; "Info {}", info_fault_text(alloc, fault)?),
        Finding::Backup { fault } => {
            format!(in alloc; "Backup {}", info_fault_text(alloc, fault)?)
        }
        Finding::Unequal => String::from_str(alloc, "Unequal"),
        Finding::Flog { lane, fault } => flog_text(alloc, lane, fault),
        Finding::Range { block } => format!(in alloc; "Range {}", block),
        Finding::Twice { block } => format!(in alloc; "Twice {}", block),
        Finding::Missing { block } => format!(in alloc; "Missing {}", block),
        Finding::BadData { sector } => format!(in alloc; "BadData {}", sector),
        Finding::BadMeta { word } => format!(in alloc; "BadMeta {}", word),
    }
}

/// Returns the line of a finding of arena k, which begins with `head`.
fn finding_line(alloc: Global, head: &str, k: u64, finding: Finding) -> Result<String, AllocError>
    ensures { IfOk result (λ text. string_bytes text ≡ finding_line head.now k finding) }
{
    let text = finding_text(alloc, finding)?;
    format!(in alloc; "{}{} {}\n", head, k, text)
}

/// Returns the line of a finding of arena k that was repaired. It begins with `head`.
fn repaired_line(alloc: Global, head: &str, k: u64, finding: Finding) -> Result<String, AllocError>
    ensures { IfOk result (λ text. string_bytes text ≡ repaired_line head.now k finding) }
{
    let text = finding_text(alloc, finding)?;
    format!(in alloc; "{}{} repaired {}\n", head, k, text)
}

/// Appends the lines of the findings of arena k.
pub fn push_lines(
    alloc: Global,
    head: &str,
    k: u64,
    findings: &[Finding],
    text: &mut Vec<u8>,
) -> Result<(), AllocError>
    ensures { OnOk result (text.new.items ≡ text.old.items ++ lines_of head.now k findings.now) }
{
    for finding in findings {
        let line = finding_line(alloc, head, k, *finding)?;
        text.extend_from_slice(line.as_bytes())?;
    }
    Ok(())
}

/// Appends the lines of the findings of arena k that were repaired.
fn push_repaired(
    alloc: Global,
    head: &str,
    k: u64,
    findings: &[Finding],
    text: &mut Vec<u8>,
) -> Result<(), AllocError>
    ensures { OnOk result (text.new.items ≡ text.old.items ++ repaired_lines head.now k findings.now) }
{
    for finding in findings {
        let line = repaired_line(alloc, head, k, *finding)?;
        text.extend_from_slice(line.as_bytes())?;
    }
    Ok(())
}

/// Appends the lines of arena k, each of which begins with `head`: with a repair, those of the
/// findings that it answers, and then those of the findings that stay open. It returns how many
/// these are.
pub(crate) fn push_report(
    alloc: Global,
    head: &str,
    repair: bool,
    k: u64,
    report: &Report,
    text: &mut Vec<u8>,
) -> Result<u64, AllocError>
    ensures lines { OnOk result (text.new.items ≡ text.old.items ++ arena_lines head.now repair k report.now) }
    ensures count { IfOk result (λ count. count ≡ length (left_of repair report.now).findings) }
{
    if !repair {
        push_lines(alloc, head, k, report.findings.as_slice(), text)?;
        return Ok(report.findings.len() as u64);
    }
    let split = split_report(alloc, report)?;
    push_repaired(alloc, head, k, split.repaired.as_slice(), text)?;
    push_lines(alloc, head, k, split.left.as_slice(), text)?;
    Ok(split.left.len() as u64)
}

/// Returns the last line, after so many findings.
fn last_line(alloc: Global, count: u64) -> Result<String, AllocError>
    ensures { IfOk result (λ text. string_bytes text ≡ last_line count) }
{
    if count == 0 {
        return String::from_str(alloc, "sound\n");
    }
    format!(in alloc; "broken {}\n", count)
}

/// Appends the last line, after so many findings.
pub fn push_last_line(alloc: Global, count: u64, text: &mut Vec<u8>) -> Result<(), AllocError>
    ensures { OnOk result (text.new.items ≡ text.old.items ++ last_line count) }
{
    let line = last_line(alloc, count)?;
    text.extend_from_slice(line.as_bytes())
}
