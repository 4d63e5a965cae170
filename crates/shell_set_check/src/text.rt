//! Lines, and how many of them are faults.
ghost use Rattle.std.specs.Prelude.{◌≡◌, ◌++◌, ◌≤◌, OnOk, length, string_bytes};
ghost use Rattle.shell_set_check.specs.Text.{fault_line, faults_in, notice_line};

use std::alloc::{AllocError, Global};

/// Appends the line of a fault.
pub(crate) fn push_fault(alloc: Global, what: &str, text: &mut Vec<u8>) -> Result<(), AllocError>
    ensures { OnOk result (text.new.items ≡ text.old.items ++ fault_line what.now) }
{
    let line = format!(in alloc; "fault {}\n", what)?;
    text.extend_from_slice(line.as_bytes())
}

/// Appends the line of a notice.
pub(crate) fn push_notice(alloc: Global, what: &str, text: &mut Vec<u8>) -> Result<(), AllocError>
    ensures { OnOk result (text.new.items ≡ text.old.items ++ notice_line what.now) }
{
    let line = format!(in alloc; "notice {}\n", what)?;
    text.extend_from_slice(line.as_bytes())
}

/// Returns how many lines begin with an f, as only those of faults do.
pub(crate) fn faults_in(text: &[u8]) -> u64
    ensures { result ≡ faults_in text.now }
{
    let mut begins = true;
    let mut count = 0;
    let mut rest = text;
    while let [byte, others @ ..] = rest {
        if begins && *byte == b'f' {
            count += 1;
        }
        begins = *byte == b'\n';
        rest = others;
    }
    count
}
