//! Findings that are repaired, and those that stay open.
ghost use Rattle.std.specs.Prelude.{◌≡◌, IfOk};
ghost use Rattle.arena_repair.specs.Repair.{open_of, repaired_of};

use crate::page::is_repaired;
use arena_check::{Finding, Report};
use nvd_words::Items;
use std::alloc::{AllocError, Global};

/// The findings of an arena, each in one of two lists, in their order.
#[derive(Drop)]
pub struct Split {
    /// A repair answers these.
    pub repaired: Items<Finding>,
    /// A check after it finds these.
    pub left: Items<Finding>,
}

/// Splits the findings of a report. Without an info block that can be used nothing is repaired.
///
/// It fails only if memory runs out.
pub fn split_report(alloc: Global, report: &Report) -> Result<Split, AllocError>
    ensures repaired { IfOk result (λ split. split.repaired ≡ repaired_of report.now) }
    ensures left { IfOk result (λ split. split.left ≡ open_of report.now) }
{
    let is_usable = report.size.is_some();
    let mut repaired = Items::new(alloc);
    let mut left = Items::new(alloc);
    for finding in report.findings.as_slice() {
        if is_usable && is_repaired(finding) {
            repaired.push(*finding)?;
        } else {
            left.push(*finding)?;
        }
    }
    Ok(Split { repaired, left })
}
