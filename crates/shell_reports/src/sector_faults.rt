//! The texts of why an arena isn't opened.
ghost use Rattle.std.specs.Prelude.{◌≡◌, ◌≢◌, IfOk, string_bytes};
ghost use Rattle.shell_reports.specs.Saved.{outcome_of};
ghost use Rattle.shell_reports.specs.Faults.{arena_outcome, block_text, field_text, flog_text, info_fault_text, info_text, open_refused_text};

use crate::{Report, image_answer};
use arena_layout::{InfoFault, LayoutField};
use arena_open::{ChainRefused, OpenRefused};
use flog::FlogFault;
use map_table::BlockFault;
use std::alloc::{AllocError, Global};
use uuid::Uuid;

/// The name of a part of the layout relation.
fn field_text(field: LayoutField) -> &'static str
    ensures { result.now ≡ field_text field }
{
    match field {
        LayoutField::Sector => "Sector",
        LayoutField::Inner => "Inner",
        LayoutField::Free => "Free",
        LayoutField::Blocks => "Blocks",
        LayoutField::Areas => "Areas",
        LayoutField::Size => "Size",
        LayoutField::Next => "Next",
    }
}

/// Returns the text of a fault of an info block or of its backup.
pub fn info_fault_text(alloc: Global, fault: InfoFault) -> Result<String, AllocError>
    ensures { IfOk result (λ text. string_bytes text ≡ info_fault_text fault) }
{
    match fault {
        InfoFault::Signature => String::from_str(alloc, "Signature"),
        InfoFault::Checksum => String::from_str(alloc, "Checksum"),
        InfoFault::Version { major, minor } => format!(in alloc; "Version {} {}", major, minor),
        InfoFault::Parent => String::from_str(alloc, "Parent"),
        InfoFault::ErrorState => String::from_str(alloc, "ErrorState"),
        InfoFault::Layout { field } => format!(in alloc; "Layout {}", field_text(field)),
    }
}

/// Returns the text of an info block's fault, with the block's name.
fn info_text(alloc: Global, fault: InfoFault) -> Result<String, AllocError>
    ensures { IfOk result (λ text. string_bytes text ≡ info_text fault) }
{
    let fault = info_fault_text(alloc, fault)?;
    format!(in alloc; "Info {}", fault)
}

/// Returns the text of a log group's fault.
pub fn flog_text(alloc: Global, lane: u32, fault: FlogFault) -> Result<String, AllocError>
    ensures { IfOk result (λ text. string_bytes text ≡ flog_text lane fault) }
{
    match fault {
        FlogFault::Padding => format!(in alloc; "Flog {} Padding", lane),
        FlogFault::Sequences { a, b } => format!(in alloc; "Flog {} Sequences {} {}", lane, a, b),
        FlogFault::Range { value } => format!(in alloc; "Flog {} Range {}", lane, value),
    }
}

/// Returns the text of a fault of the blocks. Out of memory isn't a finding.
fn block_text(alloc: Global, fault: BlockFault) -> Result<String, AllocError>
    ensures text { IfOk result (λ text. string_bytes text ≡ block_text fault) }
    ensures finding { IfOk result (λ _. fault ≢ BlockFault.OutOfMemory) }
{
    match fault {
        BlockFault::Range { block } => format!(in alloc; "Block Range {}", block),
        BlockFault::Twice { block } => format!(in alloc; "Block Twice {}", block),
        BlockFault::Count { said, had } => format!(in alloc; "Block Count {} {}", said, had),
        BlockFault::OutOfMemory => Err(AllocError),
    }
}

/// Returns the text of why an arena isn't opened. Power wasn't cut. Out of memory isn't a finding.
fn open_refused_text(alloc: Global, refused: OpenRefused) -> Result<String, AllocError>
    requires { refused ≢ OpenRefused.PowerCut }
    ensures text { IfOk result (λ text. string_bytes text ≡ open_refused_text refused) }
    ensures finding { IfOk result (λ _. refused ≢ OpenRefused.OutOfMemory) }
{
    match refused {
        OpenRefused::Info(fault) => info_text(alloc, fault),
        OpenRefused::Flog { lane, fault } => flog_text(alloc, lane, fault),
        OpenRefused::Block(fault) => block_text(alloc, fault),
        OpenRefused::PowerCut => unreachable!(),
        OpenRefused::OutOfMemory => Err(AllocError),
    }
}

/// The answer on a namespace whose arenas aren't opened. Power wasn't cut. Out of memory isn't a finding.
pub fn arena_answer(alloc: Global, uuid: &Uuid, refused: ChainRefused) -> Result<Report, AllocError>
    requires { refused.fault ≢ OpenRefused.PowerCut }
    ensures text { IfOk result (λ answer. outcome_of answer ≡ arena_outcome uuid.now refused) }
    ensures finding { IfOk result (λ _. refused.fault ≢ OpenRefused.OutOfMemory) }
{
    let fault = open_refused_text(alloc, refused.fault)?;
    Ok(image_answer(format!(in alloc; "image arena {} {} {}\n", uuid, refused.arena, fault)?))
}
