//! The log of an arena: the groups of its lanes, or all that are refused.
ghost use Rattle.std.specs.Prelude.{◌≡◌, ℕ, ◌*◌, ◌/◌, ◌+◌, ◌++◌, ◌^◌, ◌≤◌, [], IfOk, List, OnOk, length, drop};
ghost use Rattle.std.specs.List.{cons_option};
ghost use Rattle.nvd_media.specs.Causes.{HasCause};
ghost use Rattle.arena_layout.specs.Layout.{IsLayout};
ghost use Rattle.arena_check.specs.Check.{flog_findings, group_finding};
ghost use Rattle.arena_open.specs.Halves.{AreInRange};
ghost use Rattle.power_cut.specs.Namespace.{raw_bytes};
ghost use Rattle.namespace_words.specs.Source.{AreBytesOf, HasEnds, Reveals, words_by};
ghost use Rattle.shell_check.specs.Reading.{HasRange, IsLogRead};

use arena_check::Finding;
use arena_layout::Layout;
use arena_open::OpenRefused;
use flog::{FlogFault, Group, read_group};
use namespace_words::{groups_of, log_group, read_extent};
use nvd_media::{Failed, ImageSource};
use nvd_words::Items;
use power_cut::SetExtent;
use std::alloc::{AllocError, Global};

/// What was read of an arena's log.
#[derive(Drop)]
pub(crate) enum LogRead {
    /// The current halves of all lanes.
    Sound(Items<Group>),
    /// A finding for each lane whose group is refused.
    Refused(Items<Finding>),
}

/// Appends a finding if the group of a lane is refused.
fn push_refused(
    findings: &mut Items<Finding>,
    lane: u32,
    group: Result<Group, FlogFault>,
) -> Result<(), AllocError>
    ensures { OnOk result (findings.new ≡ findings.old ++ cons_option (group_finding lane group) []) }
{
    match group {
        Ok(_) => Ok(()),
        Err(fault) => findings.push(Finding::Flog { lane, fault }),
    }
}

/// Returns a finding for each lane whose group is refused, from the bytes of the log.
pub fn flog_findings(
    alloc: Global,
    log: &[u8],
    layout: &Layout,
) -> Result<Items<Finding>, AllocError>
    requires { length log.now ≡ 64 * layout.now.lanes }
    ensures { IfOk result (λ findings. (words : List ℕ) → AreBytesOf words (layout.now.flog_off / 8) log.now → findings ≡ flog_findings layout.now words) }
{
    let mut findings = Items::new(alloc);
    for lane in 0..layout.lanes {
        let group = read_group(&log_group(log, lane), layout.external, layout.internal);
        push_refused(&mut findings, lane, group)?;
    }
    Ok(findings)
}

/// Reads a log from its bytes.
fn decode_log(alloc: Global, log: &[u8], layout: &Layout) -> Result<LogRead, AllocError>
    requires layout { IsLayout layout.now }
    requires long { length log.now ≡ 64 * layout.now.lanes }
    ensures read { IfOk result (λ read. (words : List ℕ) → AreBytesOf words (layout.now.flog_off / 8) log.now → IsLogRead layout.now words read) }
    ensures in_range { IfOk result (HasRange layout.now.external) }
{
    match groups_of(alloc, log, layout) {
        Ok(groups) => Ok(LogRead::Sound(groups)),
        Err(OpenRefused::OutOfMemory) => Err(AllocError),
        Err(_) => Ok(LogRead::Refused(flog_findings(alloc, log, layout)?)),
    }
}

/// Reads the log of the arena whose first word is `at`.
pub(crate) fn read_log<S: ImageSource>(
    alloc: Global,
    images: &mut S,
    extent: &SetExtent<'_>,
    at: u64,
    layout: &Layout,
) -> Result<Result<LogRead, AllocError>, Failed>
    requires layout { IsLayout layout.now }
    requires few { raw_bytes extent.now ≤ 2 ^ 55 }
    requires inside { 8 * at + layout.now.size ≤ raw_bytes extent.now }
    requires there { HasEnds (S.held images.old) extent.now.set }
    ensures told { (contents : List (List ℕ)) → Reveals (S.held images.old) extent.now.set contents → IfOk result (λ read. IfOk read (IsLogRead layout.now (drop at (words_by extent.now contents)))) }
    ensures in_range { IfOk result (λ read. IfOk read (HasRange layout.now.external)) }
    ensures same { S.held images.new ≡ S.held images.old }
    ensures cause { HasCause (S.faults images.old) (S.faults images.new) result }
{
    let Ok(mut room) = vec![in alloc; 0; 64 * layout.lanes as usize] else {
        return Ok(Err(AllocError));
    };
    let log = room.as_mut_slice();
    read_extent(images, extent, 8 * at + layout.flog_off, log)?;
    Ok(decode_log(alloc, log, layout))
}
