//! The log of an arena: the groups of the lanes that count.
ghost use Rattle.std.specs.Prelude.{◌≡◌, ℕ, ◌*◌, ◌/◌, ◌+◌, ◌++◌, ◌^◌, ◌<◌, ◌≤◌, [], IfOk, IfSome, List, OnOk, length, drop};
ghost use Rattle.std.specs.List.{cons_option};
ghost use Rattle.nvd_media.specs.Causes.{HasCause};
ghost use Rattle.arena_layout.specs.Layout.{IsLayout};
ghost use Rattle.arena_check.specs.Check.{in_arena};
ghost use Rattle.arena_open.specs.Halves.{AreInRange, IsInRange};
ghost use Rattle.power_cut.specs.Namespace.{raw_bytes};
ghost use Rattle.namespace_words.specs.Source.{AreBytesOf, HasEnds, Reveals, words_by};
ghost use Rattle.shell_rescue.specs.Rescue.{accepted, counted_group, counted_groups};
ghost use Rattle.shell_rescue.specs.Reading.{IsLogRead};

use arena_check::{BadWords, Finding};
use arena_layout::Layout;
use flog::{FlogFault, Group, read_group};
use namespace_words::{log_group, read_extent};
use nvd_media::{Failed, ImageSource};
use nvd_words::Items;
use power_cut::SetExtent;
use shell_check::flog_findings;
use std::alloc::{AllocError, Global};

/// What was read of an arena's log.
#[derive(Drop)]
pub(crate) struct LogRead {
    /// The current halves of the lanes that count: their groups are accepted, and have no bad word.
    pub groups: Items<Group>,
    /// A finding for each lane whose group is refused.
    pub findings: Items<Finding>,
}

/// Returns a group if it was accepted.
fn accepted(group: Result<Group, FlogFault>) -> Option<Group>
    ensures { result ≡ accepted group }
{
    match group {
        Ok(group) => Some(group),
        Err(_) => None,
    }
}

/// Returns a lane's group if it is accepted and has no bad word, from the bytes of the log of the
/// arena whose first word is `at`.
fn lane_group<B: BadWords>(
    log: &[u8],
    layout: &Layout,
    bad: &B,
    at: u64,
    lane: u32,
) -> Option<Group>
    requires layout { IsLayout layout.now }
    requires inside { at + layout.now.size / 8 ≤ 2 ^ 61 }
    requires long { length log.now ≡ 64 * layout.now.lanes }
    requires lane { lane < layout.now.lanes }
    ensures told { (words : List ℕ) → AreBytesOf words (layout.now.flog_off / 8) log.now
        → result ≡ counted_group layout.now (in_arena at (B.bad bad.now)) words lane }
    ensures in_range { IfSome result (λ group. IsInRange layout.now.external group.half) }
{
    let first = at + layout.flog_off / 8 + 8 * u64::from(lane);
    if bad.any_bad(first, 8) {
        return None;
    }
    accepted(read_group(&log_group(log, lane), layout.external, layout.internal))
}

/// Appends a group, if there is one.
fn push_group(groups: &mut Items<Group>, group: Option<Group>) -> Result<(), AllocError>
    ensures { OnOk result (groups.new ≡ groups.old ++ cons_option group []) }
{
    match group {
        Some(group) => groups.push(group),
        None => Ok(()),
    }
}

/// Returns the groups of the lanes that count, from the bytes of the log of the arena whose first
/// word is `at`.
fn counted_groups<B: BadWords>(
    alloc: Global,
    log: &[u8],
    layout: &Layout,
    bad: &B,
    at: u64,
) -> Result<Items<Group>, AllocError>
    requires layout { IsLayout layout.now }
    requires inside { at + layout.now.size / 8 ≤ 2 ^ 61 }
    requires long { length log.now ≡ 64 * layout.now.lanes }
    ensures told { (words : List ℕ) → AreBytesOf words (layout.now.flog_off / 8) log.now
        → IfOk result (λ groups. groups ≡ counted_groups layout.now (in_arena at (B.bad bad.now)) words) }
    ensures in_range { IfOk result (AreInRange layout.now.external) }
{
    let mut groups = Items::new(alloc);
    for lane in 0..layout.lanes {
        push_group(&mut groups, lane_group(log, layout, bad, at, lane))?;
    }
    Ok(groups)
}

/// Reads a log from its bytes.
fn decode_log<B: BadWords>(
    alloc: Global,
    log: &[u8],
    layout: &Layout,
    bad: &B,
    at: u64,
) -> Result<LogRead, AllocError>
    requires layout { IsLayout layout.now }
    requires inside { at + layout.now.size / 8 ≤ 2 ^ 61 }
    requires long { length log.now ≡ 64 * layout.now.lanes }
    ensures told { (words : List ℕ) → AreBytesOf words (layout.now.flog_off / 8) log.now
        → IfOk result (IsLogRead layout.now (in_arena at (B.bad bad.now)) words) }
    ensures in_range { IfOk result (λ log. AreInRange layout.now.external log.groups) }
{
    let groups = counted_groups(alloc, log, layout, bad, at)?;
    let findings = flog_findings(alloc, log, layout)?;
    Ok(LogRead { groups, findings })
}

/// Reads the log of the arena whose first word is `at`.
pub(crate) fn read_log<S: ImageSource, B: BadWords>(
    alloc: Global,
    images: &mut S,
    extent: &SetExtent<'_>,
    bad: &B,
    at: u64,
    layout: &Layout,
) -> Result<Result<LogRead, AllocError>, Failed>
    requires layout { IsLayout layout.now }
    requires few { raw_bytes extent.now ≤ 2 ^ 55 }
    requires inside { 8 * at + layout.now.size ≤ raw_bytes extent.now }
    requires there { HasEnds (S.held images.old) extent.now.set }
    ensures told { (contents : List (List ℕ)) → Reveals (S.held images.old) extent.now.set contents
        → IfOk result (λ read. IfOk read (IsLogRead layout.now (in_arena at (B.bad bad.now)) (drop at (words_by extent.now contents)))) }
    ensures in_range { IfOk result (λ read. IfOk read (λ log. AreInRange layout.now.external log.groups)) }
    ensures same { S.held images.new ≡ S.held images.old }
    ensures cause { HasCause (S.faults images.old) (S.faults images.new) result }
{
    let Ok(mut room) = vec![in alloc; 0; 64 * layout.lanes as usize] else {
        return Ok(Err(AllocError));
    };
    let log = room.as_mut_slice();
    read_extent(images, extent, 8 * at + layout.flog_off, log)?;
    Ok(decode_log(alloc, log, layout, bad, at))
}
