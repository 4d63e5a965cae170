ghost use Rattle.std.specs.Prelude.{◌≡◌, IfOk, Ok, slice_get};
ghost use Rattle.std.specs.Option.{option_map};
ghost use Rattle.namespace_map.specs.Namespaces.{entry_at, entry_with};
ghost use Rattle.namespace_map.specs.Commands.{is_complete, is_sector};
ghost use Rattle.namespace_areas.specs.Finding.{LiesInSet, found_of};

use crate::{LabelGroups, Regions};
use label_codec::Mode;
use label_set::{Placed, SetStatus, relative_address, status};
use namespace_map::OpRefused;
use uuid::Uuid;

/// A sector namespace that is complete.
#[derive(Clone, Copy, Debug, PartialEq, Eq)]
pub struct Found {
    /// The number of its region.
    pub region: u32,
    /// Its address in each mapping of the region's set, relative to the mapping's start, in bytes.
    pub offset: u64,
    /// Its bytes in each mapping.
    pub raw: u64,
    /// How it is accessed.
    pub mode: Mode,
}

/// Whether labels make a complete namespace.
fn is_complete(status: &SetStatus) -> bool
    ensures { result ≡ is_complete status.now }
{
    match status {
        SetStatus::Complete { .. } => true,
        _ => false,
    }
}

/// Whether a namespace is one of sectors.
fn is_sector(mode: &Mode) -> bool
    ensures { result ≡ is_sector mode.now }
{
    match mode {
        Mode::Sector => true,
        _ => false,
    }
}

/// A sector namespace by all labels of its UUID, which stand by module and slot.
fn found_by(regions: &Regions, labels: &[Placed]) -> Result<Found, OpRefused>
    ensures found { result ≡ found_of regions.now (option_map (entry_with regions.now labels.now) (slice_get labels.now 0)) }
    ensures lies { IfOk result (LiesInSet regions.now) }
    ensures sector { IfOk result (λ found. found.mode ≡ Mode.Sector) }
{
    let Some(first) = labels.first() else {
        return Err(OpRefused::NoSuch);
    };
    let Some((region, set)) = regions.region_of(first) else {
        return Err(OpRefused::NotComplete);
    };
    if !is_complete(&status(set, labels)) {
        return Err(OpRefused::NotComplete);
    }
    let mode = first.label.mode();
    if !is_sector(&mode) {
        return Err(OpRefused::NotSector);
    }
    Ok(Found {
        region,
        offset: relative_address(set, first),
        raw: first.label.raw,
        mode,
    })
}

/// Finds the complete sector namespace of a UUID, by the labels of all modules. It takes no memory, and looks at no other
/// regions than those that have a mapping of the module of the UUID's first label.
///
/// Refusals, of which the first that holds is answered: NoSuch, no label has the UUID; NotComplete, its labels make no
/// complete namespace; NotSector, its mode isn't Sector. What is found lies in its region's set in whole units.
pub fn find(regions: &Regions, groups: &LabelGroups, uuid: &Uuid) -> Result<Found, OpRefused>
    ensures found { result ≡ found_of regions.now (entry_at regions.now groups.now.sorted uuid.now) }
    ensures lies { IfOk result (LiesInSet regions.now) }
    ensures sector { IfOk result (λ found. found.mode ≡ Mode.Sector) }
{
    found_by(regions, groups.group(uuid))
}

/// The first word of a namespace at which an arena stands: an arena of the Block Translation Table version 2.0 begins with
/// the namespace.
///
/// Condition: the mode is Sector.
pub fn first_arena(_mode: &Mode) -> u64
    requires { _mode.now ≡ Mode.Sector }
    ensures { result ≡ 0 }
{
    0
}
