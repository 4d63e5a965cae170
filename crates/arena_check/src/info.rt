//! Which info block of an arena is used, and whether the other one agrees with it.
ghost use Rattle.std.specs.Prelude.{◌≡◌, IfSome};
ghost use Rattle.std.specs.Str.{bytes_eq};
ghost use Rattle.arena_layout.specs.Info.{info_reading, IsArenaOf};
ghost use Rattle.arena_check.specs.Check.{info_used, next_of, source_by, or_last, backup_finding};

use crate::finding::Finding;
use arena_layout::{Info, InfoFault, read_info};
use uuid::Uuid;

/// Which info block describes the arena.
#[derive(Clone, Copy, Debug, PartialEq, Eq)]
pub enum InfoSource {
    /// The first one is accepted.
    First { info: Info },
    /// The first one is refused. The namespace's last page is the backup of an arena that ends
    /// there.
    Last { fault: InfoFault, info: Info },
    /// The first one is refused, and nothing can replace it.
    Neither { fault: InfoFault },
}

impl InfoSource {
    /// The info that is used, if there is one.
    pub fn used(&self) -> Option<Info>
        ensures { result ≡ info_used self.now }
    {
        match self {
            InfoSource::First { info } => Some(*info),
            InfoSource::Last { fault: _, info } => Some(*info),
            InfoSource::Neither { fault: _ } => None,
        }
    }

    /// The distance in bytes to the next arena; 0 if there is none, or no info can be used.
    pub fn next(&self) -> u64
        ensures { result ≡ next_of self.now }
    {
        match self {
            InfoSource::First { info } => info.next,
            InfoSource::Last { fault: _, info } => info.next,
            InfoSource::Neither { fault: _ } => 0,
        }
    }
}

/// Chooses for an arena whose first info block is refused.
fn last_info(fault: InfoFault, last: &[u8; 4096], parent: &Uuid, rest: u64) -> InfoSource
    ensures source { result ≡ or_last rest fault (info_reading last.now parent.now rest) }
    ensures sound { IfSome (info_used result) (IsArenaOf parent.now rest) }
{
    match read_info(last, parent, rest) {
        Ok(info) => {
            if info.layout.size == rest {
                InfoSource::Last { fault, info }
            } else {
                InfoSource::Neither { fault }
            }
        }
        Err(_) => InfoSource::Neither { fault },
    }
}

/// Chooses the info block of an arena: the one in its first page, else the one in the namespace's
/// last page if it is that of an arena of exactly `rest` bytes.
///
/// `rest` is the number of bytes from the arena's first byte to the namespace's end. Both pages are
/// read as info blocks of the arena that begins there, in the namespace with the UUID `parent`.
pub fn used_info(first: &[u8; 4096], last: &[u8; 4096], parent: &Uuid, rest: u64) -> InfoSource
    ensures source { result ≡ source_by rest (info_reading first.now parent.now rest) (info_reading last.now parent.now rest) }
    ensures sound { IfSome (info_used result) (IsArenaOf parent.now rest) }
{
    match read_info(first, parent, rest) {
        Ok(info) => InfoSource::First { info },
        Err(fault) => last_info(fault, last, parent, rest),
    }
}

/// Compares an arena's first info block, which is used, with the page at InfoOff.
///
/// It returns Backup if that page isn't accepted, Unequal if it is accepted but differs, else None.
pub fn backup_finding(
    first: &[u8; 4096],
    backup: &[u8; 4096],
    parent: &Uuid,
    rest: u64,
) -> Option<Finding>
    ensures { result ≡ backup_finding (bytes_eq first.now backup.now) (info_reading backup.now parent.now rest) }
{
    match read_info(backup, parent, rest) {
        Err(fault) => Some(Finding::Backup { fault }),
        Ok(_) => {
            if first.as_slice() == backup.as_slice() {
                None
            } else {
                Some(Finding::Unequal)
            }
        }
    }
}
