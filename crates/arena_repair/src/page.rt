//! The info block and its backup.
ghost use Rattle.std.specs.Prelude.{◌≡◌, []};
ghost use Rattle.std.specs.List.{cons_option};
ghost use Rattle.arena_repair.specs.Repair.{is_damage, is_repaired, page_by};

use arena_check::{Finding, InfoSource};
use arena_layout::InfoFault;

/// A page of 4,096 bytes that is written over another one. Both are given by their first words,
/// counted from the arena's first one.
#[derive(Clone, Copy, Debug, PartialEq, Eq)]
pub struct PageCopy {
    pub from: u64,
    pub to: u64,
}

/// Returns whether a page that is refused with this fault is damaged. One of another version, parent
/// or layout, or in the error state, is an info block that someone wrote so.
fn is_damage(fault: &InfoFault) -> bool
    ensures { result ≡ is_damage fault.now }
{
    match fault {
        InfoFault::Signature | InfoFault::Checksum => true,
        InfoFault::Version { .. }
        | InfoFault::Parent
        | InfoFault::ErrorState
        | InfoFault::Layout { .. } => false,
    }
}

/// Returns whether a repair answers a finding of an arena of which an info block can be used.
pub(crate) fn is_repaired(finding: &Finding) -> bool
    ensures { result ≡ is_repaired finding.now }
{
    match finding {
        Finding::Info { fault } => is_damage(fault),
        Finding::Backup { .. } | Finding::Unequal | Finding::BadData { .. } => true,
        Finding::Flog { .. }
        | Finding::Range { .. }
        | Finding::Twice { .. }
        | Finding::Missing { .. }
        | Finding::BadMeta { .. } => false,
    }
}

/// Returns which page a repair writes over which other one, if it writes one: the first one over a
/// backup that has a finding, or the backup over a first page that is damaged.
///
/// `finding` is what was found of the info block and its backup.
pub fn page_repair(source: &InfoSource, finding: Option<Finding>) -> Option<PageCopy>
    ensures { result ≡ page_by (cons_option finding []) source.now }
{
    match source {
        InfoSource::First { info } => finding.map(|_| PageCopy {
            from: 0,
            to: info.layout.info_off / 8,
        }),
        InfoSource::Last { fault, info } => {
            if is_damage(fault) {
                Some(PageCopy {
                    from: info.layout.info_off / 8,
                    to: 0,
                })
            } else {
                None
            }
        }
        InfoSource::Neither { .. } => None,
    }
}
