//! The labels of an outline are read and recovered.
ghost use Rattle.std.specs.Prelude.{◌≡◌, [], false, IfOk};
ghost use Rattle.image_set.specs.Outline.{IsLoadable, IsOutlined};
ghost use Rattle.shell_serve.specs.Recovered.{IsRecovery, RecoversIn};

use cut_words::{Fuse, PowerCut};
use image_set::{Outline, OutlineRest};
use namespace_ops::Registry;
use shell_reports::Report;
use shell_sectors::{OutlineOpened, open_outline};
use std::alloc::{AllocError, Global};

/// An outline whose labels are recovered.
#[derive(Drop)]
pub(crate) struct RecoveredSet {
    /// The interleave sets and the label areas.
    pub(crate) registry: Registry,
    /// The other parts of the outline.
    pub(crate) rest: OutlineRest,
}

/// What reading and recovering the labels of an outline comes to.
#[derive(Drop)]
pub(crate) enum SetRecovered {
    /// They are recovered.
    Done(RecoveredSet),
    /// The answer that says why they aren't read.
    Not(Report),
}

/// Recovers labels with power that stays on.
fn recover(registry: Registry) -> Registry
    requires running { registry.stopped ≡ false }
    requires first { registry.journal ≡ [] }
    ensures { IsRecovery registry result }
{
    let mut registry = registry;
    match registry.recover(&mut Fuse::none()) {
        Ok(()) => registry,
        Err(PowerCut) => unreachable!(),
    }
}

/// Reads the labels of an outline and recovers them.
///
/// If they aren't read it answers why (`open_outline`). The call fails only if memory runs out.
pub(crate) fn recover_set(alloc: Global, outline: Outline) -> Result<SetRecovered, AllocError>
    requires sound { IsOutlined outline }
    requires loadable { IsLoadable outline }
    ensures { IfOk result (RecoversIn outline) }
{
    match open_outline(alloc, outline)? {
        OutlineOpened::Done(registry, rest) => Ok(SetRecovered::Done(RecoveredSet {
            registry: recover(registry),
            rest,
        })),
        OutlineOpened::Not(report) => Ok(SetRecovered::Not(report)),
    }
}
