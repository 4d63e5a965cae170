//! The labels of a set whose contents stay in the source are read.
ghost use Rattle.std.specs.Prelude.{IfOk};
ghost use Rattle.image_set.specs.Outline.{IsLoadable, IsOutlined};
ghost use Rattle.shell_sectors.specs.Opening.{OpensOutline};

use image_set::{Outline, OutlineRest};
use namespace_areas::open_areas;
use namespace_ops::Registry;
use shell_reports::{Report, open_fault_answer};
use std::alloc::{AllocError, Global};

/// What reading the labels of an outline comes to.
#[derive(Drop)]
pub enum OutlineOpened {
    /// They are read: the registry, and the other parts of the outline.
    Done(Registry, OutlineRest),
    /// The answer that says why they aren't.
    Not(Report),
}

/// Reads the labels of an outline, whose contents can be read later.
///
/// It answers, of these, the first that holds: a region isn't an interleave set; labels of two UUIDs have overlapping extents.
/// The call fails only if memory runs out.
pub fn open_outline(alloc: Global, outline: Outline) -> Result<OutlineOpened, AllocError>
    requires sound { IsOutlined outline }
    requires loadable { IsLoadable outline }
    ensures { IfOk result (OpensOutline outline) }
{
    let Outline {
        nfit,
        nfit_bytes,
        labels,
        sizes,
        bad,
    } = outline;
    let rest = OutlineRest {
        nfit_bytes,
        sizes,
        bad,
    };
    let areas = open_areas(alloc, labels)?;
    match Registry::open_all(alloc, nfit, areas) {
        Ok(registry) => Ok(OutlineOpened::Done(registry, rest)),
        Err(fault) => {
            let report = open_fault_answer(alloc, fault)?;
            Ok(OutlineOpened::Not(report))
        }
    }
}
