ghost use Rattle.std.specs.Prelude.{◌≡◌, ◌+◌, ◌*◌, ◌≤◌, ◌^◌, length, IfOk};
ghost use Rattle.nvd_words.specs.Checks.{Answers};
ghost use Rattle.label_index.specs.Area.{IsAreaSize};
ghost use Rattle.label_index.specs.Index.{index_reading};
ghost use Rattle.label_codec.specs.Label.{label_reading};
ghost use Rattle.label_area.specs.Area.{block_in, current_block, no_side, refused_version, slot_bytes};

use crate::fault::AreaFault;
use label_codec::{Label, LabelFault, read_label};
use label_index::{IndexBlock, IndexFault, Side, current, read_index};
use std::alloc::Global;

/// The size of a label slot, in bytes.
const SLOT_SIZE: usize = 256;

/// Returns the fault of a side that was refused for its version.
fn refused_version(read: &Result<IndexBlock, IndexFault>) -> Option<AreaFault>
    ensures { result ≡ refused_version read.now }
{
    match read {
        Err(IndexFault::Version { major, minor }) => Some(AreaFault::Unsupported {
            major: *major,
            minor: *minor,
        }),
        _ => None,
    }
}

/// Returns why an area without a valid side is refused.
fn no_side(a: &Result<IndexBlock, IndexFault>, b: &Result<IndexBlock, IndexFault>) -> AreaFault
    ensures { result ≡ no_side a.now b.now }
{
    refused_version(a)
        .or(refused_version(b))
        .unwrap_or(AreaFault::NoIndex)
}

/// Returns the block of the current side.
fn block_of(
    side: Option<Side>,
    a: Result<IndexBlock, IndexFault>,
    b: Result<IndexBlock, IndexFault>,
) -> Result<IndexBlock, AreaFault>
    ensures { result ≡ current_block side a b }
{
    match (side, a, b) {
        (Some(Side::Zero), Ok(block), _) => Ok(block),
        (Some(Side::One), _, Ok(block)) => Ok(block),
        (_, a, b) => Err(no_side(&a, &b)),
    }
}

/// Returns the current index block of a label area.
///
/// The area's size must be one that a label area may have. The call returns `Unsupported` exactly
/// if no side is valid and one was refused for its version, `NoIndex` exactly if no side is valid
/// and none was. All slots of a returned block lie inside the area.
pub fn current_block(alloc: Global, area: &[u8]) -> Result<IndexBlock, AreaFault>
    requires { IsAreaSize (length area.now) }
    ensures block { Answers AreaFault.OutOfMemory result (block_in area.now) }
    ensures fits { IfOk result (λ block. 2 * block.size + 256 * length block.free ≤ length area.now) }
{
    let a = read_index(alloc, area, Side::Zero);
    if let Err(IndexFault::OutOfMemory) = a {
        return Err(AreaFault::OutOfMemory);
    }
    let b = read_index(alloc, area, Side::One);
    if let Err(IndexFault::OutOfMemory) = b {
        return Err(AreaFault::OutOfMemory);
    }
    block_of(current(&a, &b), a, b)
}

/// Reads the label in a used slot of an area with index blocks of `block_size` bytes.
///
/// The slot must lie inside the area. The call takes no memory.
pub fn read_slot(area: &[u8], block_size: u64, slot: u32) -> Result<Label, LabelFault>
    requires { 2 * block_size + 256 * slot + 256 ≤ length area.now }
    ensures { result ≡ label_reading (slot_bytes area.now block_size slot) slot }
{
    let at = 2 * block_size as usize + SLOT_SIZE * slot as usize;
    let mut bytes = [0; SLOT_SIZE];
    bytes.copy_from_slice(&area[at..at + SLOT_SIZE]);
    read_label(&bytes, slot)
}
