//! Which block is written again, and that it is written.
ghost use Rattle.std.specs.Prelude.{◌≡◌, ◌≢◌, ◌*◌, ◌≤◌, length, Err, IfOk, IfSome, OnOk, OnErr};
ghost use Rattle.cut_words.specs.Words.{settled};
ghost use Rattle.cut_words.specs.WordBytes.{bytes_of};
ghost use Rattle.label_index.specs.Area.{IsAreaSize};
ghost use Rattle.label_repair.specs.Repair.{predecessor_of, older_block, repair_beside, repair_by, repair_in, repaired_words};

use crate::read::{Reading, bytes_of_words, read_side};
use crate::write::write_alone;
use cut_words::CutWords;
use label_index::{IndexBlock, IndexFault, Side};
use std::alloc::{AllocError, Global};

/// An index block that is written again.
#[derive(Debug, Drop)]
pub struct IndexRepair {
    /// The block that is written: on the damaged side, with the sequence number before the current
    /// one's, and with the same slots free.
    pub block: IndexBlock,
    /// Why the block there was refused. It is never Sequence or OutOfMemory.
    pub fault: IndexFault,
}

/// Returns the sequence number before `seq` on the ring 1, 2, 3, 1.
fn seq_before(seq: u32) -> u32
    requires { 1 ≤ seq }
    ensures { result ≡ predecessor_of seq }
{
    if seq == 1 { 3 } else { seq - 1 }
}

/// Returns the block of the other side, as it was before `now`.
fn older_block(now: IndexBlock) -> IndexBlock
    requires { 1 ≤ now.seq }
    ensures { result ≡ older_block now }
{
    let side = match now.side {
        Side::Zero => Side::One,
        Side::One => Side::Zero,
    };
    IndexBlock {
        side,
        seq: seq_before(now.seq),
        ..now
    }
}

/// Returns the repair of a side that was refused for this fault, beside a valid one.
fn repair_beside(now: IndexBlock, fault: IndexFault) -> Option<IndexRepair>
    requires { 1 ≤ now.seq }
    ensures { result ≡ repair_beside now fault }
{
    match fault {
        IndexFault::Sequence => None,
        _ => Some(IndexRepair {
            block: older_block(now),
            fault,
        }),
    }
}

/// Returns the repair of an area, by the readings of side Zero and of side One.
fn repair_by(a: Reading, b: Reading) -> Option<IndexRepair>
    requires zero { IfOk a (λ block. 1 ≤ block.seq) }
    requires one { IfOk b (λ block. 1 ≤ block.seq) }
    ensures { result ≡ repair_by a b }
{
    match (a, b) {
        (Ok(now), Err(fault)) | (Err(fault), Ok(now)) => repair_beside(now, fault),
        _ => None,
    }
}

/// Returns the repair of an area, if one of its index blocks is to be written again.
fn repair_of(alloc: Global, words: &CutWords) -> Result<Option<IndexRepair>, AllocError>
    requires settled { words.now ≡ settled words.now.kept }
    requires size { IsAreaSize (8 * length words.now.kept) }
    ensures found { IfOk result (λ found. found ≡ repair_in (bytes_of words.now.kept)) }
    ensures finding { IfOk result (λ found. IfSome found (λ repair. repair.fault ≢ IndexFault.OutOfMemory)) }
{
    let bytes = bytes_of_words(alloc, words)?;
    let a = read_side(alloc, &bytes, Side::Zero)?;
    let b = read_side(alloc, &bytes, Side::One)?;
    Ok(repair_by(a, b))
}

/// Writes a damaged index block of a label area again, from the other one, and returns what was
/// written.
///
/// None of the words may be pending, and the area's size must be a multiple of 256 from 1,024 to
/// 1,048,576 bytes. A block is written exactly if its side is refused for a fault other than
/// Sequence, and the other side is valid. It is written on the damaged side, with the sequence
/// number before the valid block's, and with the same slots free. So the valid block stays current
/// ([`crate::repair_keeps_labels`]). After `Ok` no word is pending. If memory runs out, nothing
/// changes.
pub fn repair_area(alloc: Global, words: &mut CutWords) -> Result<Option<IndexRepair>, AllocError>
    requires settled { words.old ≡ settled words.old.kept }
    requires size { IsAreaSize (8 * length words.old.kept) }
    ensures found { IfOk result (λ found. found ≡ repair_in (bytes_of words.old.kept)) }
    ensures finding { IfOk result (λ found. IfSome found (λ repair. repair.fault ≢ IndexFault.OutOfMemory)) }
    ensures repaired { OnOk result (words.new ≡ settled (repaired_words words.old.kept)) }
    ensures unchanged { OnErr result (words.new ≡ words.old) }
    ensures count { length words.new.kept ≡ length words.old.kept }
{
    let found = repair_of(alloc, words)?;
    if let Some(repair) = &found {
        write_alone(words, &repair.block);
    }
    Ok(found)
}
