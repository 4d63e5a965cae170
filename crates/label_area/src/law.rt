//! Laws about the definitions of this crate. Each is a function that does nothing; its `ensures`
//! states the law.
ghost use Rattle.label_area.specs.Init.{InitIsWhole};
ghost use Rattle.label_area.specs.Whole.{ReplaceIsWhole, ReplaceSettles};

/// A law: a crash leaves an area as it was before a change, or as after it.
///
/// The change frees a slot or none, and puts a writable label, or none, into a slot that was free.
/// Its steps are: the 32 words of the label, if there is one, are stored and then flushed; the word
/// of the other side's block with Seq is closed and flushed; that block's other words are stored
/// and then flushed; and the word with Seq gets the next Seq and is flushed. If more than one step
/// is missing at the crash, the words show the block and slots from before; if one is missing,
/// those from before or after; if none is missing, those from after. The law requires nothing of
/// the bytes in the free slot or in the other side's block, and doesn't depend on checksums.
///
/// After the last step no word is pending, so another change may follow.
pub fn replace_is_whole()
    ensures whole { ReplaceIsWhole }
    ensures settles { ReplaceSettles }
{}

/// A law: a crash leaves an area without index blocks, an empty area under the first one, or an
/// empty area under the second one.
///
/// The area had no valid block, and none that was refused for its version. First the block of side
/// One is written with Seq 2, then that of side Zero with Seq 3, each as in a change; all slots are
/// free. After a crash the area is refused as `NoIndex` until the first block is complete, then it
/// is an empty area under that block, and in the end an empty area under the second one. If one
/// step of a block is missing, either may be the case.
pub fn init_is_whole()
    ensures { InitIsWhole }
{}
