//! What a submitter may ask for, and the replies.
ghost use Rattle.std.specs.Prelude.{◌≡◌};
ghost use Rattle.bio_queue.specs.Ops.{fits_in, kind_of};

use arena_open::Cell;
use nvd_words::Items;

/// An operation on a sector of the arena.
#[derive(Debug, Drop)]
pub enum Op {
    Read { sector: u32 },
    /// Writes these words, as many as a sector has.
    Write { sector: u32, words: Items<u64> },
}

/// Which of the operations it is. Replies are told apart by it.
#[derive(Clone, Copy, Debug, PartialEq, Eq)]
pub enum OpKind {
    Read,
    Write,
}

/// The reply to an operation.
#[derive(Debug, Drop)]
pub enum OpReply {
    /// The sector was read, and this is its cell.
    Got(Cell),
    /// The words were written.
    Wrote,
}

impl Op {
    pub fn kind(&self) -> OpKind
        ensures { result ≡ kind_of self.now }
    {
        match self {
            Op::Read { .. } => OpKind::Read,
            Op::Write { .. } => OpKind::Write,
        }
    }

    /// Whether it fits an arena with `sectors` sectors of `width` words each: the sector is there,
    /// and a write has as many words.
    pub fn fits_in(&self, sectors: u32, width: usize) -> bool
        ensures { result ≡ fits_in sectors width self.now }
    {
        match self {
            Op::Read { sector } => *sector < sectors,
            Op::Write { sector, words } => *sector < sectors && words.len() == width,
        }
    }
}
