use crate::phase::Phase;

/// A call on a sector.
#[derive(Debug, Drop)]
pub enum Call {
    Read {
        sector: u32,
    },
    Write {
        sector: u32,
        /// As many as a sector has.
        words: Vec<u64>,
    },
}

/// Why a call doesn't begin.
#[derive(Clone, Copy, Debug, PartialEq, Eq)]
pub enum Begun {
    /// The lane is already in a call.
    LaneBusy { phase: Phase },
    OutOfMemory,
}
