use cut_words::CutWords;

/// Why a label area is refused.
#[derive(Clone, Copy, Debug, PartialEq, Eq)]
pub enum AreaFault {
    /// No index block is valid, and this is the version of the first side that was refused for its
    /// version.
    Unsupported {
        /// The block's Major field.
        major: u16,
        /// The block's Minor field.
        minor: u16,
    },
    /// No index block is valid, and none was refused for its version.
    NoIndex,
    /// No memory for the area's bytes, its list of free slots or its labels. It says nothing about
    /// the area.
    OutOfMemory,
    /// The area already has a valid index block.
    AlreadyInitialised {
        /// The sequence number of the current block.
        seq: u32,
    },
    /// Power was cut before both index blocks were written.
    PowerCut,
}

/// The words of a label area that wasn't opened, and the fault.
#[derive(Debug, Drop)]
pub struct AreaRefused {
    /// The words that were passed in. They are unchanged, unless power was cut.
    pub words: CutWords,
    /// Why the area was refused.
    pub fault: AreaFault,
}

/// Why a change of labels wasn't made.
#[derive(Clone, Copy, Debug, PartialEq, Eq)]
pub enum ChangeRefused {
    /// There is a label to put, and no slot is free.
    NoSlot,
    /// Power was cut before the change was complete.
    PowerCut,
}
