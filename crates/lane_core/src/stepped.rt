use arena_open::Cell;
use nvd_words::Tag;

/// The kinds of step, as Linux's BTT document has them.
#[derive(Clone, Copy, Debug, PartialEq, Eq)]
pub enum Step {
    RttScan,
    DataStore,
    DataKeep,
    LockTake,
    MapLoad,
    FlogAStore,
    FlogAKeep,
    FlogBStore,
    FlogBKeep,
    /// A write entered the history.
    MapStore,
    MapKeep,
    RttSet,
    /// A read looked again; it entered the history if it is `Reading` now.
    MapCheck,
    DataLoad,
    /// A reader word was cleared, to look again.
    RttClear,
}

/// The answer to a call.
#[derive(Debug, Drop)]
pub enum Answer {
    Wrote,
    /// The sector's cell.
    Got(Cell),
}

/// What a step did.
#[derive(Debug, Drop)]
pub enum Stepped {
    /// The lane is idle.
    Nothing,
    Went(Step),
    /// The lane's call is answered. A write is answered by LockFree. A read is answered by
    /// RttClear, or by MapLoad if the entry says zeros or bad; then this step also enters it in the
    /// history.
    Done(Tag, Answer),
}
