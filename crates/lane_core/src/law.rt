//! The laws about the steps of lanes. Each is a function that does nothing; what it ensures is the
//! law (`specs/Laws.antt`).
ghost use Rattle.lane_core.specs.History.{SomeMayGo};
ghost use Rattle.lane_core.specs.Parts.{OthersKeepParts, OwnPartIsKnown};
ghost use Rattle.lane_core.specs.Places.{PlacesAreApart};
ghost use Rattle.lane_core.specs.Schedules.{CoreIsHeld, SchedulesStand};
ghost use Rattle.lane_core.specs.Sessions.{OpenReadsMayGo, StepsArePaid, SurvivorsAreCalls};
ghost use Rattle.lane_core.specs.Laws.{CallsAreGivenUp, CutsReopen, DataKeep, DataLoad, DataStore, EachIsNamed, EveryAccount, EveryCut, EveryRun, FlogAKeep, FlogAStore, FlogBKeep, FlogBStore, FormattedIsOpen, LockFree, LockTake, MapCheck, MapKeep, MapLoad, MapLook, MapStore, OneIsCurrent, OpenedIsSound, ReadBegins, RttClear, RttScan, RttSet, UnloggedWritesAreLost, WriteBegins};

/// A law: a write begins in an idle lane.
pub fn write_begins()
    ensures { WriteBegins }
{}

/// A law: a call may be given up in the phase in which it began.
#[tactic(auto, using(crate::proofs::Laws::calls_are_given_up))]
pub fn calls_are_given_up()
    ensures { CallsAreGivenUp }
{}

/// A law: a write looks at a reader word, and begins to scan again if the other lane reads its free
/// block.
pub fn rtt_scan_keeps_the_invariant()
    ensures { RttScan }
{}

/// A law: a word of the call is stored in the free block.
pub fn data_store_keeps_the_invariant()
    ensures { DataStore }
{}

/// A law: a word of the free block is kept.
pub fn data_keep_keeps_the_invariant()
    ensures { DataKeep }
{}

/// A law: the lock of the map word is taken.
pub fn lock_take_keeps_the_invariant()
    ensures { LockTake }
{}

/// A law: the map word is loaded under its lock.
pub fn map_load_keeps_the_invariant()
    ensures { MapLoad }
{}

/// A law: word A of the half that is not current is stored.
pub fn flog_a_store_keeps_the_invariant()
    ensures { FlogAStore }
{}

/// A law: word A is kept.
pub fn flog_a_keep_keeps_the_invariant()
    ensures { FlogAKeep }
{}

/// A law: word B is stored, with the next sequence number.
pub fn flog_b_store_keeps_the_invariant()
    ensures { FlogBStore }
{}

/// A law: word B is kept, and its half is current from then on.
pub fn flog_b_keep_keeps_the_invariant()
    ensures { FlogBKeep }
{}

/// A law: the map word is stored, and the write stands in the history.
pub fn map_store_keeps_the_invariant()
    ensures { MapStore }
{}

/// A law: the map word is kept.
pub fn map_keep_keeps_the_invariant()
    ensures { MapKeep }
{}

/// A law: the lock is given back, and the write is answered.
pub fn lock_free_keeps_the_invariant()
    ensures { LockFree }
{}

/// A law: a read begins in an idle lane.
pub fn read_begins()
    ensures { ReadBegins }
{}

/// A law: a read loads the map word. An entry that says zeros or bad answers it.
#[tactic(auto, using(crate::proofs::Laws::map_look))]
pub fn map_look_keeps_the_invariant()
    ensures { MapLook }
{}

/// A law: a read publishes its block in the reader table.
pub fn rtt_set_keeps_the_invariant()
    ensures { RttSet }
{}

/// A law: a read loads the map word again. If its sector's entry is the same, the read stands in
/// the history.
#[tactic(auto, using(crate::proofs::Laws::map_check))]
pub fn map_check_keeps_the_invariant()
    ensures { MapCheck }
{}

/// A law: a word of the block is loaded.
pub fn data_load_keeps_the_invariant()
    ensures { DataLoad }
{}

/// A law: the reader word is cleared: to look again, or after the last word.
#[tactic(auto, using(crate::proofs::Laws::rtt_clear))]
pub fn rtt_clear_keeps_the_invariant()
    ensures { RttClear }
{}

/// A law: an arena that was opened meets the invariant.
pub fn opened_is_sound()
    ensures { OpenedIsSound }
{}

/// A law: a new arena is an opened one, so these laws aren't empty.
pub fn formatted_is_open()
    ensures { FormattedIsOpen }
{}

/// A law: whatever lanes do in whatever order, the invariant holds.
pub fn every_run_keeps_the_invariant()
    ensures { EveryRun }
{}

/// A law: whatever lanes do after opening, and whenever power is cut, each lane has one current
/// half, opening finds each block once, and each sector has its cell at the history's end or the
/// words of one write in flight.
pub fn every_cut_survives()
    ensures { EveryCut }
{}

/// A law: a lane has one current half at most.
pub fn one_half_is_current()
    ensures { OneIsCurrent }
{}

/// A law: a write whose second log word was never stored does not survive a power cut.
#[tactic(auto, using(crate::proofs::Laws::unlogged_writes_are_lost))]
pub fn unlogged_writes_are_lost()
    ensures { UnloggedWritesAreLost }
{}

/// A law: if the sectors and the lanes name no block twice, they name every block.
pub fn each_block_is_named()
    ensures { EachIsNamed }
{}

/// A law: the state after a crash, once its pending moves are made, meets the invariant again and
/// has the cells that survive.
pub fn cuts_reopen()
    ensures { CutsReopen }
{}

/// A law: without unfinished reads, a legal history has exactly the entries of the lanes' logs, and
/// ends in the seen cells.
#[tactic(auto, using(crate::proofs::Laws::every_account))]
pub fn every_account()
    ensures { EveryAccount }
{}

/// A law: calls that change nothing may be left out of a history. It stays legal and has the same
/// end.
pub fn some_calls_may_be_left_out()
    ensures { SomeMayGo }
{}

/// A law: each place of a state has its own word in the row that shows the state.
#[tactic(auto, using(crate::proofs::Places::places_are_apart))]
pub fn places_are_apart()
    ensures { PlacesAreApart }
{}

/// A law: a lane's phase tells the least number of steps of its call. One step adds at most one. An
/// answered write made at least the least steps of a write, and an answered read those of a read,
/// or it looked once.
pub fn steps_are_paid()
    ensures { StepsArePaid }
{}

/// A law: after a power cut a sector has its cell at the end of the history, or the cell that a
/// call would have left that doesn't stand yet.
pub fn survivors_are_calls()
    ensures { SurvivorsAreCalls }
{}

/// A law: unanswered reads may be left out of a core's history. It stays legal and has the same
/// end.
pub fn open_reads_may_go()
    ensures { OpenReadsMayGo }
{}

/// A law: what a core's own calls do is a function of what it holds, and so is what a step answers.
pub fn a_core_is_what_it_holds()
    ensures { CoreIsHeld }
{}

/// A law: whatever the lanes of an opened arena are asked, in whatever order, the history is legal.
/// It has each answer once, and besides only the entries of running calls that stand. Every state
/// after a power cut opens again.
pub fn schedules_stand()
    ensures { SchedulesStand }
{}

/// A law: the calls and steps of others change neither a session's calls nor its entries.
pub fn others_keep_parts()
    ensures { OthersKeepParts }
{}

/// A law: a session that makes one call at a time knows the lane that is in it, and which entries
/// are its own.
pub fn own_part_is_known()
    ensures { OwnPartIsKnown }
{}
