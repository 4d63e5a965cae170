//! The laws of the account.
ghost use Rattle.session_account.specs.Claims.{ClaimOpens, OpenIsClaimed, UnclaimCloses};
ghost use Rattle.session_account.specs.Registering.{AnswersMakeEntries, ClaimableBefore, OffIsJournal, OnGrows, OnIsJournal};
ghost use Rattle.session_account.specs.Going.{BeginsSo, CallEnds, CallStops, EndsSo, GoesOn, StandsHere, StopsSo, WritesSame};
ghost use Rattle.session_account.specs.Parts.{AccountsFollow, EntriesKeep, MadeGrows, OpenFollows, SurvivalFollows};
ghost use Rattle.session_account.specs.CutEntries.{JournalsLeaveOthers};
ghost use Rattle.session_account.specs.Recovered.{JournalsRecover};

/// If all locks are closed and each session is done, the sessions' accounts hold.
pub fn accounts_follow()
    ensures { AccountsFollow }
{}

/// Then each state that a core may have after a crash survives by the accounts.
pub fn survival_follows()
    ensures { SurvivalFollows }
{}

/// One reply more is one call more.
pub fn made_grows()
    ensures { MadeGrows }
{}

/// A session that made no call is at its beginning.
pub fn begins_so()
    ensures { BeginsSo }
{}

/// A session goes on by a call that was answered.
pub fn goes_on()
    ensures { GoesOn }
{}

/// A session whose call was cut is done.
pub fn stops_so()
    ensures { StopsSo }
{}

/// A session that made all its calls, and gave back what it had open, is done.
pub fn ends_so()
    ensures { EndsSo }
{}

/// A call stands in the arena of its sector, and in no other.
pub fn stands_here()
    ensures { StandsHere }
{}

/// A write stands as the same, whether it was answered or cut.
pub fn writes_same()
    ensures { WritesSame }
{}

/// A call on a sector that was answered adds its entry to its arena.
pub fn call_ends()
    ensures { CallEnds }
{}

/// One that was cut adds it or doesn't.
pub fn call_stops()
    ensures { CallStops }
{}

/// An entry of the journal leaves the parts of all sessions but its own.
pub fn entries_keep()
    ensures { EntriesKeep }
{}

/// What the registry promises of a call that makes no sectors makes an entry of the journal.
pub fn answers_make_entries()
    ensures { AnswersMakeEntries }
{}

/// A journal grows by an entry for which power lasted.
pub fn on_grows()
    ensures { OnGrows }
{}

/// What a lock keeps of the registry while power is on is a journal, and gives the label areas and their words.
pub fn on_is_journal()
    ensures { OnIsJournal }
{}

/// With the entry in which power was cut, and later ones that all say so, it is one too. Then the label areas hold the words that were
/// stored and flushed until the cut.
pub fn off_is_journal()
    ensures { OffIsJournal }
{}

/// The label areas that a journal left, once recovered, have the namespaces of its end; or those from before or after the command in
/// which power was cut. A command may begin on a namespace that is pending.
pub fn journals_recover()
    ensures { JournalsRecover }
{}

/// The label areas that a journal left have the namespaces of its end; or, if power was cut in a command, those from before it, but for the
/// command's own: that is one of the states of its table in `namespace_laws`. So a cut changes no other namespace, even before
/// recovery.
pub fn journals_leave_others()
    ensures { JournalsLeaveOthers }
{}

/// The namespace that a session's entries leave open is the one that its replies say.
pub fn open_follows()
    ensures { OpenFollows }
{}

/// A claim is one namespace more that a session has open.
pub fn claim_opens()
    ensures { ClaimOpens }
{}

/// Given back, it is one less.
pub fn unclaim_closes()
    ensures { UnclaimCloses }
{}

/// What a session has open is claimed.
pub fn open_is_claimed()
    ensures { OpenIsClaimed }
{}

/// What may be claimed after a command that makes no sectors could be claimed before it.
pub fn claimable_before()
    ensures { ClaimableBefore }
{}
