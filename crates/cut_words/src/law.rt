//! Laws about the definitions of this crate. Each is a function that does nothing; its `ensures`
//! states the law.
ghost use Rattle.cut_words.specs.Guarded.{GuardedIsWhole, GuardedSettles};

/// A law: a crash leaves a guarded change complete, or invisible.
///
/// Such a change first writes words that nobody reads yet: it stores all of them before it flushes
/// the first. Then it closes one word, the guard, writes the guarded words in the same way, and
/// opens the guard. The stores of a group may reach the medium in any order, and any of them may be
/// lost. If more than one step is missing at the crash, either only words of the first group
/// differ, or the guard is closed. If one step is missing, that holds, or the change is complete.
/// After the last step it is complete.
pub fn guarded_change_is_whole()
    ensures { GuardedIsWhole }
{}

/// A law: after a guarded change no word is pending and each has its final value, so the next
/// change may follow.
pub fn guarded_change_settles()
    ensures { GuardedSettles }
{}
