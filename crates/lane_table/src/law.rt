//! A law about arenas that were closed. The function does nothing; what it ensures is the law.
ghost use Rattle.lane_table.specs.Reopened.{ClosedWordsReopen};

/// A law: after a power loss the words of a closed arena open as that arena. Each sector has its
/// cell at the end of the lanes' history, or the words of a write whose lane stopped between its
/// second log word and its map word.
pub fn closed_words_reopen()
    ensures { ClosedWordsReopen }
{}
