//! Laws about the definitions of this crate. Each is a function that does nothing; its `ensures`
//! states the law.
ghost use Rattle.arena_open.specs.Places.{PlacesApart, PlacesInside};
ghost use Rattle.arena_open.specs.Writes.{WritesAreCut, WritesSettle};
ghost use Rattle.arena_open.specs.Format.{FormatCounts};
ghost use Rattle.arena_open.specs.Moves.{RecoveryAgain};

/// A law: no two places of an arena share a word. It follows from the layout relation.
#[tactic(auto, using(crate::proofs::Apart::places_apart))]
pub fn places_are_apart()
    ensures { PlacesApart }
{}

/// A law: every place of an arena lies inside the arena. It follows from the layout relation.
#[tactic(auto, using(crate::proofs::Apart::places_inside))]
pub fn places_are_inside()
    ensures { PlacesInside }
{}

/// A law: after writes in sequence, each stored and flushed before the next, no word is pending.
#[tactic(auto, using(crate::proofs::Written::writes_settle))]
pub fn writes_settle()
    ensures { WritesSettle }
{}

/// A law: after a crash during such writes, some number of them are done, in their order, and the
/// others aren't.
#[tactic(auto, using(crate::proofs::Cuts::writes_cut))]
pub fn writes_are_cut()
    ensures { WritesAreCut }
{}

/// A law: a format takes two steps for each word of the map area, the log area and the two info blocks.
#[tactic(auto, using(crate::proofs::Counts::format_counts))]
pub fn format_takes_two_steps_a_word()
    ensures { FormatCounts }
{}

/// A law: a recovery that is interrupted at any step and run again has the result of an
/// uninterrupted one.
///
/// The words after a crash open as the same arena, with exactly the moves pending that weren't
/// completed.
#[tactic(auto, using(crate::proofs::Again::recovery_again))]
pub fn recovery_runs_again()
    ensures { RecoveryAgain }
{}
